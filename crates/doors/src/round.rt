//! A round of forty doors: its text, a line for each door, and its image, the records one after the other.

ghost use Rattle.std.specs.Prelude.{◌≡◌, ◌<◌, ◌≤◌, List, length, Some, codes, IfOk, MatchResult};
ghost use Rattle.doors.specs.declared.types.RoundError.TheVariants.{Memory};
ghost use Rattle.doors.specs.Rounds.{Explains, Holds, Round, image_of};

use super::line::parse_door;
use super::record::RECORD;
use super::types::{Door, RoundError, TooManyDoors};
use lines::{Lines, count_lines};
use std::alloc::{AllocError, AllocFailed, Global};
use std::error::Error;
use std::fmt;

// The doors of a round, the bytes of its image, and the places of records there.
const ROUND: usize = 40;

const IMAGE: usize = 1024;

const PLACES: usize = IMAGE / RECORD;

impl fmt::Display for RoundError {
    fn fmt<W: fmt::Write>(&self, f: &mut fmt::Formatter<W>) -> fmt::Result {
        match *self {
            RoundError::Count(count) => write!(f, "a round has 40 lines, and there are {count}"),
            RoundError::Line { number, fault } => write!(f, "line {number}: {fault}"),
            RoundError::Memory => f.pad("there is no memory for the doors"),
        }
    }
}

impl Error for RoundError {}

impl From<AllocFailed<Door>> for RoundError {
    ghost from_gives = { λ _ e. e ≡ Memory };

    fn from(_failed: AllocFailed<Door>) -> RoundError {
        RoundError::Memory
    }
}

impl fmt::Display for TooManyDoors {
    ghost output = { λ _. Some (codes "the doors do not fit into two sectors") };

    fn fmt<W: fmt::Write>(&self, f: &mut fmt::Formatter<W>) -> fmt::Result {
        f.write_str("the doors do not fit into two sectors")
    }
}

impl Error for TooManyDoors {}

/// The forty doors of a round: a line each, ended by LF; the last LF may be missing.
pub fn parse_round(heap: Global, input: &[u8]) -> Result<Vec<Door>, RoundError>
    ensures cases { MatchResult result (λ v. Round input.now v.items) (λ e. Explains input.now e) }
    ensures only { IfOk result (λ v. (ds : List Door) → Round input.now ds → v.items ≡ ds) }
{
    let count = count_lines(input);
    if count != ROUND {
        return Err(RoundError::Count(count));
    }
    let mut doors = Vec::new(heap);
    for line in Lines::new(input) {
        let number = doors.len() + 1;
        let door = parse_door(line).map_err(|fault| RoundError::Line { number, fault })?;
        doors.push(door)?;
    }
    Ok(doors)
}

/// Lays the doors' records into the image, one after the other, and fills up with zero bytes. Where
/// there are more than 42, which do not fit, the image is left as it was.
pub fn lay_round(doors: &[Door], image: &mut [u8; IMAGE]) -> Result<(), TooManyDoors>
    ensures cases { MatchResult result (λ _. (length doors.now ≤ 42) × (image.new ≡ image_of doors.now)) (λ _. (42 < length doors.now) × (image.new ≡ image.old)) }
{
    if doors.len() > PLACES {
        return Err(TooManyDoors);
    }
    image.fill(0);
    // by place, since a proof knows nothing of what chunks_exact_mut lent once the loan is over
    for (i, door) in doors.iter().enumerate() {
        let at = RECORD * i;
        image[at..at + RECORD].copy_from_slice(&door.to_record());
    }
    Ok(())
}

/// The doors of an image, up to the first place that holds none. What `lay_round` laid comes back.
pub fn read_round(heap: Global, image: &[u8; IMAGE]) -> Result<Vec<Door>, AllocError>
    ensures made { IfOk result (λ v. Holds 42 image.now v.items) }
    ensures back { IfOk result (λ v. (ds : List Door) → length ds ≤ 42 → image.now ≡ image_of ds → v.items ≡ ds) }
{
    let mut doors = Vec::new(heap);
    let (chunks, _) = image.as_chunks::<RECORD>();
    let places = &chunks[..PLACES];
    for bytes in places {
        let Some(door) = Door::from_record(*bytes) else {
            break;
        };
        doors.push(door)?;
    }
    Ok(doors)
}

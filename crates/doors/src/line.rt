//! A door's line: `NUMBER BADGE TIME NAME`, with single spaces, nothing before or after.

ghost use Rattle.std.specs.Prelude.{◌≡◌, IfOk, Ok, Some, string_bytes, MatchOption, MatchResult};
ghost use Rattle.doors.specs.Lines.{Field, No, NoDoor, Written, Wrong, line_of, message};

use super::names::{letters_of, take_name};
use super::types::{Door, Fault};
use decimal::{take_number, take_space};
use std::alloc::{AllocError, Global};
use std::error::Error;
use std::fmt;

// The number at the front, within the limits, and what follows the space after it.
fn take_field(s: &[u8], most: usize, low: u64, high: u64) -> Option<(u64, &[u8])>
    ensures { MatchOption result (No (Field most low high) s.now) (λ p. Field most low high s.now p.0 p.1.now) }
{
    let (v, rest) = take_number(s, most, high)?;
    if v < low {
        return None;
    }
    Some((v, take_space(rest)?))
}

/// The door that a line writes, or the first field that is wrong.
pub fn parse_door(line: &[u8]) -> Result<Door, Fault>
    ensures cases { MatchResult result (λ d. Written line.now d) (λ f. Wrong line.now f × NoDoor line.now) }
    ensures only { (d : Door) → Written line.now d → result ≡ Ok d }
{
    let (number, rest) = take_field(line, 5, 1, 65_535).ok_or(Fault::Number)?;
    let (badge, rest) = take_field(rest, 6, 0, 999_999).ok_or(Fault::Badge)?;
    let (time, rest) = take_field(rest, 10, 0, 9_999_999_999).ok_or(Fault::Time)?;
    let name = take_name(rest).ok_or(Fault::Name)?;
    Ok(Door {
        number: number as u16,
        badge: badge as u32,
        time,
        name,
    })
}

// A door is written as its line, with no leading zeros.
impl fmt::Display for Door {
    ghost output = { λ d. Some (line_of d) };

    fn fmt<W: fmt::Write>(&self, f: &mut fmt::Formatter<W>) -> fmt::Result {
        let number = self.number;
        let badge = self.badge;
        let time = self.time;
        let name = letters_of(&self.name);
        write!(f, "{number} {badge} {time} {name}")
    }
}

impl Door {
    /// The door's line again, with no leading zeros.
    #[tactic(auto, using(crate::proofs::Canonical::line_written))]
    pub fn to_line(&self, heap: Global) -> Result<String, AllocError>
        ensures made { IfOk result (λ s. string_bytes s ≡ line_of self.now) }
        ensures written { IfOk result (λ s. Written (string_bytes s) self.now) }
    {
        self.to_string(heap)
    }
}

impl Fault {
    /// What is wrong, for a person.
    pub fn text(self) -> &'static str
        ensures value { result.now ≡ message self }
    {
        match self {
            Fault::Number => "the number is not 1 to 65535, or no space follows it",
            Fault::Badge => "the badge is not 0 to 999999, or no space follows it",
            Fault::Time => "the time is not 0 to 9999999999, or no space follows it",
            Fault::Name => "the name is not 1 to 10 characters of A-Z, a-z, 0-9 and -",
        }
    }
}

impl fmt::Display for Fault {
    ghost output = { λ f. Some (message f) };

    fn fmt<W: fmt::Write>(&self, f: &mut fmt::Formatter<W>) -> fmt::Result {
        f.write_str(self.text())
    }
}

impl Error for Fault {}

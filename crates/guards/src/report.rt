// What is shown of a round, and a round with a door skipped.
ghost use Rattle.std.specs.Prelude.{◌≡◌, ◌-◌, ◌++◌, IfOk, take, drop, string_bytes};
ghost use Rattle.guards.specs.Report.{dumped, kept, opened_shown, sector_shown, verdict};

use copies::{ROUND, SECTOR};
use doors::Door;
use std::alloc::{AllocError, Global};

// The bytes of a row.
const ROW: usize = 32;

/// The door that one wand skips, counted from 1.
pub const SKIPPED: usize = 17;

/// All doors but the one of this number, counted from 1.
pub fn without(heap: Global, doors: &[Door], number: usize) -> Result<Vec<Door>, AllocError>
    ensures { IfOk result (λ v. v.items ≡ take (number - 1) doors.now ++ drop number doors.now) }
{
    let before = doors.iter().take(number.saturating_sub(1));
    let after = doors.iter().skip(number);
    before.chain(after).copied().collect(heap)
}

/// What comparing two copies comes to.
pub fn verdict(same: bool) -> &'static str
    ensures { result.now ≡ verdict same }
{
    if same {
        "the copies are equal"
    } else {
        "the copies differ"
    }
}

// Whether the doors that came back are those that were laid.
fn kept(same: bool) -> &'static str
    ensures { result.now ≡ kept same }
{
    if same {
        "as they were laid"
    } else {
        "NOT as they were laid"
    }
}

/// The doors that a wand gave back: how many, whether they are the same as those that were laid, and their lines.
pub fn opened(heap: Global, doors: &[Door], same: bool) -> Result<String, AllocError>
    ensures { IfOk result (λ s. string_bytes s ≡ opened_shown same doors.now) }
{
    let count = doors.len();
    let outcome = kept(same);
    let mut text = format!(in heap; "opened again: {count} doors, {outcome}:\n")?;
    for door in doors {
        write!(text, "  {door}\n")?;
    }
    Ok(text)
}

// Bytes in rows, in hexadecimal.
fn push_rows(heap: Global, text: &mut String, bytes: &[u8]) -> Result<(), AllocError>
    ensures { IfOk result (λ _. string_bytes text.new ≡ string_bytes text.old ++ dumped bytes.now) }
{
    for row in bytes.chunks(ROW) {
        let row = hexadecimal::encode(heap, row)?;
        write!(text, "  {row}\n")?;
    }
    Ok(())
}

// A sealed sector under a heading with its number.
fn push_sector(
    heap: Global,
    text: &mut String,
    number: usize,
    sector: &[u8],
) -> Result<(), AllocError>
    ensures { IfOk result (λ _. string_bytes text.new ≡ string_bytes text.old ++ sector_shown number sector.now) }
{
    write!(text, "sector {number}, sealed under its number:\n")?;
    push_rows(heap, text, sector)
}

/// The two sealed sectors of a round, each in rows of 32 bytes under a heading with its number.
pub fn sectors(heap: Global, image: &[u8; ROUND]) -> Result<String, AllocError>
    ensures { IfOk result (λ s. string_bytes s ≡ sector_shown 0 (take 512 image.now) ++ sector_shown 1 (drop 512 image.now)) }
{
    let mut text = String::new(heap);
    let (first, second) = image.split_at(SECTOR);
    push_sector(heap, &mut text, 0, first)?;
    push_sector(heap, &mut text, 1, second)?;
    Ok(text)
}

#[cfg(test)]
mod tests {
    use super::*;
    use doors::parse_door;
    use std::test::Fail;

    #[test]
    fn a_door_is_skipped(rt: HostRuntime) -> Result<(), Fail> {
        let first = parse_door(b"1 42 9 A")?;
        let second = parse_door(b"2 42 9 B")?;
        let third = parse_door(b"3 42 9 C")?;
        let doors = [first, second, third];
        let walked = without(rt.alloc(), &doors, 2)?;
        assert!(rt; walked.as_slice() == [first, third].as_slice());
        let walked = without(rt.alloc(), &doors, 4)?;
        assert!(rt; walked.as_slice() == doors.as_slice());
        Ok(())
    }

    #[test]
    fn doors_are_listed(rt: HostRuntime) -> Result<(), Fail> {
        let doors = [parse_door(b"1 42 9 A")?, parse_door(b"65535 0 0 Gate-7")?];
        let text = opened(rt.alloc(), &doors, false)?;
        assert_eq!(rt;
            text.as_str(),
            "opened again: 2 doors, NOT as they were laid:\n  1 42 9 A\n  65535 0 0 Gate-7\n"
        );
        Ok(())
    }

    #[test]
    fn sectors_are_shown_in_rows(rt: HostRuntime) -> Result<(), Fail> {
        let text = sectors(rt.alloc(), &[0xa5; ROUND])?;
        assert!(rt; text.starts_with("sector 0, sealed under its number:\n  a5a5"));
        assert_eq!(rt; text.len(), 2 * (35 + 16 * (2 + 64 + 1)));
        Ok(())
    }
}

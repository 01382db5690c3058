//! A door's record of 24 bytes: the number in 2, the badge in 4, the time in 8, each highest byte
//! first, and the name in 10. An empty place, all zero bytes, is no record, since no number is 0.

ghost use Rattle.std.specs.Prelude.{◌≡◌, ◌+◌, ◌≤◌, take, drop, Some, MatchOption, ◌≢◌};
ghost use Rattle.doors.specs.Records.{Parted, record_bytes};

use super::names::{NAME, is_padded};
use super::types::Door;

// The bytes of a record.
pub(crate) const RECORD: usize = 24;

// N bytes from a place on.
fn part<const N: usize>(bytes: &[u8; RECORD], at: usize) -> [u8; N]
    requires { at + N ≤ 24 }
    ensures { result ≡ take N (drop at bytes.now) }
{
    let mut part = [0; N];
    part.copy_from_slice(&bytes[at..at + N]);
    part
}

// The four fields, whatever they hold.
fn parts(bytes: &[u8; RECORD]) -> (u16, u32, u64, [u8; NAME])
    ensures { Parted result.0 result.1 result.2 result.3 bytes.now }
{
    (
        u16::from_be_bytes(part(bytes, 0)),
        u32::from_be_bytes(part(bytes, 2)),
        u64::from_be_bytes(part(bytes, 6)),
        part(bytes, 14),
    )
}

// named as u64's to_be_bytes and from_be_bytes are: a From and a TryFrom would not say that the bytes are a record's
impl Door {
    /// The door's record.
    #[tactic(auto, unfolding(crate::specs::Records::laid))]
    pub fn to_record(&self) -> [u8; RECORD]
        ensures value { result ≡ record_bytes self.now }
    {
        let mut bytes = [0; RECORD];
        bytes[0..2].copy_from_slice(&self.number.to_be_bytes());
        bytes[2..6].copy_from_slice(&self.badge.to_be_bytes());
        bytes[6..14].copy_from_slice(&self.time.to_be_bytes());
        bytes[14..].copy_from_slice(&self.name);
        bytes
    }

    /// The door of a record; `None` where the bytes are no door's.
    pub fn from_record(bytes: [u8; RECORD]) -> Option<Door>
        ensures cases { MatchOption result ((d : Door) → record_bytes d ≢ bytes) (λ d. record_bytes d ≡ bytes) }
        ensures back { (d : Door) → record_bytes d ≡ bytes → result ≡ Some d }
    {
        let (number, badge, time, name) = parts(&bytes);
        if number == 0 || badge > 999_999 || time > 9_999_999_999 {
            return None;
        }
        if name[0] == 0 || !is_padded(&name) {
            return None;
        }
        Some(Door {
            number,
            badge,
            time,
            name,
        })
    }
}

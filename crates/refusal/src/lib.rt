// Why a call is turned down. One enum serves every crate; `number` gives what buyers' forms and programs print.
#![tactic(auto)]

ghost use Rattle.std.specs.Prelude.{◌≡◌};
ghost use Rattle.refusal.specs.Refusals.{number_of};

use std::error::Error;
use std::fmt;

// The numbers are those of `number_of` in specs/.
#[derive(Clone, Copy, PartialEq, Eq, Debug)]
pub enum Refusal {
    // the mode does not permit the length
    Length = 1,
    // the buffer is not one sector
    Buffer = 2,
    // there is no such sector
    Absent = 3,
    // not a sector size
    Size = 4,
    // the card is not of 16 bytes
    NotACard = 5,
    // the second card equals the first
    SameCard = 6,
    // the sector's life is 0
    Worn = 7,
    // a layer's mode turns down the sector's length
    Layer = 9,
}

impl Refusal {
    pub fn number(self) -> u8
        ensures { result ≡ number_of self }
    {
        self as u8
    }

    // The reason, for people.
    fn reason(self) -> &'static str {
        match self {
            Refusal::Length => "the mode does not permit the length",
            Refusal::Buffer => "the buffer is not one sector",
            Refusal::Absent => "there is no such sector",
            Refusal::Size => "not a sector size",
            Refusal::NotACard => "the card is not of 16 bytes",
            Refusal::SameCard => "the second card equals the first",
            Refusal::Worn => "the sector's life is 0",
            Refusal::Layer => "a layer's mode turns down the sector's length",
        }
    }
}

impl fmt::Display for Refusal {
    fn fmt<W: fmt::Write>(&self, f: &mut fmt::Formatter<W>) -> fmt::Result {
        let number = self.number();
        let reason = self.reason();
        write!(f, "refused, {number}: {reason}")
    }
}

impl Error for Refusal {}

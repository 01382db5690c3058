//! A touched door, its record of 24 bytes, and a guard's round of forty doors.
#![tactic(auto)]

mod line;
mod names;
mod record;
mod round;
mod types;

pub use line::parse_door;
pub use round::{lay_round, parse_round, read_round};
pub use types::{Door, Fault, RoundError, TooManyDoors};

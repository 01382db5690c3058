//! What a door is, and what can be wrong with a line. Every `Door` is within its limits.

ghost use Rattle.std.specs.Prelude.{◌≡◌, ◌≤◌, true, length, slice_index};
ghost use Rattle.doors.specs.Names.{padded};

use super::names::NAME;

/// A door that a guard touched.
#[derive(Clone, Copy, PartialEq, Eq)]
pub struct Door {
    /// 1 to 65,535.
    pub number: u16,
    /// The guard's, at most 999,999.
    pub badge: u32,
    /// Seconds since 1970-01-01 UTC, at most 9,999,999,999.
    pub time: u64,
    /// 1 to 10 characters, filled up with zero bytes.
    pub name: [u8; NAME],
    ghost numbered: { (1 ≤ number) × (number ≤ 65535) },
    ghost badged: { badge ≤ 999999 },
    ghost timed: { time ≤ 9999999999 },
    ghost long: { length name ≡ 10 },
    ghost some: { 1 ≤ slice_index name 0 },
    ghost named: { padded name ≡ true },
}

/// The first field of a line that is wrong, or that is not followed as it should be.
#[derive(Clone, Copy, PartialEq, Eq, Debug)]
pub enum Fault {
    Number,
    Badge,
    Time,
    Name,
}

/// Why a text is no round.
#[derive(Clone, Copy, PartialEq, Eq, Debug)]
pub enum RoundError {
    /// There are not forty lines, but so many.
    Count(usize),
    /// The first line that is no door, its number counted from 1, and what is wrong with it.
    Line { number: usize, fault: Fault },
    /// There is no memory for the doors.
    Memory,
}

/// There are more doors than an image has places for.
#[derive(Clone, Copy, PartialEq, Eq, Debug)]
pub struct TooManyDoors;

// A guard's round in the two sectors of a wand: sealing and opening them in memory, and comparing two sealed copies without a key.
#![tactic(auto)]

ghost use Rattle.std.specs.Prelude.{◌≡◌, true, false, ◌≢◌};
ghost use Rattle.copies.specs.Copies.{Matches, book_of, copy};
ghost use Rattle.refusal.specs.Refusals.{answer};

use block::sector_tweak;
use mode::Mode;
use refusal::Refusal;

// The bytes of a sector, and of the two sectors of a round.
pub const SECTOR: usize = 512;

pub const ROUND: usize = 1024;

// Seals the two sectors, each under its number. No length is refused, since 512 bytes are a sector. Sealing and opening stay two calls, as in the
// trait: one over both would be handed the mode's call, and its promise would stand on what that call answers.
pub fn seal_round<M: Mode>(mode: &M, image: &mut [u8; 1024]) -> Result<(), Refusal>
    ensures reply { answer result ≡ 0 }
    ensures bytes { image.new ≡ copy (M.Mode.sealing mode.now) image.old }
{
    mode.seal(sector_tweak(0), &mut image[0..SECTOR])?;
    mode.seal(sector_tweak(1), &mut image[SECTOR..ROUND])
}

// Opens the two sectors, each under its number.
pub fn open_round<M: Mode>(mode: &M, image: &mut [u8; 1024]) -> Result<(), Refusal>
    ensures reply { answer result ≡ 0 }
    ensures bytes { image.new ≡ book_of (M.Mode.sealing mode.now) image.old }
{
    mode.open(sector_tweak(0), &mut image[0..SECTOR])?;
    mode.open(sector_tweak(1), &mut image[SECTOR..ROUND])
}

// Whether two sealed copies are equal; for copies that modes of equal keys sealed, that is whether the two books are.
pub fn same_copies(one: &[u8; 1024], other: &[u8; 1024]) -> bool
    ensures same { result ≡ true → one.now ≡ other.now }
    ensures differ { result ≡ false → one.now ≢ other.now }
    ensures books { Matches one.now other.now result }
{
    *one == *other
}

// A sealing mode: for each tweak and each permitted length, a sealing and an opening function on strings of that length.
#![tactic(auto)]

mod turns;

ghost use Rattle.std.specs.Prelude.{◌≡◌, ℕ, ◌%◌, true, ◌&&◌, length, ◌==◌, nat_le};
ghost use Rattle.mode.specs.Modes.{Alike, Lawful, Sealing, mode_answer, opened_or, permitted, sealed_or, sector_size};
ghost use Rattle.mode.specs.Walks.{walked};
ghost use Rattle.refusal.specs.Refusals.{answer};

use block::{BLOCK, Block, known_bytes, load, store};
use refusal::Refusal;
pub use turns::{Turns, walk_turns};

// A sector size is a multiple of a block from the smallest to the largest.
const SMALLEST_SECTOR: usize = 32;

const LARGEST_SECTOR: usize = 4096;

pub trait Mode {
    ghost sealing: { Self → Sealing };

    // Seals the text in place, or refuses its length and leaves it as it was.
    fn seal(&self, tweak: Block, text: &mut [u8]) -> Result<(), Refusal>
        ensures reply { answer result ≡ mode_answer (length text.old) }
        ensures bytes { text.new ≡ sealed_or (sealing self.now) tweak text.old };

    // Opens the text in place, or refuses its length and leaves it as it was.
    fn open(&self, tweak: Block, text: &mut [u8]) -> Result<(), Refusal>
        ensures reply { answer result ≡ mode_answer (length text.old) }
        ensures bytes { text.new ≡ opened_or (sealing self.now) tweak text.old };

    ghost lawful: { (m : Self) → Lawful (sealing m) };
}

// Whether a length is a multiple of a block from the least to the most.
fn is_whole(len: usize, least: usize, most: usize) -> bool
    ensures { result ≡ (len % 16 == 0 && (nat_le least len && nat_le len most)) }
{
    len % BLOCK == 0 && (least..=most).contains(&len)
}

// Whether the modes permit a length.
pub fn permits(len: usize) -> bool
    ensures { result ≡ permitted len }
{
    is_whole(len, 32, 4096)
}

// Whether a length is a sector size; every mode permits a sector size.
pub fn is_sector_size(len: usize) -> bool
    ensures value { result ≡ sector_size len }
    ensures permitted { result ≡ true → permitted len ≡ true }
{
    is_whole(len, SMALLEST_SECTOR, LARGEST_SECTOR)
}

// Opening undoes sealing: the text comes back. Two laws, one a call, as `seal` and `open` are two: a way as a parameter would only choose between them.
pub fn opened_again<M: Mode>(mode: &M, tweak: Block, text: &mut [u8]) -> Result<(), Refusal>
    ensures reply { answer result ≡ mode_answer (length text.old) }
    ensures bytes { text.new ≡ text.old }
{
    known_bytes(text);
    mode.seal(tweak, text)?;
    mode.open(tweak, text)
}

// Sealing undoes opening: the text comes back.
pub fn sealed_again<M: Mode>(mode: &M, tweak: Block, text: &mut [u8]) -> Result<(), Refusal>
    ensures reply { answer result ≡ mode_answer (length text.old) }
    ensures bytes { text.new ≡ text.old }
{
    known_bytes(text);
    mode.open(tweak, text)?;
    mode.seal(tweak, text)
}

// A mode that its keys alone fix.
pub trait Keyed: Mode + Sized {
    type Keys;

    // what keys make
    ghost made: { Self.Keys → Sealing };

    fn from_keys(keys: Self::Keys) -> Self
        ensures { Self.sealing result ≡ made keys };
}

// The modes of two wands, each from its own keys; where the keys are equal, the modes seal alike at every size.
pub fn new_pair<M: Keyed>(keys: M::Keys, keys2: M::Keys) -> (M, M)
    ensures one { M.sealing result.0 ≡ M.made keys }
    ensures other { M.sealing result.1 ≡ M.made keys2 }
    ensures alike { keys ≡ keys2 → (size : ℕ) → Alike size (M.sealing result.0) (M.sealing result.1) }
{
    (M::from_keys(keys), M::from_keys(keys2))
}

// What becomes of the blocks of a text, one after the other: of each in a state, which steps from block to block.
pub trait Walk {
    ghost turned: { Self → ℕ → ℕ → ℕ };

    ghost stepped: { Self → ℕ → ℕ };

    fn turn(&self, state: Block, block: Block) -> Block
        ensures { result ≡ turned self.now state block };

    fn step(&self, state: Block) -> Block
        ensures { result ≡ stepped self.now state };
}

// Each whole block of a text is turned, in place, from the state `start` on.
pub fn walk_blocks<W: Walk>(walk: &W, start: Block, text: &mut [u8])
    ensures { text.new ≡ walked (W.turned walk.now) (W.stepped walk.now) start text.old }
{
    let mut state = start;
    // By index: of what `chunks_mut` lends, std says only how long it is in the end.
    for i in 0..text.len() / BLOCK {
        let at = BLOCK * i;
        let part = &mut text[at..at + BLOCK];
        let block = walk.turn(state, load(part));
        store(part, block);
        state = walk.step(state);
    }
}

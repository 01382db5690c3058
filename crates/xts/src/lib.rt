// XTS (IEEE 1619) on whole blocks, over any cipher and any two keys. The mask of a block is kept as a block and doubled through
// `swap`, since the standard reads it with the lowest byte first; the tweak is sealed under the second key, for opening too.
#![tactic(auto)]

ghost use Rattle.std.specs.Prelude.{◌≡◌, ℕ, length, if◌then◌else◌};
ghost use Rattle.cipher.specs.Made.{opening, sealing};
ghost use Rattle.mode.specs.Modes.{Alike, mode_answer, permitted};
ghost use Rattle.refusal.specs.Refusals.{answer};
ghost use Rattle.xts.specs.Facts.{Undone};
ghost use Rattle.xts.specs.Xts.{blockwise, doubled, masked, meaning, twice, xts};
ghost use Rattle.xts.specs.Laws.{undone};

use block::{Block, swap};
use cipher::Cipher;
use mode::{Keyed, Mode, Walk, permits, walk_blocks};
use refusal::Refusal;

const TOP: u128 = 0x8000_0000_0000_0000_0000_0000_0000_0000;

// Twice n; where the top bit falls out, 0x87 is XORed in.
fn shift(n: u128) -> u128
    ensures { result ≡ twice n }
{
    let low = n % TOP * 2;
    if n >= TOP { low ^ 0x87 } else { low }
}

// The mask of the next block.
#[tactic(auto, unfolding(crate::specs::Xts::doubled))]
pub fn double(mask: Block) -> Block
    ensures { result ≡ doubled mask }
{
    swap(shift(swap(mask)))
}

// One of a cipher's two calls.
trait Call {
    ghost answered: { Self → ℕ → ℕ };

    fn call(&self, block: Block) -> Block
        ensures { result ≡ answered self.now block };
}

#[derive(Drop)]
struct Sealing<'a, C>(&'a C);

#[derive(Drop)]
struct Opening<'a, C>(&'a C);

impl<C: Cipher> Call for Sealing<'_, C> {
    ghost answered = { λ s. sealing C.Cipher s.0.now };

    fn call(&self, block: Block) -> Block {
        self.0.seal(block)
    }
}

impl<C: Cipher> Call for Opening<'_, C> {
    ghost answered = { λ s. opening C.Cipher s.0.now };

    fn call(&self, block: Block) -> Block {
        self.0.open(block)
    }
}

// Each block through a call, under its mask.
#[derive(Drop)]
struct Masked<K> {
    call: K,
}

impl<K: Call> Walk for Masked<K> {
    ghost turned = { λ m. masked (K.answered m.call) };

    ghost stepped = { λ m. doubled };

    fn turn(&self, mask: Block, block: Block) -> Block {
        self.call.call(block ^ mask) ^ mask
    }

    fn step(&self, mask: Block) -> Block {
        double(mask)
    }
}

#[derive(Drop)]
pub struct Xts<C: Cipher> {
    first: C,
    second: C,
}

impl<C: Cipher> Xts<C> {
    pub fn new(first: C::Key, second: C::Key) -> Xts<C>
        ensures { meaning C.Cipher result ≡ xts C.Cipher first second }
    {
        Xts {
            first: C::new(first),
            second: C::new(second),
        }
    }

    // The whole text, each block through the call, or a refusal of its length.
    fn turn_text<K: Call + Drop>(
        &self,
        call: K,
        tweak: Block,
        text: &mut [u8],
    ) -> Result<(), Refusal>
        ensures reply { answer result ≡ mode_answer (length text.old) }
        ensures bytes { text.new ≡ (if permitted (length text.old) then blockwise (K.answered call) (sealing C.Cipher self.now.second tweak) text.old else text.old) }
    {
        if !permits(text.len()) {
            return Err(Refusal::Length);
        }
        let start = self.second.seal(tweak);
        walk_blocks(&Masked { call }, start, text);
        Ok(())
    }
}

impl<C: Cipher> Mode for Xts<C> {
    ghost sealing = { λ m. meaning C.Cipher m };

    ghost lawful = { λ m.
        let k = C.Cipher in
        let first = k.key m.first in
        let second = k.key m.second in
        undone (k.sealed first) (k.opened first) (k.sealed second) (k.opened second) (C.Cipher.undoing first) (C.Cipher.undoing second) };

    fn seal(&self, tweak: Block, text: &mut [u8]) -> Result<(), Refusal> {
        self.turn_text(Sealing(&self.first), tweak, text)
    }

    fn open(&self, tweak: Block, text: &mut [u8]) -> Result<(), Refusal> {
        self.turn_text(Opening(&self.first), tweak, text)
    }
}

impl<C: Cipher> Keyed for Xts<C> {
    // of the blocks, and of the tweak
    type Keys = (C::Key, C::Key);

    ghost made = { λ keys. xts C.Cipher keys.0 keys.1 };

    fn from_keys(keys: (C::Key, C::Key)) -> Self {
        let (first, second) = keys;
        Xts::new(first, second)
    }
}

// XTS over any cipher opens what it sealed and seals what it opened.
#[tactic(auto, using(crate::specs::Laws::undone))]
pub fn xts_stands()
    ensures { Undone }
{}

// `mode::new_pair` by the keys one by one: the modes of two wands, each from its own keys; where the keys are equal, the modes seal alike at every size.
pub fn new_pair<C: Cipher>(
    first: C::Key,
    second: C::Key,
    first2: C::Key,
    second2: C::Key,
) -> (Xts<C>, Xts<C>)
    ensures one { meaning C.Cipher result.0 ≡ xts C.Cipher first second }
    ensures other { meaning C.Cipher result.1 ≡ xts C.Cipher first2 second2 }
    ensures alike { first ≡ first2 → second ≡ second2 → (size : ℕ) → Alike size (meaning C.Cipher result.0) (meaning C.Cipher result.1) }
{
    mode::new_pair((first, second), (first2, second2))
}

// XCB (version 2, on whole blocks) over any cipher, with a tweak of one block. It hashes all but the last block, seals that block with the
// hash into Z, streams from Z over the others, and closes the last block with the hash of the result. Opening is the same way with
// the keys and the frames of the two hashes exchanged, so that one text serves both. The counter is XORed, and starts from 0.
#![tactic(auto)]

ghost use Rattle.std.specs.Prelude.{◌≡◌, ℕ, ◌+◌, ◌-◌, ◌/◌, ◌%◌, ◌^◌, true, length};
ghost use Rattle.cipher.specs.Made.{opening, sealing};
ghost use Rattle.block.specs.Blocks.{blocks_of};
ghost use Rattle.mode.specs.Modes.{Alike, permitted};
ghost use Rattle.xcb.specs.Facts.{Undone};
ghost use Rattle.xcb.specs.Xcb.{LeftBlocks, counted, digest, inner, length_block, meaning, outer, passed, sealing_frames, streamed, xcb};
ghost use Rattle.xcb.specs.Laws.{undone};

use block::{BLOCK, Block, from_bytes, load, store};
use cipher::Cipher;
use field::HashKey;
use mode::{Keyed, Mode, Walk, permits, walk_blocks};
use refusal::Refusal;

// The blocks that stand before and behind the left part where it is hashed.
#[derive(Clone, Copy)]
struct Frame {
    first: u128,
    second: u128,
    last: u128,
}

// The bits of the tweak frame and of the left part of n blocks.
fn lengths(n: usize) -> Block
    ensures { result ≡ length_block n }
{
    256 * 0x1_0000_0000_0000_0000 + 8 * (16 * n as u128)
}

impl Frame {
    // Around the left part as it stands in the plain text.
    fn outer(tweak: Block) -> Frame
        ensures { result ≡ outer tweak }
    {
        Frame {
            first: 0,
            second: tweak,
            last: 0,
        }
    }

    // Around the left part of n blocks as it stands in the sealed text.
    fn inner(tweak: Block, n: usize) -> Frame
        ensures { result ≡ inner tweak n }
    {
        Frame {
            first: tweak,
            second: 0,
            last: lengths(n),
        }
    }

    // The hash of a part's blocks in this frame.
    fn hash(&self, key: &HashKey, part: &[u8]) -> Block
        ensures { result ≡ digest key.now.h self.now (blocks_of (length part.now / 16) part.now) }
    {
        let mut sum = key.absorb(key.absorb(0, self.first), self.second);
        let (blocks, _) = part.as_chunks::<BLOCK>();
        for block in blocks {
            sum = key.absorb(sum, from_bytes(*block));
        }
        key.absorb(sum, self.last)
    }
}

// The frames of the two hashes: of the left part as it was, and of what the stream made of it.
#[derive(Clone, Copy)]
struct Frames {
    before: Frame,
    after: Frame,
}

impl Frames {
    fn to_seal(tweak: Block, n: usize) -> Frames
        ensures { result ≡ sealing_frames tweak n }
    {
        Frames {
            before: Frame::outer(tweak),
            after: Frame::inner(tweak, n),
        }
    }

    fn exchanged(self) -> Frames
        ensures { result ≡ record { before = self.after; after = self.before } }
    {
        Frames {
            before: self.after,
            after: self.before,
        }
    }
}

// The blocks of a text before its last one, or a refusal of its length.
fn left_blocks(text: &[u8]) -> Result<usize, Refusal>
    ensures { LeftBlocks (length text.now) result }
{
    if !permits(text.len()) {
        return Err(Refusal::Length);
    }
    Ok(text.len() / BLOCK - 1)
}

// Block j of the left part, from 0, is XORed with the sealing of z XOR j.
#[derive(Drop)]
struct Stream<'a, C> {
    counter: &'a C,
    z: Block,
}

impl<C: Cipher> Walk for Stream<'_, C> {
    ghost turned = { λ s. counted (sealing C.Cipher s.counter.now) s.z };

    ghost stepped = { λ s j. (j + 1) % 2 ^ 128 };

    fn turn(&self, j: Block, block: Block) -> Block {
        block ^ self.counter.seal(self.z ^ j)
    }

    fn step(&self, j: Block) -> Block {
        j.wrapping_add(1)
    }
}

// Kh with its table, and ciphers under Ke, Kd and Kc.
#[derive(Drop)]
pub struct Xcb<C: Cipher> {
    hash_key: HashKey,
    front: C,
    back: C,
    counter: C,
}

impl<C: Cipher + Drop> Xcb<C> {
    // Draws its four keys from what the key's cipher seals.
    pub fn new(key: C::Key) -> Xcb<C>
        ensures { meaning C.Cipher result ≡ xcb C.Cipher key }
    {
        let cipher = C::new(key);
        Xcb {
            hash_key: HashKey::new(cipher.seal(0)),
            front: C::new(cipher.draw(1)),
            back: C::new(cipher.draw(3)),
            counter: C::new(cipher.draw(5)),
        }
    }
}

impl<C: Cipher> Xcb<C> {
    // The part under the stream of z.
    fn stream(&self, z: Block, part: &mut [u8])
        requires { length part.old % 16 ≡ 0 }
        ensures { part.new ≡ streamed (sealing C.Cipher self.now.counter) z (length part.old / 16) part.old }
    {
        let stream = Stream {
            counter: &self.counter,
            z,
        };
        walk_blocks(&stream, 0, part);
    }

    // The whole way over a text: `front` seals the last block, `back` opens it again at the end.
    fn pass(&self, front: &C, back: &C, frames: Frames, text: &mut [u8])
        requires { permitted (length text.old) ≡ true }
        ensures { text.new ≡ passed (sealing C.Cipher front.now) (opening C.Cipher back.now) (sealing C.Cipher self.now.counter) self.now.hash_key.h frames (length text.old / 16 - 1) text.old }
    {
        let at = text.len() - BLOCK;
        let (left, last) = text.split_at_mut(at);
        let z = front.seal(load(last)) ^ frames.before.hash(&self.hash_key, left);
        self.stream(z, left);
        let w = z ^ frames.after.hash(&self.hash_key, left);
        store(last, back.open(w));
    }
}

impl<C: Cipher> Mode for Xcb<C> {
    ghost sealing = { λ m. meaning C.Cipher m };

    ghost lawful = { λ m.
        let k = C.Cipher in
        let l = C.Cipher.undoing in
        let e = k.key m.front in
        let d = k.key m.back in
        let c = k.key m.counter in
        undone (k.sealed e) (k.opened e) (k.sealed d) (k.opened d) (k.sealed c) (k.opened c) m.hash_key.h (l e) (l d) (l c) };

    fn seal(&self, tweak: Block, text: &mut [u8]) -> Result<(), Refusal> {
        let frames = Frames::to_seal(tweak, left_blocks(text)?);
        self.pass(&self.front, &self.back, frames, text);
        Ok(())
    }

    fn open(&self, tweak: Block, text: &mut [u8]) -> Result<(), Refusal> {
        let frames = Frames::to_seal(tweak, left_blocks(text)?).exchanged();
        self.pass(&self.back, &self.front, frames, text);
        Ok(())
    }
}

impl<C: Cipher + Drop> Keyed for Xcb<C> {
    type Keys = C::Key;

    ghost made = { λ key. xcb C.Cipher key };

    fn from_keys(key: C::Key) -> Self {
        Xcb::new(key)
    }
}

// XCB over any cipher opens what it sealed and seals what it opened.
#[tactic(auto, using(crate::specs::Laws::undone))]
pub fn xcb_stands()
    ensures { Undone }
{}

// `mode::new_pair` for XCB: the modes of two wands, each from its own key; where the keys are equal, the modes seal alike at every size.
pub fn new_pair<C: Cipher + Drop>(key: C::Key, key2: C::Key) -> (Xcb<C>, Xcb<C>)
    ensures one { meaning C.Cipher result.0 ≡ xcb C.Cipher key }
    ensures other { meaning C.Cipher result.1 ≡ xcb C.Cipher key2 }
    ensures alike { key ≡ key2 → (size : ℕ) → Alike size (meaning C.Cipher result.0) (meaning C.Cipher result.1) }
{
    mode::new_pair(key, key2)
}

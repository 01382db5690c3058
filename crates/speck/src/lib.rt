// Speck128/128, as its authors published it: 32 rounds on two words of 64 bits.
#![tactic(auto)]

ghost use Rattle.std.specs.Prelude.{◌≡◌};
ghost use Rattle.keys.specs.Cards.{whole_key};
ghost use Rattle.speck.specs.Facts.{Example, Rounds, Schedule, Undone};
ghost use Rattle.speck.specs.Speck.{block_of, opened, pair_of, round_of, sealed, unround_of};
ghost use Rattle.speck.specs.Laws.{undone};

use block::{Block, swap};
use cipher::Cipher;
use keys::WholeKey;

// One round on the left word and the right word under the round key k.
pub fn round(pair: (u64, u64), k: u64) -> (u64, u64)
    ensures { result ≡ round_of k pair }
{
    let (x, y) = pair;
    let x = x.rotate_right(8).wrapping_add(y) ^ k;
    (x, y.rotate_left(3) ^ x)
}

// The inverse of a round.
pub fn unround(pair: (u64, u64), k: u64) -> (u64, u64)
    ensures { result ≡ unround_of k pair }
{
    let (x, y) = pair;
    let y = (y ^ x).rotate_right(3);
    ((x ^ k).wrapping_sub(y).rotate_left(8), y)
}

// Rounds and whole blocks are undone both ways, under every key; the authors' test vector comes out.
pub fn speck_stands()
    ensures rounds { Rounds }
    ensures undone { Undone }
    ensures example { Example }
{}

// The two words of a block or a key.
fn words(block: Block) -> (u64, u64)
    ensures { result ≡ pair_of block }
{
    let n = swap(block);
    ((n >> 64) as u64, (n % 0x1_0000_0000_0000_0000) as u64)
}

fn joined(pair: (u64, u64)) -> Block
    ensures { result ≡ block_of pair }
{
    let (x, y) = pair;
    swap(u128::from(x) << 64 | u128::from(y))
}

// The round keys, worked out at making, and the key they come from.
#[derive(Drop)]
pub struct Speck128 {
    key: u128,
    keys: [u64; 32],
    ghost expanded: { Schedule key keys },
}

fn expand(key: Block) -> [u64; 32]
    ensures { Schedule key result }
{
    let mut pair = words(key);
    let mut keys = [0; 32];
    for (i, k) in keys.iter_mut().enumerate() {
        *k = pair.1;
        pair = round(pair, i as u64);
    }
    keys
}

impl Cipher for Speck128 {
    type Key = WholeKey;

    ghost sealed = { λ k n. sealed k.value n };

    ghost opened = { λ k n. opened k.value n };

    ghost key = { λ c. whole_key c.key };

    ghost drawn = { λ e i. whole_key (e i) };

    ghost undoing = { λ k. undone k.value };

    fn new(from: WholeKey) -> Self {
        let key = from.into_block();
        Speck128 {
            key,
            keys: expand(key),
        }
    }

    // Sealing and opening go different ways through the keys, by different rounds: what is the same in the two is the `for`.
    fn seal(&self, block: Block) -> Block {
        let mut pair = words(block);
        for k in &self.keys {
            pair = round(pair, *k);
        }
        joined(pair)
    }

    fn open(&self, block: Block) -> Block {
        let mut pair = words(block);
        for k in self.keys.iter().rev() {
            pair = unround(pair, *k);
        }
        joined(pair)
    }

    // The same in every cipher of whole keys, but the trait leaves the key's type open and cannot have it.
    fn draw(&self, i: u8) -> WholeKey {
        WholeKey::without_cards(self.seal(u128::from(i)))
    }
}

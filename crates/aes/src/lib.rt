// AES-128 (FIPS 197), both directions. Opening is the equivalent inverse cipher of the standard: it runs the rounds backwards
// with round keys that went through InvMixColumns, so that both directions go by tables.
#![tactic(auto)]

ghost use Rattle.std.specs.Prelude.{◌≡◌, ℕ, ◌^◌, ◌<◌, slice_index};
ghost use Rattle.aes_math.specs.Rounds.{inv_mix_columns, state_of};
ghost use Rattle.aes.specs.Aes128.{next_key, opened, sealed};
ghost use Rattle.aes.specs.Facts.{Example, Undone, Words};
ghost use Rattle.aes.specs.Schedule.{Expanded, Reversed, cipher_by};
ghost use Rattle.keys.specs.Cards.{whole_key};
ghost use Rattle.aes.specs.BlockLaws.{undone};

use aes_round::{
    Direction, Forward, Inverse, columns, inv_mix_columns, join, last_round, rot_word, round,
    sub_word,
};
use block::Block;
use cipher::Cipher;
use keys::WholeKey;

// Rcon(1) to Rcon(10) of the key expansion.
const RCON: [u8; 10] = [0x01, 0x02, 0x04, 0x08, 0x10, 0x20, 0x40, 0x80, 0x1b, 0x36];

// The round keys of both directions, worked out at making, each in the order of their use; enc[0] is the key itself.
#[derive(Drop)]
pub struct Aes128 {
    enc: [u128; 11],
    dec: [u128; 11],
    ghost expanded: { Expanded (slice_index enc 0) enc },
    ghost reversed: { Reversed enc dec },
}

fn next_key(k: u128, x: u8) -> u128
    ensures { state_of result ≡ next_key x (state_of k) }
{
    let [a, b, c, d] = columns(k);
    let p = a ^ sub_word(rot_word(d)) ^ u32::from_be_bytes([x, 0, 0, 0]);
    let q = b ^ p;
    let r = c ^ q;
    join([p, q, r, d ^ r])
}

fn expand(key: u128) -> [u128; 11]
    ensures { Expanded key result }
{
    let mut enc = [key; 11];
    // A round key comes from the one before it, so the entries go by index.
    for (i, x) in RCON.iter().enumerate() {
        enc[i + 1] = next_key(enc[i], *x);
    }
    enc
}

// Each key after InvMixColumns, in place: by `map` the keys are copied through an iterator.
fn mix_keys(keys: &mut [u128; 11])
    ensures mixed { (i : ℕ) → i < 11 → state_of (slice_index keys.new i) ≡ inv_mix_columns (state_of (slice_index keys.old i)) }
    ensures fits { (i : ℕ) → slice_index keys.new i < 2 ^ 128 }
{
    for k in keys.iter_mut() {
        *k = inv_mix_columns(*k);
    }
}

fn inv_expand(enc: &[u128; 11]) -> [u128; 11]
    ensures { Reversed enc.now result }
{
    let mut dec = *enc;
    mix_keys(&mut dec);
    dec.reverse();
    dec[0] = enc[10];
    dec[10] = enc[0];
    dec
}

// All the rounds of a direction, with its round keys in the order of their use.
fn run<D: Direction>(keys: &[u128; 11], block: Block) -> Block
    ensures { state_of result ≡ cipher_by D.mix_columns D.substitute_shifted (λ i. state_of (slice_index keys.now i)) 9 (state_of block) }
{
    // The first key and the last by place: no proof covers the pattern `[first, between @ .., last]` of an array.
    let mut s = block ^ keys[0];
    for k in &keys[1..10] {
        s = round::<D>(s, *k);
    }
    last_round::<D>(s, keys[10])
}

impl Cipher for Aes128 {
    type Key = WholeKey;

    ghost sealed = { λ k n. sealed k.value n };

    ghost opened = { λ k n. opened k.value n };

    ghost key = { λ c. whole_key (slice_index c.enc 0) };

    ghost drawn = { λ e i. whole_key (e i) };

    ghost undoing = { λ k. undone k.value };

    fn new(from: WholeKey) -> Self {
        let enc = expand(from.into_block());
        let dec = inv_expand(&enc);
        Aes128 { enc, dec }
    }

    fn seal(&self, block: Block) -> Block {
        run::<Forward>(&self.enc, block)
    }

    fn open(&self, block: Block) -> Block {
        run::<Inverse>(&self.dec, block)
    }

    // The same in every cipher of whole keys, but the trait leaves the key's type open and cannot have it.
    fn draw(&self, i: u8) -> WholeKey {
        WholeKey::without_cards(self.seal(u128::from(i)))
    }
}

// Each direction undoes the other under every key; the round keys are the words of KeyExpansion; the standard's example comes out.
pub fn aes128_stands()
    ensures undone { Undone }
    ensures words { Words }
    ensures example { Example }
{}

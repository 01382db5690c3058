// The rounds of AES (FIPS 197), for every key length, by tables of columns. A state is a block: a number of 128 bits, its first byte the highest;
// a column is 32 bits of it, the byte of row 0 the highest. Contracts read numbers through `state_of` and `word_of`.
#![tactic(auto)]

ghost use Rattle.aes_round.specs.Tables.{Tables};
ghost use Rattle.aes_round.specs.Directions.{mixed, state_of_columns, substituted, word_in};
ghost use Rattle.aes_math.specs.Rounds.{State, Word, add_round_key, inv_mix_columns, inv_mix_word, rot_word, state_of, sub_word, word_of};
ghost use Rattle.std.specs.Prelude.{◌≡◌};

mod direction;
mod inv_sbox;
mod sbox;
mod tables;

pub use direction::{Direction, Forward, Inverse};
use inv_sbox::INV_SBOX;
use sbox::SBOX;

// The four columns of a state, and the state of four columns.
pub fn columns(s: u128) -> [u32; 4]
    ensures { state_of_columns result ≡ state_of s }
{
    [
        (s >> 96) as u32,
        ((s >> 64) % 0x1_0000_0000) as u32,
        ((s >> 32) % 0x1_0000_0000) as u32,
        (s % 0x1_0000_0000) as u32,
    ]
}

pub fn join(columns: [u32; 4]) -> u128
    ensures { state_of result ≡ state_of_columns columns }
{
    let [a, b, c, d] = columns;
    u128::from(a) << 96 | u128::from(b) << 64 | u128::from(c) << 32 | u128::from(d)
}

// The bytes of a column substituted.
fn substitute<D: Direction>(column: [u8; 4]) -> u32
    ensures { word_of result ≡ substituted D.substitute (word_in column) }
{
    let [a, b, c, d] = column;
    u32::from_be_bytes([
        D::substitute(a),
        D::substitute(b),
        D::substitute(c),
        D::substitute(d),
    ])
}

// The bytes of a column substituted, and the column mixed.
fn mix<D: Direction>(column: [u8; 4]) -> u32
    ensures { word_of result ≡ mixed D.column (substituted D.substitute (word_in column)) }
{
    let [a, b, c, d] = column;
    D::column(a)
        ^ D::column(b).rotate_right(8)
        ^ D::column(c).rotate_right(16)
        ^ D::column(d).rotate_right(24)
}

// SubWord and RotWord of the key expansion.
pub fn sub_word(w: u32) -> u32
    ensures { word_of result ≡ sub_word (word_of w) }
{
    substitute::<Forward>(w.to_be_bytes())
}

pub fn rot_word(w: u32) -> u32
    ensures { word_of result ≡ rot_word (word_of w) }
{
    w.rotate_left(8)
}

// The two substitution tables by their rule, each undoing the other, at all 256 entries.
pub fn tables_stand()
    ensures { Tables SBOX INV_SBOX }
{}

// A round. In the inverse direction it is one of the equivalent inverse cipher: k is a round key after InvMixColumns.
pub fn round<D: Direction>(s: u128, k: u128) -> u128
    ensures { state_of result ≡ add_round_key (state_of k) (D.mix_columns (D.substitute_shifted (state_of s))) }
{
    // Column by column: in Rattle's own compiler a round by an array's `map` takes about a quarter more time.
    let [a, b, c, d] = D::shift_rows(columns(s));
    join([mix::<D>(a), mix::<D>(b), mix::<D>(c), mix::<D>(d)]) ^ k
}

// A function beside `round`, as the standard has two kinds of round: one over the function of a column would be handed `mix` or `substitute`, and its
// promise would stand on what that answers.
pub fn last_round<D: Direction>(s: u128, k: u128) -> u128
    ensures { state_of result ≡ add_round_key (state_of k) (D.substitute_shifted (state_of s)) }
{
    let [a, b, c, d] = D::shift_rows(columns(s));
    join([
        substitute::<D>(a),
        substitute::<D>(b),
        substitute::<D>(c),
        substitute::<D>(d),
    ]) ^ k
}

// InvMixColumns of one column: what the inverse direction makes of a substituted byte is what InvMixColumns makes of the byte.
fn inv_mix(w: u32) -> u32
    ensures { word_of result ≡ inv_mix_word (word_of w) }
{
    // byte by byte: by way of `sub_word` the bytes are joined to a word and taken apart again, at a third more time for a key
    let [a, b, c, d] = w.to_be_bytes();
    mix::<Inverse>([
        Forward::substitute(a),
        Forward::substitute(b),
        Forward::substitute(c),
        Forward::substitute(d),
    ])
}

// InvMixColumns of a whole state: the equivalent inverse cipher asks it of a round key.
pub fn inv_mix_columns(k: u128) -> u128
    ensures { state_of result ≡ inv_mix_columns (state_of k) }
{
    let [a, b, c, d] = columns(k);
    join([inv_mix(a), inv_mix(b), inv_mix(c), inv_mix(d)])
}

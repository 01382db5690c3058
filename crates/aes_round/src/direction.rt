// The two directions of the cipher.
ghost use Rattle.aes_round.specs.Directions.{forward_mixes, forward_substitutes, inverse_mixes, inverse_substitutes, mixed, state_in, state_of_columns, substituted, word_in};
ghost use Rattle.aes_math.specs.Rounds.{State, Word, each, inv_mix_columns, inv_shift_rows, inv_sub_bytes, mix_columns, shift_rows, sub_bytes, word_of};
ghost use Rattle.aes_math.specs.Field.{inv_sbox, sbox};
ghost use Rattle.aes_math.specs.Parts.{inv0, mix0};
ghost use Rattle.std.specs.Prelude.{◌≡◌, ℕ};

use crate::inv_sbox::INV_SBOX;
use crate::sbox::SBOX;
use crate::tables::{TD, TE};

// The bytes of rows 0 to 3 of four columns.
fn diagonal(a: u32, b: u32, c: u32, d: u32) -> [u8; 4]
    ensures { word_in result ≡ ((word_of a).0, (word_of b).1, (word_of c).2, (word_of d).3) }
{
    [
        a.to_be_bytes()[0],
        b.to_be_bytes()[1],
        c.to_be_bytes()[2],
        d.to_be_bytes()[3],
    ]
}

pub trait Direction {
    // what becomes of a byte, where the bytes of a row come from, and what the mix makes of a byte in row 0
    ghost substitute: { ℕ → ℕ };

    ghost shift_rows: { State → State };

    ghost column: { ℕ → Word };

    // the same of a whole state: its rows shifted and its bytes substituted, and its columns mixed
    ghost substitute_shifted: { State → State };

    ghost mix_columns: { State → State };

    fn substitute(x: u8) -> u8
        ensures { result ≡ substitute x };

    fn shift_rows(columns: [u32; 4]) -> [[u8; 4]; 4]
        ensures { state_in result ≡ shift_rows (state_of_columns columns) };

    // The column that the mix makes of the substitution of x in row 0; one row down is one byte to the right.
    fn column(x: u8) -> u32
        ensures { word_of result ≡ column (substitute x) };

    ghost substitutes: { (s : State) → each (substituted substitute) (shift_rows s) ≡ substitute_shifted s };

    ghost mixes: { (s : State) → each (mixed column) s ≡ mix_columns s };
}

// SubBytes, ShiftRows and MixColumns.
pub struct Forward;

// InvSubBytes, InvShiftRows and InvMixColumns.
pub struct Inverse;

impl Direction for Forward {
    ghost substitute = { sbox };

    ghost shift_rows = { shift_rows };

    ghost column = { mix0 };

    ghost substitute_shifted = { λ s. shift_rows (sub_bytes s) };

    ghost mix_columns = { mix_columns };

    ghost substitutes = { forward_substitutes };

    ghost mixes = { forward_mixes };

    fn substitute(x: u8) -> u8 {
        SBOX[x as usize]
    }

    #[tactic(auto, unfolding(aes_math::specs::Rounds::shift_rows))]
    fn shift_rows([a, b, c, d]: [u32; 4]) -> [[u8; 4]; 4] {
        [
            diagonal(a, b, c, d),
            diagonal(b, c, d, a),
            diagonal(c, d, a, b),
            diagonal(d, a, b, c),
        ]
    }

    fn column(x: u8) -> u32 {
        TE[x as usize]
    }
}

impl Direction for Inverse {
    ghost substitute = { inv_sbox };

    ghost shift_rows = { inv_shift_rows };

    ghost column = { inv0 };

    ghost substitute_shifted = { λ s. inv_sub_bytes (inv_shift_rows s) };

    ghost mix_columns = { inv_mix_columns };

    ghost substitutes = { inverse_substitutes };

    ghost mixes = { inverse_mixes };

    fn substitute(x: u8) -> u8 {
        INV_SBOX[x as usize]
    }

    // Written out as the other way is: an offset as a constant would have to be reckoned modulo four at each of the sixteen places.
    #[tactic(auto, unfolding(aes_math::specs::Rounds::inv_shift_rows))]
    fn shift_rows([a, b, c, d]: [u32; 4]) -> [[u8; 4]; 4] {
        [
            diagonal(a, d, c, b),
            diagonal(b, a, d, c),
            diagonal(c, b, a, d),
            diagonal(d, c, b, a),
        ]
    }

    fn column(x: u8) -> u32 {
        TD[x as usize]
    }
}

//! Numbers in decimal at the front of a text.
//!
//! A numeral is the whole run of digits that a text begins with. Leading zeros are fine as long as
//! there are no more digits than the caller allows.
#![tactic(auto)]

ghost use Rattle.std.specs.Prelude.{◌≡◌, ℕ, ◌+◌, ◌*◌, ◌<◌, ◌≤◌, List, ◌∷◌, MatchOption, ◌≢◌};
ghost use Rattle.std.specs.Char.{is_ascii_digit};
ghost use Rattle.std.specs.List.{prefix_len};
ghost use Rattle.std.specs.Option.{SomeIff};
ghost use Rattle.decimal.specs.Decimal.{Digits, Begins, decimal};

// How many digits the text begins with.
fn count_digits(s: &[u8]) -> usize
    ensures { result ≡ prefix_len is_ascii_digit s.now }
{
    s.iter().take_while(|b| b.is_ascii_digit()).count()
}

// The number with one more digit at its end, unless that is above the limit.
fn with_digit(v: u64, digit: u8, limit: u64) -> Option<u64>
    ensures { SomeIff result (v * 10 + digit ≤ limit) (v * 10 + digit) }
{
    v.checked_mul(10)?
        .checked_add(u64::from(digit))
        .filter(|v| *v <= limit)
}

// The value of some digits, unless it is above the limit.
fn value(s: &[u8], limit: u64) -> Option<u64>
    requires { Digits s.now }
    ensures { MatchOption result (limit < decimal 0 s.now) (λ v. (v ≡ decimal 0 s.now) × (v ≤ limit)) }
{
    let mut v = 0;
    for b in s {
        // a value only grows with more digits
        v = with_digit(v, *b - b'0', limit)?;
    }
    Some(v)
}

/// The number that the text begins with, its whole run of digits, and what follows it. `None` where
/// there is no digit, where there are more than `most`, or where the number is above `limit`.
pub fn take_number(s: &[u8], most: usize, limit: u64) -> Option<(u64, &[u8])>
    ensures cases { MatchOption result ((v : ℕ) (rest : List ℕ) → Begins most limit s.now v rest → ⊥) (λ p. Begins most limit s.now p.0 p.1.now) }
{
    let n = count_digits(s);
    if n == 0 || n > most {
        return None;
    }
    let (digits, rest) = s.split_at(n);
    Some((value(digits, limit)?, rest))
}

/// What follows one space.
pub fn take_space(s: &[u8]) -> Option<&[u8]>
    ensures cases { MatchOption result ((rest : List ℕ) → s.now ≢ 32 ∷ rest) (λ x. s.now ≡ 32 ∷ x.now) }
{
    s.strip_prefix(b" ")
}

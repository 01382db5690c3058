//! Hexadecimal: two digits a byte, the high one first. Written in lower case, read in either.
#![tactic(auto)]

ghost use Rattle.std.specs.Prelude.{◌≡◌, ℕ, ◌<◌, List, IfOk, string_bytes, MatchOption};
ghost use Rattle.hexadecimal.specs.Hex.{Bytes, Decodes, Pair, digit, encoded};

use std::alloc::{AllocError, Global};

// The digit of a value, in lower case.
fn digit_of(v: u8) -> char
    requires { v < 16 }
    ensures value { result ≡ digit v }
    ensures ascii { result < 128 }
{
    char::from_digit(u32::from(v), 16).unwrap()
}

// The byte that two digits of either case write.
fn byte_of(high: u8, low: u8) -> Option<u8>
    ensures { MatchOption result ((b : ℕ) → Pair high low b → ⊥) (λ b. Pair high low b) }
{
    let high = char::from(high).to_digit(16)?;
    let low = char::from(low).to_digit(16)?;
    Some((high * 16 + low) as u8)
}

/// The bytes in lower-case digits.
pub fn encode(heap: Global, bytes: &[u8]) -> Result<String, AllocError>
    ensures made { IfOk result (λ s. string_bytes s ≡ encoded bytes.now) }
{
    let mut text = String::new(heap);
    for b in bytes {
        // digit by digit: by `write!` and `{b:02x}` a byte takes more than twice as long
        text.push(digit_of(*b / 16))?;
        text.push(digit_of(*b % 16))?;
    }
    Ok(text)
}

/// The bytes that the text writes; `None` where its length is odd or where it has another character.
pub fn decode(heap: Global, text: &[u8]) -> Result<Option<Vec<u8>>, AllocError>
    ensures made { IfOk result (λ o. MatchOption o ((bs : List ℕ) → Decodes text.now bs → ⊥) (λ v. Decodes text.now v.items)) }
{
    // not by the library `hex`: want of memory is an error of its own there, and nothing turns that into an AllocError
    let (pairs, odd) = text.as_chunks::<2>();
    if !odd.is_empty() {
        return Ok(None);
    }
    let mut bytes = Vec::new(heap);
    for [high, low] in pairs {
        // `?` would leave with an error, and that there are no bytes is an answer
        let Some(b) = byte_of(*high, *low) else {
            return Ok(None);
        };
        bytes.push(b)?;
    }
    Ok(Some(bytes))
}

/// What was encoded decodes to the same bytes, and to no others.
pub fn laws()
    ensures back { (bs : List ℕ) → Bytes bs → Decodes (encoded bs) bs }
    ensures only { (text bs cs : List ℕ) → Decodes text bs → Decodes text cs → bs ≡ cs }
{}

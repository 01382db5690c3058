//! Names of doors: one to ten characters, in ten bytes.

ghost use Rattle.std.specs.Prelude.{◌≡◌, ◌==◌, ◌≤◌, ℕ, true, List, drop, MatchOption};
ghost use Rattle.std.specs.List.{list_all, prefix_len};
ghost use Rattle.doors.specs.Names.{Named, is_letter, letters, padded};

// The bytes of a name.
pub(crate) const NAME: usize = 10;

// A letter here is any character that a name may have: A-Z, a-z, 0-9 and '-'.
fn is_letter(c: u8) -> bool
    ensures { result ≡ is_letter c }
{
    c.is_ascii_alphanumeric() || c == b'-'
}

// A name of one to ten letters, filled up with zero bytes.
pub(crate) fn take_name(s: &[u8]) -> Option<[u8; NAME]>
    ensures { MatchOption result ((name : List ℕ) → Named s.now name → ⊥) (λ name. Named s.now name) }
{
    if s.is_empty() || s.len() > NAME || !s.iter().all(|c| is_letter(*c)) {
        return None;
    }
    let mut name = [0; NAME];
    name[..s.len()].copy_from_slice(s);
    Some(name)
}

// Whether these are letters and then zero bytes up to the end.
pub(crate) fn is_padded(name: &[u8; NAME]) -> bool
    ensures { result ≡ list_all (λ c. c == 0) (drop (prefix_len is_letter name.now) name.now) }
{
    name.iter().skip_while(|c| is_letter(**c)).all(|c| *c == 0)
}

// How many letters the name begins with.
fn count_letters(name: &[u8; NAME]) -> usize
    ensures within { result ≤ 10 }
    ensures value { result ≡ prefix_len is_letter name.now }
{
    name.iter().take_while(|c| is_letter(**c)).count()
}

// The letters of a name, without the zero bytes.
pub(crate) fn letters_of(name: &[u8; NAME]) -> &str
    requires { padded name.now ≡ true }
    ensures { result.now ≡ letters name.now }
{
    let n = count_letters(name);
    str::from_utf8(&name[..n]).unwrap()
}

// The lines of a text of bytes: LF ends a line, the last LF may be missing, and an LF that ends the text begins no further line.
#![tactic(auto)]

ghost use Rattle.std.specs.Prelude.{◌≡◌, ◌<◌, [], ◌∷◌, ◌==◌, length, position, MatchOption};
ghost use Rattle.std.specs.Iterator.{YieldsFirstRef, item_count};
ghost use Rattle.lines.specs.Lines.{Joined, lines};
ghost use Rattle.lines.specs.Left.{lines_left};

// The place of the first LF.
fn line_end(s: &[u8]) -> Option<usize>
    ensures { result ≡ position (λ b. b == 10) s.now }
{
    s.iter().position(|b| *b == b'\n')
}

// The first line, without its LF, and what follows it.
pub fn take_line(s: &[u8]) -> Option<(&[u8], &[u8])>
    ensures { MatchOption result (s.now ≡ []) (λ p. (lines s.now ≡ p.0.now ∷ lines p.1.now) × (length p.1.now < length s.now)) }
{
    if s.is_empty() {
        return None;
    }
    match line_end(s) {
        Some(end) => Some((&s[..end], &s[end + 1..])),
        None => Some((s, &[])),
    }
}

// The lines of a text, each without its LF, one after the other.
#[derive(Drop)]
pub struct Lines<'a> {
    rest: &'a [u8],
}

impl<'a> Lines<'a> {
    pub fn new(text: &'a [u8]) -> Lines<'a>
        ensures { lines_left result ≡ lines text.now }
    {
        Lines { rest: text }
    }
}

impl<'a> Iterator for Lines<'a> {
    type Item = &'a [u8];

    ghost next_gives = { YieldsFirstRef lines_left };

    ghost remaining = { item_count lines_left };

    fn next(&mut self) -> Option<&'a [u8]> {
        let (line, rest) = take_line(self.rest)?;
        self.rest = rest;
        Some(line)
    }
}

pub fn count_lines(s: &[u8]) -> usize
    ensures { result ≡ length (lines s.now) }
{
    Lines::new(s).count()
}

// A text is its lines, joined by LF.
pub fn lines_stand()
    ensures { Joined }
{}

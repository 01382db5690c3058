// A block cipher: for each key a sealing and an opening function on blocks, each undoing the other.
// A cipher is made from its key alone, and the trait leaves the key's type open.
#![tactic(auto)]

ghost use Rattle.std.specs.Prelude.{◌≡◌, ℕ};
ghost use Rattle.cipher.specs.Ciphers.{Undoing};

use block::Block;

pub trait Cipher: Sized {
    type Key;

    // what a key makes of a block
    ghost sealed: { Self.Key → ℕ → ℕ };

    ghost opened: { Self.Key → ℕ → ℕ };

    // the key that a cipher was made from
    ghost key: { Self → Self.Key };

    // the key that a sealing function gives from the number i on
    ghost drawn: { (ℕ → ℕ) → ℕ → Self.Key };

    fn new(from: Self::Key) -> Self
        ensures { key result ≡ from };

    fn seal(&self, block: Block) -> Block
        ensures { result ≡ sealed (key self.now) block };

    fn open(&self, block: Block) -> Block
        ensures { result ≡ opened (key self.now) block };

    // A key out of blocks that this cipher seals: that of the number i and, for a longer key, those that follow.
    fn draw(&self, i: u8) -> Self::Key
        ensures { result ≡ drawn (sealed (key self.now)) i };

    ghost undoing: { (k : Self.Key) → Undoing (sealed k) (opened k) };
}

// Opening undoes sealing. Two laws, one a call, as `seal` and `open` are two: a way as a parameter would only choose between them.
pub fn opened_again<C: Cipher>(cipher: &C, block: Block) -> Block
    ensures { result ≡ block }
{
    cipher.open(cipher.seal(block))
}

// Sealing undoes opening.
pub fn sealed_again<C: Cipher>(cipher: &C, block: Block) -> Block
    ensures { result ≡ block }
{
    cipher.seal(cipher.open(block))
}

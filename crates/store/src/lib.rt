// A store: sectors of one size, each with a life. Chips, windows, sealing layers and change-overs are stores, so any pile of them is one.
// A trait carries the meaning, and whatever stands on a store is proved from the meaning alone.
#![tactic(auto)]

mod again;
mod checks;
mod size;

ghost use Rattle.std.specs.Prelude.{◌≡◌, length, IfOk};
ghost use Rattle.refusal.specs.Refusals.{answer};
ghost use Rattle.store.specs.Stores.{Meaning, Sound, after_read, after_write, count as count_of, life as life_of, life_answer, read_answer, write_answer};

pub use again::read_again;
pub use checks::{check_read, check_sector, check_write};
use refusal::Refusal;
pub use size::SectorSize;

pub trait Store {
    ghost meaning: { Self → Meaning };

    // The bytes of a sector.
    fn size(&self) -> usize
        ensures { result ≡ (meaning self.now).size };

    // How many sectors there are, at most 2,048.
    fn count(&self) -> usize
        ensures { result ≡ count_of (meaning self.now) };

    // How many writes a sector still bears; 3.
    fn life(&self, sector: usize) -> Result<u32, Refusal>
        ensures reply { answer result ≡ life_answer (meaning self.now) sector }
        ensures value { IfOk result (λ n. n ≡ life_of (meaning self.now) sector) };

    // Fills the buffer with the sector's bytes; 3, 2, 9.
    fn read(&self, sector: usize, buffer: &mut [u8]) -> Result<(), Refusal>
        ensures reply { answer result ≡ read_answer (meaning self.now) sector (length buffer.old) }
        ensures bytes { buffer.new ≡ after_read (meaning self.now) sector buffer.old };

    // Puts the buffer's bytes into the sector, at the cost of one life, also where they are equal; 3, 2, 7, 9.
    fn write(&mut self, sector: usize, buffer: &[u8]) -> Result<(), Refusal>
        ensures reply { answer result ≡ write_answer (meaning self.old) sector (length buffer.now) }
        ensures after { meaning self.new ≡ after_write (meaning self.old) sector buffer.now };

    ghost sound: { (s : Self) → Sound (meaning s) };
}

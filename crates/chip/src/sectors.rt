// A chip as a store of sectors.
ghost use Rattle.std.specs.Prelude.{◌≡◌, length, IfOk};
ghost use Rattle.refusal.specs.Refusals.{answer};
ghost use Rattle.store.specs.Stores.{after_write, write_answer};
ghost use Rattle.chip.specs.Meant.{bytes_written, lives_written, meant, placed, place_reply, sectors_of};
ghost use Rattle.chip_math.proofs.Chipped.{chip_sound};

use crate::{Cells, Chip};
use refusal::Refusal;
use store::Store;

// The most sectors that a chip has, however much memory it is handed.
const MOST_SECTORS: usize = 2048;

impl<C: Cells> Chip<C> {
    fn sectors(&self) -> usize
        ensures { result ≡ sectors_of self.now }
    {
        let whole = self.bytes.len() / self.size.bytes();
        MOST_SECTORS.min(whole.min(self.lives.len()))
    }

    // Where a sector begins, for a buffer of that many bytes; 3, 2.
    fn place(&self, sector: usize, len: usize) -> Result<usize, Refusal>
        ensures reply { answer result ≡ place_reply self.now sector len }
        ensures value { IfOk result (λ at. placed self.now sector len at) }
    {
        if sector >= self.sectors() {
            return Err(Refusal::Absent);
        }
        let size = self.size.bytes();
        if len != size {
            return Err(Refusal::Buffer);
        }
        Ok(sector * size)
    }
}

impl<C: Cells> Store for Chip<C> {
    ghost meaning = { meant };

    ghost sound = { λ s. chip_sound s.size.bytes s.bytes.items s.lives.items s.size.sized s.bytes_fit s.lives_fit };

    fn size(&self) -> usize {
        self.size.bytes()
    }

    #[tactic(auto, using(store::proofs::Placed::in_places))]
    fn count(&self) -> usize {
        self.sectors()
    }

    #[tactic(auto, using(store::proofs::Placed::in_places))]
    fn life(&self, sector: usize) -> Result<u32, Refusal> {
        if sector >= self.sectors() {
            return Err(Refusal::Absent);
        }
        Ok(self.lives[sector])
    }

    #[tactic(auto, using(store::proofs::Placed::in_places))]
    fn read(&self, sector: usize, buffer: &mut [u8]) -> Result<(), Refusal> {
        let at = self.place(sector, buffer.len())?;
        buffer.copy_from_slice(&self.bytes[at..at + buffer.len()]);
        Ok(())
    }

    // The whole memory after a write is pinned too.
    #[tactic(auto, using(store::proofs::Placed::in_places))]
    fn write(&mut self, sector: usize, buffer: &[u8]) -> Result<(), Refusal>
        ensures reply { answer result ≡ write_answer (meant self.old) sector (length buffer.now) }
        ensures after { meant self.new ≡ after_write (meant self.old) sector buffer.now }
        ensures size { self.new.size ≡ self.old.size }
        ensures bytes { self.new.bytes.items ≡ bytes_written self.old sector buffer.now }
        ensures lives { self.new.lives.items ≡ lives_written self.old sector buffer.now }
    {
        let at = self.place(sector, buffer.len())?;
        let left = self.lives[sector].checked_sub(1).ok_or(Refusal::Worn)?;
        self.cells
            .rewrite(&mut self.bytes[at..at + buffer.len()], buffer);
        self.lives[sector] = left;
        Ok(())
    }
}

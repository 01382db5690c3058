// What every pile owes to whoever writes to it.
ghost use Rattle.std.specs.Prelude.{◌≡◌, length};
ghost use Rattle.refusal.specs.Refusals.{answer};
ghost use Rattle.store.specs.Stores.{after_write, write_answer};

use crate::Store;
use refusal::Refusal;

// Writes the buffer's bytes and reads them again: they come back, from any pile; a refused write leaves them and the pile as they were.
pub fn read_again<S: Store>(store: &mut S, sector: usize, buffer: &mut [u8]) -> Result<(), Refusal>
    ensures reply { answer result ≡ write_answer (S.Store.meaning store.old) sector (length buffer.old) }
    ensures after { S.Store.meaning store.new ≡ after_write (S.Store.meaning store.old) sector buffer.old }
    ensures bytes { buffer.new ≡ buffer.old }
{
    store.write(sector, buffer)?;
    store.read(sector, buffer)
}

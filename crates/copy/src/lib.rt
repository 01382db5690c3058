// Copies a sector from one store to another: how a dock takes a chip's sectors as they are, sealed.
#![tactic(auto)]

ghost use Rattle.std.specs.Prelude.{◌≡◌, length, replicate};
ghost use Rattle.copy.specs.Copying.{after_copy, copy_answer};
ghost use Rattle.refusal.specs.Refusals.{answer};

use refusal::Refusal;
use store::{Store, check_sector, check_write};
use wipe::{Wipe, lend};

// Reads sector k of one store and writes it to sector j of another through the working bytes, which are all zero at every end. Tests, in
// their order: 3 for k, 3 for j, 2 for the sizes and the working bytes, 7 for j, 9.
pub fn copy_sector<F: Store, T: Store>(
    from: &F,
    k: usize,
    to: &mut T,
    j: usize,
    work: &mut [u8],
) -> Result<(), Refusal>
    ensures reply { answer result ≡ copy_answer (F.Store.meaning from.now) k (T.Store.meaning to.old) j (length work.old) }
    ensures after { T.Store.meaning to.new ≡ after_copy (F.Store.meaning from.now) k (T.Store.meaning to.old) j (length work.old) }
    ensures bytes { work.new ≡ replicate (length work.old) 0 }
{
    let guard = Wipe(work);
    check_sector(from, k)?;
    check_sector(to, j)?;
    if from.size() != to.size() {
        return Err(Refusal::Buffer);
    }
    check_write(to, j, guard.0.len())?;
    let bytes = lend(guard.0);
    from.read(k, bytes)?;
    to.write(j, bytes)
}

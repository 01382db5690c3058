// Matches two sealed copies without a key. Copies by modes that seal alike are equal exactly when the books, the plain contents, are.
#![tactic(auto)]

ghost use Rattle.std.specs.Prelude.{◌≡◌, length, replicate, IfOk};
ghost use Rattle.refusal.specs.Refusals.{answer};
ghost use Rattle.compare.specs.Comparing.{Compared, compare_answer};

use refusal::Refusal;
use store::Store;
use wipe::Wipe;

// Whether all sectors of two stores are equal, through two working slices of one sector each, which are all zero at every end; 2 where the
// sizes differ or a working slice is not one sector, then 9. Stores of different counts differ.
pub fn same_sectors<A: Store, B: Store>(
    one: &A,
    other: &B,
    left: &mut [u8],
    right: &mut [u8],
) -> Result<bool, Refusal>
    ensures reply { answer result ≡ compare_answer (A.Store.meaning one.now) (B.Store.meaning other.now) (length left.old) (length right.old) }
    ensures value { IfOk result (Compared (A.Store.meaning one.now) (B.Store.meaning other.now)) }
    ensures left { left.new ≡ replicate (length left.old) 0 }
    ensures right { right.new ≡ replicate (length right.old) 0 }
{
    let left = Wipe(left);
    let right = Wipe(right);
    let size = one.size();
    if other.size() != size || left.0.len() != size || right.0.len() != size {
        return Err(Refusal::Buffer);
    }
    let count = one.count();
    if other.count() != count {
        return Ok(false);
    }
    // a sector's number, asked of two stores: there is no slice to walk
    for k in 0..count {
        one.read(k, left.0)?;
        other.read(k, right.0)?;
        if *left.0 != *right.0 {
            return Ok(false);
        }
    }
    Ok(true)
}

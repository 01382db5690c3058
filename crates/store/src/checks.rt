// The tests of a store's calls, in their order, from its questions: for layers that have to know before they call below.
ghost use Rattle.std.specs.Prelude.{◌≡◌};
ghost use Rattle.refusal.specs.Refusals.{answer};
ghost use Rattle.store.specs.Stores.{buffer_test, life_test, sector_test};

use crate::Store;
use refusal::Refusal;

// 3 where the store has no such sector.
pub fn check_sector<S: Store>(store: &S, sector: usize) -> Result<(), Refusal>
    ensures { answer result ≡ sector_test (S.Store.meaning store.now) sector 0 }
{
    if sector < store.count() {
        Ok(())
    } else {
        Err(Refusal::Absent)
    }
}

// 3, then 2 where that many bytes are not one sector.
pub fn check_read<S: Store>(store: &S, sector: usize, len: usize) -> Result<(), Refusal>
    ensures { answer result ≡ sector_test (S.Store.meaning store.now) sector (buffer_test (S.Store.meaning store.now) len 0) }
{
    check_sector(store, sector)?;
    if len == store.size() {
        Ok(())
    } else {
        Err(Refusal::Buffer)
    }
}

// 3, 2, then 7 where the sector's life is 0.
pub fn check_write<S: Store>(store: &S, sector: usize, len: usize) -> Result<(), Refusal>
    ensures { answer result ≡ sector_test (S.Store.meaning store.now) sector (buffer_test (S.Store.meaning store.now) len (life_test (S.Store.meaning store.now) sector 0)) }
{
    check_read(store, sector, len)?;
    if store.life(sector)? > 0 {
        Ok(())
    } else {
        Err(Refusal::Worn)
    }
}

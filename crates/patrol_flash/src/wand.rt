// A wand: a flash chip of the real size under a sealing layer; and the dock that copies the chip as it is, sealed.
use chip::{Flash, FlashCells};
use compare::same_sectors;
use copies::{ROUND, SECTOR};
use copy::copy_sector;
use doors::{Door, lay_round};
use layer::Layer;
use mode::Mode;
use std::alloc::Global;
use store::{SectorSize, Store};

// A wand's chip: so many sectors, and the writes that each bears.
const SECTORS: usize = 2048;

const LIFE: u32 = 100_000;

// A chip as it comes from its maker: erased, and no life spent.
fn new_chip(heap: Global) -> anyhow::Result<Flash> {
    let size = SectorSize::new(SECTOR)?;
    let bytes = vec![in heap; 0xff; SECTOR * SECTORS]?;
    let lives = vec![in heap; LIFE; SECTORS]?;
    Ok(Flash::new(size, bytes, lives))
}

// A new wand on which these doors were walked: the round is written to sectors 0 and 1 through the sealing layer.
pub(crate) fn walk<M: Mode + Drop>(
    heap: Global,
    mode: M,
    doors: &[Door],
) -> anyhow::Result<Layer<Flash, M>> {
    let mut image = [0; ROUND];
    lay_round(doors, &mut image)?;
    let mut wand = Layer::new(new_chip(heap)?, mode);
    for (sector, bytes) in (0..2).zip(image.chunks(SECTOR)) {
        wand.write(sector, bytes)?;
    }
    Ok(wand)
}

// Every sector of a store, as it is.
fn copy_all<S: Store>(store: &S, copy: &mut Flash, work: &mut [u8]) -> anyhow::Result<()> {
    for sector in 0..store.count() {
        copy_sector(store, sector, copy, sector, work)?;
    }
    Ok(())
}

// Copies a store sector by sector onto a chip of the dock's own.
pub(crate) fn dock<S: Store>(heap: Global, store: &S) -> anyhow::Result<Flash> {
    let mut copy = new_chip(heap)?;
    let mut work = [0; SECTOR];
    copy_all(store, &mut copy, &mut work)?;
    Ok(copy)
}

// Whether two docked copies are equal; nobody needs a key to tell.
fn same_copies(one: &Flash, other: &Flash) -> anyhow::Result<bool> {
    let mut left = [0; SECTOR];
    let mut right = [0; SECTOR];
    Ok(same_sectors(one, other, &mut left, &mut right)?)
}

// The two sectors of a round as a pile shows them.
pub(crate) fn read_sectors<S: Store>(store: &S) -> anyhow::Result<[u8; ROUND]> {
    let mut image = [0; ROUND];
    for (sector, bytes) in (0..2).zip(image.chunks_mut(SECTOR)) {
        store.read(sector, bytes)?;
    }
    Ok(image)
}

// Whether another wand, on which these doors were walked, has the same copy; the mode comes back for the next wand.
pub(crate) fn compare_with<M: Mode + Drop>(
    heap: Global,
    copy: &Flash,
    mode: M,
    doors: &[Door],
) -> anyhow::Result<(bool, M)> {
    let wand = walk(heap, mode, doors)?;
    let same = same_copies(copy, &dock(heap, wand.below())?)?;
    let (_, mode) = wand.into_parts();
    Ok((same, mode))
}

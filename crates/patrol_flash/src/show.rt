// One mode at work: the steps of a round, and the outcome of each.
use crate::wand::{compare_with, dock, read_sectors, walk};
use chip::Flash;
use doors::{Door, read_round};
use guards::{SKIPPED, opened, sectors, verdict, without};
use layer::Layer;
use mode::Mode;
use store::Store;

// What the round cost the chip.
fn show_lives<S: Store>(rt: &HostRuntime, store: &S) -> anyhow::Result<()> {
    let sectors = store.count();
    let first = store.life(0)?;
    let second = store.life(1)?;
    println!(rt;
        "written through the sealing layer to a flash chip of {sectors} sectors: sector 0 bears {first} more writes, sector 1 {second}"
    )?;
    Ok(())
}

// What a wand holds and what it cost, and its chip's copy at the dock.
fn show_wand<M: Mode>(rt: &HostRuntime, wand: &Layer<Flash, M>) -> anyhow::Result<Flash> {
    show_lives(rt, wand)?;
    let copy = dock(rt.alloc(), wand.below())?;
    let count = copy.count();
    println!(rt; "the dock copied {count} sectors as they are")?;
    rt.print(sectors(rt.alloc(), &read_sectors(&copy)?)?)?;
    Ok(copy)
}

// The round on two wands, on one that skipped a door, and as the first wand gives it back. The other patrol prints the same lines of other stores of
// a round; a library function that prints would promise nothing.
pub(crate) fn show_mode<M: Mode + Drop>(
    rt: &HostRuntime,
    name: &str,
    wands: (M, M),
    doors: &[Door],
) -> anyhow::Result<()> {
    let (mine, other) = wands;
    println!(rt; "{name}")?;
    let wand = walk(rt.alloc(), mine, doors)?;
    let copy = show_wand(rt, &wand)?;
    let (same, other) = compare_with(rt.alloc(), &copy, other, doors)?;
    let outcome = verdict(same);
    println!(rt; "a second wand that walked the same round: {outcome}")?;
    let walked = without(rt.alloc(), doors, SKIPPED)?;
    let (same, _) = compare_with(rt.alloc(), &copy, other, &walked)?;
    let outcome = verdict(same);
    println!(rt; "a wand that skipped door {SKIPPED} of the round: {outcome}")?;
    let read = read_round(rt.alloc(), &read_sectors(&wand)?)?;
    rt.print(opened(rt.alloc(), &read, read.as_slice() == doors)?)?;
    Ok(())
}

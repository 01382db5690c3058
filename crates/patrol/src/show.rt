// One mode at work: the steps of a round, and the outcome of each.
use copies::{ROUND, open_round, same_copies, seal_round};
use doors::{Door, lay_round, read_round};
use guards::{SKIPPED, opened, sectors, verdict, without};
use mode::Mode;

// A wand that walked these doors: its two sectors, sealed.
fn sealed_wand<M: Mode>(mode: &M, doors: &[Door]) -> anyhow::Result<[u8; ROUND]> {
    let mut image = [0; ROUND];
    lay_round(doors, &mut image)?;
    seal_round(mode, &mut image)?;
    Ok(image)
}

// The round on two wands, on one that skipped a door, and as the first wand gives it back. The other patrol prints the same lines of other stores of
// a round; a library function that prints would promise nothing.
pub(crate) fn show_mode<M: Mode>(
    rt: &HostRuntime,
    name: &str,
    wands: &(M, M),
    doors: &[Door],
) -> anyhow::Result<()> {
    let (mine, other) = wands;
    println!(rt; "{name}")?;
    let mut image = sealed_wand(mine, doors)?;
    rt.print(sectors(rt.alloc(), &image)?)?;
    let outcome = verdict(same_copies(&image, &sealed_wand(other, doors)?));
    println!(rt; "a second wand that walked the same round: {outcome}")?;
    let walked = without(rt.alloc(), doors, SKIPPED)?;
    let outcome = verdict(same_copies(&image, &sealed_wand(other, &walked)?));
    println!(rt; "a wand that skipped door {SKIPPED} of the round: {outcome}")?;
    open_round(mine, &mut image)?;
    let read = read_round(rt.alloc(), &image)?;
    rt.print(opened(rt.alloc(), &read, read.as_slice() == doors)?)?;
    Ok(())
}

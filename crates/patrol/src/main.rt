// A guard's round of forty doors: laid into the two sectors of a wand, sealed under keys from the guards' cards by XCB and by XTS over
// AES-128, compared with the copies of other wands, and opened again. Standard input is the round, a line a door:
//
//   NUMBER BADGE TIME NAME       as `17 448210 1794953071 ARCHIVE-W`
//
// Each step and its outcome is printed. A round that is not well formed gets one line on standard error, and nothing is sealed.
#![tactic(auto)]

mod show;

use anyhow::anyhow;
use doors::parse_round;
use guards::{Wands, lay_cards};
use show::show_mode;
use std::io::Read;
use std::process::ExitCode;

// `patrol_flash` has the same steps of reading and printing: a library function that only prints would promise nothing.
fn run(rt: &HostRuntime) -> anyhow::Result<()> {
    let mut input = Vec::new(rt.alloc());
    rt.stdin().read_to_end(&mut input)?;
    let doors = parse_round(rt.alloc(), &input).map_err(|e| anyhow!("{e}; nothing is sealed"))?;
    let count = doors.len();
    println!(rt; "the round: {count} doors of 24 bytes, in 2 sectors of 512 bytes")?;
    let Wands { xcb, xts } = lay_cards()?;
    println!(rt; "the cards are laid: two for XCB, two for each key of XTS, on two wands")?;
    show_mode(rt, "XCB over AES-128", &xcb, &doors)?;
    show_mode(rt, "XTS over AES-128", &xts, &doors)
}

fn main(rt: HostRuntime) -> anyhow::Result<ExitCode> {
    let Err(e) = run(&rt) else {
        return Ok(ExitCode::SUCCESS);
    };
    eprintln!(rt; "patrol: {e}")?;
    Ok(ExitCode::FAILURE)
}

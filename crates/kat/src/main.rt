// Known answers: each line of the input asks for one result of the library, and gets one line.
//
//   aes128 KEY BLOCK [open]              speck KEY BLOCK [open]
//   xts-aes128 KEY1 KEY2 TWEAK DATA [open]    xts-speck KEY1 KEY2 TWEAK DATA [open]
//   xcb-aes128 KEY TWEAK DATA [open]     xcb-speck KEY TWEAK DATA [open]
//   product X Y     hash H BLOCKS     double T     cards FIRST SECOND
//
// All in hexadecimal of either case, one space between words, `-` for no bytes at all. The answer is the result in lower case,
// `refused N` for a refusal, `malformed` for any other line.
#![tactic(auto)]

mod answer;
mod request;

use answer::{Reply, carry_out};
use lines::Lines;
use request::{Unread, parse};
use std::alloc::{AllocError, Global};
use std::io::Read;

// The line that answers a line.
fn answer_line(heap: Global, line: &[u8]) -> Result<String, AllocError> {
    match parse(heap, line).map(carry_out) {
        Ok(Ok(Reply::Block(block))) => hexadecimal::encode(heap, &block::to_bytes(block)),
        Ok(Ok(Reply::Text(bytes))) => hexadecimal::encode(heap, &bytes),
        Ok(Err(refusal)) => {
            let number = refusal.number();
            format!(in heap; "refused {number}")
        }
        Err(Unread::Malformed) => String::from_str(heap, "malformed"),
        Err(Unread::Memory(error)) => Err(error),
    }
}

fn run(rt: &HostRuntime) -> anyhow::Result<()> {
    let mut input = Vec::new(rt.alloc());
    rt.stdin().read_to_end(&mut input)?;
    for line in Lines::new(&input) {
        rt.println(answer_line(rt.alloc(), line)?)?;
    }
    Ok(())
}

fn main(rt: HostRuntime) -> anyhow::Result<()> {
    run(&rt)
}

// A pile on a chip, and the chip's whole memory once the pile is taken apart.
#![tactic(auto)]

ghost use Rattle.std.specs.Prelude.{◌≡◌, length};
ghost use Rattle.refusal.specs.Refusals.{answer};
ghost use Rattle.store.specs.Stores.{write_answer};
ghost use Rattle.chip.specs.Meant.{meant};
ghost use Rattle.window.specs.Windows.{window};
ghost use Rattle.sealed.specs.Overs.{layer};
ghost use Rattle.piles.specs.Memory.{bytes_left, lives_left};

use chip::{Cells, Chip};
use layer::Layer;
use mode::Mode;
use refusal::Refusal;
use store::read_again;
use window::Window;

// Writes one sector through a sealing layer over a window over a chip, reads it again, and gives the chip back. The calls on the pile go through
// a function that knows nothing but that it is a store; all the same the chip's whole memory is known at the end, also outside the window and
// beyond the last sector. The chip comes back beside the outcome, since it is owed after a refusal too.
pub fn write_through<C: Cells, M: Mode + Drop>(
    chip: Chip<C>,
    first: usize,
    count: usize,
    mode: M,
    sector: usize,
    buffer: &mut [u8],
) -> (Chip<C>, Result<(), Refusal>)
    ensures reply { answer result.1 ≡ write_answer (layer (window (meant chip) first count) (M.Mode.sealing mode)) sector (length buffer.old) }
    ensures size { result.0.size.bytes ≡ chip.size.bytes }
    ensures bytes { result.0.bytes.items ≡ bytes_left (meant chip) first count (M.Mode.sealing mode) sector buffer.old chip.bytes.items }
    ensures lives { result.0.lives.items ≡ lives_left (meant chip) first count (M.Mode.sealing mode) sector buffer.old chip.lives.items }
    ensures buffer { buffer.new ≡ buffer.old }
{
    let mut pile = Layer::new(Window::new(chip, first, count), mode);
    let outcome = read_again(&mut pile, sector, buffer);
    let (window, _) = pile.into_parts();
    (window.into_below(), outcome)
}

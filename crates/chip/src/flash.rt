// A flash chip: its cells alter only by an erase of the whole sector and by programming, which clears bits and sets none.
ghost use Rattle.std.specs.Prelude.{◌≡◌, length, replicate};
ghost use Rattle.chip_math.specs.Chips.{programmed};

use crate::{Cells, Chip};

// What an erased byte holds: every bit set.
const ERASED: u8 = 0xff;

#[derive(Clone, Copy, Debug, Default)]
pub struct FlashCells;

pub type Flash = Chip<FlashCells>;

fn erase(sector: &mut [u8])
    ensures { sector.new ≡ replicate (length sector.old) 255 }
{
    sector.fill(ERASED);
}

// Clears bits and sets none, so that only erased cells take any bytes. What goes beyond the sector is not programmed.
fn program(sector: &mut [u8], bytes: &[u8])
    ensures clears { sector.new ≡ programmed sector.old bytes.now }
    ensures fills { sector.old ≡ replicate (length bytes.now) 255 → sector.new ≡ bytes.now }
{
    // by place: of what is written through a `zip` over `iter_mut`, a proof knows nothing afterwards
    for (i, old) in sector.iter_mut().enumerate() {
        if let Some(new) = bytes.get(i) {
            *old &= *new;
        }
    }
}

impl Cells for FlashCells {
    fn rewrite(&self, sector: &mut [u8], bytes: &[u8]) {
        if sector.len() == bytes.len() {
            erase(sector);
            program(sector, bytes);
        }
    }
}

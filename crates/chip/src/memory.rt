// The memory of a chip: taken at its making, given back at its end.
ghost use Rattle.std.specs.Prelude.{◌≡◌};
ghost use Rattle.chip_math.specs.Chips.{Laid, chip};
ghost use Rattle.chip.specs.Meant.{meant};

use crate::{Cells, Chip};
use store::SectorSize;

impl<C: Cells + Default> Chip<C> {
    // A chip over the memory, which it takes as it is.
    pub fn new(size: SectorSize, bytes: Vec<u8>, lives: Vec<u32>) -> Self
        ensures size { result.size ≡ size }
        ensures bytes { result.bytes.items ≡ bytes.items }
        ensures lives { result.lives.items ≡ lives.items }
        ensures meaning { meant result ≡ chip size.bytes bytes.items lives.items }
        ensures laid { Laid size.bytes bytes.items lives.items (meant result) }
    {
        Chip {
            cells: C::default(),
            size,
            bytes,
            lives,
        }
    }
}

impl<C: Cells> Chip<C> {
    // The memory, given back.
    pub fn into_parts(self) -> (Vec<u8>, Vec<u32>)
        ensures bytes { result.0.items ≡ self.bytes.items }
        ensures lives { result.1.items ≡ self.lives.items }
    {
        let Chip {
            cells: _,
            size: _,
            bytes,
            lives,
        } = self;
        (bytes, lives)
    }
}

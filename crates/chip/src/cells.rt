// How a sector's cells take new bytes: the one thing in which the two chips differ.
ghost use Rattle.std.specs.Prelude.{◌≡◌};
ghost use Rattle.chip_math.specs.Chips.{rewritten};

pub trait Cells: Drop {
    // The sector becomes the bytes; where the lengths differ, it stays as it was.
    fn rewrite(&self, sector: &mut [u8], bytes: &[u8])
        ensures { sector.new ≡ rewritten sector.old bytes.now };
}

// Sector sizes.
ghost use Rattle.std.specs.Prelude.{◌≡◌, true, IfOk};
ghost use Rattle.mode.specs.Modes.{sector_size};
ghost use Rattle.refusal.specs.Refusals.{answer};
ghost use Rattle.store.specs.Sizes.{size_answer};

use mode::is_sector_size;
use refusal::Refusal;

// A multiple of 16 from 32 to 4,096: no other can be made.
#[derive(Clone, Copy, Debug, PartialEq, Eq)]
pub struct SectorSize {
    bytes: usize,
    ghost sized: { sector_size bytes ≡ true },
}

impl SectorSize {
    // The size of that many bytes; 4 where it is no sector size. A maker and its reader are `new` and `bytes`, as NonZero has `new` and `get`.
    pub fn new(bytes: usize) -> Result<SectorSize, Refusal>
        ensures reply { answer result ≡ size_answer bytes }
        ensures value { IfOk result (λ s. s.bytes ≡ bytes) }
    {
        if is_sector_size(bytes) {
            Ok(SectorSize { bytes })
        } else {
            Err(Refusal::Size)
        }
    }

    pub fn bytes(self) -> usize
        ensures { result ≡ self.bytes }
    {
        self.bytes
    }
}

// The chips: EEPROM and flash, over bytes and lives that they are handed and give back.
#![tactic(auto)]

mod cells;
mod eeprom;
mod flash;
mod memory;
mod sectors;

ghost use Rattle.std.specs.Prelude.{ℕ, ◌^◌, ◌<◌, slice_index};

pub use cells::Cells;
pub use eeprom::{Eeprom, EepromCells};
pub use flash::{Flash, FlashCells};
use store::SectorSize;

// Sector k is the bytes from k times the sector size on. Its life is life k, the number of writes that it still bears.
// What lies beyond the last sector, in the bytes or in the lives, is never touched.
#[derive(Drop)]
pub struct Chip<C: Cells> {
    cells: C,
    size: SectorSize,
    // two memories, as they are handed in and given back: a dock copies the bytes alone
    bytes: Vec<u8>,
    lives: Vec<u32>,
    ghost bytes_fit: { ((i : ℕ) → slice_index bytes.items i < 256) },
    ghost lives_fit: { ((i : ℕ) → slice_index lives.items i < 2 ^ 32) },
}

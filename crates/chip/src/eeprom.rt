// An EEPROM chip: its cells take new bytes as they are.
use crate::{Cells, Chip};

#[derive(Clone, Copy, Debug, Default)]
pub struct EepromCells;

pub type Eeprom = Chip<EepromCells>;

impl Cells for EepromCells {
    fn rewrite(&self, sector: &mut [u8], bytes: &[u8]) {
        if sector.len() == bytes.len() {
            sector.copy_from_slice(bytes);
        }
    }
}

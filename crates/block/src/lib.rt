// Blocks of sixteen bytes. A block is one number, its first byte the highest, so that Num(i) is i and XOR is one `^`.
// Every byte order of the library is decided here: what reads the lowest byte first goes through `swap`.
#![tactic(auto)]

ghost use Rattle.std.specs.Prelude.{◌≡◌};
ghost use Rattle.std.specs.Int.Digits.{AllBelowBase};
ghost use Rattle.block.specs.Blocks.{to_bytes, to_block, loaded, stored, swapped, tweak};

pub type Block = u128;

// The length of a block in bytes.
pub const BLOCK: usize = 16;

// `Block` is `u128` itself, so its conversions are functions; a `From` would ask for a type around the number.
#[tactic(auto, using(crate::proofs::Bytes::number_16), unfolding(crate::specs::Blocks::to_block))]
pub fn from_bytes(bytes: [u8; BLOCK]) -> Block
    ensures { result ≡ to_block bytes }
{
    u128::from_be_bytes(bytes)
}

#[tactic(auto, unfolding(crate::specs::Blocks::to_bytes))]
pub fn to_bytes(block: Block) -> [u8; BLOCK]
    ensures { result ≡ to_bytes block }
{
    block.to_be_bytes()
}

// The block that a part of a string holds, or 0 where the part is not one block long.
#[tactic(auto, unfolding(crate::specs::Blocks::loaded))]
pub fn load(part: &[u8]) -> Block
    ensures { result ≡ loaded part.now }
{
    match <[u8; BLOCK]>::try_from(part) {
        Ok(bytes) => from_bytes(bytes),
        Err(_) => 0,
    }
}

// Writes the block over a part of a string; a part that is not one block long stays as it is.
#[tactic(auto, unfolding(crate::specs::Blocks::stored))]
pub fn store(part: &mut [u8], block: Block)
    ensures { part.new ≡ stored part.old block }
{
    if part.len() == BLOCK {
        part.copy_from_slice(&to_bytes(block));
    }
}

// The elements of a byte slice are bytes: for proofs about the slice as it was handed in.
pub fn known_bytes(s: &[u8])
    ensures { AllBelowBase 256 s.now }
{
    let _n = s.is_empty();
}

// The block with its bytes in the other order.
pub fn swap(block: Block) -> Block
    ensures { result ≡ swapped block }
{
    block.swap_bytes()
}

// The tweak of a sector: its number in 16 bytes, the lowest byte first.
pub fn sector_tweak(sector: u64) -> Block
    ensures { result ≡ tweak sector }
{
    swap(u128::from(sector))
}

// Sealed sectors below, plain ones above: what a sealing layer and a change-over share. The lemmas stand over any choice of a lawful mode for
// each sector.
#![tactic(auto)]

mod scratch;

ghost use Rattle.std.specs.Prelude.{◌≡◌, length};
ghost use Rattle.block.specs.Blocks.{tweak};
ghost use Rattle.mode.specs.Modes.{opened_or, sealed_or};
ghost use Rattle.refusal.specs.Refusals.{answer};
ghost use Rattle.sealed.specs.Overs.{SaysAll, after_sealing, layer, layer_answer, sealing_answer};
ghost use Rattle.store.specs.Stores.{after_read, read_answer};

use block::sector_tweak;
use mode::Mode;
use refusal::Refusal;
pub use scratch::Scratch;
use store::Store;

// Opens a sector in place, under its number; 9 where the mode turns its length down. Opening and sealing stay a pair of calls, as in the mode's trait;
// mode, sector and bytes stay three arguments, since a struct for them would be made at each call and taken apart in it.
pub fn open_sector<M: Mode>(mode: &M, sector: usize, bytes: &mut [u8]) -> Result<(), Refusal>
    ensures reply { answer result ≡ layer_answer (length bytes.old) }
    ensures bytes { bytes.new ≡ opened_or (M.Mode.sealing mode.now) (tweak sector) bytes.old }
{
    mode.open(sector_tweak(sector as u64), bytes)
        .map_err(|_| Refusal::Layer)
}

// Seals a sector in place, under its number; 9 where the mode turns its length down.
pub fn seal_sector<M: Mode>(mode: &M, sector: usize, bytes: &mut [u8]) -> Result<(), Refusal>
    ensures reply { answer result ≡ layer_answer (length bytes.old) }
    ensures bytes { bytes.new ≡ sealed_or (M.Mode.sealing mode.now) (tweak sector) bytes.old }
{
    mode.seal(sector_tweak(sector as u64), bytes)
        .map_err(|_| Refusal::Layer)
}

// Reads a sealed sector and opens it in the buffer; 3, 2, 9.
#[tactic(auto, using(store::proofs::Placed::in_places))]
pub fn read_and_open<S: Store, M: Mode>(
    store: &S,
    mode: &M,
    sector: usize,
    buffer: &mut [u8],
) -> Result<(), Refusal>
    ensures reply { answer result ≡ read_answer (layer (S.Store.meaning store.now) (M.Mode.sealing mode.now)) sector (length buffer.old) }
    ensures bytes { buffer.new ≡ after_read (layer (S.Store.meaning store.now) (M.Mode.sealing mode.now)) sector buffer.old }
{
    store.read(sector, buffer)?;
    open_sector(mode, sector, buffer)
}

// Seals what the working bytes hold and writes it below; they hold the sealed sector then. 9 comes before what the write below answers, so a
// caller tests for 3, 2 and 7 first.
pub fn seal_and_write<S: Store, M: Mode>(
    store: &mut S,
    mode: &M,
    sector: usize,
    work: &mut [u8],
) -> Result<(), Refusal>
    ensures reply { answer result ≡ sealing_answer (S.Store.meaning store.old) (M.Mode.sealing mode.now) sector work.old }
    ensures after { S.Store.meaning store.new ≡ after_sealing (S.Store.meaning store.old) (M.Mode.sealing mode.now) sector work.old }
    ensures bytes { work.new ≡ sealed_or (M.Mode.sealing mode.now) (tweak sector) work.old }
{
    seal_sector(mode, sector, work)?;
    store.write(sector, work)
}

// What a layer means says all of its mode and of the store below.
pub fn layers_stand()
    ensures { SaysAll }
{}

// A sealing layer: any mode over any store. Its sector k is sector k below, opened under tweak k; size, count and lives are those below.
// It is a store again. Each call that writes seals in working bytes of the layer, so nothing is allocated.
#![tactic(auto)]

ghost use Rattle.std.specs.Prelude.{◌≡◌};
ghost use Rattle.sealed.specs.Overs.{layer};
ghost use Rattle.sealed.proofs.Layers.{layer_sound};

use mode::Mode;
use refusal::Refusal;
use sealed::{Scratch, read_and_open, seal_and_write};
use store::{Store, check_write};

#[derive(Drop)]
pub struct Layer<S: Store, M: Mode> {
    store: S,
    mode: M,
    // the only thing that no contract pins
    scratch: Scratch,
}

impl<S: Store, M: Mode> Layer<S, M> {
    pub fn new(store: S, mode: M) -> Self
        ensures store { result.store ≡ store }
        ensures mode { result.mode ≡ mode }
    {
        Layer {
            store,
            mode,
            scratch: Scratch::new(),
        }
    }

    // The sealed store below, for reading: what a dock copies.
    pub fn below(&self) -> &S
        ensures { result.now ≡ self.now.store }
    {
        &self.store
    }

    // The sealed store below and the mode, given back.
    pub fn into_parts(self) -> (S, M)
        ensures { (result.0 ≡ self.store) × (result.1 ≡ self.mode) }
    {
        let Layer {
            store,
            mode,
            scratch: _,
        } = self;
        (store, mode)
    }
}

impl<S: Store, M: Mode> Store for Layer<S, M> {
    ghost meaning = { λ l. layer (S.Store.meaning l.store) (M.Mode.sealing l.mode) };

    ghost sound = { λ l. layer_sound (S.Store.meaning l.store) (M.Mode.sealing l.mode) (S.Store.sound l.store) (M.Mode.lawful l.mode) };

    fn size(&self) -> usize {
        self.store.size()
    }

    #[tactic(auto, using(store::proofs::Placed::in_places))]
    fn count(&self) -> usize {
        self.store.count()
    }

    #[tactic(auto, using(store::proofs::Placed::in_places))]
    fn life(&self, sector: usize) -> Result<u32, Refusal> {
        self.store.life(sector)
    }

    fn read(&self, sector: usize, buffer: &mut [u8]) -> Result<(), Refusal> {
        read_and_open(&self.store, &self.mode, sector, buffer)
    }

    #[tactic(auto, using(store::proofs::Placed::in_places))]
    fn write(&mut self, sector: usize, buffer: &[u8]) -> Result<(), Refusal> {
        check_write(&self.store, sector, buffer.len())?;
        let part = self.scratch.filled(buffer);
        seal_and_write(&mut self.store, &self.mode, sector, part)
    }
}

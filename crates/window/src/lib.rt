// A window over any store: its sector k is sector first + k below. It is a store again.
#![tactic(auto)]

ghost use Rattle.std.specs.Prelude.{◌≡◌, ◌+◌, IfOk};
ghost use Rattle.refusal.specs.Refusals.{answer};
ghost use Rattle.store.specs.Stores.{count as sectors_of};
ghost use Rattle.window.specs.Windows.{count_of, first_of, place_answer, window};
ghost use Rattle.window.specs.Windowed.{window_sound};

use refusal::Refusal;
use store::Store;

#[derive(Drop)]
pub struct Window<S: Store> {
    store: S,
    // as handed: both are cut to what is below at each call
    first: usize,
    count: usize,
}

impl<S: Store> Window<S> {
    // A first sector above the count below stands as that count, and the count is cut to what is left from there.
    pub fn new(store: S, first: usize, count: usize) -> Self
        ensures store { result.store ≡ store }
        ensures first { result.first ≡ first }
        ensures count { result.count ≡ count }
    {
        Window {
            store,
            first,
            count,
        }
    }

    // The store below, for reading.
    pub fn below(&self) -> &S
        ensures { result.now ≡ self.now.store }
    {
        &self.store
    }

    // The store below, given back.
    pub fn into_below(self) -> S
        ensures { result ≡ self.store }
    {
        let Window {
            store,
            first: _,
            count: _,
        } = self;
        store
    }

    // The first sector and the count, cut to the sectors below.
    fn bounds(&self) -> (usize, usize)
        ensures first { result.0 ≡ first_of (sectors_of (S.Store.meaning self.now.store)) self.now.first }
        ensures count { result.1 ≡ count_of (sectors_of (S.Store.meaning self.now.store)) self.now.first self.now.count }
    {
        let all = self.store.count();
        let first = self.first.min(all);
        (first, self.count.min(all - first))
    }

    // Where a sector of the window lies below; 3 where the window has no such sector.
    fn place(&self, sector: usize) -> Result<usize, Refusal>
        ensures reply { answer result ≡ place_answer (sectors_of (S.Store.meaning self.now.store)) self.now.first self.now.count sector }
        ensures value { IfOk result (λ n. n ≡ first_of (sectors_of (S.Store.meaning self.now.store)) self.now.first + sector) }
    {
        let (first, count) = self.bounds();
        if sector < count {
            Ok(first + sector)
        } else {
            Err(Refusal::Absent)
        }
    }
}

impl<S: Store> Store for Window<S> {
    ghost meaning = { λ w. window (S.Store.meaning w.store) w.first w.count };

    ghost sound = { λ w. window_sound (S.Store.meaning w.store) w.first w.count (S.Store.sound w.store) };

    fn size(&self) -> usize {
        self.store.size()
    }

    #[tactic(auto, using(store::proofs::Placed::in_places))]
    fn count(&self) -> usize {
        let (_, count) = self.bounds();
        count
    }

    #[tactic(auto, using(store::proofs::Placed::in_places))]
    fn life(&self, sector: usize) -> Result<u32, Refusal> {
        let place = self.place(sector)?;
        self.store.life(place)
    }

    #[tactic(auto, using(store::proofs::Placed::in_places))]
    fn read(&self, sector: usize, buffer: &mut [u8]) -> Result<(), Refusal> {
        let place = self.place(sector)?;
        self.store.read(place, buffer)
    }

    #[tactic(auto, using(store::proofs::Placed::in_places))]
    fn write(&mut self, sector: usize, buffer: &[u8]) -> Result<(), Refusal> {
        let place = self.place(sector)?;
        self.store.write(place, buffer)
    }
}

// The working bytes of a layer.
ghost use Rattle.std.specs.Prelude.{◌≡◌, replicate, take};

// The bytes of the largest sector.
const LARGEST: usize = 4096;

// Room for one sector of any size. What it holds between two calls is open: it is no part of any meaning.
#[derive(Drop)]
pub struct Scratch {
    // in the layer itself, since a layer allocates nothing
    bytes: [u8; LARGEST],
}

impl Scratch {
    pub fn new() -> Scratch
        ensures { result.bytes ≡ replicate 4096 0 }
    {
        Scratch {
            bytes: [0; LARGEST],
        }
    }

    // A copy, for calls below that need the whole layer besides.
    pub fn copied(&self) -> [u8; LARGEST]
        ensures { result ≡ self.now.bytes }
    {
        self.bytes
    }

    // Writes a copy back.
    pub fn keep(&mut self, bytes: [u8; LARGEST])
        ensures { self.new.bytes ≡ bytes }
    {
        *self = Scratch { bytes };
    }

    // Takes in a copy of the bytes, up to the largest sector, and lends it for the calls below.
    #[tactic(auto, using(std::proofs::lemmas::List::take_min))]
    pub fn filled(&mut self, bytes: &[u8]) -> &mut [u8]
        ensures { result.now ≡ take 4096 bytes.now }
    {
        let len = LARGEST.min(bytes.len());
        let part = &mut self.bytes[..len];
        part.copy_from_slice(&bytes[..len]);
        part
    }
}

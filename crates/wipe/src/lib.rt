// Working bytes that are handed in, and cleared at every end of the call that uses them.
#![tactic(auto)]

ghost use Rattle.std.specs.Prelude.{◌≡◌, length, replicate};

// Holds only the handed bytes, and clears them when it goes.
pub struct Wipe<'a>(pub &'a mut [u8]);

impl Drop for Wipe<'_> {
    fn drop(self)
        ensures { self.exit.0.now ≡ replicate (length self.entry.0.now) 0 }
    {
        self.0.fill(0);
        let Wipe(_) = self;
    }
}

// Takes the bytes for writing and lends them on, so that a guard still holds them once the calls that fill them are done.
pub fn lend<'a>(bytes: &'a mut [u8]) -> &'a mut [u8]
    ensures { result.now ≡ bytes.old }
{
    bytes
}

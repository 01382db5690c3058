// A walk whose calls may answer more than one thing: a relation says what, as of a closure's calls.
ghost use Rattle.std.specs.Prelude.{◌≡◌, ℕ};
ghost use Rattle.mode.specs.Walks.{Answers, AnswersBoth, walked};

use block::{BLOCK, Block, load, store};

// What may become of the blocks of a text, one after the other; a `Walk` says what does.
pub trait Turns {
    // of a block, in a state
    ghost turns: { Self → ℕ → ℕ → ℕ → Type 0 };

    // of a state
    ghost steps: { Self → ℕ → ℕ → Type 0 };

    fn turn(&self, state: Block, block: Block) -> Block
        ensures { turns self.now state block result };

    fn step(&self, state: Block) -> Block
        ensures { steps self.now state result };
}

// Each whole block of a text is turned, in place, from the state `start` on. Where functions say what the calls answer, they say what the text becomes.
pub fn walk_turns<T: Turns>(walk: &T, start: Block, text: &mut [u8])
    ensures { (g : ℕ → ℕ → ℕ) (h : ℕ → ℕ) → AnswersBoth (T.turns walk.now) g → Answers (T.steps walk.now) h → text.new ≡ walked g h start text.old }
{
    let mut state = start;
    // By index, as in `walk_blocks`.
    for i in 0..text.len() / BLOCK {
        let at = BLOCK * i;
        let part = &mut text[at..at + BLOCK];
        let block = walk.turn(state, load(part));
        store(part, block);
        state = walk.step(state);
    }
}

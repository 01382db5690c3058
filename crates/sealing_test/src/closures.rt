//! Two closures over the blocks of a text, as a crate above `mode` walks it by them. No public function asks that a closure may be called: a type
//! carries it, here `Ready`.
ghost use Rattle.std.specs.Prelude.{◌≡◌, ℕ};
ghost use Rattle.mode.specs.Walks.{Answers, AnswersBoth, walked};

use block::Block;
use mode::{Turns, walk_turns};
use std::marker::Model;

// The two calls behind a trait: what a type's invariant can't cite of a closure yet, it can of a trait's member.
trait Calls {
    ghost callable: { Self → Type 0 };

    ghost turns: { Self → ℕ → ℕ → ℕ → Type 0 };

    ghost steps: { Self → ℕ → ℕ → Type 0 };

    fn call_turn(&self, state: Block, block: Block) -> Block
        requires { callable self.now }
        ensures { turns self.now state block result };

    fn call_step(&self, state: Block) -> Block
        requires { callable self.now }
        ensures { steps self.now state result };
}

#[derive(Drop)]
struct Closures<F, N> {
    turn: F,
    step: N,
}

impl<F: Fn(Block, Block) -> Block, N: Fn(Block) -> Block> Calls for Closures<F, N> {
    ghost callable = { λ c. F.IsAlwaysCallable c.turn × N.IsAlwaysCallable c.step };

    ghost turns = { λ c s b r. F.post c.turn s b r };

    ghost steps = { λ c s r. N.post c.step s r };

    fn call_turn(&self, state: Block, block: Block) -> Block {
        (self.turn)(state, block)
    }

    fn call_step(&self, state: Block) -> Block {
        (self.step)(state)
    }
}

// Calls that may be made.
#[derive(Drop)]
struct Ready<C: Calls> {
    calls: C,
}

impl<C: Calls> Model for Ready<C> {
    ghost Value = { C };

    ghost view = { λ r. r.calls };

    ghost invariant = { λ r. C.callable r.calls };
}

impl<C: Calls> Turns for Ready<C> {
    ghost turns = { λ w s b r. C.turns w s b r };

    ghost steps = { λ w s r. C.steps w s r };

    fn turn(&self, state: Block, block: Block) -> Block {
        self.calls.call_turn(state, block)
    }

    fn step(&self, state: Block) -> Block {
        self.calls.call_step(state)
    }
}

fn walk_calls<C: Calls + Drop>(calls: C, start: Block, text: &mut [u8])
    requires { C.callable calls }
    ensures { (g : ℕ → ℕ → ℕ) (h : ℕ → ℕ) → AnswersBoth (C.turns calls) g → Answers (C.steps calls) h → text.new ≡ walked g h start text.old }
{
    walk_turns(&Ready { calls }, start, text);
}

// Each whole block b of a text becomes f(s, b), in place, where the state s begins as `start` and `next` steps it from block to block.
fn walk_closures<F: Fn(Block, Block) -> Block, N: Fn(Block) -> Block>(
    text: &mut [u8],
    start: Block,
    f: F,
    next: N,
)
    requires turns { F.IsAlwaysCallable f }
    requires steps { N.IsAlwaysCallable next }
    ensures { (g : ℕ → ℕ → ℕ) (h : ℕ → ℕ) → AnswersBoth (F.post f) g → Answers (N.post next) h → text.new ≡ walked g h start text.old }
{
    let calls = Closures {
        turn: f,
        step: next,
    };
    walk_calls(calls, start, text);
}

// Blocks 7 .. 7 in states 1, 2 and 3, and eight bytes that are no block.
#[test]
fn closures_walk_the_whole_blocks(rt: HostRuntime) {
    let mut text = [7; 56];
    let key = 0x10;
    walk_closures(
        &mut text,
        1,
        |s, b| b ^ s.wrapping_add(s) ^ key,
        |s| s.wrapping_add(1),
    );
    let mut walked = [7; 56];
    walked[15] = 7 ^ 2 ^ 0x10;
    walked[31] = 7 ^ 4 ^ 0x10;
    walked[47] = 7 ^ 6 ^ 0x10;
    assert!(rt; text == walked);
}

#[test]
fn less_than_a_block_stays(rt: HostRuntime) {
    let mut text = [7; 15];
    walk_closures(&mut text, 1, |s, b| s ^ b, |s| s);
    assert!(rt; text == [7; 15]);
}

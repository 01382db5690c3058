// Carrying a request out with the library. What is answered is what the definitions say of the request.
ghost use Rattle.std.specs.Prelude.{◌≡◌};
ghost use Rattle.keys.specs.Cards.{whole_key};
ghost use Rattle.kat.specs.Outcomes.{cards_outcome, outcome, shown, task_outcome, text_outcome, turned};

use super::request::{CipherName, Passage, Request, Task, Way};
use aes::Aes128;
use block::{Block, known_bytes};
use cipher::Cipher;
use field::{HashKey, multiply};
use keys::{HalfKey, WholeKey};
use mode::Keyed;
use refusal::Refusal;
use speck::Speck128;
use xcb::Xcb;
use xts::{Xts, double};

#[derive(Drop)]
pub enum Reply {
    Block(Block),
    Text(Vec<u8>),
}

// A vector gives its key outright, and the zero key among them has no cards.
fn key_of(block: Block) -> WholeKey
    ensures { result ≡ whole_key block }
{
    WholeKey::without_cards(block)
}

fn turn_block<C: Cipher + Drop>(key: C::Key, block: Block, way: Way) -> Block
    ensures { result ≡ turned way (C.sealed key block) (C.opened key block) }
{
    let cipher = C::new(key);
    match way {
        Way::Seal => cipher.seal(block),
        Way::Open => cipher.open(block),
    }
}

fn turn_text<M: Keyed + Drop>(keys: M::Keys, passage: Passage) -> Result<Reply, Refusal>
    ensures { shown result ≡ text_outcome (M.made keys) passage }
{
    let mode = M::from_keys(keys);
    let Passage {
        tweak,
        mut text,
        way,
    } = passage;
    match way {
        Way::Seal => mode.seal(tweak, text.as_mut_slice()),
        Way::Open => mode.open(tweak, text.as_mut_slice()),
    }?;
    Ok(Reply::Text(text))
}

#[tactic(auto, unfolding(crate::specs::Outcomes::task_outcome))]
fn by_cipher<C: Cipher<Key = WholeKey> + Drop>(task: Task) -> Result<Reply, Refusal>
    ensures { shown result ≡ task_outcome C.Cipher task }
{
    match task {
        Task::Block { key, block, way } => {
            Ok(Reply::Block(turn_block::<C>(key_of(key), block, way)))
        }
        Task::Xts {
            first,
            second,
            passage,
        } => turn_text::<Xts<C>>((key_of(first), key_of(second)), passage),
        Task::Xcb { key, passage } => turn_text::<Xcb<C>>(key_of(key), passage),
    }
}

fn lay_cards(first: &[u8], second: &[u8]) -> Result<Reply, Refusal>
    ensures { shown result ≡ cards_outcome first.now second.now }
{
    known_bytes(first);
    known_bytes(second);
    let key = HalfKey::first_card(first)?.second_card(second)?;
    Ok(Reply::Block(key.into_block()))
}

pub(crate) fn carry_out(request: Request) -> Result<Reply, Refusal>
    ensures { shown result ≡ outcome request }
{
    match request {
        Request::Cipher(CipherName::Aes128, task) => by_cipher::<Aes128>(task),
        Request::Cipher(CipherName::Speck, task) => by_cipher::<Speck128>(task),
        Request::Product(x, y) => Ok(Reply::Block(multiply(x, y))),
        Request::Hash(h, blocks) => Ok(Reply::Block(HashKey::new(h).hash(&blocks))),
        Request::Double(mask) => Ok(Reply::Block(double(mask))),
        Request::Cards(first, second) => lay_cards(&first, &second),
    }
}

// Key cards. A card is 16 bytes; the first card makes a half key, and the second turns that into a whole key by XOR, byte by byte.
// Neither key can be copied, and no call reads a half key: a cipher can be had from a whole key alone.
#![tactic(auto)]

ghost use Rattle.std.specs.Prelude.{◌≡◌, length, MatchOption, ◌≢◌};
ghost use Rattle.keys.specs.Cards.{Card, LaidFirst, LaidSecond, whole_key};

use block::{Block, from_bytes, known_bytes};
use refusal::Refusal;

// What one card makes: half of the way to a key.
#[derive(Drop)]
pub struct HalfKey {
    card: u128,
}

// What two cards make, as a block: the key of a cipher.
#[derive(Drop)]
pub struct WholeKey {
    value: u128,
}

// A second card that was refused: why, and the half key, so that another card can be laid on it.
#[derive(Drop)]
pub struct RefusedCard {
    pub half: HalfKey,
    pub refusal: Refusal,
}

impl From<RefusedCard> for Refusal {
    ghost from_gives = { λ card refusal. refusal ≡ card.refusal };

    fn from(card: RefusedCard) -> Refusal {
        card.refusal
    }
}

// A card's bytes as a block, if it is a card.
fn read_card(card: &[u8]) -> Option<Block>
    ensures { MatchOption result (length card.now ≢ 16) (λ n. Card card.now n) }
{
    let bytes = <[u8; 16]>::try_from(card).ok()?;
    known_bytes(card);
    Some(from_bytes(bytes))
}

impl HalfKey {
    pub fn first_card(card: &[u8]) -> Result<HalfKey, Refusal>
        ensures { LaidFirst card.now result }
    {
        let card = read_card(card).ok_or(Refusal::NotACard)?;
        Ok(HalfKey { card })
    }

    fn refused(self, refusal: Refusal) -> RefusedCard
        ensures half { result.half ≡ self }
        ensures refusal { result.refusal ≡ refusal }
    {
        RefusedCard {
            half: self,
            refusal,
        }
    }

    // The whole key; a refused card hands the half key back.
    pub fn second_card(self, card: &[u8]) -> Result<WholeKey, RefusedCard>
        ensures { LaidSecond self card.now result }
    {
        // `ok_or` would take the half key away before it is known whether there is an error to carry it.
        let Some(second) = read_card(card) else {
            return Err(self.refused(Refusal::NotACard));
        };
        if second == self.card {
            return Err(self.refused(Refusal::SameCard));
        }
        Ok(WholeKey {
            value: self.card ^ second,
        })
    }
}

impl WholeKey {
    // The one way to a key that no cards made: for a mode that draws its keys from what a cipher seals, and for known-answer tests.
    pub fn without_cards(block: Block) -> WholeKey
        ensures { result ≡ whole_key block }
    {
        WholeKey { value: block }
    }

    // The key as a block, for a cipher that expands it.
    pub fn into_block(self) -> Block
        ensures { result ≡ self.value }
    {
        let WholeKey { value } = self;
        value
    }
}

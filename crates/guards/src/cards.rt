// The guards' cards, and the modes of two wands on which the same cards were laid.
ghost use Rattle.std.specs.Prelude.{◌≡◌, IfOk, Ok, ◌≢◌};
ghost use Rattle.refusal.specs.Refusals.{answer};
ghost use Rattle.guards.specs.Shift.{Both, chief, key_with, xcb_card, xts_card, tweak_card};
ghost use Rattle.xcb.specs.Xcb as xcb;
ghost use Rattle.xts.specs.Xts as xts;

use aes::Aes128;
use cipher::Cipher;
use keys::{HalfKey, WholeKey};
use mode::Mode;
use refusal::Refusal;
use xcb::Xcb;
use xts::Xts;

// The chief's card, and what the guard of the shift lays on it for each key.
const CHIEF: [u8; 16] = *b"chief, card 0001";

const GUARD_XCB: [u8; 16] = *b"guard, card 0417";

const GUARD_XTS: [u8; 16] = *b"guard, card 0418";

const GUARD_TWEAK: [u8; 16] = *b"guard, card 0419";

// The modes of two wands, by XCB and by XTS.
#[derive(Drop)]
pub struct Wands {
    pub xcb: (Xcb<Aes128>, Xcb<Aes128>),
    pub xts: (Xts<Aes128>, Xts<Aes128>),
}

// The whole key of the chief's card and a guard's.
fn key(guard: &[u8; 16]) -> Result<WholeKey, Refusal>
    ensures { guard.now ≢ chief → result ≡ Ok (key_with guard.now) }
{
    Ok(HalfKey::first_card(&CHIEF)?.second_card(guard)?)
}

// A key cannot be copied, so the cards are laid once for each wand.
pub fn lay_cards() -> Result<Wands, Refusal>
    ensures reply { answer result ≡ 0 }
    ensures xcb { IfOk result (λ w. Both (⟦<Xcb<Aes128> as Mode>⟧.sealing) w.xcb (xcb.xcb ⟦<Aes128 as Cipher>⟧ (key_with xcb_card))) }
    ensures xts { IfOk result (λ w. Both (⟦<Xts<Aes128> as Mode>⟧.sealing) w.xts (xts.xts ⟦<Aes128 as Cipher>⟧ (key_with xts_card) (key_with tweak_card))) }
{
    Ok(Wands {
        xcb: xcb::new_pair(key(&GUARD_XCB)?, key(&GUARD_XCB)?),
        xts: xts::new_pair(
            key(&GUARD_XTS)?,
            key(&GUARD_TWEAK)?,
            key(&GUARD_XTS)?,
            key(&GUARD_TWEAK)?,
        ),
    })
}

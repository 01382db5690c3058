//! Cards, ciphers and modes on examples: refusals, edges, and keys that no card can make.
#![tactic(auto)]

#[cfg(test)]
mod closures;

#[cfg(test)]
mod tests {
    use aes::Aes128;
    use block::{sector_tweak, to_bytes};
    use cipher::Cipher;
    use keys::{HalfKey, RefusedCard, WholeKey};
    use mode::{Mode, is_sector_size, opened_again, permits, sealed_again};
    use refusal::Refusal;
    use speck::Speck128;
    use std::test::Fail;
    use xcb::Xcb;
    use xts::Xts;

    fn xcb(key: u128) -> Xcb<Aes128> {
        Xcb::new(WholeKey::without_cards(key))
    }

    fn xts(first: u128, second: u128) -> Xts<Speck128> {
        Xts::new(
            WholeKey::without_cards(first),
            WholeKey::without_cards(second),
        )
    }

    #[test]
    fn two_cards_make_their_xor(rt: HostRuntime) -> Result<(), Fail> {
        let half = HalfKey::first_card(&[0x0f; 16])?;
        let key = half.second_card(&[0xf0; 16]).map_err(Refusal::from)?;
        assert_eq!(rt; key.into_block(), u128::MAX);
        Ok(())
    }

    #[test]
    fn a_card_has_16_bytes(rt: HostRuntime) {
        assert_eq!(rt;
            HalfKey::first_card(&[1; 15]).err(),
            Some(Refusal::NotACard)
        );
        assert_eq!(rt;
            HalfKey::first_card(&[1; 17]).err(),
            Some(Refusal::NotACard)
        );
        assert_eq!(rt; HalfKey::first_card(&[]).err(), Some(Refusal::NotACard));
    }

    // A refused second card hands the half key back, and another card can be laid on it.
    #[test]
    fn a_refused_card_hands_the_half_key_back(rt: HostRuntime) -> Result<(), Fail> {
        let half = HalfKey::first_card(&[7; 16])?;
        // the error is what is wanted here, so there is none for `?` to hand on
        let Err(RefusedCard { half, refusal }) = half.second_card(&[7; 15]) else {
            return Err(Fail::new("a short card was taken"));
        };
        assert_eq!(rt; refusal, Refusal::NotACard);
        let Err(RefusedCard { half, refusal }) = half.second_card(&[7; 16]) else {
            return Err(Fail::new("the first card was taken again"));
        };
        assert_eq!(rt; refusal, Refusal::SameCard);
        let key = half.second_card(&[0; 16]).map_err(Refusal::from)?;
        assert!(rt; to_bytes(key.into_block()) == [7; 16]);
        Ok(())
    }

    #[test]
    fn refusals_have_their_numbers(rt: HostRuntime) {
        assert_eq!(rt; Refusal::Length.number(), 1);
        assert_eq!(rt; Refusal::NotACard.number(), 5);
        assert_eq!(rt; Refusal::SameCard.number(), 6);
    }

    #[test]
    fn lengths_at_their_limits(rt: HostRuntime) {
        for len in [0, 16, 31, 33, 40, 4095, 4097, 4112] {
            assert!(rt; !permits(len));
            assert!(rt; !is_sector_size(len));
        }
        for len in [32, 48, 512, 4080, 4096] {
            assert!(rt; permits(len));
            assert!(rt; is_sector_size(len));
        }
    }

    #[test]
    fn a_refused_text_stays_as_it_was(rt: HostRuntime) {
        let mut text = [9; 40];
        assert_eq!(rt; xcb(1).seal(0, &mut text).err(), Some(Refusal::Length));
        assert_eq!(rt; xcb(1).open(0, &mut text).err(), Some(Refusal::Length));
        assert_eq!(rt; xts(1, 2).seal(0, &mut text).err(), Some(Refusal::Length));
        assert!(rt; text == [9; 40]);
    }

    // No cards make the zero key; it seals and opens all the same.
    #[test]
    fn the_zero_key_seals_and_opens(rt: HostRuntime) -> Result<(), Fail> {
        let mut text = [0; 64];
        opened_again(&xcb(0), sector_tweak(3), &mut text)?;
        sealed_again(&xcb(0), sector_tweak(3), &mut text)?;
        opened_again(&xts(0, 0), sector_tweak(3), &mut text)?;
        assert!(rt; text == [0; 64]);
        Ok(())
    }

    #[test]
    fn another_tweak_gives_another_text(rt: HostRuntime) -> Result<(), Fail> {
        let mut one = [5; 512];
        let mut other = [5; 512];
        xcb(1).seal(sector_tweak(1), &mut one)?;
        xcb(1).seal(sector_tweak(2), &mut other)?;
        assert!(rt; one != other);
        xcb(1).open(sector_tweak(1), &mut one)?;
        assert!(rt; one == [5; 512]);
        Ok(())
    }

    #[test]
    fn a_tweak_has_its_lowest_byte_first(rt: HostRuntime) {
        assert!(rt; to_bytes(sector_tweak(258)) == *b"\x02\x01\0\0\0\0\0\0\0\0\0\0\0\0\0\0");
    }

    #[test]
    fn ciphers_open_what_they_sealed(rt: HostRuntime) {
        let aes = <Aes128 as Cipher>::new(WholeKey::without_cards(0));
        let speck = <Speck128 as Cipher>::new(WholeKey::without_cards(0));
        for block in [0, 1, u128::MAX] {
            assert_eq!(rt; aes.open(aes.seal(block)), block);
            assert_eq!(rt; aes.seal(aes.open(block)), block);
            assert_eq!(rt; speck.open(speck.seal(block)), block);
            assert_eq!(rt; speck.seal(speck.open(block)), block);
        }
    }
}

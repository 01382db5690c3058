//! Stores on examples: refusals in their order, limits, chips' memory, windows, layers with outside bytes, and a deep pile.
#![tactic(auto)]

#[cfg(test)]
mod tests {
    use aes::Aes128;
    use chip::{Eeprom, Flash};
    use cipher::Cipher;
    use compare::same_sectors;
    use copy::copy_sector;
    use keys::WholeKey;
    use layer::Layer;
    use refusal::Refusal;
    use std::alloc::Global;
    use std::test::Fail;
    use store::{SectorSize, Store};
    use window::Window;
    use xcb::Xcb;
    use xts::Xts;

    // 48 bytes that rise by 7
    const PLAIN: [u8; 48] =
        *b"\x00\x07\x0e\x15\x1c\x23\x2a\x31\x38\x3f\x46\x4d\x54\x5b\x62\x69\x70\x77\x7e\x85\x8c\x93\x9a\xa1\xa8\xaf\xb6\xbd\xc4\xcb\xd2\xd9\xe0\xe7\xee\xf5\xfc\x03\x0a\x11\x18\x1f\x26\x2d\x34\x3b\x42\x49";

    // PLAIN under tweak 258 and under tweak 1, worked out by other programs: XTS with the keys of IEEE 1619's vectors 4 to 9, XCB with the key 00 to 0f
    const XTS_258: [u8; 48] =
        *b"\x55\xaa\x31\x4f\x2f\x4f\x36\x80\xa7\x18\x9c\x47\x2b\xc0\x36\x6d\xd0\xcc\xb3\x57\x15\xc0\x07\x3e\xf3\xa9\xd8\x92\x4e\xef\x6a\x2a\xab\xcd\x7a\x53\x52\x5d\x17\xea\x7e\x0b\x11\xa9\x98\xde\x29\xe4";

    const XCB_258: [u8; 48] =
        *b"\xac\x58\x46\xfc\xc6\x27\xe7\xee\x13\x70\x6b\xc3\x81\xa0\xf5\xe0\x87\xe7\x80\xd6\xed\xf5\xb7\x1d\xfb\xf7\xa2\xff\xee\xf3\x3f\xaf\xf2\x8a\x18\x7a\x3c\xf8\xd6\xdb\x2c\xe6\x99\x8b\x39\xb1\x90\x1d";

    const XTS_1: [u8; 48] =
        *b"\xb1\xee\xfc\x24\xdc\xb8\x42\x47\x10\xf5\x03\xaa\x5e\x44\x80\xa6\xcd\x9d\x5c\xf8\xbe\xdf\x2f\xbb\x23\x21\x8d\xaf\xa6\x08\x13\x8a\x5b\x65\xeb\x5d\xa8\xdb\xb4\x30\x9b\x8d\xad\xd8\x45\xb6\xea\x22";

    // XTS first and then XCB, both under tweak 1
    const XTS_XCB_1: [u8; 48] =
        *b"\x36\x07\xd4\xb1\xf4\x44\x46\x44\xf4\x82\xd4\xbd\x79\xde\x66\x68\xce\xec\xbb\xd3\x9b\x91\x0a\x69\xdf\xf8\x4e\x97\x97\xb9\x9d\x83\xb5\xb1\x45\xdd\x53\xef\x07\xc1\x2c\x8b\x6f\xc5\x4e\xeb\x9b\x0a";

    // How vectors 4 and 5 of IEEE 1619 begin, sealed.
    const VECTOR_4: [u8; 32] =
        *b"\x27\xa7\x47\x9b\xef\xa1\xd4\x76\x48\x9f\x30\x8c\xd4\xcf\xa6\xe2\xa9\x6e\x4b\xbe\x32\x08\xff\x25\x28\x7d\xd3\x81\x96\x16\xe8\x9c";

    const VECTOR_5: [u8; 32] =
        *b"\x26\x4d\x3c\xa8\x51\x21\x94\xfe\xc3\x12\xc8\xc9\x89\x1f\x27\x9f\xef\xdd\x60\x8d\x0c\x02\x7b\x60\x48\x3a\x3f\xa8\x11\xd6\x5e\xe5";

    fn xts() -> Xts<Aes128> {
        Xts::new(
            WholeKey::without_cards(0x27182818284590452353602874713526),
            WholeKey::without_cards(0x31415926535897932384626433832795),
        )
    }

    fn xcb() -> Xcb<Aes128> {
        Xcb::new(WholeKey::without_cards(0x000102030405060708090a0b0c0d0e0f))
    }

    // A chip of so many sectors, all zero, with 3 lives each.
    fn eeprom(heap: Global, size: usize, sectors: u16) -> Result<Eeprom, Fail> {
        let sector = SectorSize::new(size)?;
        let bytes = vec![in heap; 0; size.saturating_mul(usize::from(sectors))]?;
        let lives = vec![in heap; 3; usize::from(sectors)]?;
        Ok(Eeprom::new(sector, bytes, lives))
    }

    #[test]
    fn refusals_of_stores_have_their_numbers(rt: HostRuntime) {
        assert_eq!(rt; Refusal::Buffer.number(), 2);
        assert_eq!(rt; Refusal::Absent.number(), 3);
        assert_eq!(rt; Refusal::Size.number(), 4);
        assert_eq!(rt; Refusal::Worn.number(), 7);
        assert_eq!(rt; Refusal::Layer.number(), 9);
    }

    #[test]
    fn a_sector_size_is_a_multiple_of_16_from_32_to_4096(rt: HostRuntime) -> Result<(), Fail> {
        for bytes in [0, 16, 31, 33, 40, 4080 + 8, 4097, 4112] {
            assert_eq!(rt; SectorSize::new(bytes), Err(Refusal::Size));
        }
        for bytes in [32, 48, 512, 4080, 4096] {
            assert_eq!(rt; SectorSize::new(bytes)?.bytes(), bytes);
        }
        Ok(())
    }

    #[test]
    fn a_count_is_the_least_of_bytes_lives_and_2048(rt: HostRuntime) -> Result<(), Fail> {
        let heap = rt.alloc();
        assert_eq!(rt; eeprom(heap, 32, 2050)?.count(), 2048);
        let size = SectorSize::new(32)?;
        let few_lives = Eeprom::new(size, vec![in heap; 0; 127]?, vec![in heap; 3; 2]?);
        assert_eq!(rt; few_lives.count(), 2);
        let few_bytes = Flash::new(size, vec![in heap; 0; 127]?, vec![in heap; 3; 9]?);
        assert_eq!(rt; few_bytes.count(), 3);
        Ok(())
    }

    // In a store of count 0 every call on a sector answers 3.
    #[test]
    fn a_chip_may_be_empty(rt: HostRuntime) -> Result<(), Fail> {
        let heap = rt.alloc();
        let size = SectorSize::new(32)?;
        let mut chip = Flash::new(size, vec![in heap; 0; 31]?, vec![in heap; 3; 2]?);
        assert_eq!(rt; chip.count(), 0);
        assert_eq!(rt; chip.life(0).err(), Some(Refusal::Absent));
        assert_eq!(rt; chip.read(0, &mut [0; 32]).err(), Some(Refusal::Absent));
        assert_eq!(rt; chip.write(0, &[0; 32]).err(), Some(Refusal::Absent));
        Ok(())
    }

    #[test]
    fn a_chip_refuses_in_order(rt: HostRuntime) -> Result<(), Fail> {
        let heap = rt.alloc();
        let size = SectorSize::new(32)?;
        let mut chip = Eeprom::new(size, vec![in heap; 7; 64]?, vec![in heap; 0, 1]?);
        let mut buffer = [1; 33];
        assert_eq!(rt; chip.read(2, &mut buffer).err(), Some(Refusal::Absent));
        assert_eq!(rt; chip.read(1, &mut buffer).err(), Some(Refusal::Buffer));
        assert!(rt; buffer == [1; 33]);
        assert_eq!(rt; chip.write(2, &[]).err(), Some(Refusal::Absent));
        assert_eq!(rt; chip.write(0, &[]).err(), Some(Refusal::Buffer));
        assert_eq!(rt; chip.write(0, &[2; 32]).err(), Some(Refusal::Worn));
        assert_eq!(rt; chip.life(2).err(), Some(Refusal::Absent));
        Ok(())
    }

    // Equal bytes cost a life too; what lies beyond the last sector and other sectors stay.
    #[test]
    fn a_write_costs_one_life_and_touches_one_sector(rt: HostRuntime) -> Result<(), Fail> {
        let heap = rt.alloc();
        let size = SectorSize::new(32)?;
        let mut chip = Flash::new(size, vec![in heap; 5; 70]?, vec![in heap; 4; 3]?);
        chip.write(1, &[5; 32])?;
        chip.write(1, &[0xa5; 32])?;
        assert_eq!(rt; chip.life(1)?, 2);
        let (bytes, lives) = chip.into_parts();
        assert_eq!(rt; bytes.get(0..32), Some([5; 32].as_slice()));
        assert_eq!(rt; bytes.get(32..64), Some([0xa5; 32].as_slice()));
        assert_eq!(rt; bytes.get(64..70), Some([5; 6].as_slice()));
        assert!(rt; lives.as_slice() == [4, 2, 4].as_slice());
        Ok(())
    }

    #[test]
    fn a_window_is_cut_to_what_is_below(rt: HostRuntime) -> Result<(), Fail> {
        let heap = rt.alloc();
        let mut chip = eeprom(heap, 32, 8)?;
        chip.write(5, &[9; 32])?;
        let mut window = Window::new(chip, 5, 9);
        assert_eq!(rt; window.count(), 3);
        let mut buffer = [0; 32];
        window.read(0, &mut buffer)?;
        assert!(rt; buffer == [9; 32]);
        assert_eq!(rt; window.life(0)?, 2);
        assert_eq!(rt; window.write(3, &buffer).err(), Some(Refusal::Absent));
        let past = Window::new(window.into_below(), 9, 1);
        assert_eq!(rt; past.count(), 0);
        Ok(())
    }

    // Vectors 4 and 5 of IEEE 1619: sector 0 holds the bytes 0 to 255 twice, sector 1 what the standard seals them to.
    #[test]
    fn a_sealed_chip_holds_the_vectors_of_ieee_1619(rt: HostRuntime) -> Result<(), Fail> {
        let heap = rt.alloc();
        let mut plain = [0; 512];
        for (i, b) in plain.iter_mut().enumerate() {
            *b = (i % 256) as u8;
        }
        let mut layer = Layer::new(eeprom(heap, 512, 2)?, xts());
        layer.write(0, &plain)?;
        let mut sealed = [0; 512];
        layer.below().read(0, &mut sealed)?;
        assert_eq!(rt; sealed.get(0..32), Some(VECTOR_4.as_slice()));
        layer.write(1, &sealed)?;
        layer.below().read(1, &mut sealed)?;
        assert_eq!(rt; sealed.get(0..32), Some(VECTOR_5.as_slice()));
        layer.read(0, &mut sealed)?;
        assert!(rt; sealed == plain);
        Ok(())
    }

    // A tweak is the sector's number, lowest byte first: sector 258 begins 2, 1.
    #[test]
    fn sectors_above_255_have_outside_answers(rt: HostRuntime) -> Result<(), Fail> {
        let heap = rt.alloc();
        let mut buffer = [0; 48];
        let mut layer = Layer::new(eeprom(heap, 48, 259)?, xts());
        layer.write(258, &PLAIN)?;
        layer.below().read(258, &mut buffer)?;
        assert!(rt; buffer == XTS_258);
        let mut layer = Layer::new(eeprom(heap, 48, 259)?, xcb());
        layer.write(258, &PLAIN)?;
        layer.below().read(258, &mut buffer)?;
        assert!(rt; buffer == XCB_258);
        layer.read(258, &mut buffer)?;
        assert!(rt; buffer == PLAIN);
        Ok(())
    }

    // A window over a sealing layer over a window over a chip: sector 0 is sector 1 of the layer, and sector 3 of the chip.
    #[test]
    fn a_deep_pile_seals_under_the_layers_number(rt: HostRuntime) -> Result<(), Fail> {
        let heap = rt.alloc();
        let low = Window::new(eeprom(heap, 48, 8)?, 2, 5);
        let mut pile = Window::new(Layer::new(low, xts()), 1, 9);
        assert_eq!(rt; pile.count(), 4);
        pile.write(0, &PLAIN)?;
        let mut buffer = [0; 48];
        pile.read(0, &mut buffer)?;
        assert!(rt; buffer == PLAIN);
        assert_eq!(rt; pile.life(0)?, 2);
        let (low, _) = pile.into_below().into_parts();
        let (bytes, lives) = low.into_below().into_parts();
        assert_eq!(rt; bytes.get(0..144), Some([0; 144].as_slice()));
        assert_eq!(rt; bytes.get(144..192), Some(XTS_1.as_slice()));
        assert_eq!(rt; bytes.get(192..384), Some([0; 192].as_slice()));
        assert!(rt; lives.as_slice() == [3, 3, 3, 2, 3, 3, 3, 3].as_slice());
        Ok(())
    }

    #[test]
    fn a_layer_over_a_layer_seals_twice(rt: HostRuntime) -> Result<(), Fail> {
        let heap = rt.alloc();
        let mut pile = Layer::new(Layer::new(eeprom(heap, 48, 2)?, xcb()), xts());
        pile.write(1, &PLAIN)?;
        let mut buffer = [0; 48];
        pile.below().below().read(1, &mut buffer)?;
        assert!(rt; buffer == XTS_XCB_1);
        pile.read(1, &mut buffer)?;
        assert!(rt; buffer == PLAIN);
        assert_eq!(rt; pile.write(2, &[]).err(), Some(Refusal::Absent));
        assert_eq!(rt; pile.write(1, &[]).err(), Some(Refusal::Buffer));
        Ok(())
    }

    // The working bytes are zero at every end.
    #[test]
    fn a_copy_refuses_in_order_and_clears(rt: HostRuntime) -> Result<(), Fail> {
        let heap = rt.alloc();
        let from = eeprom(heap, 32, 2)?;
        let size = SectorSize::new(32)?;
        let mut to = Flash::new(size, vec![in heap; 1; 64]?, vec![in heap; 0, 1]?);
        let mut work = [1; 40];
        assert_eq!(rt;
            copy_sector(&from, 2, &mut to, 2, &mut work).err(),
            Some(Refusal::Absent)
        );
        assert!(rt; work == [0; 40]);
        work = [1; 40];
        assert_eq!(rt;
            copy_sector(&from, 0, &mut to, 0, &mut work).err(),
            Some(Refusal::Buffer)
        );
        assert!(rt; work == [0; 40]);
        let mut work = [1; 32];
        assert_eq!(rt;
            copy_sector(&from, 0, &mut to, 0, &mut work).err(),
            Some(Refusal::Worn)
        );
        assert!(rt; work == [0; 32]);
        work = [1; 32];
        copy_sector(&from, 0, &mut to, 1, &mut work)?;
        assert!(rt; work == [0; 32]);
        assert_eq!(rt; to.life(1)?, 0);
        Ok(())
    }

    #[test]
    fn a_copy_needs_equal_sizes(rt: HostRuntime) -> Result<(), Fail> {
        let heap = rt.alloc();
        let from = eeprom(heap, 32, 1)?;
        let mut to = eeprom(heap, 48, 1)?;
        assert_eq!(rt;
            copy_sector(&from, 0, &mut to, 0, &mut [1; 48]).err(),
            Some(Refusal::Buffer)
        );
        assert_eq!(rt;
            same_sectors(&from, &to, &mut [1; 32], &mut [1; 32]).err(),
            Some(Refusal::Buffer)
        );
        Ok(())
    }

    #[test]
    fn copies_are_equal_or_differ(rt: HostRuntime) -> Result<(), Fail> {
        let heap = rt.alloc();
        let one = eeprom(heap, 32, 3)?;
        let mut other = eeprom(heap, 32, 3)?;
        let mut left = [1; 32];
        let mut right = [1; 32];
        assert!(rt; same_sectors(&one, &other, &mut left, &mut right)?);
        other.write(2, &[8; 32])?;
        assert!(rt; !same_sectors(&one, &other, &mut left, &mut right)?);
        assert!(rt; left == [0; 32]);
        assert!(rt; right == [0; 32]);
        assert!(rt; !same_sectors(&one, &eeprom(heap, 32, 2)?, &mut left, &mut right)?);
        Ok(())
    }
}

//! Doors, records and rounds on examples.
#![tactic(auto)]

#[cfg(test)]
mod tests {
    use decimal::take_number;
    use doors::{
        Door, Fault, RoundError, TooManyDoors, lay_round, parse_door, parse_round, read_round,
    };
    use std::alloc::Global;
    use std::test::Fail;

    fn wrong(line: &[u8], fault: Fault) -> bool {
        parse_door(line).err() == Some(fault)
    }

    fn refused(heap: Global, input: &[u8], error: RoundError) -> bool {
        parse_round(heap, input).err() == Some(error)
    }

    #[test]
    fn a_largest_number_is_read(rt: HostRuntime) {
        assert!(rt; take_number(b"18446744073709551615 ", 20, u64::MAX).is_some());
        assert!(rt; take_number(b"18446744073709551616 ", 20, u64::MAX).is_none());
        assert!(rt; take_number(b"12", 1, 99).is_none());
        assert!(rt; take_number(b"x", 1, 9).is_none());
    }

    #[test]
    fn a_good_line_is_a_door(rt: HostRuntime) -> Result<(), Fail> {
        let door = parse_door(b"7 42 1700000000 Gate-7")?;
        assert_eq!(rt; door.number, 7);
        assert_eq!(rt; door.badge, 42);
        assert_eq!(rt; door.time, 1_700_000_000);
        assert!(rt; door.name == *b"Gate-7\0\0\0\0");
        Ok(())
    }

    #[test]
    fn the_largest_fields_are_read(rt: HostRuntime) -> Result<(), Fail> {
        let door = parse_door(b"65535 999999 9999999999 Az09-zZ90a")?;
        assert_eq!(rt; door.number, 65_535);
        assert_eq!(rt; door.badge, 999_999);
        assert_eq!(rt; door.time, 9_999_999_999);
        assert!(rt; door.name == *b"Az09-zZ90a");
        Ok(())
    }

    #[test]
    fn one_more_is_too_much(rt: HostRuntime) {
        assert!(rt; wrong(b"65536 42 9 A", Fault::Number));
        assert!(rt; wrong(b"000007 42 9 A", Fault::Number));
        assert!(rt; wrong(b"0 42 9 A", Fault::Number));
        assert!(rt; wrong(b"7 1000000 9 A", Fault::Badge));
        assert!(rt; wrong(b"7 42 10000000000 A", Fault::Time));
        assert!(rt; wrong(b"7 42 9 Elevenchars", Fault::Name));
    }

    #[test]
    fn each_fault_is_named(rt: HostRuntime) {
        assert!(rt; wrong(b"", Fault::Number));
        assert!(rt; wrong(b" 7 42 9 A", Fault::Number));
        assert!(rt; wrong(b"7", Fault::Number));
        assert!(rt; wrong(b"7  42 9 A", Fault::Badge));
        assert!(rt; wrong(b"7 -1 9 A", Fault::Badge));
        assert!(rt; wrong(b"7 42 nine A", Fault::Time));
        assert!(rt; wrong(b"7 42 9 ", Fault::Name));
        assert!(rt; wrong(b"7 42 9 A B", Fault::Name));
        assert!(rt; Fault::Time.text().starts_with("the time"));
    }

    #[test]
    fn nothing_follows_a_line(rt: HostRuntime) {
        assert!(rt; wrong(b"7 42 9 A ", Fault::Name));
        assert!(rt; wrong(b"7 42 9 A\r", Fault::Name));
        assert!(rt; wrong(b"7 42 9 A\n", Fault::Name));
    }

    #[test]
    fn a_line_is_written_without_leading_zeros(rt: HostRuntime) -> Result<(), Fail> {
        let door = parse_door(b"00007 000042 0000000009 A-1")?;
        let line = door.to_line(rt.alloc())?;
        assert!(rt; line.as_str() == "7 42 9 A-1");
        Ok(())
    }

    #[test]
    fn a_record_is_laid_by_hand(rt: HostRuntime) -> Result<(), Fail> {
        let door = parse_door(b"258 66051 4328719365 Gate")?;
        let record = door.to_record();
        assert!(rt;
            record == *b"\x01\x02\x00\x01\x02\x03\x00\x00\x00\x01\x02\x03\x04\x05Gate\0\0\0\0\0\0"
        );
        Ok(())
    }

    #[test]
    fn a_record_is_read_back(rt: HostRuntime) -> Result<(), Fail> {
        let door = parse_door(b"258 66051 4328719365 Gate")?;
        let back = Door::from_record(door.to_record()).ok_or("no door")?;
        assert!(rt; back.to_record() == door.to_record());
        assert!(rt; Door::from_record([0; 24]).is_none());
        assert!(rt;
            Door::from_record(*b"\0\x01\0\0\0\0\0\0\0\0\0\0\0\0A\0B\0\0\0\0\0\0\0").is_none()
        );
        Ok(())
    }

    #[test]
    fn a_round_is_forty_lines(rt: HostRuntime) -> Result<(), Fail> {
        let text = b"7 42 9 A\n".repeat(rt.alloc(), 41)?;
        assert!(rt; text.len() == 9 * 41);
        let input = text.as_slice();
        assert!(rt; refused(rt.alloc(), b"", RoundError::Count(0)));
        assert!(rt; refused(rt.alloc(), &input[0..9 * 39], RoundError::Count(39)));
        assert!(rt; refused(rt.alloc(), input, RoundError::Count(41)));
        assert_eq!(rt; parse_round(rt.alloc(), &input[0..9 * 40])?.len(), 40);
        Ok(())
    }

    #[test]
    fn the_last_lf_may_be_missing(rt: HostRuntime) -> Result<(), Fail> {
        let mut text = b"7 42 9 A\n".repeat(rt.alloc(), 39)?;
        text.extend_from_slice(b"8 42 9 B")?;
        let doors = parse_round(rt.alloc(), text.as_slice())?;
        assert!(rt; doors.len() == 40);
        assert_eq!(rt; doors[39].number, 8);
        Ok(())
    }

    #[test]
    fn a_wrong_line_is_named(rt: HostRuntime) -> Result<(), Fail> {
        let windows = b"7 42 9 A\r\n".repeat(rt.alloc(), 40)?;
        let first = RoundError::Line {
            number: 1,
            fault: Fault::Name,
        };
        assert!(rt; refused(rt.alloc(), windows.as_slice(), first));
        let mut text = b"7 42 9 A\n".repeat(rt.alloc(), 39)?;
        text.extend_from_slice(b"\n")?;
        let last = RoundError::Line {
            number: 40,
            fault: Fault::Number,
        };
        assert!(rt; refused(rt.alloc(), text.as_slice(), last));
        Ok(())
    }

    #[test]
    fn records_are_laid_one_after_the_other(rt: HostRuntime) -> Result<(), Fail> {
        let first = parse_door(b"1 2 3 A")?;
        let second = parse_door(b"4 5 6 B")?;
        let mut image = [255; 1024];
        assert!(rt; lay_round(&[first, second], &mut image).is_ok());
        assert!(rt;
            &image[0..24] == b"\0\x01\0\0\0\x02\0\0\0\0\0\0\0\x03A\0\0\0\0\0\0\0\0\0".as_slice()
        );
        assert!(rt;
            &image[24..48] == b"\0\x04\0\0\0\x05\0\0\0\0\0\0\0\x06B\0\0\0\0\0\0\0\0\0".as_slice()
        );
        assert!(rt; &image[48..1024] == [0; 976].as_slice());
        Ok(())
    }

    #[test]
    fn too_many_records_are_refused(rt: HostRuntime) -> Result<(), Fail> {
        let door = parse_door(b"1 2 3 A")?;
        let mut image = [255; 1024];
        assert!(rt; lay_round(&[door; 43], &mut image) == Err(TooManyDoors));
        assert!(rt; image == [255; 1024]);
        assert!(rt; lay_round(&[door; 42], &mut image).is_ok());
        assert_eq!(rt; image[24 * 41 + 1], 1);
        Ok(())
    }

    #[test]
    fn what_was_laid_is_read_back(rt: HostRuntime) -> Result<(), Fail> {
        let door = parse_door(b"1 2 3 A")?;
        let mut image = [255; 1024];
        assert_eq!(rt; read_round(rt.alloc(), &image)?.len(), 0);
        assert!(rt; lay_round(&[door; 42], &mut image).is_ok());
        assert!(rt; read_round(rt.alloc(), &image)?.as_slice() == [door; 42].as_slice());
        Ok(())
    }
}

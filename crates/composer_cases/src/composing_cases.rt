// Composing: what is written, every refusal at its edge and in its order, and that a refusal leaves the output.
#[cfg(test)]
mod tests {
    use composer::{ComposeError, Item, compose};
    use std::process::Abort;
    use std::test::Fail;
    use xid::count_parameters;

    // The set identification's value, a position, and then fill.
    const VALUES: [u8; 260] = [0; 260];

    const OUTSIDE: ComposeError = ComposeError::ValueOutside { item: 0 };

    const ORDER: ComposeError = ComposeError::GroupOrder { item: 0 };

    const UNREADABLE: ComposeError = ComposeError::Unreadable { item: 0 };

    const fn item(group: u8, identifier: u8, place: usize, length: usize) -> Item {
        Item {
            group,
            identifier,
            place,
            length,
        }
    }

    // Refused in an output of 2,100 octets, which stays as it was.
    fn refuses(rt: &impl Abort, items: &[Item], error: ComposeError) {
        let mut out = [7; 2100];
        assert_eq!(rt; compose(items, &VALUES, &mut out), Err(error));
        assert!(rt; out == [7; 2100]);
    }

    // Composed with this length, and read back as so many parameters.
    fn composes(rt: &impl Abort, items: &[Item], length: usize, count: usize) -> Result<(), Fail> {
        let mut out = [7; 2100];
        let n = compose(items, &VALUES, &mut out)?;
        assert!(rt; n == length && n < 2100);
        assert_eq!(rt; out[n], 7);
        assert_eq!(rt; count_parameters(&out[..n]).ok(), Some(count));
        Ok(())
    }

    #[test]
    fn numbers(rt: HostRuntime) {
        assert_eq!(rt; ComposeError::TooManyItems.number(), 51);
        assert_eq!(rt; ComposeError::TooLong.number(), 55);
        for item in [0, 1] {
            assert_eq!(rt; ComposeError::ValueOutside { item }.number(), 52);
            assert_eq!(rt; ComposeError::GroupOrder { item }.number(), 53);
            assert_eq!(rt; ComposeError::Unreadable { item }.number(), 54);
        }
    }

    #[test]
    fn octets(rt: HostRuntime) -> Result<(), Fail> {
        let values = [0x56, 0xEA, 0xD5, 0xE8, 0x23, 9];
        let items = [
            item(0x80, 0x07, 5, 1),
            item(0xF0, 0x00, 0, 1),
            item(0xF0, 0x84, 1, 4),
        ];
        let mut out = [7; 20];
        assert_eq!(rt; compose(&items, &values, &mut out)?, 19);
        assert!(rt;
            out == [
                0x82, 0x80, 0, 3, 0x07, 1, 9, 0xF0, 0, 9, 0x00, 1, 0x56, 0x84, 4, 0xEA, 0xD5, 0xE8,
                0x23, 7,
            ]
        );
        Ok(())
    }

    #[test]
    fn counts(rt: HostRuntime) -> Result<(), Fail> {
        composes(&rt, &[], 1, 0)?;
        composes(&rt, &[item(0x80, 0x33, 260, 0)], 6, 1)?;
        composes(&rt, &[item(0xF0, 0x33, 0, 0); 255], 514, 255)?;
        refuses(
            &rt,
            &[item(0xF0, 0x33, 0, 0); 256],
            ComposeError::TooManyItems,
        );
        Ok(())
    }

    #[test]
    fn lengths(rt: HostRuntime) -> Result<(), Fail> {
        let mut items = [item(0x80, 0x33, 0, 255); 8];
        items[7] = item(0x80, 0x33, 0, 247);
        composes(&rt, &items, 2052, 8)?;
        items[7] = item(0x80, 0x33, 0, 248);
        refuses(&rt, &items, ComposeError::TooLong);
        Ok(())
    }

    #[test]
    fn shorter_output(rt: HostRuntime) -> Result<(), Fail> {
        let items = [item(0x80, 0x33, 0, 1)];
        let mut exact = [7; 7];
        let mut short = [7; 6];
        assert!(rt; compose(&items, &VALUES, &mut exact).is_ok());
        let refused = compose(&items, &VALUES, &mut short);
        assert_eq!(rt; refused, Err(ComposeError::TooLong));
        assert!(rt; short == [7; 6]);
        Ok(())
    }

    #[test]
    fn values(rt: HostRuntime) -> Result<(), Fail> {
        refuses(&rt, &[item(0x80, 0x33, 261, 0)], OUTSIDE);
        refuses(&rt, &[item(0x80, 0x33, 6, 255)], OUTSIDE);
        refuses(&rt, &[item(0x80, 0x33, 0, 256)], OUTSIDE);
        refuses(&rt, &[item(0x80, 0x33, usize::MAX, usize::MAX)], OUTSIDE);
        composes(&rt, &[item(0x80, 0x33, 5, 255)], 261, 1)
    }

    #[test]
    fn groups_and_parameters(rt: HostRuntime) {
        refuses(&rt, &[item(0x81, 0x33, 0, 0)], ORDER);
        refuses(
            &rt,
            &[item(0xF0, 0x33, 0, 0), item(0x80, 0x33, 0, 0)],
            ComposeError::GroupOrder { item: 1 },
        );
        refuses(&rt, &[item(0x80, 0x07, 0, 2)], UNREADABLE);
        refuses(&rt, &[item(0xF0, 0x00, 0, 1)], UNREADABLE);
        // within an item the value's place, the order, the value; the first item's refusal before the second's
        refuses(&rt, &[item(0x81, 0x07, 261, 2)], OUTSIDE);
        refuses(&rt, &[item(0x81, 0x07, 0, 2)], ORDER);
        refuses(
            &rt,
            &[item(0x80, 0x07, 0, 2), item(0x80, 0x33, 261, 0)],
            UNREADABLE,
        );
    }
}

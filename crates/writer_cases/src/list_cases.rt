// Lists: written whole, or cut back at the first, a middle or the last frame.
#[cfg(test)]
mod tests {
    use bits::sink::BitSink;
    use bits::text_sink::TextSink;
    use frame::{Address, Control, Heading, Kind, Unnumbered};
    use std::process::Abort;
    use std::test::Fail;
    use writer::{ListError, Order, WriteError, write_list};

    const EVERYONE: Address = Address {
        kind: Kind::Broadcast,
        high: 0xFF,
        middle: 0xFF,
        low: 0xFF,
    };

    fn order(function: Unnumbered, place: usize, length: usize) -> Order {
        let heading = Heading {
            destination: EVERYONE,
            from_ground: true,
            source: EVERYONE,
            response: false,
            control: Control::Unnumbered {
                function,
                poll: false,
            },
        };
        Order {
            heading,
            place,
            length,
        }
    }

    // Behind three bits that the sink holds: the list is refused with this error, and the sink is as it was.
    fn refuses(rt: &impl Abort, orders: &[Order], error: ListError) -> Result<(), Fail> {
        let mut text = [b'x'; 360];
        let mut sink = TextSink::new(&mut text);
        for _ in 0..3 {
            sink.put(true)?;
        }
        assert_eq!(rt; write_list(&mut sink, orders, &[1, 2, 3, 4]), Err(error));
        assert_eq!(rt; sink.count(), 3);
        assert_eq!(rt; sink.room(), 357);
        Ok(())
    }

    #[test]
    fn whole(rt: HostRuntime) -> Result<(), Fail> {
        let mut text = [b'x'; 360];
        let mut sink = TextSink::new(&mut text);
        let orders = [order(Unnumbered::Ua, 0, 0), order(Unnumbered::Ui, 2, 2)];
        let bits = write_list(&mut sink, &orders, &[1, 2, 3, 4])?;
        assert!(rt; sink.count() == bits && bits > 200);
        Ok(())
    }

    #[test]
    fn empty(rt: HostRuntime) {
        let mut text = [b'x'; 4];
        let mut sink = TextSink::new(&mut text);
        assert_eq!(rt; write_list(&mut sink, &[], &[]), Ok(0));
        assert_eq!(rt; sink.count(), 0);
    }

    #[test]
    fn cut_back(rt: HostRuntime) -> Result<(), Fail> {
        let good = order(Unnumbered::Ui, 0, 1);
        let bad = order(Unnumbered::Ua, 0, 1);
        let outside = order(Unnumbered::Ua, 3, 2);
        let refused = |frame: usize, error: WriteError| ListError::Refused { frame, error };
        refuses(&rt, &[bad, good, good], refused(0, WriteError::Unsuited))?;
        refuses(&rt, &[good, bad, good], refused(1, WriteError::Unsuited))?;
        refuses(&rt, &[good, good, outside], ListError::Outside { frame: 2 })?;
        // room for two frames, and not for a third
        refuses(&rt, &[good, good, good], refused(2, WriteError::NoRoom))?;
        refuses(
            &rt,
            &[order(Unnumbered::Ui, 5, 0)],
            ListError::Outside { frame: 0 },
        )?;
        refuses(
            &rt,
            &[order(Unnumbered::Ui, usize::MAX, usize::MAX)],
            ListError::Outside { frame: 0 },
        )
    }

    #[test]
    fn numbers(rt: HostRuntime) {
        assert_eq!(rt; ListError::Outside { frame: 0 }.number(), 44);
        for (error, number) in [
            (WriteError::Unsuited, 41),
            (WriteError::TooLong, 42),
            (WriteError::NoRoom, 43),
        ] {
            assert_eq!(rt; error.number(), number);
            assert_eq!(rt; ListError::Refused { frame: 0, error }.number(), number);
        }
    }
}

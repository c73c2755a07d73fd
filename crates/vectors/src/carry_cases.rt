// Frames written, heard, opened and read by one call.
#[cfg(test)]
mod tests {
    use bits::text::TextSource;
    use bits::text_sink::TextSink;
    use frame::{Address, Control, Heading, Kind, Unnumbered};
    use path::carrying::{Arrived, Found, carry};
    use receiver::Receiver;
    use std::process::Abort;
    use std::test::Fail;
    use writer::{Order, write_list};

    const AIRCRAFT: Address = Address {
        kind: Kind::Aircraft,
        high: 0x40,
        middle: 0,
        low: 1,
    };

    fn order(function: Unnumbered, place: usize, length: usize) -> Order {
        let heading = Heading {
            destination: AIRCRAFT,
            from_ground: false,
            source: AIRCRAFT,
            response: false,
            control: Control::Unnumbered {
                function,
                poll: true,
            },
        };
        Order {
            heading,
            place,
            length,
        }
    }

    // The frame of this order, with information of its length, and so many parameters.
    fn opened(rt: &impl Abort, arrived: &Arrived, order: &Order, count: usize) -> Result<(), Fail> {
        let Found::Opened(arrival) = &arrived.found else {
            return Err(Fail::new("not opened"));
        };
        assert_eq!(rt; arrival.heading, order.heading);
        assert_eq!(rt; arrival.information.len(), order.length);
        assert_eq!(rt; arrival.parameters, Ok(count));
        Ok(())
    }

    #[test]
    fn carried(rt: HostRuntime) -> Result<(), Fail> {
        let orders = [order(Unnumbered::Xid, 0, 6), order(Unnumbered::Ui, 1, 2)];
        let buffer = [0x82, 0x80, 0, 2, 0x33, 0];
        let mut air = [b' '; 500];
        write_list(&mut TextSink::new(&mut air), &orders, &buffer)?;
        let mut copy = [b' '; 500];
        let carried = carry(
            rt.alloc(),
            &mut TextSink::new(&mut copy),
            &orders,
            &buffer,
            &mut Receiver::new(),
            &mut TextSource::new(&air),
        )?;
        assert_eq!(rt; carried.taken, carried.bits as u64);
        let [exchange, unnumbered] = carried.arrivals.as_slice() else {
            return Err(Fail::new("not two frames"));
        };
        opened(&rt, exchange, &orders[0], 1)?;
        opened(&rt, unnumbered, &orders[1], 0)
    }
}

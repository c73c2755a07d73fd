// Reading: every refusal at its edge and in its order, and the same answer for ever after.
#[cfg(test)]
mod tests {
    use faults::{ExchangeFault, ParameterFault};
    use std::process::Abort;
    use xid::{Reader, count_parameters};

    // A position and two stations.
    const POSITION: [u8; 23] = [
        0x82, 0xF0, 0, 19, 0x00, 1, 0x56, 0x84, 4, 0xEA, 0xD5, 0xE8, 0x23, 0x82, 8, 0x04, 0x00,
        0x00, 0x81, 0x14, 0x42, 0xE2, 0x4F,
    ];

    const NO_LEADING: ExchangeFault = ExchangeFault::NoLeading;

    const SHORT_GROUP: ExchangeFault = ExchangeFault::ShortGroup { place: 1 };

    const OTHER_GROUP: ExchangeFault = ExchangeFault::OtherGroup { place: 1 };

    const GROUP_ORDER: ExchangeFault = ExchangeFault::GroupOrder { place: 4 };

    const GROUP_BEYOND: ExchangeFault = ExchangeFault::GroupBeyond { place: 1 };

    const BEYOND: ExchangeFault = ExchangeFault::ParameterBeyond { place: 4 };

    const fn wrong_length(place: usize) -> ExchangeFault {
        let fault = ParameterFault::WrongLength { place };
        ExchangeFault::Parameter { fault }
    }

    const fn wrong_value(place: usize) -> ExchangeFault {
        let fault = ParameterFault::WrongValue { place };
        ExchangeFault::Parameter { fault }
    }

    // So many parameters, and then three times the end, or the fault.
    fn stops(rt: &impl Abort, field: &[u8], count: usize, fault: Option<ExchangeFault>) {
        let mut reader = Reader::new(field);
        for _ in 0..count {
            assert!(rt; matches!(reader.next(), Ok(Some(_))));
        }
        let end = match fault {
            None => Ok(None),
            Some(fault) => Err(fault),
        };
        for _ in 0..3 {
            assert_eq!(rt; reader.next(), end);
        }
        assert_eq!(rt; count_parameters(field), fault.map_or(Ok(count), Err));
    }

    #[test]
    fn numbers_and_places(rt: HostRuntime) {
        for (fault, number, place) in [
            (NO_LEADING, 31, 0),
            (SHORT_GROUP, 32, 1),
            (OTHER_GROUP, 33, 1),
            (GROUP_ORDER, 34, 4),
            (ExchangeFault::GroupOrder { place: 7 }, 34, 7),
            (GROUP_BEYOND, 35, 1),
            (BEYOND, 36, 4),
            (wrong_length(4), 37, 4),
            (wrong_length(7), 37, 7),
            (wrong_value(4), 38, 4),
        ] {
            assert_eq!(rt; (fault.number(), fault.place()), (number, place));
        }
    }

    #[test]
    fn whole_fields(rt: HostRuntime) {
        stops(&rt, &[0x82], 0, None);
        stops(&rt, &[0x82, 0x80, 0, 0], 0, None);
        stops(&rt, &[0x82, 0xF0, 0, 0], 0, None);
        stops(&rt, &[0x82, 0x80, 0, 0, 0xF0, 0, 0], 0, None);
        stops(
            &rt,
            &[
                0x82, 0x80, 0, 3, 0x07, 1, 9, 0xF0, 0, 5, 0x00, 1, 0x56, 0x03, 0,
            ],
            3,
            None,
        );
        stops(&rt, &POSITION, 3, None);
    }

    #[test]
    fn groups(rt: HostRuntime) {
        stops(&rt, &[], 0, Some(NO_LEADING));
        stops(&rt, &[0x83], 0, Some(NO_LEADING));
        stops(&rt, &[0x82, 0x80], 0, Some(SHORT_GROUP));
        stops(&rt, &[0x82, 0x33, 0], 0, Some(SHORT_GROUP));
        stops(&rt, &[0x82, 0x33, 0, 0], 0, Some(OTHER_GROUP));
        stops(&rt, &[0x82, 0x80, 0, 0, 0x80, 0, 0], 0, Some(GROUP_ORDER));
        stops(&rt, &[0x82, 0xF0, 0, 0, 0x80, 0, 0], 0, Some(GROUP_ORDER));
        stops(&rt, &[0x82, 0xF0, 0, 0, 0xF0, 0, 0], 0, Some(GROUP_ORDER));
        stops(
            &rt,
            &[0x82, 0x80, 0, 0, 0xF0, 0, 0, 0x80, 0, 0],
            0,
            Some(ExchangeFault::GroupOrder { place: 7 }),
        );
        stops(&rt, &[0x82, 0x80, 0, 1], 0, Some(GROUP_BEYOND));
        // the order of two faults at once
        stops(&rt, &[0x82, 0x33, 0, 9], 0, Some(OTHER_GROUP));
        stops(&rt, &[0x82, 0x80, 0, 0, 0x80, 9, 9], 0, Some(GROUP_ORDER));
    }

    #[test]
    fn parameters(rt: HostRuntime) {
        stops(&rt, &[0x82, 0x80, 0, 1, 0x07], 0, Some(BEYOND));
        stops(&rt, &[0x82, 0x80, 0, 2, 0x07, 1], 0, Some(BEYOND));
        stops(&rt, &[0x82, 0x80, 0, 2, 0x33, 0], 1, None);
        // a value beyond its group where the field goes on
        stops(
            &rt,
            &[0x82, 0x80, 0, 2, 0x07, 1, 0xF0, 0, 0],
            0,
            Some(BEYOND),
        );
        stops(
            &rt,
            &[0x82, 0x80, 0, 5, 0x07, 1, 9, 0x07, 0],
            1,
            Some(wrong_length(7)),
        );
        stops(
            &rt,
            &[0x82, 0xF0, 0, 3, 0x00, 1, 0x57],
            0,
            Some(wrong_value(4)),
        );
        stops(
            &rt,
            &[0x82, 0xF0, 0, 4, 0x00, 2, 0x56, 0x56],
            0,
            Some(wrong_length(4)),
        );
        // a group beyond the field is refused before its parameters
        stops(&rt, &[0x82, 0x80, 0, 9, 0x07, 1, 9], 0, Some(GROUP_BEYOND));
    }

    #[test]
    fn fault_inside(rt: HostRuntime) {
        let mut reader = Reader::new(&[0x82, 0xF0, 0, 3, 0x00, 1, 0x57]);
        let fault = ParameterFault::WrongValue { place: 4 };
        assert_eq!(rt; reader.next(), Err(ExchangeFault::Parameter { fault }));
    }
}

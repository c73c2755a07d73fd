// Opening: each refusal at its edge and in its order, and frames laid out again.
#[cfg(test)]
mod tests {
    use faults::{ExchangeFault, FrameFault, ParameterFault};
    use frame::{Frame, open};
    use std::process::Abort;
    use std::test::Fail;

    // From aircraft 400001h to ground 1, a UI frame: twelve octets.
    const UI: [u8; 12] = [
        0x06, 0x00, 0x00, 0x81, 0x50, 0x00, 0x00, 0x81, 0x03, 0x11, 0x22, 0x33,
    ];

    fn refuses(rt: &impl Abort, octets: &[u8], fault: FrameFault) {
        assert_eq!(rt; open(octets), Err(fault));
    }

    // The frame with some octets changed.
    fn refuses_with(rt: &impl Abort, changes: &[(usize, u8)], fault: FrameFault) {
        let mut octets = UI;
        for (at, octet) in changes {
            octets[*at % 12] = *octet;
        }
        refuses(rt, &octets, fault);
    }

    #[test]
    fn opens_and_lays_out_again(rt: HostRuntime) -> Result<(), Fail> {
        let Frame {
            heading,
            information,
        } = open(&UI)?;
        assert!(rt; heading.from_ground && !heading.response);
        assert!(rt; heading.destination.number() == 1 && heading.source.number() == 0x400001);
        assert!(rt; information == [0x11, 0x22, 0x33].as_slice());
        assert!(rt; heading.octets()?[..] == UI[..9]);
        Ok(())
    }

    #[test]
    fn lengths(rt: HostRuntime) -> Result<(), Fail> {
        refuses(&rt, &[], FrameFault::Length { octets: 0 });
        refuses(&rt, &UI[..8], FrameFault::Length { octets: 8 });
        open(&UI[..9])?;
        let mut octets = [0; 2062];
        octets[0] = 0x06;
        octets[3] = 0x81;
        octets[4] = 0x50;
        octets[7] = 0x81;
        octets[8] = 0x03;
        open(&octets[..2061])?;
        refuses(&rt, &octets, FrameFault::Length { octets: 2062 });
        Ok(())
    }

    #[test]
    fn each_octet(rt: HostRuntime) {
        refuses_with(&rt, &[(0, 0x07)], FrameFault::DestinationMark { place: 0 });
        refuses_with(&rt, &[(2, 0x01)], FrameFault::DestinationMark { place: 2 });
        refuses_with(&rt, &[(3, 0x80)], FrameFault::DestinationMark { place: 3 });
        refuses_with(&rt, &[(4, 0x51)], FrameFault::SourceMark { place: 4 });
        refuses_with(&rt, &[(7, 0x80)], FrameFault::SourceMark { place: 7 });
        refuses_with(&rt, &[(0, 0x00)], FrameFault::UnlistedType { place: 0 });
        refuses_with(&rt, &[(4, 0x08)], FrameFault::UnlistedType { place: 4 });
        refuses_with(&rt, &[(8, 0x07)], FrameFault::UnlistedControl);
        refuses_with(&rt, &[(8, 0x01)], FrameFault::UnsuitedInformation);
        refuses_with(&rt, &[(8, 0x43)], FrameFault::UnsuitedInformation);
        // SREJ without information
        refuses(
            &rt,
            &[0x06, 0x00, 0x00, 0x81, 0x50, 0x00, 0x00, 0x81, 0x0D],
            FrameFault::UnsuitedInformation,
        );
    }

    // Two faults at once: the first in order is answered.
    #[test]
    fn order(rt: HostRuntime) {
        refuses_with(
            &rt,
            &[(1, 0x01), (3, 0x80)],
            FrameFault::DestinationMark { place: 1 },
        );
        refuses_with(
            &rt,
            &[(0, 0x00), (5, 0x01)],
            FrameFault::SourceMark { place: 5 },
        );
        refuses_with(
            &rt,
            &[(3, 0x80), (4, 0x51)],
            FrameFault::DestinationMark { place: 3 },
        );
        refuses_with(
            &rt,
            &[(0, 0x00), (4, 0x08)],
            FrameFault::UnlistedType { place: 0 },
        );
        refuses_with(
            &rt,
            &[(4, 0x08), (8, 0x07)],
            FrameFault::UnlistedType { place: 4 },
        );
        refuses_with(
            &rt,
            &[(0, 0x00), (8, 0x01)],
            FrameFault::UnlistedType { place: 0 },
        );
    }

    #[test]
    fn numbers_and_places(rt: HostRuntime) {
        for (fault, number, place) in [
            (FrameFault::Length { octets: 0 }, 21, 0),
            (FrameFault::Length { octets: 8 }, 21, 8),
            (FrameFault::Length { octets: 2062 }, 21, 2062),
            (FrameFault::DestinationMark { place: 0 }, 22, 0),
            (FrameFault::DestinationMark { place: 1 }, 22, 1),
            (FrameFault::DestinationMark { place: 2 }, 22, 2),
            (FrameFault::DestinationMark { place: 3 }, 22, 3),
            (FrameFault::SourceMark { place: 4 }, 23, 4),
            (FrameFault::SourceMark { place: 5 }, 23, 5),
            (FrameFault::SourceMark { place: 7 }, 23, 7),
            (FrameFault::UnlistedType { place: 0 }, 24, 0),
            (FrameFault::UnlistedType { place: 4 }, 24, 4),
            (FrameFault::UnlistedControl, 25, 8),
            (FrameFault::UnsuitedInformation, 26, 9),
        ] {
            assert_eq!(rt; (fault.number(), fault.place()), (number, place));
        }
    }

    // A parameter fault stands whole inside an exchange fault, and that inside a frame fault.
    #[test]
    fn nested_faults(rt: HostRuntime) {
        let exchange = ExchangeFault::from(ParameterFault::WrongValue { place: 7 });
        let frame = FrameFault::from(exchange);
        assert!(rt; frame.number() == 38 && frame.place() == 7);
        let fault = ParameterFault::WrongValue { place: 7 };
        let exchange = ExchangeFault::Parameter { fault };
        assert!(rt; frame == FrameFault::Exchange { fault: exchange });
    }
}

// Checking: the count of parameters, faults of every depth, and when a reply is owed.
#[cfg(test)]
mod tests {
    use crate::paying::paid;
    use faults::{ExchangeFault, FrameFault, ParameterFault};
    use reply::{Checked, check};
    use std::process::Abort;

    // From aircraft 400001h to ground station 1, with this first octet, control and information.
    fn octets(first: u8, source: u8, control: u8, information: &[u8; 8]) -> [u8; 17] {
        let [a, b, c, d, e, f, g, h] = *information;
        [
            first, 0x00, 0x00, 0x81, source, 0x00, 0x00, 0x81, control, a, b, c, d, e, f, g, h,
        ]
    }

    const GOOD: [u8; 8] = [0x82, 0xF0, 0, 4, 0x33, 0, 0x34, 0];

    // The count of parameters, and whether a reply is owed, which is then declined.
    fn checked(octets: &[u8]) -> Result<(usize, bool), FrameFault> {
        let Checked {
            frame: _,
            parameters,
            debt,
        } = check(octets)?;
        Ok((parameters, debt.is_some_and(|debt| paid(debt) > 0)))
    }

    fn refuses(rt: &impl Abort, octets: &[u8], fault: FrameFault, number: u8, place: usize) {
        assert_eq!(rt; checked(octets), Err(fault));
        assert_eq!(rt; fault.number(), number);
        assert_eq!(rt; fault.place(), place);
    }

    #[test]
    fn when_a_reply_is_owed(rt: HostRuntime) {
        assert_eq!(rt; checked(&octets(0x04, 0x50, 0xBF, &GOOD)), Ok((2, true)));
        assert_eq!(rt; checked(&octets(0x14, 0x50, 0xBF, &GOOD)), Ok((2, true)));
        assert_eq!(rt; checked(&octets(0x10, 0x50, 0xBF, &GOOD)), Ok((2, true)));
        // P at 0; a response; a broadcast; another frame
        assert_eq!(rt; checked(&octets(0x04, 0x50, 0xAF, &GOOD)), Ok((2, false)));
        assert_eq!(rt; checked(&octets(0x04, 0x52, 0xBF, &GOOD)), Ok((2, false)));
        assert_eq!(rt; checked(&octets(0x1C, 0x50, 0xBF, &GOOD)), Ok((2, false)));
        assert_eq!(rt; checked(&octets(0x04, 0x50, 0xF3, &GOOD)), Ok((0, false)));
    }

    #[test]
    fn faults(rt: HostRuntime) {
        let parameter = |fault: ParameterFault| FrameFault::from(ExchangeFault::from(fault));
        refuses(&rt, &[], FrameFault::Length { octets: 0 }, 21, 0);
        refuses(
            &rt,
            &octets(0x05, 0x50, 0xBF, &GOOD),
            FrameFault::DestinationMark { place: 0 },
            22,
            0,
        );
        refuses(
            &rt,
            &[0x04, 0, 0, 0x81, 0x50, 0, 0, 0x81, 0xBF],
            FrameFault::from(ExchangeFault::NoLeading),
            31,
            0,
        );
        refuses(
            &rt,
            &octets(0x04, 0x50, 0xBF, &[0x82, 0xF0, 0, 4, 0x00, 1, 0x57, 0]),
            parameter(ParameterFault::WrongValue { place: 4 }),
            38,
            4,
        );
        refuses(
            &rt,
            &octets(0x04, 0x50, 0xBF, &[0x82, 0xF0, 0, 4, 0x00, 2, 0x56, 0]),
            parameter(ParameterFault::WrongLength { place: 4 }),
            37,
            4,
        );
        // the same information outside an XID is not read
        assert_eq!(rt;
            checked(&octets(0x04, 0x50, 0xE3, &[0x83, 0, 0, 0, 0, 0, 0, 0])),
            Ok((0, false))
        );
    }
}

// Addresses: worked values both ways, and what is refused.
#[cfg(test)]
mod tests {
    use frame::{Address, AddressError, Addressed, Kind};
    use std::process::Abort;
    use std::test::Fail;

    // The octets are read as this status, type and number, and made from them again.
    fn reads(
        rt: &impl Abort,
        octets: [u8; 4],
        status: bool,
        kind: Kind,
        number: u32,
    ) -> Result<(), Fail> {
        let address = Address::new(kind.bits(), number)?;
        assert_eq!(rt; (address.kind, address.number()), (kind, number));
        assert_eq!(rt;
            Address::decode(octets),
            Some(Addressed { address, status })
        );
        assert_eq!(rt; address.octets(status), octets);
        Ok(())
    }

    fn refuses(rt: &impl Abort, octets: [u8; 4]) {
        assert!(rt; Address::decode(octets) == None);
    }

    #[test]
    fn worked_values(rt: HostRuntime) -> Result<(), Fail> {
        reads(
            &rt,
            [0x50, 0x00, 0x00, 0x81],
            false,
            Kind::Aircraft,
            0x400001,
        )?;
        reads(
            &rt,
            [0xFC, 0xFE, 0xFE, 0xFF],
            false,
            Kind::Broadcast,
            0xFFFFFF,
        )?;
        reads(
            &rt,
            [0x06, 0x00, 0x00, 0x81],
            true,
            Kind::GroundAdministered,
            1,
        )?;
        reads(
            &rt,
            [0xFE, 0xFE, 0xFE, 0xFF],
            true,
            Kind::Broadcast,
            0xFFFFFF,
        )?;
        reads(&rt, [0x10, 0x00, 0x00, 0x01], false, Kind::Aircraft, 0)?;
        reads(
            &rt,
            [0x14, 0x00, 0x00, 0x01],
            false,
            Kind::GroundDelegated,
            0,
        )
    }

    #[test]
    fn bits_of_kinds(rt: HostRuntime) {
        for (kind, bits) in [
            (Kind::Aircraft, 1),
            (Kind::GroundAdministered, 4),
            (Kind::GroundDelegated, 5),
            (Kind::Broadcast, 7),
        ] {
            assert_eq!(rt; kind.bits(), bits);
        }
    }

    #[test]
    fn marks_and_types(rt: HostRuntime) {
        refuses(&rt, [0x51, 0x00, 0x00, 0x81]);
        refuses(&rt, [0x50, 0x01, 0x00, 0x81]);
        refuses(&rt, [0x50, 0x00, 0x01, 0x81]);
        refuses(&rt, [0x50, 0x00, 0x00, 0x80]);
        refuses(&rt, [0x00, 0x00, 0x00, 0x01]);
        refuses(&rt, [0x08, 0x00, 0x00, 0x01]);
        refuses(&rt, [0x18, 0x00, 0x00, 0x01]);
        refuses(&rt, [0x0C, 0x00, 0x00, 0x01]);
    }

    #[test]
    fn making_refuses_other_types_and_larger_numbers(rt: HostRuntime) {
        let made = (0..=255).map(|kind| Address::new(kind, 0xFFFFFF));
        assert!(rt; made.filter(|address| address.is_ok()).count() == 4);
        for kind in 0..=255 {
            if let Err(e) = Address::new(kind, 0xFFFFFF) {
                assert!(rt; e.number() == 24);
            }
        }
        assert!(rt; Address::new(1, 0x1000000) == Err(AddressError::NumberTooLarge));
        assert!(rt; AddressError::NumberTooLarge.number() == 24);
    }
}

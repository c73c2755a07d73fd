// Values that have a layout.
#[cfg(test)]
mod tests {
    use records::{Location, Record, Tuning, read_value};
    use register::Group;
    use std::process::Abort;
    use std::test::Fail;

    fn place(rt: &impl Abort, value: &[u8], latitude: i16, longitude: i16) {
        let location = Location {
            latitude,
            longitude,
        };
        assert!(rt; read_value(Group::Private, 0xC8, value) == Some(Record::Ground { location }));
    }

    fn refuses(rt: &impl Abort, identifier: u8, value: &[u8]) {
        assert!(rt; read_value(Group::Private, identifier, value).is_none());
    }

    #[test]
    fn worked_values(rt: HostRuntime) -> Result<(), Fail> {
        let Some(Record::Tuned { tuning }) = read_value(Group::Private, 0x40, &[0x2C, 0x64]) else {
            return Err(Fail::new("no tuning"));
        };
        assert!(rt;
            tuning
                == (Tuning {
                    modulation: 2,
                    steps: 3172
                })
        );
        assert!(rt; tuning.kilohertz() == 131_720);
        let location = Location {
            latitude: -339,
            longitude: 1512,
        };
        let record = read_value(Group::Private, 0x84, &[0xEA, 0xD5, 0xE8, 0x23]);
        assert!(rt;
            record
                == Some(Record::Aircraft {
                    location,
                    altitude: 35
                })
        );
        Ok(())
    }

    #[test]
    fn bounds_of_places(rt: HostRuntime) {
        place(&rt, &[0x38, 0x47, 0x08], 900, 1800);
        place(&rt, &[0xC7, 0xC8, 0xF8], -900, -1800);
        place(&rt, &[0x00, 0x00, 0x00], 0, 0);
        place(&rt, &[0xFF, 0xFF, 0xFF], -1, -1);
        refuses(&rt, 0xC8, &[0x38, 0x57, 0x08]);
        refuses(&rt, 0xC8, &[0x38, 0x47, 0x09]);
        refuses(&rt, 0xC8, &[0xC7, 0xB8, 0xF8]);
        refuses(&rt, 0xC8, &[0xC7, 0xC8, 0xF7]);
        refuses(&rt, 0xC8, &[0x80, 0x00, 0x00]);
    }

    #[test]
    fn set_identification(rt: HostRuntime) {
        assert!(rt; read_value(Group::Private, 0x00, &[0x56]) == Some(Record::SetIdentification));
        refuses(&rt, 0x00, &[0x57]);
    }

    #[test]
    fn stations(rt: HostRuntime) -> Result<(), Fail> {
        let value = [0x04, 0x00, 0x00, 0x81, 0x14, 0x42, 0xE2, 0x4F];
        let Some(Record::Listed { stations }) = read_value(Group::Private, 0x82, &value) else {
            return Err(Fail::new("no list"));
        };
        assert!(rt; stations.count() == 2);
        let Some(station) = stations.entry(1) else {
            return Err(Fail::new("no second station"));
        };
        assert!(rt; station.number() == 0x10A3F2);
        assert!(rt; stations.entry(2).is_none());
        // status 1, a wrong mark, an unlisted type
        refuses(&rt, 0x41, &[0x06, 0x00, 0x00, 0x81]);
        refuses(&rt, 0x41, &[0x04, 0x00, 0x00, 0x80]);
        refuses(&rt, 0x41, &[0x00, 0x00, 0x00, 0x81]);
        Ok(())
    }

    #[test]
    fn frequencies(rt: HostRuntime) -> Result<(), Fail> {
        let value = [0x2C, 0x64, 0x04, 0x00, 0x00, 0x81];
        let Some(Record::Supported { frequencies }) = read_value(Group::Private, 0xC0, &value)
        else {
            return Err(Fail::new("no list"));
        };
        assert!(rt; frequencies.count() == 1);
        let Some(frequency) = frequencies.entry(0) else {
            return Err(Fail::new("no entry"));
        };
        assert!(rt; frequency.tuning.steps == 3172 && frequency.station.number() == 1);
        refuses(&rt, 0xC0, &[0x2C, 0x64, 0x06, 0x00, 0x00, 0x81]);
        Ok(())
    }

    // The public group has no layouts.
    #[test]
    fn public_values(rt: HostRuntime) {
        let octets = [0x57].as_slice();
        assert!(rt; read_value(Group::Public, 0x00, octets) == Some(Record::Unlaid { octets }));
    }
}

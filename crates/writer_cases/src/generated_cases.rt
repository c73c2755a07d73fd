// Some hundred generated frames, heard in calls that are split at random places.
#[cfg(test)]
mod tests {
    use bits::packed_sink::PackedSink;
    use bits::packed_source::PackedSource;
    use frame::{Address, Control, Frame, Heading, Kind, Unnumbered, open};
    use receiver::{Answer, Receiver};
    use std::array;
    use std::process::Abort;
    use std::test::Fail;
    use writer::write_frame;

    fn random(seed: &mut u32) -> u32 {
        *seed = seed.wrapping_mul(1664525).wrapping_add(1013904223);
        *seed >> 8
    }

    fn octet(seed: &mut u32) -> u8 {
        (random(seed) & 0xFF) as u8
    }

    fn test_heading(address: Address) -> Heading {
        Heading {
            destination: address,
            from_ground: true,
            source: address,
            response: true,
            control: Control::Unnumbered {
                function: Unnumbered::Test,
                poll: true,
            },
        }
    }

    // Written, and heard in calls of up to 63 bits.
    fn carries(rt: &impl Abort, seed: &mut u32, information: &[u8]) -> Result<(), Fail> {
        let address = Address {
            kind: Kind::Aircraft,
            high: octet(seed),
            middle: octet(seed),
            low: octet(seed),
        };
        let frame = Frame {
            heading: test_heading(address),
            information,
        };
        let mut memory = [0; 200];
        let bits = write_frame(&mut PackedSink::new(&mut memory, usize::MAX), &frame)?;
        let mut source = PackedSource::new(&memory, bits);
        let mut receiver = Receiver::new();
        for _ in 0..2000 {
            let mut buffer = [0; 2061];
            let heard = receiver.listen(&mut source, random(seed) % 64, &mut buffer)?;
            if let Answer::Frame(n) = heard.answer {
                assert_eq!(rt; open(&buffer[..n])?, frame);
                return Ok(());
            }
            assert_eq!(rt; heard.answer, Answer::Paused);
        }
        Err(Fail::new("never heard"))
    }

    // Octets with many ones.
    fn filled(seed: &mut u32) -> [u8; 96] {
        array::from_fn(|_| octet(seed) | octet(seed))
    }

    #[test]
    fn generated(rt: HostRuntime) -> Result<(), Fail> {
        let mut seed = 1;
        for _ in 0..400u32 {
            let information = filled(&mut seed);
            let length = (random(&mut seed) % 97) as usize;
            carries(&rt, &mut seed, &information[..length])?;
        }
        Ok(())
    }
}

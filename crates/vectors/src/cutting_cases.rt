// Cutting by its lengths, and one stream split at every bit.
#[cfg(test)]
mod tests {
    use bits::text::TextSource;
    use cutting::Fault;
    use fcs::check_sequence;
    use path::dry::{Event, Verdict, hear_all};
    use receiver::Receiver;
    use std::alloc::{AllocError, Global};
    use std::iter;
    use std::test::Fail;

    const FLAG: &[u8] = b"01111110";

    // What is heard in a text that comes behind so many bits.
    fn heard(
        heap: Global,
        receiver: &mut Receiver,
        text: &[u8],
        before: u64,
    ) -> Result<Vec<Event>, Fail> {
        let mut events = hear_all(heap, receiver, &mut TextSource::new(text))?.events;
        for event in events.iter_mut() {
            event.place = event.place.saturating_add(before);
        }
        Ok(events)
    }

    // The verdict on a stretch of so many zeros.
    fn zeros(heap: Global, count: usize) -> Result<Option<Verdict>, Fail> {
        let mut text = Vec::from_slice(heap, FLAG)?;
        text.extend(iter::repeat_n(b'0', count))?;
        text.extend_from_slice(FLAG)?;
        let mut heard = heard(heap, &mut Receiver::new(), &text, 0)?;
        Ok(heard.pop().map(|event| event.verdict))
    }

    #[test]
    fn lengths(rt: HostRuntime) -> Result<(), Fail> {
        for (count, fault) in [
            (0, None),
            (1, Some(Fault::NotOctets)),
            (8, Some(Fault::TooShort)),
            (80, Some(Fault::TooShort)),
            (81, Some(Fault::NotOctets)),
            (87, Some(Fault::NotOctets)),
            (88, Some(Fault::WrongSequence)),
            (16_504, Some(Fault::WrongSequence)),
            (16_505, Some(Fault::TooLong)),
            (16_512, Some(Fault::TooLong)),
            (40_000, Some(Fault::TooLong)),
        ] {
            assert_eq!(rt;
                zeros(rt.alloc(), count)?,
                fault.map(Verdict::Refused),
                "{count} zeros"
            );
        }
        Ok(())
    }

    #[test]
    fn numbers(rt: HostRuntime) {
        assert_eq!(rt; Fault::MissingZero.number(), 11);
        assert_eq!(rt; Fault::TooLong.number(), 12);
        assert_eq!(rt; Fault::NotOctets.number(), 13);
        assert_eq!(rt; Fault::TooShort.number(), 14);
        assert_eq!(rt; Fault::WrongSequence.number(), 15);
    }

    // The bits of an octet, stuffed, behind `ones` ones.
    fn put_octet(text: &mut Vec<u8>, octet: u8, ones: u8) -> Result<u8, AllocError> {
        let mut run = ones;
        for k in 0..8u8 {
            let bit = (octet >> k) & 1 == 1;
            text.push(if bit { b'1' } else { b'0' })?;
            run = if bit { run.saturating_add(1) } else { 0 };
            if run == 5 {
                text.push(b'0')?;
                run = 0;
            }
        }
        Ok(run)
    }

    fn put_frame(text: &mut Vec<u8>, octets: &[u8]) -> Result<(), AllocError> {
        text.extend_from_slice(FLAG)?;
        let sequence = check_sequence(octets).to_le_bytes();
        let mut ones = 0;
        for octet in octets.iter().chain(sequence.iter()) {
            ones = put_octet(text, *octet, ones)?;
        }
        text.extend_from_slice(FLAG)
    }

    #[test]
    fn longest_frame(rt: HostRuntime) -> Result<(), Fail> {
        let heap = rt.alloc();
        let octets = [0xFF; 2_062];
        let mut text = Vec::new(heap);
        put_frame(&mut text, &octets[..2_061])?;
        put_frame(&mut text, &octets)?;
        let heard = heard(heap, &mut Receiver::new(), &text, 0)?;
        let [first, second] = heard.as_slice() else {
            return Err(Fail::new("not two verdicts"));
        };
        let frame = Verdict::Frame(Vec::from_slice(heap, &octets[..2_061])?);
        assert!(rt; first.verdict == frame);
        assert!(rt; second.verdict == Verdict::Refused(Fault::TooLong));
        Ok(())
    }

    #[test]
    fn split_at_every_bit(rt: HostRuntime) -> Result<(), Fail> {
        let heap = rt.alloc();
        let mut text = Vec::from_slice(heap, b"1101")?;
        put_frame(&mut text, b"\xFF\xFF\x01234567")?;
        text.extend_from_slice(b"1111110")?;
        put_frame(&mut text, b"\x7E\x7E\x7E\x7E\x7E\x7E\x7E\x7E\x7E\x7E")?;
        text.extend_from_slice(b"0101111101111110 0000 01111110 10 1111111 0")?;
        put_frame(&mut text, b"123456789")?;
        let whole = heard(heap, &mut Receiver::new(), &text, 0)?;
        assert_eq!(rt; whole.len(), 6);
        for k in 0..text.len() {
            let (front, rest) = text.split_at(k);
            let mut receiver = Receiver::new();
            let mut parts = heard(heap, &mut receiver, front, 0)?;
            let behind = heard(heap, &mut receiver, rest, bits(front))?;
            parts.extend(behind)?;
            assert!(rt; parts == whole);
        }
        Ok(())
    }

    fn bits(text: &[u8]) -> u64 {
        text.iter()
            .filter(|octet| matches!(**octet, b'0' | b'1'))
            .count() as u64
    }
}

// Packed and text sinks and sources at their edges.
#[cfg(test)]
mod tests {
    use crate::counting::counted;
    use bits::packed_sink::PackedSink;
    use bits::packed_source::PackedSource;
    use bits::sink::{BitSink, SinkError};
    use bits::source::BitSource;
    use bits::text_sink::TextSink;
    use layers::burst::Burst;
    use std::test::Fail;

    fn waiting<S: BitSource + Drop>(source: S) -> usize {
        counted(source).0
    }

    #[test]
    fn packed_edges(rt: HostRuntime) {
        let all = [0xFF; 16_385];
        assert_eq!(rt; waiting(PackedSource::new(&[], usize::MAX)), 0);
        assert_eq!(rt; waiting(PackedSource::new(&all[..1], 1)), 1);
        assert_eq!(rt; waiting(PackedSource::new(&all[..1], 0)), 0);
        assert_eq!(rt; waiting(PackedSource::new(&all[..1], 9)), 8);
        assert_eq!(rt;
            waiting(PackedSource::new(&all[..16_384], usize::MAX)),
            131_072
        );
        assert_eq!(rt; waiting(PackedSource::new(&all, usize::MAX)), 131_072);
        assert_eq!(rt; waiting(PackedSource::new(&all, 131_071)), 131_071);
        assert_eq!(rt;
            waiting(Burst::new(PackedSource::new(&all, usize::MAX), 131_072)),
            131_071
        );
        assert_eq!(rt;
            waiting(Burst::new(PackedSource::new(&all, usize::MAX), 0)),
            0
        );
        assert_eq!(rt; waiting(Burst::new(PackedSource::new(&all, 5), 131_071)), 5);
    }

    #[test]
    fn rooms(rt: HostRuntime) {
        let mut octets = [0; 65_537];
        assert_eq!(rt; TextSink::new(&mut octets).room(), 65_536);
        assert_eq!(rt; TextSink::new(&mut octets[..65_536]).room(), 65_536);
        assert_eq!(rt; PackedSink::new(&mut octets, usize::MAX).room(), 131_072);
        assert_eq!(rt; PackedSink::new(&mut octets, 131_071).room(), 131_071);
        assert_eq!(rt;
            Burst::new(PackedSink::new(&mut octets, usize::MAX), 131_072).room(),
            131_071
        );
        assert_eq!(rt; PackedSink::new(&mut [], 1).room(), 0);
    }

    #[test]
    fn cut_back_across_an_octet(rt: HostRuntime) -> Result<(), Fail> {
        let mut octets = [0xA5, 0xA5, 0xA5];
        let mut sink = PackedSink::new(&mut octets, 20);
        for _ in 0..10 {
            sink.put(true)?;
        }
        assert_eq!(rt; sink.cut_back(11), Err(SinkError::AboveHeld));
        sink.cut_back(6)?;
        assert_eq!(rt; sink.count(), 6);
        assert_eq!(rt; sink.room(), 14);
        for _ in 0..14 {
            sink.put(false)?;
        }
        assert_eq!(rt; sink.put(true), Err(SinkError::NoRoom));
        assert!(rt; &*sink.finish() == [0x3F, 0x00, 0xA0].as_slice());
        Ok(())
    }

    #[test]
    fn text_puts(rt: HostRuntime) -> Result<(), Fail> {
        let mut octets = *b"abcd";
        let mut sink = TextSink::new(&mut octets);
        sink.put(true)?;
        sink.put(false)?;
        sink.put(true)?;
        sink.cut_back(1)?;
        assert_eq!(rt; sink.cut_back(2), Err(SinkError::AboveHeld));
        assert_eq!(rt; sink.room(), 3);
        sink.put(true)?;
        assert!(rt; &*sink.finish() == b"111d".as_slice());
        Ok(())
    }

    #[test]
    fn numbers(rt: HostRuntime) {
        assert_eq!(rt; SinkError::NoRoom.number(), 40);
        assert_eq!(rt; SinkError::AboveHeld.number(), 45);
    }
}

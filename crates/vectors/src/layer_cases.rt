// Layers: the scrambling sequence, cuts to before a layer's beginning, and copies through every bottom and the pile.
#[cfg(test)]
mod tests {
    use bits::packed_sink::PackedSink;
    use bits::packed_source::PackedSource;
    use bits::sink::BitSink;
    use bits::source::BitSource;
    use bits::text::TextSource;
    use bits::text_sink::TextSink;
    use layers::burst::Burst;
    use layers::copying::{NoRoom, copy};
    use layers::pile::{pile_sink, pile_source};
    use layers::scrambling::{ScrambledSink, ScrambledSource};
    use std::test::Fail;

    // s(0) to s(14)
    const GIVEN: [bool; 15] = [
        true, true, false, true, false, false, true, false, true, false, true, true, false, false,
        true,
    ];

    fn text_of<S: BitSource>(source: &mut S, text: &mut [u8]) -> Result<usize, NoRoom> {
        copy(source, &mut TextSink::new(text))
    }

    #[test]
    fn sequence_forward(rt: HostRuntime) {
        let zeros = [0u8; 5];
        let mut source = ScrambledSource::new(PackedSource::new(&zeros, 40), &GIVEN);
        let mut text = [b'x'; 41];
        assert_eq!(rt; text_of(&mut source, &mut text), Ok(40));
        assert!(rt; &text == b"1101001010110010111011111010111001100001x");
    }

    // Ten bits lie below, held before the layer was made; it is cut back to before its beginning, and ten zeros show s(-10) to s(-1).
    #[test]
    fn sequence_backward(rt: HostRuntime) -> Result<(), Fail> {
        let mut octets = [0u8; 3];
        let mut packed = PackedSink::new(&mut octets, 24);
        for _ in 0..10 {
            packed.put(true)?;
        }
        let mut sink = ScrambledSink::new(packed, &GIVEN);
        sink.put(false)?;
        sink.cut_back(0)?;
        assert_eq!(rt; sink.room(), 24);
        for _ in 0..24 {
            sink.put(false)?;
        }
        let memory = sink.into_below().finish();
        let mut source = PackedSource::new(memory, 24);
        let mut text = [b'x'; 25];
        assert_eq!(rt; text_of(&mut source, &mut text), Ok(24));
        assert!(rt; &text == b"001100100011010010101100x");
        Ok(())
    }

    #[test]
    fn cut_back_before_a_window(rt: HostRuntime) -> Result<(), Fail> {
        let mut octets = [0u8; 2];
        let mut packed = PackedSink::new(&mut octets, 12);
        for _ in 0..5 {
            packed.put(true)?;
        }
        let mut sink = Burst::new(packed, 3);
        assert_eq!(rt; sink.room(), 3);
        sink.put(true)?;
        sink.cut_back(2)?;
        assert_eq!(rt; sink.room(), 6);
        assert_eq!(rt; sink.count(), 2);
        Ok(())
    }

    #[test]
    fn through_the_pile(rt: HostRuntime) {
        let mut source = TextSource::new(b"0111 1110 - 1010 0110 - 01");
        let mut memory = [0u8; 3];
        let mut pile = pile_sink(&mut memory, 18, &GIVEN);
        let end = NoRoom { copied: 18 };
        assert_eq!(rt; copy(&mut source, &mut pile), Err(end));
        assert_eq!(rt; end.number(), 40);
        let memory = pile.into_below().into_below().finish();
        let mut source = pile_source(memory, 18, &GIVEN);
        let mut text = [b'x'; 19];
        assert_eq!(rt; text_of(&mut source, &mut text), Ok(18));
        assert!(rt; &text == b"011111101010011001x");
    }

    #[test]
    fn packed_to_packed(rt: HostRuntime) {
        let mut source = PackedSource::new(&[0x7E, 0x3C, 0x81], 20);
        let mut memory = [0xFFu8; 3];
        let mut sink = PackedSink::new(&mut memory, usize::MAX);
        assert_eq!(rt; copy(&mut source, &mut sink), Ok(20));
        assert!(rt; &*sink.finish() == [0x7E, 0x3C, 0xF1].as_slice());
    }
}

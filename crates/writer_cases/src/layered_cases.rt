// Writing and listening through layers in every order, over text and over packed octets.
#[cfg(test)]
mod tests {
    use crate::hearing;
    use bits::packed_sink::PackedSink;
    use bits::packed_source::PackedSource;
    use bits::sink::BitSink;
    use bits::source::BitSource;
    use bits::text::TextSource;
    use bits::text_sink::TextSink;
    use frame::{Address, Control, Frame, Heading, Kind, Unnumbered};
    use layers::burst::Burst;
    use layers::pile::{pile_sink, pile_source};
    use layers::scrambling::{ScrambledSink, ScrambledSource};
    use std::process::Abort;
    use std::test::Fail;
    use writer::{WriteError, write_frame};

    const GIVEN: [bool; 15] = [
        true, true, false, true, false, false, true, false, true, false, true, true, false, false,
        true,
    ];

    const ADDRESS: Address = Address {
        kind: Kind::GroundDelegated,
        high: 1,
        middle: 2,
        low: 3,
    };

    const FRAME: Frame<'static> = Frame {
        heading: Heading {
            destination: ADDRESS,
            from_ground: false,
            source: ADDRESS,
            response: false,
            control: Control::Unnumbered {
                function: Unnumbered::Ui,
                poll: false,
            },
        },
        information: &[0x1F, 0x22, 0xFF, 0xFF],
    };

    fn writes<K: BitSink + Drop>(mut sink: K) -> Result<usize, WriteError> {
        write_frame(&mut sink, &FRAME)
    }

    fn hears<S: BitSource + Drop>(rt: &impl Abort, mut source: S, bits: usize) -> Result<(), Fail> {
        assert_eq!(rt; hearing::hears(rt, &mut source, &FRAME)?, bits);
        Ok(())
    }

    #[test]
    fn bare_text(rt: HostRuntime) -> Result<(), Fail> {
        let mut text = [0; 300];
        let bits = writes(TextSink::new(&mut text))?;
        hears(&rt, TextSource::new(&text), bits)
    }

    #[test]
    fn the_pile(rt: HostRuntime) -> Result<(), Fail> {
        let mut octets = [0; 40];
        let bits = writes(pile_sink(&mut octets, 200, &GIVEN))?;
        hears(&rt, pile_source(&octets, bits, &GIVEN), bits)
    }

    #[test]
    fn window_over_scrambling_over_packed(rt: HostRuntime) -> Result<(), Fail> {
        let mut octets = [0; 40];
        let packed = PackedSink::new(&mut octets, 300);
        let bits = writes(Burst::new(ScrambledSink::new(packed, &GIVEN), 250))?;
        let packed = PackedSource::new(&octets, 300);
        hears(
            &rt,
            Burst::new(ScrambledSource::new(packed, &GIVEN), bits),
            bits,
        )
    }

    #[test]
    fn scrambling_over_window_over_text(rt: HostRuntime) -> Result<(), Fail> {
        let mut text = [0; 300];
        let window = Burst::new(TextSink::new(&mut text), 250);
        let bits = writes(ScrambledSink::new(window, &GIVEN))?;
        let window = Burst::new(TextSource::new(&text), 250);
        hears(&rt, ScrambledSource::new(window, &GIVEN), bits)
    }

    #[test]
    fn scrambling_twice_over_text(rt: HostRuntime) -> Result<(), Fail> {
        let mut text = [0; 300];
        let window = Burst::new(TextSink::new(&mut text), 250);
        let once = ScrambledSink::new(window, &GIVEN);
        let bits = writes(ScrambledSink::new(once, &GIVEN))?;
        hears(&rt, Burst::new(TextSource::new(&text), 250), bits)
    }
}

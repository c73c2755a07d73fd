// Listening: allowances, buffers, and the verdicts of short inputs.
#[cfg(test)]
mod tests {
    use bits::text::TextSource;
    use cutting::Fault;
    use receiver::{Answer, Heard, ListenError, Receiver};
    use std::test::Fail;

    const MISSING_ZERO: Answer = Answer::Refused(Fault::MissingZero);

    const NOT_OCTETS: Answer = Answer::Refused(Fault::NotOctets);

    const fn told(answer: Answer, taken: u32) -> Heard {
        Heard { answer, taken }
    }

    fn heard(
        receiver: &mut Receiver,
        source: &mut TextSource<'_>,
        allowance: u32,
    ) -> Result<Heard, ListenError> {
        receiver.listen(source, allowance, &mut [0; 2061])
    }

    // What the first call hears in a whole text.
    fn first(text: &[u8]) -> Result<Heard, ListenError> {
        heard(&mut Receiver::new(), &mut TextSource::new(text), u32::MAX)
    }

    #[test]
    fn allowance(rt: HostRuntime) -> Result<(), Fail> {
        let mut receiver = Receiver::new();
        let mut source = TextSource::new(b"01111110 0000000 01111110");
        for (allowance, answer, taken) in [
            (0, Answer::Paused, 0),
            (22, Answer::Paused, 22),
            (1, NOT_OCTETS, 1),
            (0, Answer::Paused, 0),
            (1, Answer::Dry, 0),
        ] {
            let heard = heard(&mut receiver, &mut source, allowance)?;
            assert_eq!(rt; heard, told(answer, taken), "allowance {allowance}");
        }
        let mut source = TextSource::new(b"0000");
        assert_eq!(rt;
            heard(&mut receiver, &mut source, 4)?,
            told(Answer::Paused, 4)
        );
        assert_eq!(rt; heard(&mut receiver, &mut source, 4)?, told(Answer::Dry, 0));
        Ok(())
    }

    #[test]
    fn short_buffer(rt: HostRuntime) -> Result<(), Fail> {
        let mut receiver = Receiver::new();
        let mut source = TextSource::new(b"01111110 0000000 01111110");
        let refused = receiver.listen(&mut source, 5, &mut [7; 2060]);
        assert_eq!(rt; refused, Err(ListenError::ShortBuffer));
        assert_eq!(rt; ListenError::ShortBuffer.number(), 1);
        assert_eq!(rt;
            heard(&mut receiver, &mut source, u32::MAX)?,
            told(NOT_OCTETS, 23)
        );
        Ok(())
    }

    #[test]
    fn short_inputs(rt: HostRuntime) -> Result<(), Fail> {
        // two flags that share a zero, and no stretch between them
        assert_eq!(rt; first(b"01111110 1111110")?, told(Answer::Dry, 15));
        // the flag's first zero is not the zero behind five ones
        assert_eq!(rt; first(b"01111110 11111 01111110")?, told(MISSING_ZERO, 21));
        // idle ones right behind a flag abort nothing
        assert_eq!(rt; first(b"01111110 1111111")?, told(Answer::Dry, 15));
        assert_eq!(rt; first(b"01111110 0 1111111")?, told(Answer::Aborted, 16));
        // a flag needs a zero of its own
        assert_eq!(rt; first(b"1111110 1 01111110")?, told(Answer::Dry, 16));
        assert_eq!(rt;
            first(b"1111110 1 01111110 1 01111110")?,
            told(NOT_OCTETS, 25)
        );
        Ok(())
    }

    #[test]
    fn carrier_loss(rt: HostRuntime) -> Result<(), Fail> {
        let mut receiver = Receiver::new();
        let mut source = TextSource::new(b"01111110 0000000 0111111");
        assert_eq!(rt;
            heard(&mut receiver, &mut source, u32::MAX)?,
            told(Answer::Dry, 22)
        );
        receiver.carrier_loss();
        let mut source = TextSource::new(b"0 0 01111110 0 01111110");
        assert_eq!(rt;
            heard(&mut receiver, &mut source, u32::MAX)?,
            told(NOT_OCTETS, 19)
        );
        Ok(())
    }
}

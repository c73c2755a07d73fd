// A list of calls on a new receiver, refused ones and a carrier loss among them.
#[cfg(test)]
mod tests {
    use bits::text::TextSource;
    use cutting::Fault;
    use path::replay::{Call, Outcome, replay};
    use receiver::Answer;
    use std::test::Fail;

    const fn listen(allowance: u32, room: usize) -> Call {
        Call::Listen { allowance, room }
    }

    #[test]
    fn calls_in_order(rt: HostRuntime) -> Result<(), Fail> {
        let calls = [
            listen(4, 2_060),
            listen(12, 2_061),
            listen(100, 2_061),
            listen(100, 2_061),
            Call::CarrierLoss,
            listen(100, 2_061),
            listen(0, 3_000),
            listen(1, 2_061),
        ];
        let mut source = TextSource::new(
            b"01111110 0000000 01111110 01010101 01111110 001111111 01111110 0 01111110",
        );
        let heap = rt.alloc();
        let outcomes = replay(heap, &mut source, &calls)?;
        let told = |answer: Answer, taken: u32| Outcome::Heard {
            taken,
            answer,
            octets: Vec::new(heap),
        };
        let expected = [
            Outcome::Refused,
            told(Answer::Paused, 12),
            told(Answer::Refused(Fault::NotOctets), 11),
            told(Answer::Refused(Fault::TooShort), 16),
            Outcome::Lost,
            told(Answer::Refused(Fault::NotOctets), 26),
            told(Answer::Paused, 0),
            told(Answer::Dry, 0),
        ];
        assert_eq!(rt; outcomes.as_slice(), expected.as_slice());
        Ok(())
    }
}

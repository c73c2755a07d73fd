// A refusal hands the debt back, and leaves the sink.
#[cfg(test)]
mod tests {
    use crate::paying::paid;
    use bits::sink::BitSink;
    use bits::text_sink::TextSink;
    use reply::{Checked, Debt, Unpaid, check, reply};
    use std::process::Abort;
    use std::test::Fail;
    use writer::WriteError;

    const COMMAND: [u8; 10] = [0x04, 0x00, 0x00, 0x81, 0x50, 0x00, 0x00, 0x81, 0xBF, 0x82];

    fn owed() -> Result<Debt, Fail> {
        let Checked {
            frame: _,
            parameters: _,
            debt,
        } = check(&COMMAND)?;
        debt.ok_or_else(|| Fail::new("nothing owed"))
    }

    // Replies into this memory. A debt that is handed back is paid after all, and the sink is as it was.
    fn replies(
        rt: &impl Abort,
        debt: Debt,
        text: &mut [u8],
        information: &[u8],
    ) -> Result<usize, WriteError> {
        let room = text.len();
        let mut sink = TextSink::new(text);
        reply(debt, &mut sink, true, information).map_err(|Unpaid { debt, error }| {
            assert!(rt; paid(debt) > 0);
            assert!(rt; sink.count() == 0 && sink.room() == room);
            error
        })
    }

    #[test]
    fn handed_back(rt: HostRuntime) -> Result<(), Fail> {
        // ten octets and their check sequence: room for 16 + 96 + 19 bits is asked for
        assert_eq!(rt;
            replies(&rt, owed()?, &mut [0; 130], &[0x82]),
            Err(WriteError::NoRoom)
        );
        assert!(rt; replies(&rt, owed()?, &mut [0; 131], &[0x82])? > 0);
        assert_eq!(rt;
            replies(&rt, owed()?, &mut [0; 131], &[0; 2053]),
            Err(WriteError::TooLong)
        );
        assert_eq!(rt; WriteError::NoRoom.number(), 43);
        assert_eq!(rt; WriteError::TooLong.number(), 42);
        Ok(())
    }
}

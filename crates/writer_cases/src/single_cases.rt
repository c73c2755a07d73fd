// Single frames: every control, the lengths of information, the room.
#[cfg(test)]
mod tests {
    use crate::hearing::hears;
    use bits::packed_sink::PackedSink;
    use bits::packed_source::PackedSource;
    use bits::sink::BitSink;
    use bits::text_sink::TextSink;
    use frame::{Address, Control, Frame, Heading, Kind, Supervisory, Unnumbered};
    use std::process::Abort;
    use std::test::Fail;
    use writer::{WriteError, write_frame};

    const FILL: [u8; 2053] = [0xFF; 2053];

    fn address(kind: Kind, low: u8) -> Address {
        Address {
            kind,
            high: 0x40,
            middle: 0x00,
            low,
        }
    }

    fn frame(control: Control, information: &[u8]) -> Frame<'_> {
        let heading = Heading {
            destination: address(Kind::GroundAdministered, 1),
            from_ground: false,
            source: address(Kind::Aircraft, 2),
            response: true,
            control,
        };
        Frame {
            heading,
            information,
        }
    }

    fn unnumbered(function: Unnumbered, information: &[u8]) -> Frame<'_> {
        frame(
            Control::Unnumbered {
                function,
                poll: true,
            },
            information,
        )
    }

    // Written, heard and opened again.
    fn carries(rt: &impl Abort, frame: &Frame<'_>) -> Result<(), Fail> {
        let mut memory = [0; 2600];
        let mut sink = PackedSink::new(&mut memory, usize::MAX);
        let bits = write_frame(&mut sink, frame)?;
        assert_eq!(rt; sink.count(), bits);
        hears(rt, &mut PackedSource::new(sink.finish(), bits), frame)?;
        Ok(())
    }

    // Refused with this error, and nothing is put.
    fn refuses(rt: &impl Abort, frame: &Frame<'_>, error: WriteError) {
        let mut memory = [7; 2600];
        let mut sink = PackedSink::new(&mut memory, usize::MAX);
        assert_eq!(rt; write_frame(&mut sink, frame), Err(error));
        assert_eq!(rt; sink.count(), 0);
        assert!(rt; memory == [7; 2600]);
    }

    #[test]
    fn every_unnumbered(rt: HostRuntime) -> Result<(), Fail> {
        carries(&rt, &unnumbered(Unnumbered::Ui, &FILL[..5]))?;
        carries(&rt, &unnumbered(Unnumbered::Dm, &[]))?;
        carries(&rt, &unnumbered(Unnumbered::Disc, &[]))?;
        carries(&rt, &unnumbered(Unnumbered::Ua, &[]))?;
        carries(&rt, &unnumbered(Unnumbered::Frmr, &FILL[..3]))?;
        carries(&rt, &unnumbered(Unnumbered::Xid, &[0x82]))?;
        carries(&rt, &unnumbered(Unnumbered::Test, &[0x1F, 0x22]))
    }

    #[test]
    fn every_numbered(rt: HostRuntime) -> Result<(), Fail> {
        let information = Control::Information {
            send: 7,
            poll: true,
            receive: 7,
        };
        let ready = Control::Supervisory {
            function: Supervisory::Rr,
            poll: false,
            receive: 0,
        };
        let reject = Control::Supervisory {
            function: Supervisory::Srej,
            poll: true,
            receive: 3,
        };
        carries(&rt, &frame(information, &FILL[..1]))?;
        carries(&rt, &frame(ready, &[]))?;
        carries(&rt, &frame(reject, &[0x00]))
    }

    #[test]
    fn information(rt: HostRuntime) -> Result<(), Fail> {
        carries(&rt, &unnumbered(Unnumbered::Ui, &[]))?;
        carries(&rt, &unnumbered(Unnumbered::Ui, &FILL[..1]))?;
        carries(&rt, &unnumbered(Unnumbered::Ui, &FILL[..2052]))
    }

    #[test]
    fn refused(rt: HostRuntime) {
        let send_8 = Control::Information {
            send: 8,
            poll: false,
            receive: 0,
        };
        let receive_8 = Control::Supervisory {
            function: Supervisory::Rr,
            poll: false,
            receive: 8,
        };
        refuses(&rt, &unnumbered(Unnumbered::Ui, &FILL), WriteError::TooLong);
        // unsuited comes before too long
        for frame in [
            unnumbered(Unnumbered::Ua, &FILL[..1]),
            unnumbered(Unnumbered::Frmr, &FILL),
            frame(send_8, &FILL),
            frame(receive_8, &[]),
        ] {
            refuses(&rt, &frame, WriteError::Unsuited);
        }
    }

    // Check sequences F84Fh and FF77h: the bits before the closing flag end in five ones, so a zero is stuffed behind the last, and in eight.
    #[test]
    fn sequences_that_end_in_ones(rt: HostRuntime) -> Result<(), Fail> {
        carries(&rt, &unnumbered(Unnumbered::Ui, &[0x2E]))?;
        carries(&rt, &unnumbered(Unnumbered::Ui, &[0x59]))
    }

    // The nine octets and their check sequence are 88 bits, so room for 16 + 88 + 17 is asked for.
    #[test]
    fn room(rt: HostRuntime) -> Result<(), Fail> {
        let ua = unnumbered(Unnumbered::Ua, &[]);
        let mut exact = [b'x'; 121];
        let mut sink = TextSink::new(&mut exact);
        let bits = write_frame(&mut sink, &ua)?;
        assert!(rt; bits >= 104 && sink.count() == bits);
        assert_eq!(rt; 121usize.checked_sub(bits), Some(sink.room()));
        let mut short = [b'x'; 120];
        let mut sink = TextSink::new(&mut short);
        assert_eq!(rt; write_frame(&mut sink, &ua), Err(WriteError::NoRoom));
        assert_eq!(rt; sink.room(), 120);
        assert!(rt; short == [b'x'; 120]);
        Ok(())
    }
}

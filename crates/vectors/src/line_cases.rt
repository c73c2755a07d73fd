// Trace lines, and the buffers that are just long enough or one short.
#[cfg(test)]
mod tests {
    use cutting::Fault;
    use lines::{Line, LineError, Stamp, make_line};
    use std::alloc::Global;
    use std::process::Abort;
    use std::test::Fail;

    // The line is made in a buffer of just its length, and refused in one that is one shorter, which stays as it was.
    fn made(rt: &impl Abort, heap: Global, line: Line<'_>, expected: &[u8]) -> Result<(), Fail> {
        let mut buffer = vec![in heap; b'x'; expected.len()]?;
        assert_eq!(rt; make_line(line, &mut buffer), Ok(expected.len()));
        assert!(rt; buffer.as_slice() == expected);
        let mut short = vec![in heap; b'x'; expected.len().saturating_sub(1)]?;
        assert_eq!(rt; make_line(line, &mut short), Err(LineError::ShortBuffer));
        assert!(rt; short.iter().all(|octet| *octet == b'x'));
        Ok(())
    }

    #[test]
    fn four_kinds(rt: HostRuntime) -> Result<(), Fail> {
        let at = |ordinal: u64, taken: u64| Stamp { ordinal, taken };
        let cases: [(Line<'_>, &[u8]); 6] = [
            (
                Line::Refused {
                    stamp: at(1, 23),
                    fault: Fault::NotOctets,
                },
                b"1 23 refused 13\n",
            ),
            (Line::Aborted { stamp: at(3, 48) }, b"3 48 aborted\n"),
            (
                Line::Frame {
                    stamp: at(10, 0),
                    octets: &[0x00, 0x9A, 0xFF],
                },
                b"10 0 frame 009AFF\n",
            ),
            (
                Line::Frame {
                    stamp: at(0, 5),
                    octets: &[],
                },
                b"0 5 frame \n",
            ),
            (Line::Taken { total: 0 }, b"taken 0\n"),
            (
                Line::Taken { total: u64::MAX },
                b"taken 18446744073709551615\n",
            ),
        ];
        for (line, expected) in cases {
            made(&rt, rt.alloc(), line, expected)?;
        }
        Ok(())
    }

    #[test]
    fn number(rt: HostRuntime) {
        assert_eq!(rt; LineError::ShortBuffer.number(), 61);
    }

    #[test]
    fn octets_behind_stay(rt: HostRuntime) -> Result<(), Fail> {
        let mut buffer = [b'x'; 12];
        let line = Line::Taken { total: 48 };
        assert_eq!(rt; make_line(line, &mut buffer), Ok(9));
        assert!(rt; &buffer == b"taken 48\nxxx");
        Ok(())
    }
}

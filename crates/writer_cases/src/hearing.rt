// A frame, heard in one call and opened again.
use bits::source::BitSource;
use frame::{Frame, open};
use receiver::{Answer, Receiver};
use std::process::Abort;
use std::test::Fail;

// Heard as this frame, with nothing behind its octets; answers how many bits were taken.
pub fn hears<S: BitSource>(
    rt: &impl Abort,
    source: &mut S,
    frame: &Frame<'_>,
) -> Result<usize, Fail> {
    let mut buffer = [0; 2061];
    let heard = Receiver::new().listen(source, u32::MAX, &mut buffer)?;
    let Answer::Frame(n) = heard.answer else {
        return Err(Fail::new("no frame"));
    };
    let (octets, behind) = buffer.split_at(n);
    assert_eq!(rt; open(octets)?, *frame);
    assert!(rt; behind.iter().all(|octet| *octet == 0));
    Ok(heard.taken as usize)
}

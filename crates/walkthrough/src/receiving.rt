// The receiving end: listening through the shipped pile, with one carrier loss in the middle of a frame.
use crate::GIVEN;
use crate::sending::Sent;
use anyhow::anyhow;
use layers::pile::pile_source;
use receiver::{Answer, Receiver};

// How many bits were taken before the carrier was lost and after it, and the frame's octets.
#[derive(Clone, Copy)]
pub struct Caught<'a> {
    pub lost: u32,
    pub taken: u32,
    pub octets: &'a [u8],
}

pub fn heard<'a>(sent: Sent<'_>, buffer: &'a mut [u8; 2061]) -> anyhow::Result<Caught<'a>> {
    let mut source = pile_source(sent.octets, sent.bits, &GIVEN);
    let mut receiver = Receiver::new();
    let first = receiver.listen(&mut source, 100, buffer);
    let lost = first.map_err(|_| anyhow!("no buffer"))?.taken;
    receiver.carrier_loss();
    let second = receiver.listen(&mut source, u32::MAX, buffer);
    let heard = second.map_err(|_| anyhow!("no buffer"))?;
    let Answer::Frame(octets) = heard.answer else {
        return Err(anyhow!("no frame"));
    };
    Ok(Caught {
        lost,
        taken: heard.taken,
        octets: &buffer[..octets],
    })
}

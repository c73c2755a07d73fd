// The sending end: composing, writing and replying through the shipped pile.
ghost use Rattle.std.specs.Prelude.{length};

use crate::GIVEN;
use anyhow::anyhow;
use bits::sink::BitSink;
use composer::{Item, compose};
use frame::{Address, Control, Frame, Heading, Kind, Unnumbered};
use layers::pile::pile_sink;
use register::Group;
use reply::{Debt, reply};
use writer::write_frame;

// Set identification, latitude −33.9°, longitude 151.2° and 35,000 feet, and two wanted ground stations.
const VALUES: [u8; 13] = [
    0x56, 0xEA, 0xD5, 0xE8, 0x23, 0x04, 0x00, 0x00, 0x81, 0x14, 0x42, 0xE2, 0x4F,
];

// The bits written, and the octets that they are packed into.
#[derive(Clone, Copy)]
pub struct Sent<'a> {
    pub bits: usize,
    pub octets: &'a [u8],
}

// A parameter of the private group.
fn private(identifier: u8, place: usize, length: usize) -> Item {
    Item {
        group: Group::Private.octet(),
        identifier,
        place,
        length,
    }
}

pub fn composed(out: &mut [u8; 64]) -> anyhow::Result<&[u8]> {
    let items = [
        private(0x00, 0, 1),
        private(0x84, 1, 4),
        private(0x82, 5, 8),
    ];
    let length = compose(&items, &VALUES, out).map_err(|_| anyhow!("not composed"))?;
    Ok(&out[..length])
}

// An XID command with P at 1, from aircraft 400001h to ground station 1.
fn command(information: &[u8]) -> Frame<'_> {
    let heading = Heading {
        destination: Address {
            kind: Kind::GroundAdministered,
            high: 0,
            middle: 0,
            low: 1,
        },
        from_ground: false,
        source: Address {
            kind: Kind::Aircraft,
            high: 0x40,
            middle: 0,
            low: 1,
        },
        response: false,
        control: Control::Unnumbered {
            function: Unnumbered::Xid,
            poll: true,
        },
    };
    Frame {
        heading,
        information,
    }
}

// Thirteen bits of noise, and the command twice.
pub fn written<'a>(information: &[u8], memory: &'a mut [u8; 128]) -> anyhow::Result<Sent<'a>> {
    let frame = command(information);
    let bits = put(memory, &frame)?;
    let octets = &memory[..bits.div_ceil(8).min(128)];
    Ok(Sent { bits, octets })
}

fn put(octets: &mut [u8], frame: &Frame<'_>) -> anyhow::Result<usize> {
    let mut sink = pile_sink(octets, 1024, &GIVEN);
    for k in 0..13u8 {
        sink.put(k % 3 == 0)
            .map_err(|_| anyhow!("no room for noise"))?;
    }
    for _ in 0..2u8 {
        write_frame(&mut sink, frame).map_err(|_| anyhow!("not written"))?;
    }
    Ok(sink.count())
}

// Replies into memory that has room enough, and answers the bits put.
pub fn answered(debt: Debt, memory: &mut [u8; 64]) -> usize {
    let mut sink = pile_sink(memory, 512, &GIVEN);
    match reply(debt, &mut sink, true, &[0x82]) {
        Ok(bits) => bits,
        Err(_) => unreachable!(),
    }
}

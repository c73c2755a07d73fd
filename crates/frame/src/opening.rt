// Opening a frame's octets, and laying out its header.
ghost use Rattle.frame.specs.Opening.{Opened, HeaderMade};
ghost use Rattle.frame.specs.Parts.{AddressTaken, ControlTaken};

use crate::address::{Address, Addressed, wrong_mark};
use crate::control::{Control, ControlError};
use faults::FrameFault;

// The most octets that a frame has, its check sequence left out.
pub const MOST_OCTETS: usize = 2061;

// What stands before the information: the destination's status bit says that the sender is on the ground, the source's
// that this is a response.
#[derive(Clone, Copy, PartialEq, Eq, Debug)]
pub struct Heading {
    pub destination: Address,
    pub from_ground: bool,
    pub source: Address,
    pub response: bool,
    pub control: Control,
}

#[derive(Clone, Copy, PartialEq, Eq, Debug)]
pub struct Frame<'a> {
    pub heading: Heading,
    pub information: &'a [u8],
}

// The frame whose layout the octets are.
pub fn open(octets: &[u8]) -> Result<Frame<'_>, FrameFault>
    ensures { Opened octets.now result }
{
    let length = FrameFault::Length {
        octets: octets.len(),
    };
    if octets.len() > MOST_OCTETS {
        return Err(length);
    }
    let [d0, d1, d2, d3, s0, s1, s2, s3, control, information @ ..] = octets else {
        return Err(length);
    };
    let to = [*d0, *d1, *d2, *d3];
    let from = [*s0, *s1, *s2, *s3];
    if let Some(place) = wrong_mark(to) {
        return Err(FrameFault::DestinationMark { place });
    }
    if let Some(place) = wrong_mark(from) {
        return Err(FrameFault::SourceMark { place: 4 + place });
    }
    let destination = address_at(0, to)?;
    let source = address_at(4, from)?;
    let control = control_of(*control, information.len())?;
    let heading = Heading {
        destination: destination.address,
        from_ground: destination.status,
        source: source.address,
        response: source.status,
        control,
    };
    Ok(Frame {
        heading,
        information,
    })
}

// An address whose marks are right, at its place in the frame.
fn address_at(place: usize, octets: [u8; 4]) -> Result<Addressed, FrameFault>
    ensures { AddressTaken place octets result }
{
    Address::decode(octets).ok_or(FrameFault::UnlistedType { place })
}

// A control that information of so many octets suits.
fn control_of(octet: u8, information: usize) -> Result<Control, FrameFault>
    ensures { ControlTaken octet information result }
{
    let control = Control::try_from(octet)?;
    if !control.suits(information) {
        return Err(FrameFault::UnsuitedInformation);
    }
    Ok(control)
}

impl Heading {
    // The nine octets that it is.
    pub fn octets(&self) -> Result<[u8; 9], ControlError>
        ensures { HeaderMade self.now result }
    {
        let control = self.control.octet()?;
        let [d0, d1, d2, d3] = self.destination.octets(self.from_ground);
        let [s0, s1, s2, s3] = self.source.octets(self.response);
        Ok([d0, d1, d2, d3, s0, s1, s2, s3, control])
    }
}

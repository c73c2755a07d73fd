// Frames written into a sink, and heard, opened and read from a source.
ghost use Rattle.std.specs.Prelude.{◌≡◌, map, IfOk, MatchResult};
ghost use Rattle.std.specs.List.{AllByRecursion};
ghost use Rattle.cutting.specs.Cutting.{frame as frame_of};
ghost use Rattle.receiver.specs.Hearing.{HasHeard};
ghost use Rattle.path.specs.Carrying.{arrived_placed, found_verdict, Judges, Carries, NotCarried};
ghost use Rattle.path.specs.Dry.{placed};

use crate::dry::{Event, HearError, Verdict, hear_all};
use bits::sink::BitSink;
use bits::source::BitSource;
use cutting::Fault;
use faults::{ExchangeFault, FrameFault};
use frame::{Heading, open};
use receiver::Receiver;
use std::alloc::{AllocError, Global};
use writer::{ListError, Order, write_list};
use xid::parameters_of;

// A frame that was heard and opened: what it says, and its count of parameters, which is 0 outside an XID.
#[derive(Drop, PartialEq, Eq, Debug)]
pub struct Arrival {
    pub heading: Heading,
    pub information: Vec<u8>,
    pub parameters: Result<usize, ExchangeFault>,
}

// What a verdict came to: a frame's octets are opened, or kept with their fault.
#[derive(Drop, PartialEq, Eq, Debug)]
pub enum Found {
    Aborted,
    Refused(Fault),
    Unopened { octets: Vec<u8>, fault: FrameFault },
    Opened(Arrival),
}

// What came, with the bits of this call taken up to it.
#[derive(Drop, PartialEq, Eq, Debug)]
pub struct Arrived {
    pub place: u64,
    pub found: Found,
}

// The bits written, the bits taken, and all that arrived in these.
#[derive(Drop, PartialEq, Eq, Debug)]
pub struct Carried {
    pub bits: usize,
    pub taken: u64,
    pub arrivals: Vec<Arrived>,
}

// Why frames were not carried: the list was refused; not all was heard; or all was heard, and memory ended while it was opened.
#[derive(Clone, Copy, PartialEq, Eq, Debug)]
pub enum CarryError {
    NotWritten { error: ListError },
    NotHeard { error: HearError },
    NoMemory,
}

impl From<ListError> for CarryError {
    ghost use Rattle.path.specs.declared.carrying.CarryError.TheVariants.{NotWritten};

    ghost from_gives = { λ error e. e ≡ NotWritten error };

    fn from(error: ListError) -> CarryError {
        CarryError::NotWritten { error }
    }
}

impl From<HearError> for CarryError {
    ghost use Rattle.path.specs.declared.carrying.CarryError.TheVariants.{NotHeard};

    ghost from_gives = { λ error e. e ≡ NotHeard error };

    fn from(error: HearError) -> CarryError {
        CarryError::NotHeard { error }
    }
}

impl From<AllocError> for CarryError {
    ghost use Rattle.path.specs.declared.carrying.CarryError.TheVariants.{NoMemory};

    ghost from_gives = { λ _ e. e ≡ NoMemory };

    fn from(_: AllocError) -> CarryError {
        CarryError::NoMemory
    }
}

// Writes the frames into the sink, listens to the source until no bit waits, opens every frame heard, and reads every XID among them.
pub fn carry<K: BitSink, S: BitSource>(
    heap: Global,
    sink: &mut K,
    orders: &[Order],
    buffer: &[u8],
    receiver: &mut Receiver,
    source: &mut S,
) -> Result<Carried, CarryError>
    ensures { MatchResult result
        (λ c. Carries (HasHeard receiver.old) (HasHeard receiver.new) (S.waiting source.old) (S.waiting source.new) (K.shown sink.old) (K.shown sink.new) orders.now buffer.now c.bits c.taken c.arrivals.items)
        (λ e. NotCarried e receiver.old receiver.new (S.waiting source.old) (S.waiting source.new) (K.shown sink.old) (K.shown sink.new) orders.now buffer.now) }
{
    let bits = write_list(sink, orders, buffer)?;
    let heard = hear_all(heap, receiver, source)?;
    let arrivals = open_all(heap, &heard.events)?;
    Ok(Carried {
        bits,
        taken: heard.taken,
        arrivals,
    })
}

// Opens the frames among some verdicts, and reads the XIDs among these.
fn open_all(heap: Global, events: &[Event]) -> Result<Vec<Arrived>, AllocError>
    ensures { IfOk result (λ a. (map arrived_placed a.items ≡ map placed events.now) × AllByRecursion (λ x. Judges x.found) a.items) }
{
    let mut arrivals = Vec::new(heap);
    for event in events {
        let found = match &event.verdict {
            Verdict::Aborted => Found::Aborted,
            Verdict::Refused(fault) => Found::Refused(*fault),
            Verdict::Frame(octets) => open_one(heap, octets)?,
        };
        arrivals.push(Arrived {
            place: event.place,
            found,
        })?;
    }
    Ok(arrivals)
}

// A frame's octets, opened.
fn open_one(heap: Global, octets: &[u8]) -> Result<Found, AllocError>
    ensures { IfOk result (λ f. (found_verdict f ≡ frame_of octets.now) × Judges f) }
{
    match open(octets) {
        Err(fault) => {
            let octets = octets.to_vec(heap)?;
            Ok(Found::Unopened { octets, fault })
        }
        Ok(frame) => {
            let information = frame.information.to_vec(heap)?;
            Ok(Found::Opened(Arrival {
                heading: frame.heading,
                information,
                parameters: parameters_of(frame.heading.control, frame.information),
            }))
        }
    }
}

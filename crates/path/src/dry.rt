// Listening until no bit waits.
ghost use Rattle.std.specs.Prelude.{◌≡◌, ◌++◌, map, length, MatchResult, OnOk};
ghost use Rattle.receiver.specs.Answers.{verdict_of};
ghost use Rattle.receiver.specs.Hearing.{HasHeard};
ghost use Rattle.path.specs.Dry.{placed, FitsIn, HearsAll, HearsSome};
ghost use Rattle.path.specs.Runs.{noted};

use bits::source::BitSource;
use cutting::Fault;
use receiver::{Answer, Receiver};
use std::alloc::{AllocError, Global};

// A verdict, and a frame's octets.
#[derive(Drop, PartialEq, Eq, Debug)]
pub enum Verdict {
    Aborted,
    Refused(Fault),
    Frame(Vec<u8>),
}

// A verdict, with the bits of this call taken up to it.
#[derive(Drop, PartialEq, Eq, Debug)]
pub struct Event {
    pub place: u64,
    pub verdict: Verdict,
}

// All verdicts that fell due, and the bits taken.
#[derive(Drop, PartialEq, Eq, Debug)]
pub struct AllHeard {
    pub taken: u64,
    pub events: Vec<Event>,
}

// Why not all was heard: memory ended, or more bits came than 64 bits count.
#[derive(Clone, Copy, PartialEq, Eq, Debug)]
pub enum HearError {
    NoMemory,
    TooManyBits,
}

impl From<AllocError> for HearError {
    ghost use Rattle.path.specs.declared.dry.HearError.TheVariants.{NoMemory};

    ghost from_gives = { λ _ e. e ≡ NoMemory };

    fn from(_: AllocError) -> HearError {
        HearError::NoMemory
    }
}

// Listens until no bit waits. Where memory ends before that, some first bits are taken.
pub fn hear_all<S: BitSource>(
    heap: Global,
    receiver: &mut Receiver,
    source: &mut S,
) -> Result<AllHeard, HearError>
    ensures { MatchResult result
        (λ a. HearsAll (HasHeard receiver.old) (HasHeard receiver.new) (S.waiting source.old) (S.waiting source.new) a.taken a.events.items)
        (λ _. HearsSome (HasHeard receiver.old) (HasHeard receiver.new) (S.waiting source.old) (S.waiting source.new)) }
{
    let mut events = Vec::new(heap);
    let mut taken = 0u64;
    let mut buffer = [0u8; 2061];
    loop {
        let Ok(heard) = receiver.listen(source, u32::MAX, &mut buffer) else {
            unreachable!();
        };
        let sum = taken.checked_add(heard.taken as u64);
        taken = sum.ok_or(HearError::TooManyBits)?;
        note(heap, &mut events, taken, heard.answer, &buffer)?;
        if let Answer::Dry = heard.answer {
            return Ok(AllHeard { taken, events });
        }
    }
}

// The event of an answer, if it is a verdict, behind those so far.
fn note(
    heap: Global,
    events: &mut Vec<Event>,
    taken: u64,
    answer: Answer,
    buffer: &[u8],
) -> Result<(), AllocError>
    requires { FitsIn answer (length buffer.now) }
    ensures { OnOk result (map placed events.new.items ≡ map placed events.old.items ++ noted (verdict_of answer buffer.now) taken) }
{
    let verdict = match answer {
        Answer::Aborted => Verdict::Aborted,
        Answer::Refused(fault) => Verdict::Refused(fault),
        Answer::Frame(n) => Verdict::Frame(buffer[..n].to_vec(heap)?),
        Answer::Paused | Answer::Dry => return Ok(()),
    };
    events.push(Event {
        place: taken,
        verdict,
    })?;
    Ok(())
}

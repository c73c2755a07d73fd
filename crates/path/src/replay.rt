// Any list of calls on a new receiver, and every answer to them.
ghost use Rattle.std.specs.Prelude.{◌≡◌, ℕ, List, ◌++◌, take, MatchResult};
ghost use Rattle.cutting.specs.Cutting.{Bits};
ghost use Rattle.path.specs.Replay.{Performs, Replayed};
ghost use Rattle.path.specs.Runs.{frame_of};

use bits::source::BitSource;
use receiver::{Answer, Receiver};
use std::alloc::{AllocError, Global};

// A listening with its allowance and the length of the buffer that it is lent, or a carrier loss.
#[derive(Clone, Copy, PartialEq, Eq, Debug)]
pub enum Call {
    Listen { allowance: u32, room: usize },
    CarrierLoss,
}

// What a call came to: refused with 1; an answer with the bits taken and a frame's octets; the carrier lost.
#[derive(Drop, PartialEq, Eq, Debug)]
pub enum Outcome {
    Refused,
    Heard {
        taken: u32,
        answer: Answer,
        octets: Vec<u8>,
    },
    Lost,
}

// Performs the calls, in order, on a new receiver. Where memory ends before that, some first bits are taken.
pub fn replay<S: BitSource>(
    heap: Global,
    source: &mut S,
    calls: &[Call],
) -> Result<Vec<Outcome>, AllocError>
    ensures { MatchResult result
        (λ v. Replayed (S.waiting source.old) (S.waiting source.new) calls.now v.items)
        (λ _. ((t : Bits) × (S.waiting source.old ≡ t ++ S.waiting source.new))) }
{
    let mut outcomes = Vec::new(heap);
    let mut receiver = Receiver::new();
    for call in calls {
        let outcome = perform(heap, &mut receiver, source, *call)?;
        outcomes.push(outcome)?;
    }
    Ok(outcomes)
}

// One call. Where memory ends, nothing is done.
fn perform<S: BitSource>(
    heap: Global,
    receiver: &mut Receiver,
    source: &mut S,
    call: Call,
) -> Result<Outcome, AllocError>
    ensures { MatchResult result
        (λ o. Performs call o receiver.old receiver.new (S.waiting source.old) (S.waiting source.new))
        (λ _. (receiver.new ≡ receiver.old) × (source.new ≡ source.old)) }
{
    match call {
        Call::Listen { allowance, room } => {
            let mut octets = vec![in heap; 0u8; room]?;
            match receiver.listen(source, allowance, &mut octets) {
                Err(_) => Ok(Outcome::Refused),
                Ok(heard) => {
                    octets.truncate(frame_length(heard.answer));
                    Ok(Outcome::Heard {
                        taken: heard.taken,
                        answer: heard.answer,
                        octets,
                    })
                }
            }
        }
        Call::CarrierLoss => {
            receiver.carrier_loss();
            Ok(Outcome::Lost)
        }
    }
}

// How many octets at the buffer's front are a frame's.
fn frame_length(answer: Answer) -> usize
    ensures { (buffer : List ℕ) → take result buffer ≡ frame_of answer buffer }
{
    match answer {
        Answer::Frame(n) => n,
        _ => 0,
    }
}

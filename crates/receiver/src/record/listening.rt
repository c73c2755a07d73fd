ghost use Rattle.std.specs.Prelude.{◌≡◌, true, false, [], ◌∷◌, ◌++◌, length, is_ok, MatchResult, nat_le};
ghost use Rattle.cutting.specs.Cutting.{Bits};
ghost use Rattle.receiver.specs.declared.record.State.TheVariants.{Stretch};
ghost use Rattle.receiver.specs.Stands.{Behind, Inside};
ghost use Rattle.receiver.specs.Hearing.{HasHeard, Tells, DueNow, verdict_if_any};
ghost use Rattle.receiver.specs.Listening.{Listens};

use crate::answer::{Answer, Heard, ListenError};
use crate::record::{Receiver, State};
use crate::store::Store;
use crate::verdict::Verdict;
use bits::source::BitSource;
use cutting::Fault;

// The longest frame, in octets: what every buffer must have room for.
const MOST_OCTETS: usize = 2_061;

impl Receiver {
    pub fn new() -> Receiver
        ensures { HasHeard result [] }
    {
        Receiver {
            state: State::Idle,
            store: Store::new(),
        }
    }

    // The carrier is lost: the receiver hunts for a whole flag again.
    pub fn carrier_loss(&mut self)
        ensures { HasHeard self.new [] }
    {
        self.state = State::Idle; // the next flag begins the store anew
    }

    // Takes bits until a verdict falls due, the allowance is used or no bit waits.
    pub fn listen<S: BitSource>(
        &mut self,
        source: &mut S,
        allowance: u32,
        buffer: &mut [u8],
    ) -> Result<Heard, ListenError>
        ensures refuses { is_ok result ≡ nat_le 2061 (length buffer.old) }
        ensures answers { MatchResult result
            (λ h. Listens (HasHeard self.old) (HasHeard self.new) (S.waiting source.old) (S.waiting source.new) allowance h.taken buffer.old buffer.new h.answer)
            (λ _. (self.new ≡ self.old) × (source.new ≡ source.old) × (buffer.new ≡ buffer.old)) }
    {
        if buffer.len() < MOST_OCTETS {
            return Err(ListenError::ShortBuffer);
        }
        for taken in 0..allowance {
            let Some(bit) = source.take() else {
                return Ok(Heard {
                    answer: Answer::Dry,
                    taken,
                });
            };
            if let Some(verdict) = self.hear(bit) {
                return Ok(Heard {
                    answer: self.store.answer(verdict, buffer),
                    taken: taken + 1,
                });
            }
        }
        Ok(Heard {
            answer: Answer::Paused,
            taken: allowance,
        })
    }

    // One bit more, and the verdict that falls due on it.
    fn hear(&mut self, bit: bool) -> Option<Verdict>
        ensures { Tells self.old bit result self.new }
    {
        match (self.state, bit) {
            (State::Idle, true) => None,
            (State::Idle, false) => {
                self.state = State::Hunting { ones: 0 };
                None
            }
            (State::Hunting { ones: 6 }, true) => {
                self.state = State::Idle;
                None
            }
            (State::Hunting { ones: 6 }, false) => {
                self.begin();
                None
            }
            (State::Hunting { ones }, true) => {
                self.state = State::Hunting { ones: ones + 1 };
                None
            }
            (State::Hunting { .. }, false) => {
                self.state = State::Hunting { ones: 0 };
                None
            }
            (State::Stretch { ones, left_out }, true) => self.one_in_stretch(ones, left_out),
            (State::Stretch { ones, left_out }, false) => self.zero_in_stretch(ones, left_out),
        }
    }

    // A flag is complete, and a stretch begins behind it.
    fn begin(&mut self)
        ensures opened { (h : Bits) → Behind 6 h → HasHeard self.new (h ++ false ∷ []) }
        ensures same { self.new.store.octets ≡ self.old.store.octets }
    {
        self.state = State::Stretch {
            ones: 0,
            left_out: false,
        };
        self.store.clear();
    }

    fn one_in_stretch(&mut self, ones: u8, left_out: bool) -> Option<Verdict>
        requires { self.old.state ≡ Stretch ones left_out }
        ensures { Tells self.old true result self.new }
    {
        if ones == 6 {
            self.state = State::Idle;
            // the six bits are the break's own where nothing stands before them
            if self.store.count() < 6 {
                None
            } else {
                Some(Verdict::Aborted)
            }
        } else if ones == 5 {
            self.state = State::Stretch { ones: 6, left_out };
            None
        } else {
            self.store.push(true);
            self.state = State::Stretch {
                ones: ones + 1,
                left_out,
            };
            None
        }
    }

    fn zero_in_stretch(&mut self, ones: u8, left_out: bool) -> Option<Verdict>
        requires { self.old.state ≡ Stretch ones left_out }
        ensures { Tells self.old false result self.new }
    {
        if ones == 6 {
            let verdict = self.closed(left_out);
            self.begin();
            verdict
        } else if ones == 5 {
            self.state = State::Stretch {
                ones: 0,
                left_out: true,
            };
            None
        } else {
            self.store.push(false);
            self.state = State::Stretch {
                ones: 0,
                left_out: false,
            };
            None
        }
    }

    // The verdict on the stretch that a zero closes now, behind six ones.
    fn closed(&self, left_out: bool) -> Option<Verdict>
        ensures { (h : Bits) → Inside 6 left_out self.now.store h → DueNow (h ++ false ∷ []) (verdict_if_any result self.now.store.octets) }
    {
        if self.store.count() <= 6 {
            None
        } else if left_out {
            Some(Verdict::Refused(Fault::MissingZero))
        } else {
            Some(self.store.judge())
        }
    }
}

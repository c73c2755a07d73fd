// The receiver's record.
ghost use Rattle.cutting.specs.Cutting.{Bits};
ghost use Rattle.receiver.specs.Stands.{Stands};

use crate::store::Store;

pub mod listening;

// Whether a stretch is open, and the ones at the end, behind a zero.
#[derive(Clone, Copy)]
pub enum State {
    // no zero has come that a flag could begin with, since the start, a carrier loss or a break
    Idle,
    Hunting { ones: u8 },
    // the last zero may have been left out by removal
    Stretch { ones: u8, left_out: bool },
}

#[derive(Drop)]
pub struct Receiver {
    state: State,
    store: Store,
    ghost heard: { ∥ ((h : Bits) × Stands state store h) ∥₁ },
}

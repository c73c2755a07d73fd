// The frame format: addresses, control field, opening.
#![tactic(auto)]

ghost use Rattle.frame.specs.Laws.{LayoutIsOne, FaultIsOne, LayoutHasNoFault, LaidOutIsOpened};

pub use address::{Address, AddressError, Addressed, Kind};
pub use control::{Control, ControlError, Supervisory, Unnumbered};
pub use opening::{Frame, Heading, open};

mod address;
mod control;
mod opening;

// The laws of the layout: the contract is the theorem, and the function does nothing.
pub fn frame_stands()
    ensures one { LayoutIsOne }
    ensures fault { FaultIsOne }
    ensures apart { LayoutHasNoFault }
    ensures opened { LaidOutIsOpened }
{}

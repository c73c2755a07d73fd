// Checking a frame, and the debt of a reply that an XID command leaves.
#![tactic(auto)]

pub use checking::{Checked, check};
pub use debt::Debt;
pub use paying::{Unpaid, decline, reply};

mod checking;
mod debt;
mod paying;

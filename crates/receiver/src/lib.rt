// The receiver: frames cut out of bits.
#![tactic(auto)]

mod answer;
mod record;
mod store;
mod verdict;

pub use answer::{Answer, Heard, ListenError};
pub use record::Receiver;

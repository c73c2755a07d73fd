// The promises over whole runs of a receiver, on calls that perform them.
#![tactic(auto)]

pub mod carrying;
pub mod dry;
pub mod ends;
pub mod replay;
pub mod runs;

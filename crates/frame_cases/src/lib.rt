// Executed cases of the frame format.
#![tactic(auto)]

mod address_cases;
mod control_cases;
mod opening_cases;

// Executed cases, many to a test: what the contracts promise, seen to happen.
#![tactic(auto)]

mod carry_cases;
#[cfg(test)]
mod counting;
mod cutting_cases;
mod fcs_cases;
mod layer_cases;
mod line_cases;
mod listening_cases;
mod replay_cases;
mod sink_cases;
mod text_cases;

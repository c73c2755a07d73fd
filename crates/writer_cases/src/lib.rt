// Executed cases of writing, heard again.
#![tactic(auto)]

mod generated_cases;
#[cfg(test)]
mod hearing;
mod layered_cases;
mod list_cases;
mod single_cases;

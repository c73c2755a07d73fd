// Executed cases of checking and of debts.
#![tactic(auto)]

mod checking_cases;
mod debt_cases;
pub mod paying;

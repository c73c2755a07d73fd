// Executed cases of exchange fields.
#![tactic(auto)]

mod reading_cases;
mod record_cases;
mod register_cases;

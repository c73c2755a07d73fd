// Executed cases of composing.
#![tactic(auto)]

mod composing_cases;

// Layers over any source and any sink, stackable in any order and depth.
#![tactic(auto)]

pub mod burst;
pub mod copying;
pub mod laws;
pub mod pile;
mod register;
pub mod scrambling;

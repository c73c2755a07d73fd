// Bits by their order alone: the first sent is the first taken.
#![tactic(auto)]

pub mod coding;
pub mod memory_sink;
pub mod packed_sink;
pub mod packed_source;
pub mod sink;
pub mod source;
pub mod text;
pub mod text_sink;

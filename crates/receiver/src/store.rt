// The store for the stretch in hand: what removal left of it, packed into octets.
ghost use Rattle.std.specs.Prelude.{◌≤◌};

pub mod packing;

// More bits than these are refused, so no more are kept.
pub const MOST_BITS: usize = 16_504;

// The count goes on for the seven bits that tell 'too long' from 'not yet'.
#[derive(Drop)]
pub struct Store {
    count: usize,
    octets: [u8; 2063],
    ghost bound: { count ≤ 16511 },
}

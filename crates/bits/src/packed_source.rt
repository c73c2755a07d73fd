// A source over packed octets, the lowest bit first.
ghost use Rattle.std.specs.Prelude.{◌≡◌, ◌*◌, ◌≤◌, min, length, take as front};
ghost use Rattle.bits.specs.Octets.{sent};

use crate::source::BitSource;
use std::ops::Range;

// Packed memory is used up to so many octets; what lies behind them stays unused.
pub const MOST_PACKED: usize = 16_384;

#[derive(Drop)]
pub struct PackedSource<'a> {
    octets: &'a [u8],
    places: Range<usize>,
    ghost within: { places.end ≤ 8 * length octets.now },
}

impl<'a> PackedSource<'a> {
    ghost use Rattle.bits.specs.Packed.{usable, packed_waiting};

    // A bit count above what is there means all of it.
    pub fn new(octets: &'a [u8], bits: usize) -> PackedSource<'a>
        ensures { packed_waiting result ≡ front (usable octets.now bits) (sent octets.now) }
    {
        let end = usable_bits(octets, bits);
        PackedSource {
            octets,
            places: 0..end,
        }
    }
}

impl<'a> BitSource for PackedSource<'a> {
    ghost use Rattle.bits.specs.Packed.{packed_waiting};

    ghost waiting = { packed_waiting };

    fn take(&mut self) -> Option<bool> {
        let at = self.places.next()?;
        Some((self.octets[at / 8] >> (at % 8)) & 1 == 1)
    }
}

// How many bits of a memory are used.
pub(crate) fn usable_bits(octets: &[u8], bits: usize) -> usize
    ensures { result ≡ min bits (8 * min 16384 (length octets.now)) }
{
    bits.min(8 * octets.len().min(MOST_PACKED))
}

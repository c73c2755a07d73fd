// The shipped pile: scrambling over a burst window over packed octets.
ghost use Rattle.std.specs.Prelude.{◌≡◌, ◌*◌, min, [], length, take as front, pos};
ghost use Rattle.bits.specs.Octets.{sent};
ghost use Rattle.layers.specs.Burst.{window};
ghost use Rattle.layers.specs.Pile.{pile_waiting, pile_shown};
ghost use Rattle.layers.specs.Sequence.{sequence, combined};

use crate::burst::Burst;
use crate::scrambling::{ScrambledSink, ScrambledSource};
use bits::packed_sink::PackedSink;
use bits::packed_source::PackedSource;

// The first n bits of the octets, descrambled; n above 131,071 counts as 131,071.
pub fn pile_source<'a>(
    octets: &'a [u8],
    n: usize,
    given: &[bool; 15],
) -> ScrambledSource<Burst<PackedSource<'a>>>
    ensures { pile_waiting result ≡ combined (sequence given.now) (pos 0) (front (window n) (sent octets.now)) }
{
    let packed = PackedSource::new(octets, usize::MAX);
    let burst = Burst::new(packed, n);
    ScrambledSource::new(burst, given)
}

// Room for the first n bits of the octets, scrambled as they are put.
pub fn pile_sink<'a>(
    octets: &'a mut [u8],
    n: usize,
    given: &[bool; 15],
) -> ScrambledSink<Burst<PackedSink<'a>>>
    ensures held { (pile_shown result).held ≡ [] }
    ensures space { (pile_shown result).space ≡ min (window n) (8 * length octets.old) }
    ensures memory { result.below.below.octets.now ≡ octets.old }
    ensures lent { result.below.below.octets.ghost_name ≡ octets.entry.ghost_name }
{
    let packed = PackedSink::new(octets, usize::MAX);
    let burst = Burst::new(packed, n);
    ScrambledSink::new(burst, given)
}

// A sink over packed octets, the lowest bit first.
ghost use Rattle.std.specs.Prelude.{◌≡◌, ◌+◌, ◌<◌, [], slice_set, take as front};
ghost use Rattle.bits.specs.Octets.{low, sent};

use crate::coding::Coding;
use crate::memory_sink::MemorySink;
use crate::packed_source::usable_bits;

// Eight places to an octet, and in each a bit.
pub struct Packed;

pub type PackedSink<'a> = MemorySink<'a, Packed>;

impl Coding for Packed {
    ghost use Rattle.std.specs.Prelude.{Bool};
    ghost use Rattle.bits.specs.Packed.{packed_first};
    ghost use Rattle.std.proofs.Common.{ap, sym, ◌∙◌};
    ghost use Rattle.std.proofs.lemmas.List.{length-take-le, take_more_set, take-take};

    ghost Place = { Bool };

    ghost places = { sent };

    ghost written = { λ b. b };

    ghost first = { packed_first };

    fn write(octets: &mut [u8], place: usize, bit: bool) {
        if place / 8 < octets.len() {
            octets[place / 8] = with_bit(octets[place / 8], place % 8, bit);
        }
    }

    ghost each = { λ n os within. length-take-le n (sent os) within };

    ghost more = { λ n os os' b room is. ap (front (n + 1)) is ∙ take_more_set (sent os) n b room };

    ghost fewer = { λ m n os few. sym (take-take m n (sent os) few) };
}

impl<'a> MemorySink<'a, Packed> {
    ghost use Rattle.bits.specs.Memory.{memory_shown};
    ghost use Rattle.bits.specs.Packed.{usable};

    // A bit count above what is there means all of it.
    pub fn new(octets: &'a mut [u8], bits: usize) -> PackedSink<'a>
        ensures held { (memory_shown result).held ≡ [] }
        ensures space { (memory_shown result).space ≡ usable octets.old bits }
        ensures memory { result.octets.now ≡ octets.old }
        ensures lent { result.octets.ghost_name ≡ octets.entry.ghost_name }
    {
        let end = usable_bits(octets, bits);
        MemorySink::over(octets, end)
    }
}

// The octet with one bit written; its other bits stay.
fn with_bit(octet: u8, place: usize, bit: bool) -> u8
    requires { place < 8 }
    ensures { low 8 result ≡ slice_set (low 8 octet) place bit }
{
    let mask = 1 << place;
    if bit { octet | mask } else { octet & !mask }
}

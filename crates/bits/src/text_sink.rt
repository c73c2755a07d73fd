// A sink over text, one octet for a bit.
ghost use Rattle.std.specs.Prelude.{◌≡◌, min, [], length};

use crate::coding::Coding;
use crate::memory_sink::MemorySink;
use crate::text::MOST_TEXT;

// Each octet is a place, and a bit in it is the octet 30h or 31h.
pub struct Text;

pub type TextSink<'a> = MemorySink<'a, Text>;

impl Coding for Text {
    ghost use Rattle.std.specs.Prelude.{ℕ, true, false, ◌+◌, ◌∷◌, ◌++◌, map, take as front};
    ghost use Rattle.bits.specs.Text.{text_octet, is_one, text_first};
    ghost use Rattle.std.proofs.Common.{ap, sym, refl, ◌∙◌};
    ghost use Rattle.std.proofs.lemmas.List.{length-map, length-take-le, map_push, take_more_set, take-map, take-take};

    ghost Place = { ℕ };

    ghost places = { λ os. os };

    ghost written = { text_octet };

    ghost first = { text_first };

    fn write(octets: &mut [u8], place: usize, bit: bool) {
        if place < octets.len() {
            octets[place] = if bit { b'1' } else { b'0' };
        }
    }

    ghost each = { λ n os within. length-map (front n os) is_one ∙ length-take-le n os within };

    ghost more = { λ n os os' b room is. ap (text_first (n + 1)) is
        ∙ ap (map is_one) (take_more_set os n (text_octet b) room)
        ∙ map_push is_one (front n os) (text_octet b)
        ∙ ap (λ x. text_first n os ++ x ∷ []) (elim b as (λ k. is_one (text_octet k) ≡ k) [ true ↦ refl | false ↦ refl ]) };

    ghost fewer = { λ m n os few. sym (take-map is_one m (front n os) ∙ ap (map is_one) (take-take m n os few)) };
}

impl<'a> MemorySink<'a, Text> {
    ghost use Rattle.bits.specs.Memory.{memory_shown};

    pub fn new(octets: &'a mut [u8]) -> TextSink<'a>
        ensures held { (memory_shown result).held ≡ [] }
        ensures space { (memory_shown result).space ≡ min 65536 (length octets.old) }
        ensures memory { result.octets.now ≡ octets.old }
        ensures lent { result.octets.ghost_name ≡ octets.entry.ghost_name }
    {
        let end = MOST_TEXT.min(octets.len());
        MemorySink::over(octets, end)
    }
}

// How a memory holds bits.
ghost use Rattle.std.specs.Prelude.{◌≡◌, ℕ, ◌+◌, ◌<◌, ◌≤◌, Bool, List, [], ◌∷◌, ◌++◌, length, take as front, slice_set};

// A memory has places, and each holds a bit.
pub trait Coding {
    // what a place may have in it
    ghost Place: { Type 0 };

    // what the places of a memory have in them
    ghost places: { List ℕ → List Place };

    // what a bit is written as
    ghost written: { Bool → Place };

    // the bits in the first so many places
    ghost first: { ℕ → List ℕ → List Bool };

    // Writes a bit at its place, and nothing where the memory has no such place; all other places stay.
    fn write(octets: &mut [u8], place: usize, bit: bool)
        ensures { places octets.new ≡ slice_set (places octets.old) place (written bit) };

    // a place holds one bit
    ghost each: { (n : ℕ) (os : List ℕ) → n ≤ length (places os) → length (first n os) ≡ n };

    // a bit written behind the first places is one bit more
    ghost more: { (n : ℕ) (os os' : List ℕ) (b : Bool) → n < length (places os) → places os' ≡ slice_set (places os) n (written b) → first (n + 1) os' ≡ first n os ++ b ∷ [] };

    // fewer places hold the first of these bits
    ghost fewer: { (m n : ℕ) (os : List ℕ) → m ≤ n → first m os ≡ front m (first n os) };
}

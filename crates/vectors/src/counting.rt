// Counting the bits of a source.
use bits::source::BitSource;

// More bits than any source has.
const MANY: usize = 140_000;

// How many bits wait, and how many of them are ones.
pub fn counted<S: BitSource + Drop>(mut source: S) -> (usize, usize) {
    let mut ones = 0usize;
    for bits in 0..MANY {
        let Some(bit) = source.take() else {
            return (bits, ones);
        };
        ones = ones.saturating_add(usize::from(bit));
    }
    (MANY, ones)
}

// A debt paid for certain.
use bits::text_sink::TextSink;
use reply::{Debt, decline};

// Declines into memory that has room enough, and answers the bits put.
pub fn paid(debt: Debt) -> usize {
    let mut text = [0; 400];
    let mut sink = TextSink::new(&mut text);
    match decline(debt, &mut sink, true, 1, 2) {
        Ok(bits) => bits,
        Err(_) => unreachable!(),
    }
}

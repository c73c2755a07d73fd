// Bits as text, one octet for a bit.
ghost use Rattle.std.specs.Prelude.{◌≡◌, take as front};
ghost use Rattle.bits.specs.Text.{text_bits, text_waiting};

use crate::source::BitSource;

// A text source reads at most so many octets; further memory stays unused.
pub const MOST_TEXT: usize = 65_536;

// Octet 30h is a 0 and 31h a 1; a text source passes over all else.
#[derive(Drop)]
pub struct TextSource<'a> {
    rest: &'a [u8],
}

impl<'a> TextSource<'a> {
    pub fn new(octets: &'a [u8]) -> TextSource<'a>
        ensures { text_waiting result ≡ text_bits (front 65536 octets.now) }
    {
        if octets.len() > MOST_TEXT {
            TextSource {
                rest: &octets[0..MOST_TEXT],
            }
        } else {
            TextSource { rest: octets }
        }
    }
}

impl<'a> BitSource for TextSource<'a> {
    ghost waiting = { text_waiting };

    fn take(&mut self) -> Option<bool> {
        while let [octet, rest @ ..] = self.rest {
            self.rest = rest;
            match *octet {
                b'0' => return Some(false),
                b'1' => return Some(true),
                _ => {}
            }
        }
        None
    }
}

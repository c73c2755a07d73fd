// The lines of the trace program, made in a lent buffer.
#![tactic(auto)]

ghost use Rattle.std.specs.Prelude.{◌≡◌, ◌≤◌};
ghost use Rattle.lines.specs.Lines.{Made, line_text, head_text, stamp, frame_octets, error_number};
ghost use Rattle.arrayvec.specs.ArrayString.{array_string_len};

use crate::hex::put_hex;
use arrayvec::ArrayString;
use cutting::Fault;
use itoa::Buffer;

mod hex;

// A verdict's ordinal from 1, and all bits taken so far.
#[derive(Clone, Copy, PartialEq, Eq, Debug)]
pub struct Stamp {
    pub ordinal: u64,
    pub taken: u64,
}

// A verdict, or the total at the end.
#[derive(Clone, Copy, PartialEq, Eq, Debug)]
pub enum Line<'a> {
    Refused { stamp: Stamp, fault: Fault },
    Aborted { stamp: Stamp },
    Frame { stamp: Stamp, octets: &'a [u8] },
    Taken { total: u64 },
}

// Why no line is made.
#[derive(Clone, Copy, PartialEq, Eq, Debug)]
pub enum LineError {
    ShortBuffer = 61,
}

impl LineError {
    pub fn number(self) -> u8
        ensures { result ≡ error_number self }
    {
        self as u8
    }
}

// Makes one line at the buffer's front and answers its length.
pub fn make_line(line: Line<'_>, buffer: &mut [u8]) -> Result<usize, LineError>
    ensures { Made (line_text line.entry) buffer.old buffer.new result }
{
    let head = line.head();
    let (text, octets) = (head.as_bytes(), line.octets());
    let room = buffer.len();
    if room <= text.len() || (room - text.len() - 1) / 2 < octets.len() {
        return Err(LineError::ShortBuffer);
    }
    let end = text.len() + 2 * octets.len();
    buffer[..text.len()].copy_from_slice(text);
    put_hex(octets, &mut buffer[text.len()..end]);
    buffer[end] = b'\n';
    Ok(end + 1)
}

impl<'a> Line<'a> {
    // The line up to a frame's octets.
    fn head(&self) -> ArrayString<64>
        ensures { result.bytes ≡ head_text self.now }
    {
        let mut digits = Buffer::new();
        match self {
            Line::Refused { stamp, fault } => {
                let mut head = stamp.text();
                head.push_str("refused ");
                head.push_str(digits.format(fault.number()));
                head
            }
            Line::Aborted { stamp } => {
                let mut head = stamp.text();
                head.push_str("aborted");
                head
            }
            Line::Frame { stamp, .. } => {
                let mut head = stamp.text();
                head.push_str("frame ");
                head
            }
            Line::Taken { total } => {
                let mut head = ArrayString::new();
                head.push_str("taken ");
                head.push_str(digits.format(*total));
                head
            }
        }
    }

    // A frame's octets; none of any other line.
    fn octets(self) -> &'a [u8]
        ensures { result.now ≡ frame_octets self.entry }
    {
        match self {
            Line::Frame { octets, .. } => octets,
            _ => &[],
        }
    }
}

impl Stamp {
    // Two numbers of at most 20 digits, and a space behind each.
    fn text(self) -> ArrayString<64>
        ensures text { result.bytes ≡ stamp self }
        ensures few { array_string_len result ≤ 42 }
    {
        let mut digits = Buffer::new();
        let mut text = ArrayString::new();
        text.push_str(digits.format(self.ordinal));
        text.push_str(" ");
        text.push_str(digits.format(self.taken));
        text.push_str(" ");
        text
    }
}

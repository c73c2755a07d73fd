// Writing one frame.
ghost use Rattle.std.specs.Prelude.{◌≡◌, ◌+◌, ◌*◌, ◌/◌, ◌≤◌};
ghost use Rattle.frame.specs.Opening.{content};
ghost use Rattle.writer.specs.Heading.{Headed};
ghost use Rattle.writer.specs.Writing.{write_number, foretold, Written};

use crate::put::put_frame;
use bits::sink::BitSink;
use frame::Frame;

// The most octets of information that are written.
const MOST_INFORMATION: usize = 2052;

// Why a frame is not written.
#[derive(Clone, Copy, PartialEq, Eq, Debug)]
pub enum WriteError {
    Unsuited = 41,
    TooLong = 42,
    NoRoom = 43,
}

impl WriteError {
    pub fn number(self) -> u8
        ensures { result ≡ write_number self }
    {
        self as u8
    }
}

// Puts a frame's bits and answers how many they are.
pub fn write_frame<S: BitSink>(sink: &mut S, frame: &Frame<'_>) -> Result<usize, WriteError>
    ensures { Written (content frame.now) (S.shown sink.old) result (S.shown sink.new) }
{
    let header = header_of(*frame)?;
    if frame.information.len() > MOST_INFORMATION {
        return Err(WriteError::TooLong);
    }
    if sink.room() < foretell(header.len() + frame.information.len()) {
        return Err(WriteError::NoRoom);
    }
    Ok(put_frame(sink, &header, frame.information))
}

// The nine octets before the information, of a frame whose information suits.
fn header_of(frame: Frame<'_>) -> Result<[u8; 9], WriteError>
    ensures { Headed frame.entry result }
{
    if !frame.heading.control.suits(frame.information.len()) {
        return Err(WriteError::Unsuited);
    }
    frame.heading.octets().map_err(|_| WriteError::Unsuited)
}

// The most bits that a frame of so many octets is put as.
fn foretell(octets: usize) -> usize
    requires { octets ≤ 2061 }
    ensures { result ≡ foretold octets }
{
    let bits = 8 * (octets + 2);
    16 + bits + bits / 5
}

// Writing a list of frames whole, or not at all.
ghost use Rattle.std.specs.Prelude.{◌≡◌};
ghost use Rattle.writer.specs.Lists.{list_number, ListWritten, OrderWritten};

use crate::single::{WriteError, write_frame};
use bits::sink::BitSink;
use frame::{Frame, Heading};

// A frame to write, whose information lies in a buffer beside it.
#[derive(Clone, Copy, PartialEq, Eq, Debug)]
pub struct Order {
    pub heading: Heading,
    pub place: usize,
    pub length: usize,
}

// Why a list is not written; the frame is named by its index from 0.
#[derive(Clone, Copy, PartialEq, Eq, Debug)]
pub enum ListError {
    Outside { frame: usize },
    Refused { frame: usize, error: WriteError },
}

impl ListError {
    pub fn number(self) -> u8
        ensures { result ≡ list_number self }
    {
        match self {
            ListError::Outside { .. } => 44,
            ListError::Refused { error, .. } => error.number(),
        }
    }
}

// Puts the frames in order and answers how many bits they are, or leaves the sink as it was.
pub fn write_list<S: BitSink>(
    sink: &mut S,
    orders: &[Order],
    buffer: &[u8],
) -> Result<usize, ListError>
    ensures { ListWritten orders.now buffer.now (S.shown sink.old) result (S.shown sink.new) }
{
    let before = sink.count();
    for (index, order) in orders.iter().enumerate() {
        if let Err(error) = write_order(sink, index, order, buffer) {
            // what was put for the frames before
            let _ = sink.cut_back(before);
            return Err(error);
        }
    }
    Ok(sink.count() - before)
}

// One frame of a list.
fn write_order<S: BitSink>(
    sink: &mut S,
    index: usize,
    order: &Order,
    buffer: &[u8],
) -> Result<usize, ListError>
    ensures { OrderWritten index order.now buffer.now (S.shown sink.old) result (S.shown sink.new) }
{
    let information = buffer
        .get(order.place..)
        .and_then(|rest| rest.get(..order.length))
        .ok_or(ListError::Outside { frame: index })?;
    let frame = Frame {
        heading: order.heading,
        information,
    };
    write_frame(sink, &frame).map_err(|error| ListError::Refused {
        frame: index,
        error,
    })
}

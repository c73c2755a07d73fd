// Bits from any source into any sink.
ghost use Rattle.std.specs.Prelude.{◌≡◌};
ghost use Rattle.layers.specs.Copying.{Copies, no_room_number};

use bits::sink::BitSink;
use bits::source::BitSource;

// The sink's room ended: so many bits went over, and further ones may wait.
#[derive(Clone, Copy, PartialEq, Eq, Debug)]
pub struct NoRoom {
    pub copied: usize,
}

impl NoRoom {
    pub fn number(self) -> u8
        ensures { result ≡ no_room_number self }
    {
        40
    }
}

// Moves waiting bits into the sink until its room is used or no bit waits, and counts them.
pub fn copy<S: BitSource, K: BitSink>(source: &mut S, sink: &mut K) -> Result<usize, NoRoom>
    ensures { Copies (S.waiting source.old) (S.waiting source.new) (K.shown sink.old) (K.shown sink.new) result }
{
    let room = sink.room();
    for copied in 0..room {
        let Some(bit) = source.take() else {
            return Ok(copied);
        };
        let Ok(()) = sink.put(bit) else {
            return Err(NoRoom { copied });
        };
    }
    Err(NoRoom { copied: room })
}

// What a bit sink means to the code above it.
ghost use Rattle.std.specs.Prelude.{◌≡◌, length};
ghost use Rattle.bits.specs.Sink.{Shown, Put, CutBack, sink_number};

// Why a sink refuses: no room for a bit, or a cut back to more than it holds.
#[derive(Clone, Copy, PartialEq, Eq, Debug)]
pub enum SinkError {
    NoRoom = 40,
    AboveHeld = 45,
}

impl SinkError {
    pub fn number(self) -> u8
        ensures { result ≡ sink_number self }
    {
        self as u8
    }
}

pub trait BitSink {
    // the bits held, in the order in which they were put, and how many bits more it takes
    ghost shown: { Self → Shown };

    // Adds a bit at the end.
    fn put(&mut self, bit: bool) -> Result<(), SinkError>
        ensures { Put (shown self.old) bit result (shown self.new) };

    fn room(&self) -> usize
        ensures { result ≡ (shown self.now).space };

    fn count(&self) -> usize
        ensures { result ≡ length (shown self.now).held };

    // Keeps the first `count` bits.
    fn cut_back(&mut self, count: usize) -> Result<(), SinkError>
        ensures { CutBack (shown self.old) count result (shown self.new) };
}

// Burst windows: the first bits waiting below, or the first room below.
ghost use Rattle.std.specs.Prelude.{◌≡◌};

use bits::sink::{BitSink, SinkError};
use bits::source::BitSource;

// A burst has at most so many bits.
pub const MOST_BURST: usize = 131_071;

// Over a source as over a sink: so many bits more are let through.
#[derive(Drop)]
pub struct Burst<S> {
    below: S,
    left: usize,
}

impl<S> Burst<S> {
    ghost use Rattle.layers.specs.Burst.{window};

    pub fn new(below: S, n: usize) -> Burst<S>
        ensures below { result.below ≡ below }
        ensures left { result.left ≡ window n }
    {
        let left = n.min(MOST_BURST);
        Burst { below, left }
    }

    // Hands back what is below.
    pub fn into_below(self) -> S
        ensures { result ≡ self.below }
    {
        let Burst { below, .. } = self;
        below
    }
}

impl<S: BitSource> BitSource for Burst<S> {
    ghost use Rattle.layers.specs.Burst.{burst_waiting};

    ghost waiting = { burst_waiting S.waiting };

    fn take(&mut self) -> Option<bool> {
        if self.left == 0 {
            return None;
        }
        let bit = self.below.take()?;
        self.left -= 1;
        Some(bit)
    }
}

impl<S: BitSink> BitSink for Burst<S> {
    ghost use Rattle.layers.specs.Burst.{burst_shown};

    ghost shown = { burst_shown S.shown };

    fn put(&mut self, bit: bool) -> Result<(), SinkError> {
        if self.left == 0 {
            return Err(SinkError::NoRoom);
        }
        self.below.put(bit)?;
        self.left -= 1;
        Ok(())
    }

    fn room(&self) -> usize {
        self.left.min(self.below.room())
    }

    fn count(&self) -> usize {
        self.below.count()
    }

    fn cut_back(&mut self, count: usize) -> Result<(), SinkError> {
        let held = self.below.count();
        self.below.cut_back(count)?;
        let left = self.left.saturating_add(held - count);
        self.left = left.min(self.below.room());
        Ok(())
    }
}

// Scrambling: each bit is combined with a bit of the sequence by exclusive or.
ghost use Rattle.std.specs.Prelude.{◌≡◌, length, pos, neg_ℤ};
ghost use Rattle.layers.specs.Sequence.{sequence, combined};
ghost use Rattle.layers.specs.Scrambling.{scrambled_waiting, scrambled_shown};

use crate::register::{fourteen_more, holding, moved_back, moved_on};
use bits::sink::{BitSink, SinkError};
use bits::source::BitSource;

#[derive(Drop)]
pub struct ScrambledSource<S> {
    below: S,
    // bits of the sequence: the next `ahead` of them, and then fifteen more
    queue: u32,
    ahead: u32,
}

impl<S: BitSource> ScrambledSource<S> {
    // s(0) to s(14) are given; the new layer is at s(0).
    pub fn new(below: S, given: &[bool; 15]) -> ScrambledSource<S>
        ensures { scrambled_waiting S.waiting result ≡ combined (sequence given.now) (pos 0) (S.waiting below) }
    {
        let queue = holding(given) as u32;
        ScrambledSource {
            below,
            queue,
            ahead: 0,
        }
    }
}

impl<S: BitSource> BitSource for ScrambledSource<S> {
    ghost waiting = { scrambled_waiting S.waiting };

    fn take(&mut self) -> Option<bool> {
        let bit = self.below.take()?;
        if self.ahead == 0 {
            self.queue = fourteen_more(self.queue);
            self.ahead = 14;
        }
        let key = self.queue & 1 == 1;
        self.queue >>= 1;
        self.ahead -= 1;
        Some(bit ^ key)
    }
}

#[derive(Drop)]
pub struct ScrambledSink<S> {
    below: S,
    register: u16,
}

impl<S: BitSink> ScrambledSink<S> {
    // s(0) to s(14) are given; the new layer is at s(0), and bits that are held already lie before it.
    pub fn new(below: S, given: &[bool; 15]) -> ScrambledSink<S>
        ensures held { (scrambled_shown S.shown result).held ≡ combined (sequence given.now) (neg_ℤ (pos (length (S.shown below).held))) (S.shown below).held }
        ensures space { (scrambled_shown S.shown result).space ≡ (S.shown below).space }
        ensures below { result.below ≡ below }
    {
        let register = holding(given);
        ScrambledSink { below, register }
    }

    // Hands back what is below.
    pub fn into_below(self) -> S
        ensures { result ≡ self.below }
    {
        let ScrambledSink { below, .. } = self;
        below
    }
}

impl<S: BitSink> BitSink for ScrambledSink<S> {
    ghost shown = { scrambled_shown S.shown };

    fn put(&mut self, bit: bool) -> Result<(), SinkError> {
        let key = self.register & 1 == 1;
        self.below.put(bit ^ key)?;
        self.register = moved_on(self.register);
        Ok(())
    }

    fn room(&self) -> usize {
        self.below.room()
    }

    fn count(&self) -> usize {
        self.below.count()
    }

    fn cut_back(&mut self, count: usize) -> Result<(), SinkError> {
        let held = self.below.count();
        self.below.cut_back(count)?;
        for _ in count..held {
            self.register = moved_back(self.register);
        }
        Ok(())
    }
}

// A sink over lent memory.
ghost use Rattle.std.specs.Prelude.{◌≡◌, ◌-◌, ◌≤◌, [], length};
ghost use Rattle.bits.specs.Sink.{Shown, Put, CutBack, BitPut};

use crate::coding::Coding;
use crate::sink::{BitSink, SinkError};
use std::marker::PhantomData;

// Its first places are used, up to an end, and so many of them hold a bit.
#[derive(Drop)]
pub struct MemorySink<'a, C: Coding> {
    octets: &'a mut [u8],
    count: usize,
    end: usize,
    coding: PhantomData<C>,
    ghost used: { count ≤ end },
    ghost within: { end ≤ length (C.places octets.now) },
}

impl<'a, C: Coding> MemorySink<'a, C> {
    ghost use Rattle.bits.specs.Memory.{memory_shown};

    // Over the places up to an end; none of them holds a bit yet.
    pub(crate) fn over(octets: &'a mut [u8], end: usize) -> MemorySink<'a, C>
        requires { end ≤ length (C.places octets.old) }
        ensures held { (memory_shown result).held ≡ [] }
        ensures space { (memory_shown result).space ≡ end }
        ensures memory { result.octets.now ≡ octets.old }
        ensures lent { result.octets.ghost_name ≡ octets.entry.ghost_name }
    {
        MemorySink {
            octets,
            count: 0,
            end,
            coding: PhantomData,
        }
    }

    // Hands the memory back, with what was put into it.
    pub fn finish(self) -> &'a mut [u8]
        ensures memory { result.now ≡ self.entry.octets.now }
        ensures lent { result.ghost_name ≡ self.entry.octets.ghost_name }
    {
        let octets = self.octets;
        octets
    }
}

impl<'a, C: Coding> BitSink for MemorySink<'a, C> {
    ghost use Rattle.bits.specs.Memory.{memory_shown};

    ghost shown = { memory_shown };

    fn put(&mut self, bit: bool) -> Result<(), SinkError>
        ensures meaning { Put (memory_shown self.old) bit result (memory_shown self.new) }
        ensures memory { BitPut (C.places self.old.octets.now) self.old.count (C.written bit) result (C.places self.new.octets.now) }
        ensures lent { self.new.octets.ghost_name ≡ self.old.octets.ghost_name }
    {
        if self.count >= self.end {
            return Err(SinkError::NoRoom);
        }
        C::write(self.octets, self.count, bit);
        self.count += 1;
        Ok(())
    }

    fn room(&self) -> usize {
        self.end - self.count
    }

    fn count(&self) -> usize {
        self.count
    }

    fn cut_back(&mut self, count: usize) -> Result<(), SinkError>
        ensures meaning { CutBack (memory_shown self.old) count result (memory_shown self.new) }
        ensures memory { self.new.octets.now ≡ self.old.octets.now }
        ensures lent { self.new.octets.ghost_name ≡ self.old.octets.ghost_name }
    {
        if count > self.count {
            return Err(SinkError::AboveHeld);
        }
        self.count = count;
        Ok(())
    }
}

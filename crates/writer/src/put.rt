// Putting bits: flags, and octets with a zero stuffed after every five ones.
ghost use Rattle.std.specs.Prelude.{◌≡◌, ◌+◌, ◌-◌, ◌<◌, ◌≤◌, [], ◌∷◌, ◌++◌, length};
ghost use Rattle.std.specs.List.{AllByRecursion};
ghost use Rattle.bits.specs.Octets.{low, sent};
ghost use Rattle.cutting.specs.Cutting.{flag};
ghost use Rattle.cutting.specs.Stuffing.{stuffing, frame_bits};
ghost use Rattle.fcs.specs.Sequence.{after};
ghost use Rattle.writer.specs.Putting.{Appended, StuffedPut};

use bits::sink::BitSink;
use fcs::Register;

// How many ones stand at the end, behind a zero: a zero is stuffed behind the fifth.
#[derive(Clone, Copy)]
struct Run {
    ones: u8,
    ghost few: { ones ≤ 4 },
}

// Both flags and what stands between them; the room was tested before.
pub(crate) fn put_frame<S: BitSink>(sink: &mut S, header: &[u8], information: &[u8]) -> usize
    requires { length (frame_bits (header.now ++ information.now)) ≤ (S.shown sink.old).space }
    ensures octets { AllByRecursion (λ o. o < 256) information.now }
    ensures put { Appended (frame_bits (header.now ++ information.now)) (S.shown sink.old) result (S.shown sink.new) }
{
    let before = sink.count();
    put_flag(sink);
    let mut register = Register::new();
    let mut run = Run { ones: 0 };
    run.put_octets(sink, header, &mut register);
    run.put_octets(sink, information, &mut register);
    let [low, high] = register.sequence().to_le_bytes();
    run.put_octet(sink, low);
    run.put_octet(sink, high);
    put_flag(sink);
    sink.count() - before
}

fn put_flag<S: BitSink>(sink: &mut S)
    requires { 8 ≤ (S.shown sink.old).space }
    ensures { Appended flag (S.shown sink.old) 8 (S.shown sink.new) }
{
    let _ = sink.put(false);
    for _ in 0..6u8 {
        let _ = sink.put(true);
    }
    let _ = sink.put(false);
}

impl Run {
    // Octets behind a run of ones.
    fn put_octets<S: BitSink>(&mut self, sink: &mut S, octets: &[u8], register: &mut Register)
        requires { length (stuffing (4 - self.old.ones) (sent octets.now)) ≤ (S.shown sink.old).space }
        ensures put { StuffedPut self.old.ones (sent octets.now) (S.shown sink.old) self.new.ones (S.shown sink.new) }
        ensures moved { register.new.value ≡ after register.old.value (sent octets.now) }
    {
        for octet in octets {
            self.put_octet(sink, *octet);
            register.step(*octet);
        }
    }

    // An octet's eight bits, the lowest first.
    fn put_octet<S: BitSink>(&mut self, sink: &mut S, octet: u8)
        requires { length (stuffing (4 - self.old.ones) (low 8 octet)) ≤ (S.shown sink.old).space }
        ensures { StuffedPut self.old.ones (low 8 octet) (S.shown sink.old) self.new.ones (S.shown sink.new) }
    {
        let mut rest = octet;
        for _ in 0..8u8 {
            self.put_bit(sink, rest % 2 == 1);
            rest /= 2;
        }
    }

    // A bit, and a zero where it is the fifth one in a row.
    fn put_bit<S: BitSink>(&mut self, sink: &mut S, bit: bool)
        requires { length (stuffing (4 - self.old.ones) (bit ∷ [])) ≤ (S.shown sink.old).space }
        ensures { StuffedPut self.old.ones (bit ∷ []) (S.shown sink.old) self.new.ones (S.shown sink.new) }
    {
        let _ = sink.put(bit);
        if !bit {
            self.ones = 0;
            return;
        }
        if self.ones < 4 {
            self.ones += 1;
            return;
        }
        let _ = sink.put(false);
        self.ones = 0;
    }
}

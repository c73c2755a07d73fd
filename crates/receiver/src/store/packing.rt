ghost use Rattle.std.specs.Prelude.{◌≡◌, ◌-◌, ◌<◌, ◌≤◌, [], ◌∷◌, ◌++◌, length, take as front, Some};
ghost use Rattle.cutting.specs.Cutting.{Bits, removed, Applies, Judged};
ghost use Rattle.cutting.specs.declared.Fault.TheVariants.{MissingZero};
ghost use Rattle.receiver.specs.Stands.{Holds};
ghost use Rattle.receiver.specs.Answers.{verdict_of};
ghost use Rattle.receiver.specs.Hearing.{meant};
ghost use Rattle.receiver.specs.Listening.{Fills};

use crate::answer::Answer;
use crate::store::{MOST_BITS, Store};
use crate::verdict::{Length, Verdict};
use bits::coding::Coding;
use bits::packed_sink::Packed;
use cutting::Fault;
use fcs::check_sequence;

impl Store {
    pub fn new() -> Store
        ensures { Holds result [] }
    {
        Store {
            count: 0,
            octets: [0; 2063],
        }
    }

    pub fn clear(&mut self)
        ensures empty { Holds self.new [] }
        ensures same { self.new.octets ≡ self.old.octets }
    {
        self.count = 0;
    }

    pub fn count(&self) -> usize
        ensures { result ≡ self.now.count }
    {
        self.count
    }

    // One bit more. Past what a frame can have there is no place for it, and only the count goes on, to an end.
    pub fn push(&mut self, bit: bool)
        ensures { (r : Bits) → Holds self.old r → Holds self.new (r ++ bit ∷ []) }
    {
        Packed::write(&mut self.octets, self.count, bit);
        if self.count < MOST_BITS + 7 {
            self.count += 1;
        }
    }

    // The answer that hands a verdict out; a frame's octets go to the front of the buffer.
    pub fn answer(&self, verdict: Verdict, buffer: &mut [u8]) -> Answer
        requires { 2061 ≤ length buffer.old }
        ensures same { verdict_of result buffer.new ≡ Some (meant verdict self.now.octets) }
        ensures fills { Fills result buffer.old buffer.new }
    {
        match verdict {
            Verdict::Aborted => Answer::Aborted,
            Verdict::Refused(fault) => Answer::Refused(fault),
            Verdict::Frame(Length { octets }) => {
                buffer[0..octets].copy_from_slice(&self.octets[0..octets]);
                Answer::Frame(octets)
            }
        }
    }

    // The verdict on what is held but for the last six bits, which are the closing flag's.
    pub fn judge(&self) -> Verdict
        requires { 6 < self.now.count }
        ensures { (x held : Bits) → (Applies MissingZero x → ⊥) → Holds self.now held → removed x ≡ front (length held - 6) held → Judged x (meant result self.now.octets) }
    {
        let bits = self.count - 6;
        if bits > MOST_BITS {
            Verdict::Refused(Fault::TooLong)
        } else if bits % 8 != 0 {
            Verdict::Refused(Fault::NotOctets)
        } else if bits < 88 {
            Verdict::Refused(Fault::TooShort)
        } else {
            let end = bits / 8 - 2;
            let sequence = check_sequence(&self.octets[0..end]);
            if self.octets[end..end + 2] == sequence.to_le_bytes()[..] {
                Verdict::Frame(Length { octets: end })
            } else {
                Verdict::Refused(Fault::WrongSequence)
            }
        }
    }
}

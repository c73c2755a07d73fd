// What a bit source means to the code above it.
ghost use Rattle.std.specs.Prelude.{Bool, List};
ghost use Rattle.bits.specs.Source.{Taken};

pub trait BitSource {
    // the bits that wait, the first to come first
    ghost waiting: { Self → List Bool };

    // Answers and removes the first waiting bit; none exactly if no bit waits.
    fn take(&mut self) -> Option<bool>
        ensures { Taken (waiting self.old) result (waiting self.new) };
}

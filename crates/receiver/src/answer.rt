// What listening answers.
ghost use Rattle.std.specs.Prelude.{◌≡◌};
ghost use Rattle.receiver.specs.Answers.{error_number};

use cutting::Fault;

// A verdict, or none: `Paused` where the allowance is used, `Dry` where no bit waits.
// A frame's octets stand at the buffer's front, as many as `Frame` says.
#[derive(Clone, Copy, PartialEq, Eq, Debug)]
pub enum Answer {
    Aborted,
    Refused(Fault),
    Frame(usize),
    Paused,
    Dry,
}

// An answer, and the bits taken for it.
#[derive(Clone, Copy, PartialEq, Eq, Debug)]
pub struct Heard {
    pub answer: Answer,
    pub taken: u32,
}

// Why a call of listening is refused.
#[derive(Clone, Copy, PartialEq, Eq, Debug)]
pub enum ListenError {
    ShortBuffer = 1,
}

impl ListenError {
    pub fn number(self) -> u8
        ensures { result ≡ error_number self }
    {
        self as u8
    }
}

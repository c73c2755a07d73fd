// Verdicts, as they fall due.
ghost use Rattle.std.specs.Prelude.{◌≤◌};

use cutting::Fault;

// How many octets a frame has: so many find room in every buffer that listening accepts.
#[derive(Clone, Copy)]
pub struct Length {
    pub octets: usize,
    ghost enough: { 9 ≤ octets },
    ghost fits: { octets ≤ 2061 },
}

#[derive(Clone, Copy)]
pub enum Verdict {
    Aborted,
    Refused(Fault),
    Frame(Length),
}

// The frame check sequence: a register that moves by whole octets.
#![tactic(auto)]

ghost use Rattle.std.specs.Prelude.{◌≡◌, T, bit_xor};
ghost use Rattle.bits.specs.Octets.{low};
ghost use Rattle.fcs.specs.Sequence.{after, sequence};
ghost use Rattle.fcs.specs.Table.{OctetMoves};

use crate::octet_moves::OCTET_MOVES;

mod octet_moves;

// The register behind the octets sent so far.
#[derive(Clone, Copy, PartialEq, Eq, Debug)]
pub struct Register {
    value: u16,
}

impl Register {
    pub fn new() -> Register
        ensures { result.value ≡ 0xFFFF }
    {
        Register { value: 0xFFFF }
    }

    // Moves by the eight bits of an octet, its lowest first.
    pub fn step(&mut self, octet: u8)
        ensures { self.new.value ≡ after self.old.value (low 8 octet) }
    {
        self.value = moved_by(&OCTET_MOVES, self.value, octet);
    }

    // The complement, which follows what was sent, its low octet first.
    pub fn sequence(self) -> u16
        ensures { result ≡ bit_xor self.value 0xFFFF }
    {
        self.value ^ 0xFFFF
    }
}

// The check sequence of whole octets.
pub fn check_sequence(octets: &[u8]) -> u16
    ensures { result ≡ sequence octets.now }
{
    let mut register = Register::new();
    for octet in octets {
        register.step(*octet);
    }
    register.sequence()
}

// The register behind one octet more, by a table of the moves.
fn moved_by(moves: &[u16; 256], value: u16, octet: u8) -> u16
    requires { T (OctetMoves 0 moves.now) }
    ensures { result ≡ after value (low 8 octet) }
{
    let [low, high] = value.to_le_bytes();
    u16::from(high) ^ moves[usize::from(low ^ octet)]
}

// Fifteen bits of the scrambling sequence, the lowest first.
ghost use Rattle.std.specs.Prelude.{◌≡◌, ℕ, ◌/◌, ◌^◌, ◌≤◌};
ghost use Rattle.bits.specs.Octets.{low};
ghost use Rattle.layers.specs.Sequence.{onward, backward, moved};

// The fifteen bits one place on.
pub fn moved_on(register: u16) -> u16
    ensures { low 15 result ≡ onward (low 15 register) }
{
    let next = ((register >> 1) ^ register) & 1;
    ((register >> 1) & 0x3FFF) | (next << 14)
}

// The fifteen bits, and behind them the fourteen that follow by the rule.
pub fn fourteen_more(queue: u32) -> u32
    ensures { (k : ℕ) → k ≤ 14 → low 15 (result / 2 ^ k) ≡ moved onward k (low 15 queue) }
{
    let first = queue & 0x7FFF;
    first | ((((first >> 1) ^ first) & 0x3FFF) << 15)
}

// The fifteen bits one place back.
pub fn moved_back(register: u16) -> u16
    ensures { low 15 result ≡ backward (low 15 register) }
{
    let first = ((register >> 14) ^ register) & 1;
    ((register & 0x3FFF) << 1) | first
}

// The register of fifteen given bits.
pub fn holding(bits: &[bool; 15]) -> u16
    ensures { low 15 result ≡ bits.now }
{
    let mut register = 0;
    for bit in bits.iter().rev() {
        register = 2 * register + u16::from(*bit);
    }
    register
}

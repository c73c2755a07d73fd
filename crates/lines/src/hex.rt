// Octets as pairs of capital hexadecimal digits.
ghost use Rattle.std.specs.Prelude.{◌≡◌, ◌*◌, ◌<◌, length};
ghost use Rattle.std.specs.List.{flat_map};
ghost use Rattle.lines.specs.Lines.{hex_digit, hex_pair};

// The pairs of all octets, in a text of just their length.
pub fn put_hex(octets: &[u8], pairs: &mut [u8])
    requires { length pairs.old ≡ 2 * length octets.now }
    ensures { pairs.new ≡ flat_map hex_pair octets.now }
{
    for (k, octet) in octets.iter().enumerate() {
        pairs[2 * k] = digit(octet / 16);
        pairs[2 * k + 1] = digit(octet % 16);
    }
}

fn digit(n: u8) -> u8
    requires { n < 16 }
    ensures { result ≡ hex_digit n }
{
    if n < 10 { b'0' + n } else { b'A' + (n - 10) }
}

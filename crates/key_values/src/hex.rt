// The 64 bits of a double, as 16 hexadecimal digits.
ghost use Rattle.std.specs.Prelude.{◌≡◌, length};
ghost use Rattle.key_values.specs.Values.{bits_digits, hex_digit, hex_from, bits_of};

// How many digits 64 bits have.
const BITS_DIGITS: usize = 16;

// A digit's value.
fn digit(byte: u8) -> Option<u64>
    ensures { result ≡ hex_digit byte }
{
    match byte {
        b'0'..=b'9' => Some(u64::from(byte - b'0')),
        b'A'..=b'F' => Some(u64::from(byte - b'A') + 10),
        b'a'..=b'f' => Some(u64::from(byte - b'a') + 10),
        _ => None,
    }
}

// The number of 16 digits.
#[tactic(auto, using(crate::proofs::HexDigits::starts, crate::proofs::HexDigits::no_digit, crate::proofs::HexDigits::turn, crate::proofs::HexDigits::fits, crate::proofs::HexDigits::ends))]
fn hex(bytes: &[u8]) -> Option<u64>
    requires { length bytes.now ≡ bits_digits }
    ensures { result ≡ hex_from 0 bytes.now }
{
    let mut n: u64 = 0;
    for byte in bytes {
        let value = digit(*byte)?;
        n = 16 * n + value;
    }
    Some(n)
}

// The bits, where the text has just as many digits as they have.
#[tactic(auto, unfolding(crate::specs::Values::bits_of))]
pub fn bits(bytes: &[u8]) -> Option<u64>
    ensures { result ≡ bits_of bytes.now }
{
    if bytes.len() == BITS_DIGITS {
        return hex(bytes);
    }
    None
}

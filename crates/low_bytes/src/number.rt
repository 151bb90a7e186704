// A number read from its bytes and put as them, the low byte first.
ghost use Rattle.std.specs.Prelude.{◌≡◌, ◌+◌, ◌≤◌, length};
ghost use Rattle.std.proofs.lemmas.List.Edits.{sets};
ghost use Rattle.low_bytes.specs.LowBytes.{low_bytes, number_at};

// The number whose k bytes, low byte first, stand from a place on. By index: over `bytes[at..at + k].iter().rev()` the loop's invariant is said of the iterator, and
// the check did not find the proof; `from_le_bytes` takes eight bytes and no fewer.
#[tactic(auto, using(crate::proofs::LowFirst::nothing_read, crate::proofs::LowFirst::byte_read, crate::proofs::LowFirst::room_for_a_byte, crate::proofs::LowFirst::all_read))]
pub fn number_at(bytes: &[u8], at: usize, k: usize) -> u64
    requires { (k ≤ 8) × (at + k ≤ length bytes.now) }
    ensures { result ≡ number_at k bytes.now at }
{
    let mut number: u64 = 0;
    for i in (0..k).rev() {
        number = u64::from(bytes[at + i]) + 256 * number;
    }
    number
}

// The k lowest bytes of a number, low byte first. `to_le_bytes` has eight, and k may be more.
#[tactic(auto, using(crate::proofs::BytesPut::no_bytes_put, crate::proofs::BytesPut::part_put))]
pub fn put_bytes(out: &mut [u8], at: usize, k: usize, x: u64)
    requires { at + k ≤ length out.old }
    ensures { out.new ≡ sets out.old at (low_bytes k x) }
{
    let mut rest = x;
    for byte in &mut out[at..at + k] {
        *byte = (rest % 256) as u8;
        rest = rest / 256;
    }
}

// The number that follows a code, by its width and low byte first: a function for each width, where `low_bytes::number_at` goes byte by byte.
ghost use Rattle.std.specs.Prelude.{◌≡◌, ◌+◌, ◌≤◌, length};
ghost use Rattle.low_bytes.specs.LowBytes.{number_at};

#[tactic(auto, using(crate::proofs::Joined::two_joined))]
pub fn two_bytes(strip: &[u8], at: usize) -> u16
    requires { at + 2 ≤ length strip.now }
    ensures { result ≡ number_at 2 strip.now at }
{
    u16::from_le_bytes(*strip[at..].first_chunk().unwrap())
}

#[tactic(auto, using(crate::proofs::Joined::four_joined))]
pub fn four_bytes(strip: &[u8], at: usize) -> u32
    requires { at + 4 ≤ length strip.now }
    ensures { result ≡ number_at 4 strip.now at }
{
    u32::from_le_bytes(*strip[at..].first_chunk().unwrap())
}

#[tactic(auto, using(crate::proofs::Joined::eight_joined))]
pub fn eight_bytes(strip: &[u8], at: usize) -> u64
    requires { at + 8 ≤ length strip.now }
    ensures { result ≡ number_at 8 strip.now at }
{
    u64::from_le_bytes(*strip[at..].first_chunk().unwrap())
}

// Little-endian words in bytes: protocol.rs's `from_le_bytes`, `to_le_bytes` and `copy_from_slice`.
ghost use Rattle.std.specs.Prelude.{◌≡◌, ◌^◌, ◌<◌, take, slice_index};
ghost use Rattle.wire.specs.Bytes.{bytes_of, le, word_at, laid};

// The three readers below are sums of bytes, as the definition `le` is, with 0 for a byte that is missing; an array of such bytes to
// take them from would say no more. One reader over `[u8; N]` for all of them, by `first_chunk` and
// `from_le_bytes`, was tried, and its proof did not close: `le word ≡ word_at N s at` for an N that is a variable.

// They take a place, as `put` does: the definitions `word_at` and `laid` count from the slice's start, and theorems speak of them.

// The byte at a place, and 0 past the end.
fn byte_at(s: &[u8], at: usize) -> u64
    ensures { (result ≡ slice_index s.now at) × (result < 256) }
{
    if at < s.len() {
        return s[at] as u64;
    }
    0
}

// The number of the first four bytes; those that are missing count as zeros.
#[tactic(auto, using(crate::proofs::Words::four))]
fn front(s: &[u8]) -> u64
    ensures { (result ≡ le (take 4 s.now)) × (result < 2 ^ 32) }
{
    byte_at(s, 0) + 256 * (byte_at(s, 1) + 256 * (byte_at(s, 2) + 256 * byte_at(s, 3)))
}

/// The number of two bytes from a place on, lowest first. Bytes past the end count as zeros, here and
/// below.
pub fn u16_at(s: &[u8], at: usize) -> u16
    ensures { result ≡ word_at 2 s.now at }
{
    if s.len() < at {
        return 0;
    }
    (front(&s[at..]) % 65536) as u16
}

/// The number of four bytes from a place on.
#[tactic(auto, using(crate::proofs::Words::past, crate::proofs::Words::rests), unfolding(crate::specs::Bytes::word_at))]
pub fn u32_at(s: &[u8], at: usize) -> u32
    ensures { result ≡ word_at 4 s.now at }
{
    if s.len() < at {
        return 0;
    }
    front(&s[at..]) as u32
}

/// The number of eight bytes from a place on.
#[tactic(auto, using(crate::proofs::Words::past, crate::proofs::Words::rests, crate::proofs::Words::eight_short, crate::proofs::Words::eight_at), unfolding(crate::specs::Bytes::word_at))]
pub fn u64_at(s: &[u8], at: usize) -> u64
    ensures { result ≡ word_at 8 s.now at }
{
    if s.len() < at {
        return 0;
    }
    let low = front(&s[at..]);
    if s.len() - at < 4 {
        return low;
    }
    let next = at + 4;
    low + 0x1_0000_0000 * front(&s[next..])
}

/// A number as four bytes, lowest first.
#[tactic(auto, unfolding(crate::specs::Bytes::bytes_of))]
pub fn le4(x: u32) -> [u8; 4]
    ensures { result ≡ bytes_of 4 x }
{
    x.to_le_bytes()
}

/// A number as eight bytes, lowest first.
#[tactic(auto, unfolding(crate::specs::Bytes::bytes_of))]
pub fn le8(v: u64) -> [u8; 8]
    ensures { result ≡ bytes_of 8 v }
{
    v.to_le_bytes()
}

/// Lays bytes over others from a place on, and nothing where they do not fit.
#[tactic(auto, using(crate::proofs::Copies::laid_not, crate::proofs::Copies::laid_part))]
pub fn put(s: &mut [u8], at: usize, xs: &[u8])
    ensures { s.new ≡ laid s.old at xs.now }
{
    let n = xs.len();
    if n <= s.len() && at <= s.len() - n {
        s[at..at + n].copy_from_slice(xs);
    }
}

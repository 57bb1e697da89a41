// The number that a token of a shell line says: `number` of shell.rs, with `str::parse` and `u64::from_str_radix` behind it.
ghost use Rattle.std.specs.Prelude.{◌≡◌, ◌≤◌};
ghost use Rattle.text.specs.Number.{digit_of, digits, some, signed, is_hex, number_in};

use crate::trim;

// The value of a digit, 0 to 15. It is 16 where the byte is no digit, as the definition `digit_of` has it: one test against the base
// refuses it too.
#[tactic(auto, using(std::proofs::lemmas::Bool::Decides::nat_tests), unfolding(crate::specs::Number::digit_of))]
fn digit_of(b: u8) -> u64
    ensures { result ≡ digit_of b }
{
    match b {
        b'0'..=b'9' => (b - b'0') as u64,
        b'A'..=b'F' => (b - b'A' + 10) as u64,
        b'a'..=b'f' => (b - b'a' + 10) as u64,
        _ => 16,
    }
}

// The number that digits make, none being 0.
#[tactic(auto, using(crate::proofs::Digits::over, crate::proofs::Digits::next, crate::proofs::Digits::no_digit, crate::proofs::Digits::ended))]
fn all_digits(s: &[u8], base: u64) -> Option<u64>
    ensures { result ≡ digits base 0 s.now }
{
    let mut v: u64 = 0;
    for b in s {
        let d = digit_of(*b);
        if d >= base {
            return None;
        }
        v = v.checked_mul(base)?.checked_add(d)?;
    }
    Some(v)
}

// The number that digits make, of which there must be one.
#[tactic(auto, using(crate::proofs::Digits::no_digits, crate::proofs::Digits::some_digits))]
fn some_digits(s: &[u8], base: u64) -> Option<u64>
    ensures { result ≡ some base s.now }
{
    if s.is_empty() {
        return None;
    }
    all_digits(s, base)
}

// The number that digits make behind one `+`, if any.
#[tactic(auto, using(crate::proofs::Digits::sign))]
fn after_sign(s: &[u8], base: u64) -> Option<u64>
    ensures { result ≡ signed base s.now }
{
    some_digits(s.strip_prefix(b"+").unwrap_or(s), base)
}

// Whether the text begins with `0x` or `0X`.
#[tactic(auto, using(crate::proofs::Digits::hex_small, crate::proofs::Digits::hex_large))]
fn is_hex(t: &[u8]) -> bool
    ensures { result ≡ is_hex t.now }
{
    t.starts_with(b"0x") || t.starts_with(b"0X")
}

/// The number that a token says, as `number` of shell.rs reads it: white space at its ends aside, hexadecimal after `0x` or `0X`,
/// else decimal, with one `+` before the digits if any. `None` where there is no digit, where another byte stands, or from 2^64 on.
#[tactic(auto, using(crate::proofs::Tests::behind, crate::proofs::Digits::hex_long), unfolding(crate::specs::Number::numeral, crate::specs::Number::number_in))]
pub fn parse(token: &[u8]) -> Option<u64>
    ensures { result ≡ number_in token.now }
{
    let t = trim::trim(token);
    if is_hex(t) {
        after_sign(&t[2..], 16)
    } else {
        after_sign(t, 10)
    }
}

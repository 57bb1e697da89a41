// White space at the two ends of a text: `str::trim`, which shell.rs asks of a number and storage.rs of a partition's name. White
// space is what has the property White_Space in Unicode, so a character is measured and decoded first. Any bytes are taken:
// an octet at which no character stands is no white space, and is passed alone.
ghost use Rattle.std.specs.Prelude.{◌≡◌, suc, pred, ◌+◌, ◌-◌, ◌<◌, ◌≤◌, length, drop};
ghost use Rattle.text.specs.Utf8.{within, any_of, char_len};
ghost use Rattle.text.specs.Trim.{white_space, ◌⊳◌, code_point, blank_len, trim_start, trim};

use crate::utf8;

// Whether a code point is white space.
#[tactic(auto, using(std::proofs::lemmas::Bool::Decides::nat_tests), unfolding(crate::specs::Trim::white_space, crate::specs::Utf8::any_of))]
fn is_white(c: u32) -> bool
    ensures { result ≡ any_of (within c) white_space }
{
    matches!(
        c,
        0x0009..=0x000D
            | 0x0020
            | 0x0085
            | 0x00A0
            | 0x1680
            | 0x2000..=0x200A
            | 0x2028..=0x2029
            | 0x202F
            | 0x205F
            | 0x3000
    )
}

// The bits of a code point so far, and behind them the six of a tail octet.
fn with_tail(v: u32, b: u8) -> u32
    requires { v < 0x8000 }
    ensures { result ≡ v ⊳ b }
{
    v * 64 + (b % 64) as u32
}

// The code point of a character.
#[tactic(auto, using(std::proofs::lemmas::Bool::Decides::nat_tests), unfolding(crate::specs::Trim::code_point))]
fn code_point(character: &[u8]) -> u32
    requires { (1 ≤ length character.now) × (length character.now ≤ 4) }
    ensures { result ≡ code_point (length character.now) character.now }
{
    match character {
        [a] => (*a % 128) as u32,
        [a, b] => with_tail((*a % 32) as u32, *b),
        [a, b, c] => with_tail(with_tail((*a % 16) as u32, *b), *c),
        [a, b, c, d] => with_tail(with_tail(with_tail((*a % 8) as u32, *b), *c), *d),
        _ => unreachable!(),
    }
}

// How many octets the white space has that the text begins with. It is 0 where the text begins with none.
#[tactic(auto, using(crate::proofs::Trimming::point_take, crate::proofs::Grammar::char_long, crate::proofs::Grammar::char_len_le, crate::proofs::Grammar::char_len_four), unfolding(crate::specs::Trim::blank_len))]
fn blank_len(s: &[u8]) -> usize
    ensures { result ≡ blank_len s.now }
{
    let n = utf8::char_len(s);
    if n == 0 {
        return 0;
    }
    if is_white(code_point(&s[..n])) { n } else { 0 }
}

// The text without the white space at its start.
#[tactic(auto, using(crate::proofs::Tests::behind, crate::proofs::Trimming::start_stop, crate::proofs::Trimming::start_on, crate::proofs::Trimming::blank_le))]
fn trim_start(s: &[u8]) -> &[u8]
    ensures { result.now ≡ trim_start s.now }
{
    // A `loop`: a turn is as long as the white space that stands there, which no iterator over octets gives.
    let mut rest = s;
    loop {
        let n = blank_len(rest);
        if n == 0 {
            return rest;
        }
        rest = &rest[n..];
    }
}

/// The text without the white space at its two ends, as `str::trim` gives it: a part of the caller's slice. An octet at which no
/// character stands is no white space.
#[tactic(auto, using(crate::proofs::Tests::behind, crate::proofs::Trimming::done, crate::proofs::Trimming::turn, crate::proofs::Trimming::cut_out))]
pub fn trim(s: &[u8]) -> &[u8]
    ensures { result.now ≡ trim s.now }
{
    let text = trim_start(s);
    // A `loop`: a turn passes white space and the character behind it, each of its own length.
    let mut rest = text;
    loop {
        let behind = trim_start(rest);
        if behind.is_empty() {
            return &text[..text.len() - rest.len()];
        }
        // an octet at which no character stands is passed alone
        let n = utf8::char_len(behind).max(1);
        rest = &behind[n..];
    }
}

// UTF-8 by the grammar of RFC 3629, section 4: `core::str::from_utf8`, which protocol.rs asks of a shell
// line and of a partition field.
// The functions go up the grammar: a rule's rows of ranges, a character, a run of characters.
ghost use Rattle.std.specs.Prelude.{◌≡◌, ◌≤◌, false, [], ◌∷◌, length};
ghost use Rattle.text.specs.Utf8.{begins, any_of, utf8_1, utf8_2, utf8_3, utf8_4, first_of, char_len, octets, is_utf8};

// Whether the text begins with a character of one octet: UTF8-1.
#[tactic(auto, using(crate::proofs::Grammar::rows, std::proofs::lemmas::Bool::Decides::nat_tests), unfolding(crate::specs::Utf8::any_of, crate::specs::Utf8::utf8_1))]
fn begins_one(s: &[u8]) -> bool
    ensures { result ≡ any_of (begins s.now) utf8_1 }
{
    matches!(s, [0x00..=0x7F, ..])
}

// Whether the text begins with a character of two octets: UTF8-2.
#[tactic(auto, using(crate::proofs::Grammar::rows, std::proofs::lemmas::Bool::Decides::nat_tests), unfolding(crate::specs::Utf8::any_of, crate::specs::Utf8::utf8_2))]
fn begins_two(s: &[u8]) -> bool
    ensures { result ≡ any_of (begins s.now) utf8_2 }
{
    matches!(s, [0xC2..=0xDF, 0x80..=0xBF, ..])
}

// Whether the text begins with a character of three octets: UTF8-3.
#[tactic(auto, using(crate::proofs::Grammar::rows, std::proofs::lemmas::Bool::Decides::nat_tests), unfolding(crate::specs::Utf8::any_of, crate::specs::Utf8::utf8_3))]
fn begins_three(s: &[u8]) -> bool
    ensures { result ≡ any_of (begins s.now) utf8_3 }
{
    matches!(
        s,
        [0xE0, 0xA0..=0xBF, 0x80..=0xBF, ..]
            | [0xE1..=0xEC, 0x80..=0xBF, 0x80..=0xBF, ..]
            | [0xED, 0x80..=0x9F, 0x80..=0xBF, ..]
            | [0xEE..=0xEF, 0x80..=0xBF, 0x80..=0xBF, ..]
    )
}

// Whether the text begins with a character of four octets: UTF8-4.
#[tactic(auto, using(crate::proofs::Grammar::rows, std::proofs::lemmas::Bool::Decides::nat_tests), unfolding(crate::specs::Utf8::any_of, crate::specs::Utf8::utf8_4))]
fn begins_four(s: &[u8]) -> bool
    ensures { result ≡ any_of (begins s.now) utf8_4 }
{
    matches!(
        s,
        [0xF0, 0x90..=0xBF, 0x80..=0xBF, 0x80..=0xBF, ..]
            | [0xF1..=0xF3, 0x80..=0xBF, 0x80..=0xBF, 0x80..=0xBF, ..]
            | [0xF4, 0x80..=0x8F, 0x80..=0xBF, 0x80..=0xBF, ..]
    )
}

// How many octets the character of several octets has that the text begins with: UTF8-2, UTF8-3 or UTF8-4. It is 0 where the
// text begins with none.
#[tactic(auto, using(crate::proofs::Grammar::char_rules))]
fn long_char_len(s: &[u8]) -> usize
    ensures { result ≡ first_of 2 (utf8_2 ∷ utf8_3 ∷ utf8_4 ∷ []) s.now }
{
    if begins_two(s) {
        2
    } else if begins_three(s) {
        3
    } else if begins_four(s) {
        4
    } else {
        0
    }
}

// How many octets the character has that the text begins with: UTF8-char, which trim.rt asks for too. It is 0 where the text begins
// with none.
#[tactic(auto, using(crate::proofs::Grammar::char_rules), unfolding(crate::specs::Utf8::utf8_char, crate::specs::Utf8::char_len))]
pub(crate) fn char_len(s: &[u8]) -> usize
    ensures { result ≡ char_len s.now }
{
    if begins_one(s) { 1 } else { long_char_len(s) }
}

// The text without the characters of one octet at its start.
#[tactic(auto, using(crate::proofs::Grammar::one_long, crate::proofs::Grammar::one_goes))]
fn after_ascii(s: &[u8]) -> &[u8]
    ensures same { octets 0 result.now ≡ octets 0 s.now }
    ensures part { length result.now ≤ length s.now }
    ensures past { any_of (begins result.now) utf8_1 ≡ false }
{
    // A `while`: by the index that std's `position` gives, a character of several octets took more instructions (docs/DESIGN-PASS.md).
    let mut rest = s;
    while begins_one(rest) {
        rest = &rest[1..];
    }
    rest
}

/// Whether the bytes are UTF-8: characters one after another, and nothing else. UTF8-octets.
#[tactic(auto, using(crate::proofs::Tests::behind, crate::proofs::Grammar::long, crate::proofs::Grammar::goes, crate::proofs::Grammar::ended, crate::proofs::Grammar::no_char, crate::proofs::Grammar::char_len_le), unfolding(crate::specs::Utf8::is_utf8))]
pub fn is_utf8(s: &[u8]) -> bool
    ensures { result ≡ is_utf8 s.now }
{
    // A `while`: a turn passes a character, which has a length of its own, and those of one octet behind it.
    let mut rest = after_ascii(s);
    while !rest.is_empty() {
        let n = long_char_len(rest);
        // no character stands here, so the rest is not looked at
        if n == 0 {
            return false;
        }
        rest = after_ascii(&rest[n..]);
    }
    true
}

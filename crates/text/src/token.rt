// The tokens of a shell line, `line.split(' ')` of shell.rs, and the other parts of a text that end at a byte: a partition field
// up to its first zero (protocol.rs), a name up to its first `;` (storage.rs). Each is handed out as a part of the caller's
// slice, and the caller keeps the place where the next token starts. Also the comparisons that shell.rs makes.
ghost use Rattle.std.specs.Prelude.{◌≡◌, ◌==◌, drop};
ghost use Rattle.std.specs.List.{position_or_len};
ghost use Rattle.text.specs.Token.{until, place_after, starts_with, same};

// How long the run is that a text begins with, up to the first `stop` or to the end.
fn run_len(s: &[u8], stop: u8) -> usize
    ensures { result ≡ position_or_len (λ b. b == stop) s.now }
{
    s.iter().take_while(|b| **b != stop).count()
}

// The run that a text begins with.
fn run(s: &[u8], stop: u8) -> &[u8]
    ensures { result.now ≡ until stop s.now }
{
    &s[..run_len(s, stop)]
}

// `token` and `place_after` take a place: the definition `place_after` and the theorem `tokens_from` count from the line's start.

/// The token that starts at a place of a line: the run up to the next space, or to the line's end. It is empty where a space stands
/// at the place, and past the line's end.
pub fn token(line: &[u8], at: usize) -> &[u8]
    ensures { result.now ≡ until 0x20 (drop at line.now) }
{
    run(&line[at.min(line.len())..], b' ')
}

/// Where the token behind the one at a place starts: past the space that ends that one. `None` where the line's end ends it.
#[tactic(auto, using(crate::proofs::Tokens::until_drop, crate::proofs::Tokens::place_at, crate::proofs::Tokens::place_done))]
pub fn place_after(line: &[u8], at: usize) -> Option<usize>
    ensures { result ≡ place_after line.now at }
{
    let end = at + token(line, at).len();
    if end < line.len() {
        Some(end + 1)
    } else {
        None
    }
}

/// The text before the first `;`, or all of it: the name that a partition field asks for (storage.rs).
pub fn before_semicolon(s: &[u8]) -> &[u8]
    ensures { result.now ≡ until 0x3B s.now }
{
    run(s, b';')
}

/// The text before the first zero byte, or all of it: what a field of fixed length says (protocol.rs).
pub fn before_zero(s: &[u8]) -> &[u8]
    ensures { result.now ≡ until 0 s.now }
{
    run(s, 0)
}

/// Whether a text begins with the bytes of another.
#[tactic(auto, using(crate::proofs::Tokens::starts_is))]
pub fn starts_with(s: &[u8], front: &[u8]) -> bool
    ensures { result ≡ starts_with s.now front.now }
{
    s.starts_with(front)
}

/// Whether two texts have the same bytes.
#[tactic(auto, using(crate::proofs::Tokens::same_is))]
pub fn same(a: &[u8], b: &[u8]) -> bool
    ensures { result ≡ same a.now b.now }
{
    a == b
}

// The storage shell, from shell.rs and `shell_line` of protocol.rs, as far as it works on values: where the line
// of a payload ends, what a line asks for, where its buffer lies in scratch, and the device table that `get_bootdevice` fills.
ghost use Rattle.std.specs.Prelude.{◌≡◌, ℕ, Some, OnSome};
ghost use Rattle.text.specs.Utf8.{any_of};
ghost use Rattle.text.specs.Token.{same};
ghost use Rattle.wire.specs.Bytes.{laid, bytes_of};
ghost use Rattle.engine.specs.Shell.{line_of, word_of, done_words, with_number, with_id, tokens_left, behind, three_of, erase_of, boot_of, is_write, is_reset, window_of, boot_words, boot_name, boot_table, text_of};

use text::token::{place_after, same, starts_with, token};
use text::utf8::is_utf8;
use wire::bytes::{le4, put, u32_at};

// ---- the line of a RUN_SHELL_STR payload

/// protocol.rs's `shell_line`: how many bytes the line has that a payload holds behind their count of four bytes; `None` where
/// they are not all there, or are not UTF-8. The line is the part of the payload from 4 on that is as long.
pub fn text_len(payload: &[u8]) -> Option<usize>
    ensures { result ≡ text_of payload.now }
{
    if payload.len() < 4 {
        return None;
    }
    let n = u32_at(payload, 0) as usize;
    if n <= payload.len() - 4 && is_utf8(&payload[4..4 + n]) {
        Some(n)
    } else {
        None
    }
}

/// Does a line ask for a change of flash.
pub fn is_write(line: &[u8]) -> bool
    ensures { result ≡ is_write line.now }
{
    starts_with(line, b"bderase") || starts_with(line, b"bdwrite")
}

/// Is a line's first token `reset`.
#[tactic(auto, using(crate::proofs::Lines::first_token), unfolding(crate::specs::Shell::is_reset))]
pub fn is_reset(line: &[u8]) -> bool
    ensures { result ≡ is_reset line.now }
{
    same(token(line, 0), b"reset")
}

// ---- what a line asks for

// What a command word asks for.
#[derive(Clone, Copy, Debug, PartialEq, Eq)]
enum Word {
    Done,
    Erase,
    Write,
    Read,
    Boot,
}

/// What a line asks for: nothing to do (`Done`), or a command with its numbers.
// Five commands of which one has no numbers: no `Option`.
#[derive(Clone, Copy, Debug, PartialEq, Eq)]
pub enum Line {
    Done,
    Erase { start: u64, size: u64 },
    Write { offset: u64, len: u64, addr: u64 },
    Read { offset: u64, len: u64, addr: u64 },
    Boot { addr: u64, len: u64 },
}

// Is a word one of those that are accepted with nothing to do.
#[tactic(auto, unfolding(crate::specs::Shell::done_words, text::specs::Utf8::any_of))]
fn is_done(word: &[u8]) -> bool
    ensures { result ≡ any_of (same word.now) done_words }
{
    same(word, b"bdopen")
        || same(word, b"bdclose")
        || same(word, b"bdcfg")
        || same(word, b"efuse")
        || same(word, b"aicupg")
        || same(word, b"reset")
}

// What a command word asks for, compared byte for byte; `None` for a word that is no command.
#[tactic(auto, unfolding(crate::specs::Shell::word_of))]
fn word_of(word: &[u8]) -> Option<Word>
    ensures { result ≡ word_of word.now }
{
    if is_done(word) {
        Some(Word::Done)
    } else if same(word, b"bderase") {
        Some(Word::Erase)
    } else if same(word, b"bdwrite") {
        Some(Word::Write)
    } else if same(word, b"bdread") {
        Some(Word::Read)
    } else if same(word, b"get_bootdevice") {
        Some(Word::Boot)
    } else {
        None
    }
}

// The tokens of a line from a place on, which are taken one by one; none are left at no place.
#[derive(Clone, Copy, Debug)]
struct Tokens<'a> {
    line: &'a [u8],
    place: Option<usize>,
}

impl Tokens<'_> {
    // The next token, whatever it says.
    #[tactic(auto, using(text::proofs::Tokens::tokens_from), unfolding(text::specs::Token::rest_of))]
    fn skip(&mut self)
        ensures { tokens_left self.new ≡ behind (tokens_left self.old) }
    {
        if let Some(at) = self.place {
            self.place = place_after(self.line, at);
        }
    }

    // The number that the next token says: one turn of `take` of shell.rs.
    fn number(&mut self) -> Option<u64>
        ensures value { result ≡ with_number (λ n ts. Some n) (tokens_left self.old) }
        ensures rest { OnSome result (tokens_left self.new ≡ behind (tokens_left self.old)) }
    {
        let at = self.place?;
        self.place = place_after(self.line, at);
        text::number::parse(token(self.line, at))
    }

    // The three numbers of `bdwrite` and `bdread`, behind an id: offset, length and address.
    fn three(mut self) -> Option<(u64, u64, u64)>
        ensures { result ≡ three_of (behind (tokens_left self.entry)) }
    {
        self.skip();
        let offset = self.number()?;
        let len = self.number()?;
        let addr = self.number()?;
        Some((offset, len, addr))
    }

    // The range that `bderase` erases, behind an id.
    fn erase(mut self) -> Option<Line>
        ensures { result ≡ with_id erase_of (tokens_left self.entry) }
    {
        self.skip();
        let start = self.number()?;
        let size = self.number()?;
        Some(Line::Erase { start, size })
    }

    // Where `get_bootdevice` fills the device table.
    fn boot(mut self) -> Option<Line>
        ensures { result ≡ boot_of (tokens_left self.entry) }
    {
        let addr = self.number()?;
        let len = self.number()?;
        Some(Line::Boot { addr, len })
    }
}

/// What a line asks for: `run` of shell.rs up to the storage. `None` where that is nothing known. Tokens past those that the
/// command takes are not looked at.
#[tactic(auto, using(crate::proofs::Lines::first_token, crate::proofs::Lines::three_id), unfolding(crate::specs::Shell::line_of))]
pub fn parse(line: &[u8]) -> Option<Line>
    ensures { result ≡ line_of line.now }
{
    let word = word_of(token(line, 0))?;
    let tokens = Tokens {
        line,
        place: place_after(line, 0),
    };
    // a `match`: the words are a closed enum, and each arm reads other tokens
    match word {
        Word::Done => Some(Line::Done),
        Word::Erase => tokens.erase(),
        Word::Write => {
            let (offset, len, addr) = tokens.three()?;
            Some(Line::Write { offset, len, addr })
        }
        Word::Read => {
            let (offset, len, addr) = tokens.three()?;
            Some(Line::Read { offset, len, addr })
        }
        Word::Boot => tokens.boot(),
    }
}

// ---- the buffer of a line in scratch

/// A part of scratch: where it starts, and how long it is.
// A place and no slice: the storage's calls on scratch take a place and a length. Its bounds are those of scratch, so it is no `Frame`.
#[derive(Clone, Copy, Debug, PartialEq, Eq)]
pub struct Window {
    pub place: usize,
    pub len: usize,
}

/// `window` of shell.rs: the part of scratch that an address and a length name. `None` for an address outside scratch; a length
/// is cut to scratch's end.
pub fn window_of(base: u32, size: usize, addr: u64, len: u64) -> Option<Window>
    ensures { result ≡ window_of base size addr len }
{
    let off = addr.checked_sub(base as u64)?;
    let size = size as u64;
    if size <= off {
        return None;
    }
    Some(Window {
        place: off as usize,
        len: len.min(size - off) as usize,
    })
}

// ---- the device table of `get_bootdevice`

// `put_u32` of shell.rs: a word at a place, where its four bytes fit.
// A place and no part, which a short slice doesn't have.
fn put_word(s: &mut [u8], at: usize, x: u32)
    ensures { s.new ≡ laid s.old at (bytes_of 4 x) }
{
    put(s, at, &le4(x));
}

// The words of the table: its kind, the block size and the low half of the capacity.
#[tactic(auto, unfolding(crate::specs::Shell::boot_words))]
fn boot_words(s: &mut [u8], block: u32, capacity: u64)
    ensures { s.new ≡ boot_words block capacity s.old }
{
    put_word(s, 0x00, 1);
    put_word(s, 0x08, 2);
    put_word(s, 0x18, block);
    put_word(s, 0x1C, block);
    // The low half by `%`: a cast keeps every bit.
    put_word(s, 0x20, (capacity % 0x1_0000_0000) as u32);
}

// The name and its address, where the name fits.
#[tactic(auto, using(std::proofs::lemmas::Bool::Decides::nat_tests), unfolding(crate::specs::Shell::boot_name))]
fn boot_name(s: &mut [u8], base: u32, place: u32)
    ensures { s.new ≡ boot_name base place s.old }
{
    if 0x40 + 18 <= s.len() {
        put(s, 0x40, b"artinchip spi-nor\0");
        put_word(s, 0x24, base.wrapping_add(place).wrapping_add(0x40));
    }
}

/// `fill_bootdevice` of shell.rs, over the part of scratch from a place on that the line names.
#[tactic(auto, unfolding(crate::specs::Shell::boot_table))]
pub fn boot_table(s: &mut [u8], base: u32, place: u32, block: u32, capacity: u64)
    ensures { s.new ≡ boot_table base place block capacity s.old }
{
    s.fill(0);
    boot_words(s, block, capacity);
    boot_name(s, base, place);
}

// The pieces of a line.
ghost use Rattle.std.specs.Prelude.{◌≤◌, ◌<◌};

use record::print::{Hex, Printer, Tail};
use std::io::Write;
use std::{fmt, io};
use text::token::{place_after, token};
use text::utf8::is_utf8;

/// A line of a word, and 1 or 0.
pub fn flag<W: Write>(out: &mut Printer<W>, n: u64, word: &str, is: bool) -> io::Result<()> {
    let bit = u8::from(is);
    writeln!(out, "{n} {word} {bit}")
}

/// A line of a word, and behind it bytes in hexadecimal, if there are any.
pub fn piece<W: Write>(out: &mut Printer<W>, n: u64, word: &str, s: &[u8]) -> io::Result<()> {
    writeln!(out, "{n} {word}{}", Tail(s))
}

/// The tokens of a line in hexadecimal, with a bar between two of them.
#[derive(Clone, Copy, Debug)]
pub struct Tokens<'a>(pub &'a [u8]);

impl fmt::Display for Tokens<'_> {
    fn fmt<W: fmt::Write>(&self, f: &mut fmt::Formatter<W>) -> fmt::Result {
        let mut at = 0;
        // a record has at most one token more than bytes, and that one is empty: `successors` would need a bound too
        for _ in 0..65536 {
            let digits = Hex(token(self.0, at));
            write!(f, "{digits}")?;
            let Some(next) = place_after(self.0, at) else {
                break;
            };
            write!(f, "|")?;
            at = next;
        }
        Ok(())
    }
}

/// Many short texts at once: a first byte and one, two or three more, each of a set, the last place fastest.
#[derive(Clone, Copy, Debug)]
pub struct Texts<'a> {
    more: u8,
    first: u8,
    set: &'a [u8],
}

impl<'a> Texts<'a> {
    /// The texts of a record's body.
    pub fn of(body: &'a [u8]) -> Option<Texts<'a>> {
        let [more, first, set @ ..] = body else {
            return None;
        };
        Some(Texts {
            more: *more,
            first: *first,
            set,
        })
    }

    /// How many there are. Where two or three bytes follow the first, they are of a set of ten.
    pub fn count(&self) -> usize
        ensures { result ≤ 1000 }
    {
        let m = self.set.len();
        if 256 < m {
            return 0;
        }
        match self.more {
            1 => m,
            2 => 100,
            _ => 1000,
        }
    }

    // Is text number t UTF-8.
    fn is_utf8(&self, t: usize) -> bool {
        let m = self.set.len();
        // the divisor of what follows: with none there is no text, and nothing to look at
        if m == 0 {
            return false;
        }
        let x = self.set[t / m / m % m];
        let y = self.set[t / m % m];
        let z = self.set[t % m];
        match self.more {
            1 => is_utf8(&[self.first, z]),
            2 => is_utf8(&[self.first, y, z]),
            _ => is_utf8(&[self.first, x, y, z]),
        }
    }

    // 1 where text number t is there and is UTF-8.
    fn bit(&self, t: usize) -> u8
        ensures { result < 2 }
    {
        u8::from(t < self.count() && self.is_utf8(t))
    }
}

// A digit for each four texts: the range counts the digits.
impl fmt::Display for Texts<'_> {
    fn fmt<W: fmt::Write>(&self, f: &mut fmt::Formatter<W>) -> fmt::Result {
        for four in 0..self.count().div_ceil(4) {
            let t = 4 * four;
            let digit = 8 * self.bit(t)
                + 4 * self.bit(t + 1)
                + 2 * self.bit(t + 2)
                + self.bit(t + 3);
            write!(f, "{digit:x}")?;
        }
        Ok(())
    }
}

// Lines that are printed.
ghost use Rattle.std.specs.Prelude.{◌≡◌, Some, IfSome, OnOk, OnErr};
ghost use Rattle.std.specs.Io.KnownBytes.{Appends};
ghost use Rattle.std.specs.Fmt.{WritesOnOk};
ghost use Rattle.record.specs.Record.{AppendsFront, Grows};
ghost use Rattle.record.specs.Print.{pair_of, hex_of, tail_of, packet_line, sent_lines};

use crate::parts::{from, upto};
use arrayvec::ArrayString;
use std::fmt::{Display, Write as _};
use std::io::{ErrorKind, Write};
use std::{fmt, io};

/// How many bytes one print may have: more than any record of the programs makes.
pub const LINE: usize = 262144;

// Writes bytes until all are taken. A write that a signal interrupts is tried again; one that takes
// nothing is an error. What an error leaves is a front of the bytes behind what stood there: std's
// `write_all` doesn't say so. The turns are counted, as in `read_full`.
fn put<W: Write>(to: &mut W, s: &[u8]) -> io::Result<()>
    ensures ok { OnOk result (Appends (W.contents to.old) (W.contents to.new) s.now) }
    ensures err { OnErr result (AppendsFront (W.contents to.old) (W.contents to.new) s.now) }
{
    let mut done = 0;
    for _ in 0..u64::MAX {
        if s.len() <= done {
            return Ok(());
        }
        match to.write(&s[done..]) {
            Ok(0) => return Err(io::Error::from(ErrorKind::WriteZero)),
            Ok(n) => done += n,
            Err(e) => {
                if e.kind() != ErrorKind::Interrupted {
                    return Err(e);
                }
            }
        }
    }
    Err(io::Error::from(ErrorKind::Interrupted))
}

/// Prints to a writer by `write!` and `writeln!`. Each of them is laid out here first and then written in one
/// piece, so that an error leaves a front of it behind what stood there.
#[derive(Drop)]
pub struct Printer<W> {
    pub to: W,
    line: ArrayString<LINE>,
}

impl<W: Write> Printer<W> {
    /// Prints to this writer.
    pub fn new(to: W) -> Printer<W>
        ensures { result.to ≡ to }
    {
        Printer {
            to,
            line: ArrayString::new(),
        }
    }

    /// What `write!` and `writeln!` call. The error is a write's, or that the text is longer than a line may
    /// be, and then nothing is printed.
    pub fn write_fmt<D: Display + Drop>(&mut self, text: D) -> io::Result<()>
        ensures ok { OnOk result (IfSome (D.output text) (Appends (W.contents self.old.to) (W.contents self.new.to))) }
        ensures err { OnErr result (IfSome (D.output text) (AppendsFront (W.contents self.old.to) (W.contents self.new.to))) }
        ensures kept { Grows (W.contents self.old.to) (W.contents self.new.to) }
    {
        self.line.clear();
        write!(self.line, "{text}")?;
        put(&mut self.to, self.line.as_str().as_bytes())
    }

    // One line of `sent`.
    fn packet(&mut self, n: u64, bytes: &[u8]) -> io::Result<()>
        ensures ok { OnOk result (Appends (W.contents self.old.to) (W.contents self.new.to) (packet_line n bytes.now)) }
        ensures kept { Grows (W.contents self.old.to) (W.contents self.new.to) }
    {
        let digits = Hex(bytes);
        writeln!(self, "{n} in {digits}")
    }

    /// Prints what was sent for record number `n`: a line for each packet of data, 512 bytes and a rest, and one
    /// for the CSW, the 13 bytes behind the data, if there is one.
    // `moved` and `csw` are what a step says of the room that it laid both in.
    pub fn sent(&mut self, n: u64, sent: &[u8], moved: usize, csw: bool) -> io::Result<()>
        ensures ok { OnOk result (Appends (W.contents self.old.to) (W.contents self.new.to) (sent_lines n sent.now moved csw)) }
        ensures kept { Grows (W.contents self.old.to) (W.contents self.new.to) }
    {
        for packet in upto(sent, moved).chunks(512) {
            self.packet(n, packet)?;
        }
        if csw {
            self.packet(n, upto(from(sent, moved), 13))?;
        }
        Ok(())
    }
}

// Writes a byte as two digits. What the digits are is proved of a byte that is passed, and not of one in a loop.
#[tactic(auto, using(std::proofs::lemmas::Fmt::hex_byte))]
fn write_byte<F: fmt::Write>(f: &mut fmt::Formatter<F>, byte: u8) -> fmt::Result
    ensures { WritesOnOk F.write_str_gives f.old result (pair_of byte) f.new }
{
    write!(f, "{byte:02x}")
}

/// Bytes as hexadecimal digits, in lower case.
#[derive(Clone, Copy, Debug)]
pub struct Hex<'a>(pub &'a [u8]);

impl Display for Hex<'_> {
    ghost output = { λ h. Some (hex_of h.0.now) };

    fn fmt<F: fmt::Write>(&self, f: &mut fmt::Formatter<F>) -> fmt::Result {
        for byte in self.0 {
            write_byte(f, *byte)?;
        }
        Ok(())
    }
}

/// The same behind a space, and nothing where there are no bytes.
#[derive(Clone, Copy, Debug)]
pub struct Tail<'a>(pub &'a [u8]);

impl Display for Tail<'_> {
    ghost output = { λ t. Some (tail_of t.0.now) };

    fn fmt<F: fmt::Write>(&self, f: &mut fmt::Formatter<F>) -> fmt::Result {
        if self.0.is_empty() {
            return Ok(());
        }
        let digits = Hex(self.0);
        write!(f, " {digits}")
    }
}

// Runs the functions of `wire` and `text` on stored inputs and prints what they answer, a line for
// each record; what they must answer stands in `stdout` (oracle/leaves makes both files).
#![tactic(auto)]

mod kind;
mod lines;

use crate::kind::Kind;
use crate::lines::{Texts, Tokens, flag, piece};
use record::parts::{byte, from, upto};
use record::print::{Hex, Printer};
use std::io;
use std::io::Write;
use std::ops::ControlFlow;
use text::number;
use text::token::{before_semicolon, before_zero, same, starts_with};
use text::trim::trim;
use text::utf8::is_utf8;
use wire::bytes::{le4, le8, put, u16_at, u32_at, u64_at};
use wire::crc::crc32_update;
use wire::header::{build_header, parse_header};
use wire::packet::{csw, parse_cbw};

// Two texts in one body, behind the length of the first.
fn two(body: &[u8]) -> (&[u8], &[u8]) {
    let n = byte(body, 0) as usize;
    (upto(from(body, 1), n), from(body, 1 + n))
}

// The body holds a place, a count, as many bytes, and the room that they are laid in.
fn laid<W: Write>(out: &mut Printer<W>, n: u64, body: &mut [u8]) -> io::Result<()> {
    let at = u64_at(body, 0) as usize;
    let count = byte(body, 8) as usize;
    let start = 9 + count;
    if body.len() < start {
        return writeln!(out, "{n} bad");
    }
    let mut some = [0u8; 256];
    put(&mut some, 0, upto(from(body, 9), count));
    put(&mut body[start..], at, upto(&some, count));
    piece(out, n, "put", &body[start..])
}

// A record: what its kind runs, and the line of what that answers. A `match`, since the kinds are a closed enum.
fn answer<W: Write>(out: &mut Printer<W>, n: u64, kind: Kind, body: &mut [u8]) -> io::Result<()> {
    match kind {
        Kind::Texts => match Texts::of(body) {
            Some(texts) => writeln!(out, "{n} texts {} {texts}", texts.count()),
            None => writeln!(out, "{n} bad"),
        },
        Kind::Utf8 => flag(out, n, "utf8", is_utf8(body)),
        Kind::Trim => piece(out, n, "trim", trim(body)),
        Kind::Number => match number::parse(body) {
            Some(number) => writeln!(out, "{n} number {number}"),
            None => writeln!(out, "{n} number bad"),
        },
        Kind::Tokens => writeln!(out, "{n} tokens {}", Tokens(body)),
        Kind::BeforeSemicolon => piece(out, n, "before", before_semicolon(body)),
        Kind::BeforeZero => piece(out, n, "before", before_zero(body)),
        Kind::Same => {
            let (a, b) = two(body);
            flag(out, n, "same", same(a, b))
        }
        Kind::StartsWith => {
            let (s, front) = two(body);
            flag(out, n, "starts", starts_with(s, front))
        }
        Kind::Crc => {
            let crc = crc32_update(u32_at(body, 0), from(body, 4));
            writeln!(out, "{n} crc {crc:08x}")
        }
        Kind::Header => {
            let magic = u32_at(body, 0);
            let header = build_header(magic, byte(body, 4), byte(body, 5), u32_at(body, 6));
            writeln!(out, "{n} header {}", Hex(&header))
        }
        Kind::Parsed => match parse_header(body) {
            Some(h) => writeln!(out, "{n} parsed {} {} {}", h.command, h.status, h.length),
            None => writeln!(out, "{n} parsed bad"),
        },
        Kind::Cbw => match parse_cbw(body) {
            Some(cbw) => writeln!(out, "{n} cbw {} {} {}", cbw.tag, cbw.length, cbw.command),
            None => writeln!(out, "{n} cbw bad"),
        },
        Kind::Csw => {
            let csw = csw(u32_at(body, 0), byte(body, 4), u32_at(body, 5));
            writeln!(out, "{n} csw {}", Hex(&csw))
        }
        Kind::Words => {
            let at = u64_at(body, 0) as usize;
            let s = from(body, 8);
            writeln!(
                out,
                "{n} words {} {} {}",
                u16_at(s, at),
                u32_at(s, at),
                u64_at(s, at)
            )
        }
        Kind::Put => laid(out, n, body),
        Kind::Bytes => {
            let low = le4(u32_at(body, 0));
            let all = le8(u64_at(body, 0));
            writeln!(out, "{n} laid {} {}", Hex(&low), Hex(&all))
        }
    }
}

// The program keeps nothing from one record to the next.
#[derive(Drop)]
struct Leaves;

impl record::Program for Leaves {
    // The kind is a number: `Program` hands it on as the input has it.
    fn take<W: Write>(
        &mut self,
        out: &mut Printer<W>,
        n: u64,
        kind: u16,
        body: &mut [u8],
    ) -> io::Result<ControlFlow<()>> {
        match Kind::try_from(kind) {
            Ok(kind) => answer(out, n, kind, body)?,
            Err(_) => writeln!(out, "{n} bad")?,
        }
        Ok(ControlFlow::Continue(()))
    }

    fn bad<W: Write>(&mut self, out: &mut Printer<W>, _n: u64) -> io::Result<()> {
        writeln!(out, "bad")
    }
}

fn main(rt: HostRuntime) -> io::Result<()> {
    let mut input = rt.stdin();
    let mut out = Printer::new(rt.stdout());
    let mut room = [0u8; 65536];
    record::run(&mut input, &mut out, &mut room, &mut Leaves)
}

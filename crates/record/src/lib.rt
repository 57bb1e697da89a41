// What the programs share: records read from an input, and lines that are printed. A record is a u32 body
// length, a u16 kind and the body, little-endian.
#![tactic(auto)]

pub mod parts;
pub mod print;

ghost use Rattle.std.specs.Prelude.{◌≡◌, ◌≤◌, length, IfOk, Some, []};
ghost use Rattle.record.specs.Record.{Within, Shrinks};
ghost use Rattle.record.specs.declared.Next.TheVariants.{End};

use crate::print::Printer;
use std::io;
use std::io::{ErrorKind, Read, Write};
use std::ops::ControlFlow;
use wire::bytes::{u16_at, u32_at};

/// What an input has next: a record, whose body of `length` bytes stands at the start of the room, nothing that
/// makes a record, or its end.
// Three meanings, so neither an Option nor a Result. A length and no slice: the clause `read` says that it fits the room.
#[derive(Clone, Copy, Debug, PartialEq, Eq)]
pub enum Next {
    Record { kind: u16, length: usize },
    Bad,
    End,
}

// Reads until the room is full or the input ends, and answers how many bytes it put at the start of
// the room. A read that a signal interrupts is tried again. Whatever comes, the room keeps its length,
// and the input has lost a front of what it had. std's `read_exact` says neither. The turns are counted, since
// a reader may be interrupted at each of them.
fn read_full<R: Read>(input: &mut R, room: &mut [u8]) -> io::Result<usize>
    ensures read { IfOk result (λ done. done ≤ length room.new) }
    ensures kept { length room.new ≡ length room.old }
    ensures rest { Shrinks (R.remaining input.old) (R.remaining input.new) }
    ensures ended { R.remaining input.old ≡ Some [] → IfOk result (λ done. done ≡ 0) }
{
    let mut done = 0;
    for _ in 0..u64::MAX {
        if room.len() <= done {
            break;
        }
        match input.read(&mut room[done..]) {
            Ok(0) => break,
            Ok(n) => done += n,
            Err(e) => {
                if e.kind() != ErrorKind::Interrupted {
                    return Err(e);
                }
            }
        }
    }
    Ok(done)
}

/// Reads the next record. A record that is cut off, or whose body the room cannot hold, is bad. The
/// error is a read's; the room may then hold some of the body, and the input has lost what was read.
pub fn read_record<R: Read>(input: &mut R, room: &mut [u8]) -> io::Result<Next>
    ensures read { IfOk result (λ next. Within next (length room.new)) }
    ensures kept { length room.new ≡ length room.old }
    ensures rest { Shrinks (R.remaining input.old) (R.remaining input.new) }
    ensures ended { R.remaining input.old ≡ Some [] → IfOk result (λ next. next ≡ End) }
{
    let mut head = [0u8; 6];
    match read_full(input, &mut head)? {
        0 => return Ok(Next::End),
        1..=5 => return Ok(Next::Bad),
        _ => {}
    }
    let length = u32_at(&head, 0) as usize;
    let kind = u16_at(&head, 4);
    if room.len() < length {
        return Ok(Next::Bad);
    }
    read_full(input, &mut room[..length]).map(|read| {
        if read < length {
            Next::Bad
        } else {
            Next::Record { kind, length }
        }
    })
}

/// A number that is no kind of a record.
#[derive(Clone, Copy, Debug, PartialEq, Eq)]
pub struct Unknown;

/// What a program makes of its records.
pub trait Program {
    /// Takes record number `n` and prints its lines. `Break` ends the run.
    // The kind is a number here: any comes, and each program has an enum of its own.
    fn take<W: Write>(
        &mut self,
        out: &mut Printer<W>,
        n: u64,
        kind: u16,
        body: &mut [u8],
    ) -> io::Result<ControlFlow<()>>;

    /// Prints that record number `n` is malformed, which ends the run.
    fn bad<W: Write>(&mut self, out: &mut Printer<W>, n: u64) -> io::Result<()> {
        writeln!(out, "{n} bad")
    }
}

/// Hands a program record after record, up to the end of the input or to a malformed one. Each body stands at
/// the start of the room. Nothing is read ahead: a record's lines are printed before the next is read.
pub fn run<R: Read, W: Write, P: Program>(
    input: &mut R,
    out: &mut Printer<W>,
    room: &mut [u8],
    program: &mut P,
) -> io::Result<()>
    ensures kept { length room.new ≡ length room.old }
    ensures rest { Shrinks (R.remaining input.old) (R.remaining input.new) }
    ensures ended { R.remaining input.old ≡ Some [] → (out.new ≡ out.old) × (program.new ≡ program.old) }
{
    // a range, as each record is printed with its number
    for n in 0..u64::MAX {
        match read_record(input, room)? {
            Next::End => break,
            Next::Bad => return program.bad(out, n),
            Next::Record { kind, length } => {
                if program.take(out, n, kind, &mut room[..length])?.is_break() {
                    break;
                }
            }
        }
    }
    Ok(())
}

// The box between one record and the next.
use crate::kind::Kind;
use engine::given::Given;
use engine::rooms::Rooms;
use engine::types::Engine;
use record::Program;
use record::parts::{first, upto};
use record::print::{Printer, Tail};
use std::io;
use std::io::Write;
use std::ops::ControlFlow;
use storage::lent::{Lent, Partitions};
use storage::types::CallError;
use transport::port::{Mode, Port};
use wire::bytes::u16_at;

/// What is lent to the engine and never changes: a chip that doesn't fail, and one partition.
pub fn given() -> Given<'static> {
    Given {
        lent: Lent {
            faults: &[],
            marks: &[],
        },
        partitions: Partitions {
            offsets: &[8192],
            sizes: &[8192],
            lens: &[3],
            names: b"app",
        },
        table: &[],
    }
}

// A read, which leaves what is lent as `&mut` here as it was.
fn read(
    engine: &mut Engine,
    request: &mut [u8],
    rooms: &mut Rooms<'_>,
    room: &mut [u8],
) -> Result<usize, CallError> {
    engine.read(&given(), request, rooms, room)
}

/// The engine, its packets' state and the rooms of both.
#[derive(Drop)]
pub struct Session<'a> {
    pub engine: Engine,
    pub port: Port,
    pub request: &'a mut [u8],
    pub rooms: Rooms<'a>,
    pub sent: &'a mut [u8],
}

impl Session<'_> {
    // A write, in one call.
    fn write<W: Write>(&mut self, out: &mut Printer<W>, n: u64, body: &[u8]) -> io::Result<()> {
        let result = self
            .engine
            .write(&given(), self.request, &mut self.rooms, body);
        let status = result.err().map_or(0, |e| e.number());
        writeln!(out, "{n} write {status}")
    }

    // A read into a room of as many bytes as the body says.
    fn read<W: Write>(&mut self, out: &mut Printer<W>, n: u64, len: usize) -> io::Result<()> {
        let room = first(self.sent, len);
        match read(&mut self.engine, self.request, &mut self.rooms, room) {
            Ok(count) => writeln!(out, "{n} read {count}{}", Tail(upto(room, count))),
            Err(e) => writeln!(out, "{n} read {}", e.number()),
        }
    }

    // A packet.
    fn packet<W: Write>(&mut self, out: &mut Printer<W>, n: u64, packet: &[u8]) -> io::Result<()> {
        if self.port.mode == Mode::Closed {
            return writeln!(out, "{n} closed");
        }
        let step = self.port.step(
            &mut self.engine,
            &given(),
            self.request,
            &mut self.rooms,
            self.sent,
            packet,
        );
        let len = packet.len();
        writeln!(out, "{n} packet {len}")?;
        match step {
            Ok(step) => {
                self.port = step.port;
                out.sent(n, self.sent, step.moved, step.csw.is_some())
            }
            Err(_) => Ok(()),
        }
    }
}

impl Program for Session<'_> {
    // The kind is a number: `Program` hands it on as the input has it.
    fn take<W: Write>(
        &mut self,
        out: &mut Printer<W>,
        n: u64,
        kind: u16,
        body: &mut [u8],
    ) -> io::Result<ControlFlow<()>> {
        match Kind::of(kind, body) {
            Some(Kind::Write) => self.write(out, n, body)?,
            Some(Kind::Read) => self.read(out, n, u16_at(body, 0) as usize)?,
            Some(Kind::Reset) => {
                self.engine.reset();
                writeln!(out, "{n} reset")?;
            }
            Some(Kind::Packet) => self.packet(out, n, body)?,
            // a record that is none of these ends the run
            None => {
                self.bad(out, n)?;
                return Ok(ControlFlow::Break(()));
            }
        }
        Ok(ControlFlow::Continue(()))
    }
}

// Calls on what is open.
use crate::kind::Kind;
use crate::lines::{Ended, Moved, Status};
use engine::given::Given;
use engine::rooms::Rooms;
use engine::types::Engine;
use record::parts::{first, from, upto};
use record::print::{Printer, Tail};
use std::io;
use std::io::Write;
use storage::types::{CallError, Store};
use transport::port::{Mode, Port};
use wire::bytes::{u16_at, u32_at, u64_at};

/// A record: its number, its kind and its body.
#[derive(Clone, Copy, Debug)]
pub struct Record<'a> {
    pub n: u64,
    pub kind: Kind,
    pub body: &'a [u8],
}

/// A call on a storage: kinds 32 to 38. `room` takes what a read gives.
// A `match`, here and in the files beside it: the kinds, devices and targets are closed enums.
pub fn on_store<W: Write>(
    out: &mut Printer<W>,
    record: Record<'_>,
    store: &mut Store,
    given: Given<'_>,
    rooms: Rooms<'_>,
    room: &mut [u8],
) -> io::Result<()> {
    let Record { n, kind, body } = record;
    let Rooms {
        reply: _,
        chip,
        buffer,
        scratch,
    } = rooms;
    let lent = &given.lent;
    let offset = u64_at(body, 0);
    match kind {
        Kind::Flush => {
            let ended = store.flush(lent, chip, buffer);
            writeln!(out, "{n} flush {}", Ended(ended))
        }
        Kind::Erase => {
            let size = u64_at(body, 8);
            let ended = store.erase(lent, chip, buffer, offset, size);
            writeln!(out, "{n} erase {}", Ended(ended))
        }
        Kind::Put => {
            let bytes = from(body, 8);
            let count = store.write(lent, chip, buffer, offset, bytes);
            writeln!(out, "{n} put {}", Moved(count))
        }
        Kind::Get => {
            let room = first(room, u16_at(body, 8) as usize);
            let count = store.read(lent, chip, buffer, offset, room);
            let bytes = upto(room, count.unwrap_or(0));
            writeln!(out, "{n} get {}{}", Moved(count), Tail(bytes))
        }
        Kind::From => {
            let place = u32_at(body, 8) as usize;
            let len = u32_at(body, 12) as usize;
            let count = store.write_from_scratch(lent, chip, buffer, scratch, offset, place, len);
            writeln!(out, "{n} from {}", Moved(count))
        }
        Kind::Into => {
            let place = u32_at(body, 8) as usize;
            let len = u32_at(body, 12) as usize;
            let count = store.read_into_scratch(lent, chip, buffer, scratch, offset, place, len);
            writeln!(out, "{n} into {}", Moved(count))
        }
        Kind::At => match given.partitions.lookup(body) {
            Ok(Some(offset)) => writeln!(out, "{n} at {offset}"),
            Ok(None) => writeln!(out, "{n} at nothing"),
            Err(_) => writeln!(out, "{n} at refused 9"),
        },
        _ => writeln!(out, "{n} none"),
    }
}

/// An engine and the state of its packets.
#[derive(Clone, Copy, Debug, PartialEq, Eq)]
pub struct Device {
    pub engine: Engine,
    pub port: Port,
}

impl Device {
    /// A call on an engine: kinds 1 to 5. `room` takes what a read gives, and `sent` what a packet sends.
    pub fn call<W: Write>(
        &mut self,
        out: &mut Printer<W>,
        record: Record<'_>,
        given: Given<'_>,
        request: &mut [u8],
        mut rooms: Rooms<'_>,
        room: &mut [u8],
    ) -> io::Result<()> {
        let Record { n, kind, body } = record;
        match kind {
            Kind::Write => {
                let ended = self.engine.write(&given, request, &mut rooms, body);
                writeln!(out, "{n} write {}", Status(ended))
            }
            Kind::Read => {
                let room = first(room, u16_at(body, 0) as usize);
                match self.engine.read(&given, request, &rooms, room) {
                    Ok(count) => writeln!(out, "{n} read {count}{}", Tail(upto(room, count))),
                    Err(_) => writeln!(out, "{n} read refused 9"),
                }
            }
            Kind::Reset => {
                self.engine.reset();
                writeln!(out, "{n} reset")
            }
            Kind::Flags => {
                let upgrading = u8::from(self.engine.is_upgrading());
                let asked = u8::from(self.engine.is_asked());
                writeln!(out, "{n} flags {upgrading} {asked}")
            }
            // a closed session answers nothing
            Kind::Packet if self.port.mode == Mode::Closed => writeln!(out, "{n} closed"),
            Kind::Packet => {
                let step = self
                    .port
                    .step(&mut self.engine, &given, request, &mut rooms, room, body);
                match step {
                    Ok(step) => {
                        self.port = step.port;
                        writeln!(out, "{n} packet {}", body.len())?;
                        out.sent(n, room, step.moved, step.csw.is_some())
                    }
                    Err(_) => writeln!(out, "{n} packet refused 9"),
                }
            }
            _ => writeln!(out, "{n} none"),
        }
    }
}

// What is open from one record to the next, and the rooms that it works on.
use crate::call::{Device, Record, on_store};
use crate::kind::Kind;
use crate::opening::{Body, Opening};
use engine::rooms::Rooms;
use engine::types::Engine;
use record::Program;
use record::parts::{first, from, upto};
use record::print::Printer;
use std::io;
use std::io::Write;
use std::ops::ControlFlow;
use storage::types;
use storage::types::{Refusal, Store};
use transport::port::Port;
use wire::bytes::{put, u32_at};
use wire::crc::crc32_update;

/// What an opening opens.
#[derive(Clone, Copy, Debug, PartialEq, Eq)]
pub enum Target {
    Store(Store),
    Engine(Device),
}

/// What is open, and the opening's numbers.
#[derive(Clone, Copy, Debug, PartialEq, Eq)]
pub struct Open {
    pub opening: Opening,
    pub target: Target,
}

impl Open {
    // The storage of what is open: each target holds one, so it is no conversion of a value.
    fn store(&self) -> Store {
        match self.target {
            Target::Store(store) => store,
            Target::Engine(device) => device.engine.store,
        }
    }

    // A call, with as much of each room as the opening says.
    fn call<W: Write>(
        &mut self,
        out: &mut Printer<W>,
        record: Record<'_>,
        body: &Body<'_>,
        request: &mut [u8],
        rooms: &mut Rooms<'_>,
        room: &mut [u8],
    ) -> io::Result<()> {
        let opening = self.opening;
        let given = opening.given(body);
        let rooms = opening.rooms(rooms);
        match &mut self.target {
            Target::Store(store) => on_store(out, record, store, given, rooms, room),
            Target::Engine(device) => {
                let request = first(request, opening.request);
                let len = match record.kind {
                    Kind::Packet => opening.sent,
                    _ => room.len(),
                };
                device.call(out, record, given, request, rooms, first(room, len))
            }
        }
    }
}

/// What is open, if anything is; the body of the last opening; and the rooms, of which the opening says how much is
/// lent. `room` is where reads and packets put their bytes.
// `open` is the Option: no flag stands beside it.
#[derive(Drop)]
pub struct Lab<'a> {
    pub open: Option<Open>,
    pub body: Body<'a>,
    pub request: &'a mut [u8],
    pub rooms: Rooms<'a>,
    pub room: &'a mut [u8],
}

impl Lab<'_> {
    // What an opening finds: its body kept, the chip filled (the first byte `fill`, each next one `step` more), and
    // the other rooms zeros.
    fn begin(&mut self, opening: &Opening, body: &[u8]) {
        self.body.keep(opening, body);
        let mut value = opening.fill;
        for byte in first(self.rooms.chip, opening.chip) {
            *byte = value;
            value = value.wrapping_add(opening.step);
        }
        first(self.request, opening.request).fill(0);
        first(self.rooms.reply, opening.reply).fill(0);
        first(self.rooms.buffer, opening.buffer_len()).fill(0);
        first(self.rooms.scratch, opening.scratch).fill(0);
    }

    // What the storage answers to the opening, of as much of each room as it says.
    fn open_store(&self, opening: &Opening) -> Result<Store, Refusal> {
        let given = opening.given(&self.body);
        let chip = upto(self.rooms.chip, opening.chip);
        let scratch = upto(self.rooms.scratch, opening.scratch);
        match opening.device {
            types::Kind::Nor => {
                let buffer = upto(self.rooms.buffer, opening.buffer_len());
                Store::open_nor(chip, buffer, scratch, &given.partitions, opening.board)
            }
            types::Kind::Nand => Store::open_nand(
                chip,
                given.lent.marks,
                opening.geometry,
                scratch,
                &given.partitions,
                opening.board,
            ),
        }
    }

    // What the engine answers. The room for sent packets, of which it knows nothing, is tested here.
    fn open_engine(&self, opening: &Opening) -> Result<Engine, Refusal> {
        if opening.sent < 4125 {
            return Err(Refusal::Rooms);
        }
        let given = opening.given(&self.body);
        let request = upto(self.request, opening.request);
        let reply = upto(self.rooms.reply, opening.reply);
        let chip = upto(self.rooms.chip, opening.chip);
        let scratch = upto(self.rooms.scratch, opening.scratch);
        match opening.device {
            types::Kind::Nor => {
                let buffer = upto(self.rooms.buffer, opening.buffer_len());
                Engine::open_nor(
                    request,
                    reply,
                    chip,
                    buffer,
                    scratch,
                    &given.partitions,
                    opening.board,
                )
            }
            types::Kind::Nand => Engine::open_nand(
                request,
                reply,
                chip,
                given.lent.marks,
                opening.geometry,
                scratch,
                &given.partitions,
                opening.board,
            ),
        }
    }

    // A storage or an engine is opened on what the record says, which ends what was open.
    fn open<W: Write>(
        &mut self,
        out: &mut Printer<W>,
        n: u64,
        kind: Kind,
        opening: Opening,
        body: &[u8],
    ) -> io::Result<()> {
        self.begin(&opening, body);
        let target = if kind == Kind::OpenStore {
            self.open_store(&opening).map(Target::Store)
        } else {
            self.open_engine(&opening).map(|engine| Target::Engine(Device {
                engine,
                port: Port::start(),
            }))
        };
        self.open = target.ok().map(|target| Open { opening, target });
        let number = target.err().map_or(0, |refusal| refusal.number());
        writeln!(out, "{n} open {number}")
    }

    // Sets bytes of scratch, where they lie inside it.
    fn poke<W: Write>(
        &mut self,
        out: &mut Printer<W>,
        n: u64,
        opening: &Opening,
        body: &[u8],
    ) -> io::Result<bool> {
        let scratch = first(self.rooms.scratch, opening.scratch);
        let place = u32_at(body, 0) as usize;
        let bytes = from(body, 4);
        if scratch.len() < place || scratch.len() - place < bytes.len() {
            return Ok(false);
        }
        put(scratch, place, bytes);
        writeln!(out, "{n} poke")?;
        Ok(true)
    }

    // Prints the number of chip calls, the checksums of chip and scratch, and what is held.
    fn look<W: Write>(&self, out: &mut Printer<W>, n: u64, open: &Open) -> io::Result<()> {
        let store = open.store();
        let calls = store.calls;
        let chip = crc32_update(0, upto(self.rooms.chip, open.opening.chip));
        let scratch = crc32_update(0, upto(self.rooms.scratch, open.opening.scratch));
        if store.held {
            writeln!(
                out,
                "{n} look {calls} {chip:08x} {scratch:08x} {}",
                store.at
            )
        } else {
            writeln!(out, "{n} look {calls} {chip:08x} {scratch:08x} none")
        }
    }

    // A record of the right shape that is no opening. The answer is whether it is well-formed.
    fn asked<W: Write>(&mut self, out: &mut Printer<W>, record: Record<'_>) -> io::Result<bool> {
        let n = record.n;
        let Some(open) = self.open else {
            writeln!(out, "{n} none")?;
            return Ok(true);
        };
        match record.kind {
            Kind::Poke => return self.poke(out, n, &open.opening, record.body),
            Kind::Look => self.look(out, n, &open)?,
            _ => self.call(out, record, open)?,
        }
        Ok(true)
    }

    // A call on what is open.
    fn call<W: Write>(
        &mut self,
        out: &mut Printer<W>,
        record: Record<'_>,
        mut open: Open,
    ) -> io::Result<()> {
        open.call(
            out,
            record,
            &self.body,
            self.request,
            &mut self.rooms,
            self.room,
        )?;
        self.open = Some(open);
        Ok(())
    }

    // A record: whether it is well-formed. Its kind is a number, as `Program` hands it on.
    fn one<W: Write>(
        &mut self,
        out: &mut Printer<W>,
        n: u64,
        kind: u16,
        body: &[u8],
    ) -> io::Result<bool> {
        match Kind::of(kind, body) {
            None => Ok(false),
            Some(kind @ (Kind::OpenStore | Kind::OpenEngine)) => match Opening::parse(body) {
                Some(opening) => {
                    self.open(out, n, kind, opening, body)?;
                    Ok(true)
                }
                None => Ok(false),
            },
            Some(kind) => self.asked(out, Record { n, kind, body }),
        }
    }
}

impl Program for Lab<'_> {
    // The kind is a number: `Program` hands it on as the input has it.
    fn take<W: Write>(
        &mut self,
        out: &mut Printer<W>,
        n: u64,
        kind: u16,
        body: &mut [u8],
    ) -> io::Result<ControlFlow<()>> {
        if self.one(out, n, kind, body)? {
            return Ok(ControlFlow::Continue(()));
        }
        self.bad(out, n)?;
        Ok(ControlFlow::Break(()))
    }
}

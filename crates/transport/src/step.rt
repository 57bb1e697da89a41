// One step: class.rs `protocol` cut at each packet that it reads.
ghost use Rattle.std.specs.Prelude.{false, ◌&&◌, Some, ◌≡◌, ◌≤◌, leb, length};
ghost use Rattle.wire.specs.Bytes.{laid};
ghost use Rattle.wire.specs.Packet.{csw_of};
ghost use Rattle.engine.specs.World.{KeepsRooms, world_of};
ghost use Rattle.engine.specs.Api.{fits, cleared};
ghost use Rattle.transport.specs.Port.{idle};
ghost use Rattle.transport.specs.Step.{quiet, answered, went, stepped, write_stage, read_stage, cbw_by, commands, moves, steps};

use crate::port::{Mode, Port};
use engine::given::Given;
use engine::rooms::Rooms;
use engine::types::Engine;
use storage::types::{CallError, status_number};
use wire::bytes::put;
use wire::packet::{csw, parse_cbw};

// The room of a packet where a CBW is awaited.
const CBW_ROOM: usize = 31;

// The commands of a CBW: the host sends data, or reads them.
const WRITE: u8 = 1;

const READ: u8 = 2;

/// A CSW that is sent: its status, and how many bytes of the command's length were not moved.
// A status is a number, here and below: it is the byte that the CSW sends.
#[derive(Clone, Copy, Debug, PartialEq, Eq)]
pub struct Csw {
    pub status: u8,
    pub residue: u32,
}

/// What a packet led to: the transport's next state, how many bytes of data stand at the front of the room of
/// sent packets, in packets of 512, and the CSW that stands behind them, if one does.
// `csw` is the Option: no flag stands beside it.
#[derive(Clone, Copy, Debug, PartialEq, Eq)]
pub struct Step {
    pub port: Port,
    pub moved: usize,
    pub csw: Option<Csw>,
}

// Nothing is sent.
fn quiet(port: Port) -> Step
    ensures { result ≡ quiet port }
{
    Step {
        port,
        moved: 0,
        csw: None,
    }
}

// Is the room of sent packets long enough, and all else as the engine's calls ask.
fn may_step(
    engine: &Engine,
    given: &Given<'_>,
    request: &[u8],
    rooms: &Rooms<'_>,
    sent: &[u8],
) -> bool
    ensures { result ≡ (leb 4125 (length sent.now) && fits given.now (world_of engine.now request.now rooms.now)) }
{
    4125 <= sent.len() && engine.fits(given, request, rooms)
}

// A failed read: the engine is reset, no CSW is sent, and a CBW is next.
fn failed(engine: &mut Engine) -> Step
    ensures step { result ≡ quiet idle }
    ensures reset { engine.new ≡ cleared engine.old }
{
    engine.reset();
    quiet(Port::start())
}

// The CSW of a valid CBW is sent behind so many bytes of data: `moved` is a place in the room, and not its length.
fn ended(asked: bool, tag: u32, status: u8, residue: u32, moved: usize, sent: &mut [u8]) -> Step
    ensures step { result ≡ answered asked moved status residue }
    ensures sent { sent.new ≡ laid sent.old moved (csw_of tag status residue) }
{
    put(sent, moved, &csw(tag, status, residue));
    Step {
        port: Port::start().ended(asked),
        moved,
        csw: Some(Csw { status, residue }),
    }
}

// The CSW of a bad CBW is sent, which never closes the session.
fn refused(sent: &mut [u8]) -> Step
    ensures step { result ≡ answered false 0 1 0 }
    ensures sent { sent.new ≡ laid sent.old 0 (csw_of 0 1 0) }
{
    ended(false, 0, 1, 0, 0, sent)
}

// ---- a CBW

// A WRITE begins: with no data it is a write of no bytes, any other awaits its packets.
#[tactic(auto, unfolding(crate::specs::Step::write_stage, crate::specs::Step::ends))]
fn write_stage(
    engine: &mut Engine,
    given: &Given<'_>,
    request: &mut [u8],
    rooms: &mut Rooms<'_>,
    sent: &mut [u8],
    tag: u32,
    len: u32,
) -> Step
    ensures rooms { KeepsRooms rooms.old rooms.new }
    ensures steps { went result (world_of engine.new request.new rooms.new) sent.new ≡ write_stage given.now tag len (world_of engine.old request.old rooms.old) sent.old }
{
    if len != 0 {
        return quiet(Port::stage(tag, len));
    }
    let status = status_number(engine.write(given, request, rooms, &[]));
    ended(engine.asked, tag, status, 0, 0, sent)
}

// A READ: what waits is sent, up to its length and to the longest reply. A read that fails sends none.
#[tactic(auto, unfolding(crate::specs::Step::read_stage, crate::specs::Step::ends))]
fn read_stage(
    engine: &mut Engine,
    given: &Given<'_>,
    request: &[u8],
    rooms: &Rooms<'_>,
    sent: &mut [u8],
    tag: u32,
    len: u32,
) -> Step
    requires { 4125 ≤ length sent.old }
    ensures { went result (world_of engine.new request.now rooms.now) sent.new ≡ read_stage given.now tag len (world_of engine.old request.now rooms.now) sent.old }
{
    let n = (len as usize).min(4112);
    let count = engine
        .read(given, request, rooms, &mut sent[..n])
        .unwrap_or(0);
    ended(engine.asked, tag, 0, len - count as u32, count, sent)
}

// A packet where a CBW is awaited. A valid one begins a stage, or is of a command that is not known.
#[tactic(auto, unfolding(crate::specs::Step::commands, crate::specs::Step::fails, crate::specs::Step::refuses, crate::specs::Step::ends))]
fn command(
    engine: &mut Engine,
    given: &Given<'_>,
    request: &mut [u8],
    rooms: &mut Rooms<'_>,
    sent: &mut [u8],
    packet: &[u8],
) -> Step
    requires { 4125 ≤ length sent.old }
    ensures rooms { KeepsRooms rooms.old rooms.new }
    ensures steps { went result (world_of engine.new request.new rooms.new) sent.new ≡ commands given.now (world_of engine.old request.old rooms.old) sent.old packet.now }
{
    if CBW_ROOM < packet.len() {
        return failed(engine);
    }
    let Some(cbw) = parse_cbw(packet) else {
        return refused(sent);
    };
    // the command is a number, since any byte may stand there
    match cbw.command {
        WRITE => write_stage(engine, given, request, rooms, sent, cbw.tag, cbw.length),
        READ => read_stage(engine, given, request, rooms, sent, cbw.tag, cbw.length),
        _ => ended(engine.asked, cbw.tag, 1, cbw.length, 0, sent),
    }
}

// ---- a data stage

// A packet where one of a data stage is awaited. An empty one ends it, and so does the last one.
#[tactic(auto, unfolding(crate::specs::Step::moves, crate::specs::Step::fails, crate::specs::Step::ends))]
fn staged(
    port: Port,
    engine: &mut Engine,
    given: &Given<'_>,
    request: &mut [u8],
    rooms: &mut Rooms<'_>,
    sent: &mut [u8],
    packet: &[u8],
) -> Step
    ensures rooms { KeepsRooms rooms.old rooms.new }
    ensures steps { went result (world_of engine.new request.new rooms.new) sent.new ≡ moves given.now port (world_of engine.old request.old rooms.old) sent.old packet.now }
{
    let n = packet.len();
    if port.room() < n {
        return failed(engine);
    }
    if n == 0 {
        return ended(engine.asked, port.tag, port.status, port.left, 0, sent);
    }
    let status = status_number(engine.write(given, request, rooms, packet));
    let next = port.took(n as u32, status);
    if next.left != 0 {
        return quiet(next);
    }
    ended(engine.asked, next.tag, next.status, 0, 0, sent)
}

// ---- a packet

impl Port {
    /// A packet comes: class.rs `protocol` from one read of a packet to the next. What is sent in return lies at
    /// the front of `sent`. `Refused` leaves all as it was: `sent` has under 4,125 bytes, or a write of the
    /// engine would be refused. Nothing else fails.
    #[tactic(auto, unfolding(crate::specs::Step::steps))]
    pub fn step(
        self,
        engine: &mut Engine,
        given: &Given<'_>,
        request: &mut [u8],
        rooms: &mut Rooms<'_>,
        sent: &mut [u8],
        packet: &[u8],
    ) -> Result<Step, CallError>
        ensures rooms { KeepsRooms rooms.old rooms.new }
        ensures steps { stepped self result engine.new request.new rooms.new.reply.now rooms.new.chip.now rooms.new.buffer.now rooms.new.scratch.now sent.new ≡ steps given.now self (world_of engine.old request.old rooms.old) sent.old packet.now }
    {
        if !may_step(engine, given, request, rooms, sent) {
            return Err(CallError::Refused);
        }
        // a `match`, since the modes are a closed enum
        let step = match self.mode {
            Mode::Command => command(engine, given, request, rooms, sent, packet),
            Mode::Data => staged(self, engine, given, request, rooms, sent, packet),
            Mode::Closed => quiet(self),
        };
        Ok(step)
    }
}

// The engine's public calls, from protocol.rs `new`, `transport_write`, `transport_read`, `reset`,
// `host_upgrading` and `reset_requested`. No call asks anything of its caller: rooms of another size,
// parts that an opening would refuse and a record out of bounds are refused, and nothing is changed.
ghost use Rattle.std.specs.Prelude.{◌≡◌, ◌&&◌, length};
ghost use Rattle.storage.specs.World.{status_in};
ghost use Rattle.storage.specs.Open.{in_bounds, parts_fit, scratch_ok};
ghost use Rattle.storage.specs.Partition.{lists_ok};
ghost use Rattle.engine.specs.World.{KeepsRooms, world_of, out_of};
ghost use Rattle.engine.specs.Api.{rooms_ok, frame_ok, said_ok, bounds_ok, fits, no_update, fresh, opening, opened_nor, opened_nand, writes, took, reads, cleared};

use crate::frame::REQ_MAX;
use crate::given::Given;
use crate::reply::RESP_MAX;
use crate::rooms::Rooms;
use crate::types::{Engine, Frame, Said, Update};
use storage::lent::{Lent, Partitions};
use storage::open::scratch_ok;
use storage::types::{Board, CallError, Geometry, Refusal, Store};

// ---- in bounds

// The request room has 8,208 bytes, the reply room 4,112.
fn rooms_ok(request: usize, reply: usize) -> bool
    ensures { result ≡ rooms_ok request reply }
{
    request == REQ_MAX && reply == RESP_MAX
}

fn frame_ok(frame: Frame) -> bool
    ensures { result ≡ frame_ok frame }
{
    if frame.total == 0 {
        frame.len < 16
    } else {
        frame.len < frame.total && frame.total <= REQ_MAX
    }
}

fn said_ok(said: Said) -> bool
    ensures { result ≡ said_ok said }
{
    said.pos <= said.len && said.len <= RESP_MAX
}

// The target is at most 2^31, and written and left are under 2^32 together: the sum is tested before it is
// made.
fn up_ok(target: u64, written: u64, left: u64) -> bool
    ensures { result ≡ bounds_ok target written left }
{
    target <= 0x8000_0000 && written < 0x1_0000_0000 && left < 0x1_0000_0000 - written
}

/// Are the rooms' lengths and the engine's own numbers as an opening and the calls since leave them.
pub fn numbers_ok(
    request: usize,
    reply: usize,
    frame: Frame,
    said: Said,
    target: u64,
    written: u64,
    left: u64,
) -> bool
    ensures { result ≡ (rooms_ok request reply && (frame_ok frame && (said_ok said && bounds_ok target written left))) }
{
    rooms_ok(request, reply) && frame_ok(frame) && said_ok(said) && up_ok(target, written, left)
}

// How many blocks have a mark.
fn marks_len(lent: &Lent<'_>) -> usize
    ensures { result ≡ length lent.now.marks }
{
    lent.marks.len()
}

// ---- openings

fn no_update() -> Update
    ensures { result ≡ no_update }
{
    Update {
        meta: [0; 512],
        valid: false,
        aimed: false,
        target: 0,
        written: 0,
        crc: 0,
        burn: 0,
        run: 0,
        left: 0,
    }
}

// An engine over a store as it is opened.
fn fresh(base: u32, store: Store) -> Engine
    ensures { result ≡ fresh base store }
{
    Engine {
        frame: Frame { len: 0, total: 0 },
        said: Said { len: 0, pos: 0 },
        up: no_update(),
        upgrading: false,
        asked: false,
        base,
        store,
    }
}

impl Engine {
    /// Opens an engine over a NOR. Refused, in this order, for the rooms, the buffer, the chip's size, the
    /// partitions or scratch. Every slice is left as it was.
    // What an opening looks at, each as `&`: `Rooms` would lend it to be changed.
    #[tactic(auto, unfolding(crate::specs::Api::opened_nor))]
    pub fn open_nor(
        request: &[u8],
        reply: &[u8],
        chip: &[u8],
        buffer: &[u8],
        scratch: &[u8],
        partitions: &Partitions<'_>,
        board: Board,
    ) -> Result<Engine, Refusal>
        ensures { opening result ≡ opened_nor (length request.now) (length reply.now) (length chip.now) (length buffer.now) partitions.now board.base (length scratch.now) board.stage board.device }
    {
        if !rooms_ok(request.len(), reply.len()) {
            return Err(Refusal::Rooms);
        }
        let store = Store::open_nor(chip, buffer, scratch, partitions, board)?;
        Ok(fresh(board.base, store))
    }

    /// Opens an engine over a NAND. Refused, in this order, for the rooms, the partitions, the geometry or
    /// scratch. Every slice is left as it was.
    #[tactic(auto, unfolding(crate::specs::Api::opened_nand))]
    pub fn open_nand(
        request: &[u8],
        reply: &[u8],
        chip: &[u8],
        marks: &[u8],
        geometry: Geometry,
        scratch: &[u8],
        partitions: &Partitions<'_>,
        board: Board,
    ) -> Result<Engine, Refusal>
        ensures { opening result ≡ opened_nand (length request.now) (length reply.now) (length chip.now) geometry.page geometry.pages geometry.blocks (length marks.now) geometry.capacity partitions.now board.base (length scratch.now) board.stage board.device }
    {
        if !rooms_ok(request.len(), reply.len()) {
            return Err(Refusal::Rooms);
        }
        let store = Store::open_nand(chip, marks, geometry, scratch, partitions, board)?;
        Ok(fresh(board.base, store))
    }

    // The parts that are lent with the store and scratch: would an opening have taken them.
    fn parts_ok(&self, given: &Given<'_>, rooms: &Rooms<'_>) -> bool
        ensures { result ≡ ((in_bounds self.now.store && parts_fit self.now.store (length rooms.now.chip.now) (length given.now.lent.marks) (length rooms.now.buffer.now)) && (lists_ok given.now.lists && scratch_ok self.now.base (length rooms.now.scratch.now))) }
    {
        self.store.fits(rooms.chip.len(), marks_len(&given.lent), rooms.buffer.len())
            && given.partitions.fit()
            && scratch_ok(self.base, rooms.scratch.len())
    }

    /// Is all as an opening and the calls since leave it: the rooms' lengths, the record's numbers, and the
    /// parts that are lent, which an opening would have taken.
    #[tactic(auto, unfolding(crate::specs::Api::fits, crate::specs::Api::engine_ok, crate::specs::Api::up_ok, storage::specs::Store::good))]
    pub fn fits(&self, given: &Given<'_>, request: &[u8], rooms: &Rooms<'_>) -> bool
        ensures { result ≡ fits given.now (world_of self.now request.now rooms.now) }
    {
        numbers_ok(
            request.len(),
            rooms.reply.len(),
            self.frame,
            self.said,
            self.up.target,
            self.up.written,
            self.up.left,
        ) && self.parts_ok(given, rooms)
    }

    // ---- write and read

    /// The bytes of a write are taken: `transport_write`. `Refused` leaves all as it was; `Failed` is the
    /// write of a frame that isn't taken, or of a command that failed, and the bytes behind it are dropped.
    #[tactic(auto, using(crate::proofs::Apis::world_fit), unfolding(crate::specs::Api::writes))]
    pub fn write(
        &mut self,
        given: &Given<'_>,
        request: &mut [u8],
        rooms: &mut Rooms<'_>,
        bytes: &[u8],
    ) -> Result<(), CallError>
        ensures rooms { KeepsRooms rooms.old rooms.new }
        ensures writes { out_of (status_in result) (world_of self.new request.new rooms.new) ≡ writes given.now (world_of self.old request.old rooms.old) bytes.now }
    {
        if !self.fits(given, request, rooms) {
            return Err(CallError::Refused);
        }
        self.feed(given, request, rooms, bytes)
    }

    /// The next bytes of the reply are copied, as many as wait and the room takes: `transport_read`. Says how
    /// many; the room beyond them stays as it was. `Refused` leaves all as it was, and nothing else fails.
    #[tactic(auto, using(crate::proofs::Apis::said_in), unfolding(crate::specs::Api::reads))]
    pub fn read(
        &mut self,
        given: &Given<'_>,
        request: &[u8],
        rooms: &Rooms<'_>,
        room: &mut [u8],
    ) -> Result<usize, CallError>
        ensures { took result self.new room.new ≡ reads given.now (world_of self.old request.now rooms.now) room.old }
    {
        if !self.fits(given, request, rooms) {
            return Err(CallError::Refused);
        }
        let pos = self.said.pos;
        let n = (self.said.len - pos).min(room.len());
        room[..n].copy_from_slice(&rooms.reply[pos..pos + n]);
        self.said.pos = pos + n;
        Ok(n)
    }

    // ---- reset and the flags

    /// The record with request, reply, update record and stream emptied; flags, scratch and storage stay.
    pub fn cleared(self) -> Engine
        ensures { result ≡ cleared self }
    {
        Engine {
            upgrading: self.upgrading,
            asked: self.asked,
            ..fresh(self.base, self.store)
        }
    }

    /// Has the host started an upgrade: `host_upgrading`.
    pub fn is_upgrading(self) -> bool
        ensures { result ≡ self.upgrading }
    {
        self.upgrading
    }

    /// Did the host ask for a reset: `reset_requested`.
    pub fn is_asked(self) -> bool
        ensures { result ≡ self.asked }
    {
        self.asked
    }
}

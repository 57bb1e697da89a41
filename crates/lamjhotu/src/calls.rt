// The exported calls. Each unpacks the record from `state`, makes one call of the engine, and packs
// the record again; a read, and a write that is one short query or a piece of a stream, work on the
// state's bytes themselves. Every slice is a parameter of its own, and a number is the answer: C's interface
// is so.
// None asks anything of its caller: a state of under 652 bytes is refused, as the
// engine refuses what is out of bounds, and a refused call changes nothing.
ghost use Rattle.std.specs.Prelude.{◌&&◌, List, ◌++◌, ◌≡◌, ℕ, length};
ghost use Rattle.wire.specs.Crc.{crc_update};
ghost use Rattle.storage.specs.World.{lent};
ghost use Rattle.storage.specs.Partition.{lists};
ghost use Rattle.storage.specs.Open.{in_bounds, parts_fit};
ghost use Rattle.engine.specs.World.{given, KeepsRooms};
ghost use Rattle.engine.specs.Api.{opening, opened_nor, opened_nand};
ghost use Rattle.engine.specs.Feed.{SaidFit};
ghost use Rattle.lamjhotu.specs.State.{store_at, said_at, unpack_of};
ghost use Rattle.lamjhotu.specs.Calls.{told, resets, upgrading_of, asked_of, open_by, opens, saved_by, wrote, writes_in, took, reads_in, fits_but, next_by};

use crate::fields;
use crate::quick::{Way, ask, piece, way_of};
use crate::state::{
    Record, frame_at, pack, said_at, set_at, small_at, store_at, tell, unpack, word_at,
};
use engine::api::numbers_ok;
use engine::given::Given;
use engine::rooms::Rooms;
use engine::types::Engine;
use storage::lent::{Lent, Partitions};
use storage::open::{nor_fits, scratch_ok};
use storage::types::{Board, Geometry, Refusal, status_number};
use wire::bytes::put;
use wire::crc::crc32_update;

// A refused read.
const NONE: u32 = 0xFFFF_FFFF;

/// How many bytes a state has.
pub fn lamjhotu_record_len() -> usize
    ensures { result ≡ 652 }
{
    652
}

/// The CRC-32 of what has the checksum `crc` and of more bytes; 0 for none before them. A host checks an
/// update's checksum with it.
pub fn lamjhotu_crc32(crc: u32, bytes: &[u8]) -> u32
    ensures { result ≡ crc_update crc bytes.now }
{
    crc32_update(crc, bytes)
}

// ---- openings

// A record that was opened is packed over zeros; a refusal leaves the bytes.
// `rest`, here and below, is any bytes behind the record in a state: they stay. The answer is a number, as in the
// two private ones below: the exported call hands it on.
fn opened(state: &mut Record, engine: Result<Engine, Refusal>) -> u8
    ensures { (rest : List ℕ) → told result (state.new ++ rest) ≡ open_by (state.old ++ rest) (opening engine) }
{
    match engine {
        Ok(e) => {
            put(state, 0, &[0u8; fields::META]);
            pack(state, &e);
            0
        }
        Err(refusal) => refusal.number(),
    }
}

/// Opens an engine over a NOR: 0, or the refusal's number. A refusal, and 9 for a state of under 652 bytes,
/// leaves the state as it was.
pub fn lamjhotu_open_nor(
    state: &mut [u8],
    request: &[u8],
    reply: &[u8],
    chip: &[u8],
    buffer: &[u8],
    offsets: &[u64],
    sizes: &[u64],
    lens: &[u64],
    names: &[u8],
    base: u32,
    scratch: &[u8],
    stage: u8,
    device: u32,
) -> u8
    ensures { told result state.new ≡ opens state.old (opened_nor (length request.now) (length reply.now) (length chip.now) (length buffer.now) (lists offsets.now sizes.now lens.now names.now) base (length scratch.now) stage device) }
{
    let Some(state) = state.first_chunk_mut() else {
        return 9;
    };
    let partitions = Partitions {
        offsets,
        sizes,
        lens,
        names,
    };
    let board = Board {
        base,
        stage,
        device,
    };
    let engine = Engine::open_nor(request, reply, chip, buffer, scratch, &partitions, board);
    opened(state, engine)
}

/// Opens an engine over a NAND: 0, or the refusal's number. A refusal, and 9 for a state of under 652 bytes,
/// leaves the state as it was.
pub fn lamjhotu_open_nand(
    state: &mut [u8],
    request: &[u8],
    reply: &[u8],
    chip: &[u8],
    page: u64,
    pages: u64,
    blocks: u64,
    marks: &[u8],
    capacity: u64,
    offsets: &[u64],
    sizes: &[u64],
    lens: &[u64],
    names: &[u8],
    base: u32,
    scratch: &[u8],
    stage: u8,
    device: u32,
) -> u8
    ensures { told result state.new ≡ opens state.old (opened_nand (length request.now) (length reply.now) (length chip.now) page pages blocks (length marks.now) capacity (lists offsets.now sizes.now lens.now names.now) base (length scratch.now) stage device) }
{
    let Some(state) = state.first_chunk_mut() else {
        return 9;
    };
    let geometry = Geometry {
        page,
        pages,
        blocks,
        capacity,
    };
    let partitions = Partitions {
        offsets,
        sizes,
        lens,
        names,
    };
    let board = Board {
        base,
        stage,
        device,
    };
    let engine = Engine::open_nand(
        request,
        reply,
        chip,
        marks,
        geometry,
        scratch,
        &partitions,
        board,
    );
    opened(state, engine)
}

// ---- in bounds, on the state's bytes

// Has the record of a state a store that fits these lengths. A NOR's is not put together for that.
fn store_fits(s: &Record, chip: usize, marks: usize, buffer: usize) -> bool
    ensures { result ≡ (in_bounds (store_at s.now) && parts_fit (store_at s.now) chip marks buffer) }
{
    if set_at(s, fields::NOR) {
        return nor_fits(
            word_at(s, fields::CAPACITY),
            set_at(s, fields::HELD),
            word_at(s, fields::HELD_AT),
            chip,
            buffer,
        );
    }
    store_at(s).fits(chip, marks, buffer)
}

// Is all but the partitions as an opening and the calls since leave it. In line, since every write and read
// asks for it.
#[inline(always)]
fn fits_in(
    s: &Record,
    request: usize,
    reply: usize,
    chip: usize,
    buffer: usize,
    scratch: usize,
    marks: usize,
) -> bool
    ensures { result ≡ fits_but (unpack_of s.now) request reply chip buffer scratch marks }
{
    scratch_ok(small_at(s, fields::BASE), scratch)
        && numbers_ok(
            request,
            reply,
            frame_at(s),
            said_at(s),
            word_at(s, fields::TARGET),
            word_at(s, fields::WRITTEN),
            word_at(s, fields::LEFT),
        )
        && store_fits(s, chip, marks, buffer)
}

// ---- write

// The record of a write is packed, but where it was refused.
fn saved(state: &mut Record, status: u8, e: &Engine) -> u8
    ensures { (rest : List ℕ) → told result (state.new ++ rest) ≡ saved_by (state.old ++ rest) status e.now }
{
    if status != 9 {
        pack(state, e);
    }
    status
}

// The record is unpacked, the engine writes, and the record is packed again.
// What is lent to the engine is put together here and not in `lamjhotu_write`: a function clears the room of
// such values as it begins, so that each query alone would take 12 instructions more.
fn write_whole(
    state: &mut Record,
    request: &mut [u8],
    lent: Lent<'_>,
    partitions: Partitions<'_>,
    table: &[u8],
    chip: &mut [u8],
    buffer: &mut [u8],
    scratch: &mut [u8],
    reply: &mut [u8],
    bytes: &[u8],
) -> u8
    ensures { (rest : List ℕ) → wrote result (state.new ++ rest) request.new reply.new chip.new buffer.new scratch.new ≡ writes_in (given lent.entry partitions.entry table.now) (state.old ++ rest) request.old reply.old chip.old buffer.old scratch.old bytes.now }
{
    let given = Given {
        lent,
        partitions,
        table,
    };
    let mut rooms = Rooms {
        reply,
        chip,
        buffer,
        scratch,
    };
    let mut e = unpack(state);
    let status = status_number(e.write(&given, request, &mut rooms, bytes));
    saved(state, status, &e)
}

/// The bytes of a write are taken: 0 done, 1 failed, or 9 where it is refused and nothing is changed.
pub fn lamjhotu_write(
    state: &mut [u8],
    request: &mut [u8],
    faults: &[u8],
    marks: &[u8],
    offsets: &[u64],
    sizes: &[u64],
    lens: &[u64],
    names: &[u8],
    table: &[u8],
    chip: &mut [u8],
    buffer: &mut [u8],
    scratch: &mut [u8],
    reply: &mut [u8],
    bytes: &[u8],
) -> u8
    ensures { wrote result state.new request.new reply.new chip.new buffer.new scratch.new ≡ writes_in (given (lent faults.now marks.now) (lists offsets.now sizes.now lens.now names.now) table.now) state.old request.old reply.old chip.old buffer.old scratch.old bytes.now }
{
    let Some(state) = state.first_chunk_mut() else {
        return 9;
    };
    if !fits_in(
        state,
        request.len(),
        reply.len(),
        chip.len(),
        buffer.len(),
        scratch.len(),
        marks.len(),
    ) {
        return 9;
    }
    let partitions = Partitions {
        offsets,
        sizes,
        lens,
        names,
    };
    if !partitions.fit() {
        return 9;
    }
    // a `match`, since the ways are a closed enum
    match way_of(state, bytes) {
        Way::Query(command) => status_number(ask(state, request, table, reply, bytes, command)),
        Way::Piece => {
            piece(state, &Lent { faults, marks }, chip, buffer, bytes);
            0
        }
        Way::Whole => {
            let lent = Lent { faults, marks };
            write_whole(
                state, request, lent, partitions, table, chip, buffer, scratch, reply, bytes,
            )
        }
    }
}

// ---- read

// The next bytes of the reply are copied, and the reply's place moves on.
fn next(state: &mut Record, reply: &[u8], room: &mut [u8]) -> u32
    requires { SaidFit (said_at state.old) × (length reply.now ≡ 4112) }
    ensures { (rest : List ℕ) → took result (state.new ++ rest) room.new ≡ next_by (state.old ++ rest) reply.now room.old }
{
    let said = said_at(state);
    let pos = said.pos;
    let n = (said.len - pos).min(room.len());
    let end = pos + n;
    room[..n].copy_from_slice(&reply[pos..end]);
    tell(state, said.len as u64, end as u64);
    n as u32
}

/// The next bytes of the reply are copied into `room`, as many as wait and fit: their count, or
/// 0xFFFFFFFF where the read is refused and nothing is changed.
// `f` and `t` are any faults and any table's text: a read asks for neither, so neither is lent.
pub fn lamjhotu_read(
    state: &mut [u8],
    request: &[u8],
    reply: &[u8],
    chip: &[u8],
    buffer: &[u8],
    scratch: &[u8],
    marks: &[u8],
    offsets: &[u64],
    sizes: &[u64],
    lens: &[u64],
    names: &[u8],
    room: &mut [u8],
) -> u32
    ensures { (f t : List ℕ) → took result state.new room.new ≡ reads_in (given (lent f marks.now) (lists offsets.now sizes.now lens.now names.now) t) state.old request.now reply.now chip.now buffer.now scratch.now room.old }
{
    let Some(state) = state.first_chunk_mut() else {
        return NONE;
    };
    if !fits_in(
        state,
        request.len(),
        reply.len(),
        chip.len(),
        buffer.len(),
        scratch.len(),
        marks.len(),
    ) {
        return NONE;
    }
    let partitions = Partitions {
        offsets,
        sizes,
        lens,
        names,
    };
    if !partitions.fit() {
        return NONE;
    }
    next(state, reply, room)
}

// ---- reset and the flags

/// Request, reply, update record and stream are emptied; flags, scratch and storage stay. 0, or 9 for a state
/// of under 652 bytes.
pub fn lamjhotu_reset(state: &mut [u8]) -> u8
    ensures { told result state.new ≡ resets state.old }
{
    let Some(state) = state.first_chunk_mut() else {
        return 9;
    };
    let e = unpack(state).cleared();
    pack(state, &e);
    0
}

/// Has the host started an upgrade: 1 or 0, or 9 for a state of under 652 bytes.
pub fn lamjhotu_host_upgrading(state: &[u8]) -> u8
    ensures { result ≡ upgrading_of state.now }
{
    let Some(state) = state.first_chunk() else {
        return 9;
    };
    u8::from(unpack(state).is_upgrading())
}

/// Did the host ask for a reset: 1 or 0, or 9 for a state of under 652 bytes.
// As the one above: C has a name for each.
pub fn lamjhotu_reset_requested(state: &[u8]) -> u8
    ensures { result ≡ asked_of state.now }
{
    let Some(state) = state.first_chunk() else {
        return 9;
    };
    u8::from(unpack(state).is_asked())
}

// The engine for C and Rust programs as a static library: the nine calls of the library `lamjhotu`, each
// exported under its own name and with its own clauses. ./library at the top builds it and puts it where C
// programs look for it; include/lamjhotu.h and include/lamjhotu.rs declare it for them.
//
// A slice comes as a pointer and the number of elements behind it. A caller owes that the pointers are good
// and that what is written overlaps nothing else of the call; no contract asks for more. Each call answers
// for all numbers and all bytes, and writes only what is lent to it as `&mut`.
//
// What is lent: `state` has the engine's record in its first 652 bytes, with no pointer in it. `request`,
// `reply`, `chip` (the flash), `buffer` and `scratch` are the engine's rooms; they go to every call as the
// call before left them. `offsets`, `sizes`, `lens` and `names` are the partitions, and `marks` the bad blocks
// of a NAND; they stay as they were at the opening. A call is refused, and changes nothing, where the state
// is shorter, or where its record, a room or a list that the call takes is out of bounds.
#![tactic(auto)]

ghost use Rattle.std.specs.Prelude.{List, ◌≡◌, ℕ, length};
ghost use Rattle.wire.specs.Crc.{crc_update};
ghost use Rattle.storage.specs.World.{lent};
ghost use Rattle.storage.specs.Partition.{lists};
ghost use Rattle.engine.specs.World.{given};
ghost use Rattle.engine.specs.Api.{opened_nor, opened_nand};
ghost use Rattle.lamjhotu.specs.Calls.{told, resets, upgrading_of, asked_of, opens, wrote, writes_in, took, reads_in};

// How many bytes a state has: 652. A program that was built for another number sees that by it.
#[unsafe(no_mangle)]
pub extern "C" fn lamjhotu_record_len() -> usize
    ensures { result ≡ 652 }
{
    lamjhotu::calls::lamjhotu_record_len()
}

// The CRC-32 of what has the checksum `crc` and of `bytes` behind it; `crc` is 0 where they are the first.
// A host checks an update's checksum with it. Nothing is refused, and nothing is written.
#[unsafe(no_mangle)]
pub extern "C" fn lamjhotu_crc32(crc: u32, bytes: &[u8]) -> u32
    ensures { result ≡ crc_update crc bytes.now }
{
    lamjhotu::calls::lamjhotu_crc32(crc, bytes)
}

// ---- openings

// Opens an engine over a NOR and leaves its record in `state`; nothing else is written. `base` is the host's
// address of scratch; `stage` is the boot stage and `device` the device id, which the host may ask for. 0, or
// the number of the refusal, and then the state is as it was: 9 a short state, or a request or reply room of
// another size; 10 a buffer that is too short; 11 a chip of a size that no NOR has; 12 a partition list out
// of bounds; 14 scratch that reaches past 2^32.
#[unsafe(no_mangle)]
pub extern "C" fn lamjhotu_open_nor(
    state: &mut [u8],
    request: &[u8],
    reply: &[u8],
    chip: &[u8],
    buffer: &[u8],
    offsets: &[u64],
    sizes: &[u64],
    lens: &[u64],
    names: &[u8],
    base: u32,
    scratch: &[u8],
    stage: u8,
    device: u32,
) -> u8
    ensures { told result state.new ≡ opens state.old (opened_nor (length request.now) (length reply.now) (length chip.now) (length buffer.now) (lists offsets.now sizes.now lens.now names.now) base (length scratch.now) stage device) }
{
    lamjhotu::calls::lamjhotu_open_nor(
        state, request, reply, chip, buffer, offsets, sizes, lens, names, base, scratch, stage,
        device,
    )
}

// The same over a NAND of `blocks` blocks of `pages` pages of `page` bytes, of which `capacity` bytes are
// used. `marks` has a byte for each block, not 0 where it is bad. The buffer is not looked at yet, and 13
// stands in the place of 10 and 11: a geometry that no NAND has, a chip or marks of another size, or a
// capacity past 2^31.
#[unsafe(no_mangle)]
pub extern "C" fn lamjhotu_open_nand(
    state: &mut [u8],
    request: &[u8],
    reply: &[u8],
    chip: &[u8],
    page: u64,
    pages: u64,
    blocks: u64,
    marks: &[u8],
    capacity: u64,
    offsets: &[u64],
    sizes: &[u64],
    lens: &[u64],
    names: &[u8],
    base: u32,
    scratch: &[u8],
    stage: u8,
    device: u32,
) -> u8
    ensures { told result state.new ≡ opens state.old (opened_nand (length request.now) (length reply.now) (length chip.now) page pages blocks (length marks.now) capacity (lists offsets.now sizes.now lens.now names.now) base (length scratch.now) stage device) }
{
    lamjhotu::calls::lamjhotu_open_nand(
        state, request, reply, chip, page, pages, blocks, marks, capacity, offsets, sizes, lens,
        names, base, scratch, stage, device,
    )
}

// ---- write and read

// Takes `bytes` from the host, cut where the host likes, and leaves the record and every room as the engine
// leaves them; a reply waits for lamjhotu_read. `faults` has a byte for each call of the chip, not 0 where
// the chip fails (the last stands for all later calls; none: no call fails), and `table` is the text of the
// partition table that the host may ask for. 0 done; 1 a header was refused or a step failed; 9 refused.
#[unsafe(no_mangle)]
pub extern "C" fn lamjhotu_write(
    state: &mut [u8],
    request: &mut [u8],
    faults: &[u8],
    marks: &[u8],
    offsets: &[u64],
    sizes: &[u64],
    lens: &[u64],
    names: &[u8],
    table: &[u8],
    chip: &mut [u8],
    buffer: &mut [u8],
    scratch: &mut [u8],
    reply: &mut [u8],
    bytes: &[u8],
) -> u8
    ensures { wrote result state.new request.new reply.new chip.new buffer.new scratch.new ≡ writes_in (given (lent faults.now marks.now) (lists offsets.now sizes.now lens.now names.now) table.now) state.old request.old reply.old chip.old buffer.old scratch.old bytes.now }
{
    lamjhotu::calls::lamjhotu_write(
        state, request, faults, marks, offsets, sizes, lens, names, table, chip, buffer, scratch,
        reply, bytes,
    )
}

// Copies the next bytes of the reply to the front of `room`, as many as wait and fit, and leaves in the
// record that they were read: their count, or 0xFFFFFFFF where the call is refused. No fault of the chip and
// no text of the partition table changes its answer (`f` and `t` in the clause), so it takes neither.
#[unsafe(no_mangle)]
pub extern "C" fn lamjhotu_read(
    state: &mut [u8],
    request: &[u8],
    reply: &[u8],
    chip: &[u8],
    buffer: &[u8],
    scratch: &[u8],
    marks: &[u8],
    offsets: &[u64],
    sizes: &[u64],
    lens: &[u64],
    names: &[u8],
    room: &mut [u8],
) -> u32
    ensures { (f t : List ℕ) → took result state.new room.new ≡ reads_in (given (lent f marks.now) (lists offsets.now sizes.now lens.now names.now) t) state.old request.now reply.now chip.now buffer.now scratch.now room.old }
{
    lamjhotu::calls::lamjhotu_read(
        state, request, reply, chip, buffer, scratch, marks, offsets, sizes, lens, names, room,
    )
}

// ---- reset and the flags

// Empties request, reply, update record and stream, as after a transfer that failed; flags, scratch and
// storage stay. 0, or 9 where the state is short, and then it is as it was.
#[unsafe(no_mangle)]
pub extern "C" fn lamjhotu_reset(state: &mut [u8]) -> u8
    ensures { told result state.new ≡ resets state.old }
{
    lamjhotu::calls::lamjhotu_reset(state)
}

// Has the host started an upgrade: 1 or 0, or 9 where the state is short. Nothing is written.
#[unsafe(no_mangle)]
pub extern "C" fn lamjhotu_host_upgrading(state: &[u8]) -> u8
    ensures { result ≡ upgrading_of state.now }
{
    lamjhotu::calls::lamjhotu_host_upgrading(state)
}

// Did the host ask for a reset of the device: 1 or 0, or 9 where the state is short. Nothing is written.
#[unsafe(no_mangle)]
pub extern "C" fn lamjhotu_reset_requested(state: &[u8]) -> u8
    ensures { result ≡ asked_of state.now }
{
    lamjhotu::calls::lamjhotu_reset_requested(state)
}

// The commands of protocol.rs `execute_inner` that need no storage call: those that touch nothing but
// the reply, and READ and WRITE of scratch. Each lays its data into the reply room from 16 on.
ghost use Rattle.std.specs.Prelude.{◌≡◌, ℕ, List};
ghost use Rattle.storage.specs.Open.{is_nand, block_size_of};
ghost use Rattle.engine.specs.World.{KeepsRooms, world_of};
ghost use Rattle.engine.specs.Reply.{place, placing, gone, going};
ghost use Rattle.engine.specs.Exec.{memory};
ghost use Rattle.engine.specs.Command.{is_query, hwinfo, media, geometry, table_text, short_by, long_by, plain, asking, pair_of, inside, read_of, wrote_as, wrote_by, write_of};

use crate::reply::REPLY_DATA_MAX;
use crate::rooms::Rooms;
use crate::types::{Engine, Failure};
use storage::types::Store;
use wire::bytes::{le4, le8, put, u32_at};

// The commands' numbers, as protocol.rs names them. A command stays its byte and is no enum: any byte may
// come, is looked at by its number, and comes back in the reply's header.
pub const CMD_GET_HWINFO: u8 = 0x00;

pub const CMD_GET_TRACEINFO: u8 = 0x01;

pub const CMD_WRITE: u8 = 0x02;

pub const CMD_READ: u8 = 0x03;

pub const CMD_RUN_SHELL_STR: u8 = 0x05;

pub const CMD_GET_MEM_BUF: u8 = 0x08;

pub const CMD_FREE_MEM_BUF: u8 = 0x09;

pub const CMD_SET_UPG_CFG: u8 = 0x0A;

pub const CMD_SET_UPG_END: u8 = 0x0B;

pub const CMD_GET_LOG_SIZE: u8 = 0x0C;

pub const CMD_GET_LOG_DATA: u8 = 0x0D;

pub const CMD_SET_FWC_META: u8 = 0x10;

pub const CMD_GET_BLOCK_SIZE: u8 = 0x11;

pub const CMD_SEND_FWC_DATA: u8 = 0x12;

pub const CMD_GET_FWC_CRC: u8 = 0x13;

pub const CMD_GET_FWC_BURN_RESULT: u8 = 0x14;

pub const CMD_GET_FWC_RUN_RESULT: u8 = 0x15;

pub const CMD_GET_STORAGE_MEDIA: u8 = 0x16;

pub const CMD_GET_PARTITION_TABLE: u8 = 0x17;

pub const CMD_READ_FWC_DATA: u8 = 0x18;

pub const CMD_SET_UART_ARGS: u8 = 0x19;

pub const CMD_GET_STORAGE_GEOME: u8 = 0x1A;

pub const CMD_ERASE_STORAGE: u8 = 0x1B;

/// Is a command one that a host sends just to look at the device: `is_status_query`.
#[tactic(auto, using(std::proofs::lemmas::Bool::Decides::nat_tests), unfolding(storage::specs::Open::one_of))]
pub fn is_query(command: u8) -> bool
    ensures { result ≡ is_query command }
{
    matches!(
        command,
        CMD_GET_HWINFO
            | CMD_GET_TRACEINFO
            | CMD_READ
            | CMD_GET_MEM_BUF
            | CMD_FREE_MEM_BUF
            | CMD_GET_LOG_SIZE
            | CMD_GET_LOG_DATA
            | CMD_GET_BLOCK_SIZE
            | CMD_GET_FWC_CRC
            | CMD_GET_FWC_BURN_RESULT
            | CMD_GET_FWC_RUN_RESULT
            | CMD_GET_STORAGE_MEDIA
            | CMD_GET_PARTITION_TABLE
            | CMD_READ_FWC_DATA
            | CMD_GET_STORAGE_GEOME
    )
}

// ---- the longer replies

// `struct hwinfo`: the magic, the build stamp, the boot stage and the protocol version.
#[tactic(auto, unfolding(crate::specs::Command::hwinfo, wire::specs::Bytes::bytes_of, wire::specs::Bytes::laid))]
fn hwinfo(stage: u8) -> [u8; 108]
    ensures { result ≡ hwinfo stage }
{
    let mut hw = [0u8; 108];
    put(&mut hw, 0, b"HWINFO");
    put(&mut hw, 8, b"24-06-24 10:07");
    hw[40] = stage;
    put(&mut hw, 72, &le4(0x1603_0003));
    hw
}

// The media's name and the device id.
#[tactic(auto, unfolding(crate::specs::Command::media, wire::specs::Bytes::bytes_of, wire::specs::Bytes::laid))]
fn media(nand: bool, device: u32) -> [u8; 68]
    ensures { result ≡ media nand device }
{
    let mut room = [0u8; 68];
    put(&mut room, 64, &le4(device));
    if nand {
        put(&mut room, 0, b"spi-nand");
    } else {
        put(&mut room, 0, b"spi-nor");
    }
    room
}

// The capacity, and the block size twice.
#[tactic(auto, unfolding(crate::specs::Command::geometry, wire::specs::Bytes::bytes_of, wire::specs::Bytes::laid))]
fn geometry(capacity: u64, block: u32) -> [u8; 24]
    ensures { result ≡ geometry capacity block }
{
    let mut room = [0u8; 24];
    put(&mut room, 0, &le8(capacity));
    put(&mut room, 8, &le4(block));
    put(&mut room, 12, &le4(block));
    room
}

// The partition table's text: none fails, and more than a reply takes gives the odd one.
#[tactic(auto, using(std::proofs::lemmas::Bool::Decides::nat_tests), unfolding(crate::specs::Reply::sent))]
fn table_text(table: &[u8], reply: &mut [u8]) -> Result<u32, Failure>
    ensures { place result reply.new ≡ placing (table_text table.now) reply.old }
{
    if table.is_empty() {
        return Err(Failure::Failed);
    }
    if REPLY_DATA_MAX < table.len() {
        return Err(Failure::Odd);
    }
    put(reply, 16, table);
    Ok(table.len() as u32)
}

// The commands with more than a word to say, by what they tell of the device. All other numbers are not
// known. In line, so that a query with a word to say needs no record of the store in memory.
// A `match`, as in the calls that run a command: each arm takes other arguments, which no table of functions has.
#[tactic(auto, using(crate::proofs::Commands::hwinfo_length, crate::proofs::Commands::media_length, crate::proofs::Commands::geometry_length), unfolding(crate::specs::Command::long_by))]
#[inline(always)]
pub(crate) fn long(
    store: &Store,
    command: u8,
    table: &[u8],
    reply: &mut [u8],
) -> Result<u32, Failure>
    ensures { place result reply.new ≡ placing (long_by command store.now.shape.stage (is_nand store.now) store.now.shape.device store.now.shape.capacity (block_size_of store.now) table.now) reply.old }
{
    match command {
        CMD_GET_HWINFO => {
            put(reply, 16, &hwinfo(store.boot_stage()));
            Ok(108)
        }
        CMD_GET_STORAGE_MEDIA => {
            put(reply, 16, &media(store.is_nand(), store.device_id()));
            Ok(68)
        }
        CMD_GET_PARTITION_TABLE => table_text(table, reply),
        CMD_GET_STORAGE_GEOME => {
            put(reply, 16, &geometry(store.capacity(), store.block_size()));
            Ok(24)
        }
        _ => {
            put(reply, 16, &[0u8; 108]);
            Err(Failure::Unsupported)
        }
    }
}

/// What a command answers that has a word of four bytes or no data; `Other` for all others.
// Three answers, so no `Option`: one inside another would not name them.
#[derive(Clone, Copy, Debug, PartialEq, Eq)]
pub enum Short {
    Other,
    Empty,
    Word(u32),
}

// The commands with a word or nothing to say, by the numbers that they tell: a table, and no conversion of one value.
pub(crate) fn short_of(base: u32, burn: u32, run: u32, block: u32, command: u8) -> Short
    ensures { result ≡ short_by command base burn run block }
{
    match command {
        CMD_GET_MEM_BUF => Short::Word(base),
        CMD_FREE_MEM_BUF | CMD_SET_UPG_CFG | CMD_SET_UART_ARGS => Short::Empty,
        CMD_GET_LOG_SIZE => Short::Word(0),
        CMD_GET_BLOCK_SIZE => Short::Word(block),
        CMD_GET_FWC_BURN_RESULT => Short::Word(burn),
        CMD_GET_FWC_RUN_RESULT => Short::Word(run),
        _ => Short::Other,
    }
}

// The commands that touch nothing but the reply. They see four parts of the record.
#[tactic(auto, using(crate::proofs::Commands::laid_none), unfolding(crate::specs::Command::plain, crate::specs::Command::long_of, wire::specs::Bytes::bytes_of))]
pub(crate) fn plain(
    base: u32,
    burn: u32,
    run: u32,
    store: &Store,
    command: u8,
    table: &[u8],
    reply: &mut [u8],
) -> Result<u32, Failure>
    ensures { place result reply.new ≡ placing (plain command (asking base burn run store.now) table.now) reply.old }
{
    match short_of(base, burn, run, store.block_size(), command) {
        Short::Empty => Ok(0),
        Short::Word(x) => {
            put(reply, 16, &le4(x));
            Ok(4)
        }
        Short::Other => long(store, command, table, reply),
    }
}

// ---- READ and WRITE of scratch

/// The first eight payload bytes: address (or offset) and length. `None` for every payload under eight bytes.
pub fn pair_of(payload: &[u8]) -> Option<(u32, u32)>
    ensures { result ≡ pair_of payload.now }
{
    if payload.len() < 8 {
        return None;
    }
    Some((u32_at(payload, 0), u32_at(payload, 4)))
}

// Does the window from an address on lie inside scratch.
fn inside(base: u32, size: usize, addr: u32, len: u32) -> bool
    ensures { result ≡ inside base size addr len }
{
    base <= addr && (addr - base) as usize <= size && len as usize <= size - (addr - base) as usize
}

// READ: the window's bytes. More than a reply takes give the odd one, and more than its room none.
// Scratch is lent as `&mut` and stays as it was: a call on two fields of `Rooms` of which one is only read
// has no proof.
#[tactic(auto, using(std::proofs::lemmas::Bool::Decides::nat_tests, crate::proofs::Commands::laid_none, crate::proofs::Commands::window_length), unfolding(crate::specs::Command::read_of, crate::specs::Reply::sent))]
fn read(base: u32, scratch: &mut [u8], payload: &[u8], reply: &mut [u8]) -> Result<u32, Failure>
    ensures reads { place result reply.new ≡ placing (read_of base scratch.old payload.now) reply.old }
    ensures scratch { scratch.new ≡ scratch.old }
{
    let Some((addr, len)) = pair_of(payload) else {
        return Err(Failure::Failed);
    };
    if !inside(base, scratch.len(), addr, len) {
        return Err(Failure::Failed);
    }
    if 4112 < len {
        return Ok(0);
    }
    if 4096 < len {
        return Err(Failure::Odd);
    }
    let at = (addr - base) as usize;
    put(reply, 16, &scratch[at..at + len as usize]);
    Ok(len)
}

// WRITE: the bytes behind the pair go into the window.
#[tactic(auto, using(std::proofs::lemmas::Bool::Decides::nat_tests), unfolding(crate::specs::Command::write_of, wire::specs::Bytes::laid))]
fn write(base: u32, scratch: &mut [u8], payload: &[u8]) -> Result<u32, Failure>
    ensures { wrote_as result scratch.new ≡ wrote_by (write_of base scratch.old payload.now) }
{
    let Some((addr, len)) = pair_of(payload) else {
        return Err(Failure::Failed);
    };
    if payload.len() - 8 < len as usize || !inside(base, scratch.len(), addr, len) {
        return Err(Failure::Failed);
    }
    put(
        scratch,
        (addr - base) as usize,
        &payload[8..8 + len as usize],
    );
    Ok(0)
}

impl Engine {
    // READ or WRITE.
    // `q`, here and below, is any request: the request room isn't lent to a command, whose data are a part of it.
    #[tactic(auto, using(std::proofs::lemmas::Bool::Decides::nat_tests, crate::proofs::Execs::write_none), unfolding(crate::specs::Exec::memory))]
    pub(crate) fn memory(
        &self,
        rooms: &mut Rooms<'_>,
        command: u8,
        payload: &[u8],
    ) -> Result<u32, Failure>
        ensures rooms { KeepsRooms rooms.old rooms.new }
        ensures memory { (q : List ℕ) → gone result (world_of self.now q rooms.new) ≡ going (memory command payload.now (world_of self.now q rooms.old)) }
    {
        // Two commands: a `match` would say no more.
        if command == CMD_WRITE {
            write(self.base, rooms.scratch, payload)
        } else {
            read(self.base, rooms.scratch, payload, rooms.reply)
        }
    }
}

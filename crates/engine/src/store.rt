// The storage's calls on the rooms of an engine: storage.rs's trait `StorageBackend` as the commands use it.
// Each leaves all but the storage's record, the chip and its buffer as it was; a read into scratch changes scratch too.
ghost use Rattle.std.specs.Prelude.{◌≡◌};
ghost use Rattle.storage.specs.World.{dev, told, seen, status_in, count_in};
ghost use Rattle.storage.specs.Store.{flushing, erasing, writing, reading};
ghost use Rattle.storage.specs.Scratch.{from_scratch, into_scratch};
ghost use Rattle.engine.specs.World.{KeepsRooms, KeepsRest, dev_in, with_store};

use crate::given::Given;
use crate::rooms::Rooms;
use crate::types::Engine;
use storage::lent::Lent;
use storage::types::{CallError, Store};

// ---- the same with each room as `&mut`: a call on two fields of `Rooms` of which one is only read has no proof

fn flush(
    store: &mut Store,
    lent: &Lent<'_>,
    chip: &mut [u8],
    buffer: &mut [u8],
) -> Result<(), CallError>
    ensures flushes { told (status_in result) 0 (dev store.new chip.new buffer.new) ≡ flushing lent.now (dev store.old chip.old buffer.old) }
    ensures buffer { buffer.new ≡ buffer.old }
{
    store.flush(lent, chip, buffer)
}

fn erase(
    store: &mut Store,
    lent: &Lent<'_>,
    chip: &mut [u8],
    buffer: &mut [u8],
    start: u64,
    size: u64,
) -> Result<(), CallError>
    ensures erases { told (status_in result) 0 (dev store.new chip.new buffer.new) ≡ erasing lent.now start size (dev store.old chip.old buffer.old) }
    ensures buffer { buffer.new ≡ buffer.old }
{
    store.erase(lent, chip, buffer, start, size)
}

fn read(
    store: &mut Store,
    lent: &Lent<'_>,
    chip: &mut [u8],
    buffer: &mut [u8],
    offset: u64,
    room: &mut [u8],
) -> Result<usize, CallError>
    ensures reads { seen (told (status_in result) (count_in result) (dev store.new chip.new buffer.new)) room.new ≡ reading lent.now offset room.old (dev store.old chip.old buffer.old) }
    ensures buffer { buffer.new ≡ buffer.old }
{
    store.read(lent, chip, buffer, offset, room)
}

// Place and length, and so eight parameters, here and in the next: the storage's calls on scratch take them.
fn write_from_scratch(
    store: &mut Store,
    lent: &Lent<'_>,
    chip: &mut [u8],
    buffer: &mut [u8],
    scratch: &mut [u8],
    offset: u64,
    place: usize,
    len: usize,
) -> Result<usize, CallError>
    ensures writes { told (status_in result) (count_in result) (dev store.new chip.new buffer.new) ≡ from_scratch lent.now offset place len scratch.old (dev store.old chip.old buffer.old) }
    ensures scratch { scratch.new ≡ scratch.old }
{
    store.write_from_scratch(lent, chip, buffer, scratch, offset, place, len)
}

fn read_into_scratch(
    store: &mut Store,
    lent: &Lent<'_>,
    chip: &mut [u8],
    buffer: &mut [u8],
    scratch: &mut [u8],
    offset: u64,
    place: usize,
    len: usize,
) -> Result<usize, CallError>
    ensures reads { seen (told (status_in result) (count_in result) (dev store.new chip.new buffer.new)) scratch.new ≡ into_scratch lent.now offset place len scratch.old (dev store.old chip.old buffer.old) }
    ensures buffer { buffer.new ≡ buffer.old }
{
    store.read_into_scratch(lent, chip, buffer, scratch, offset, place, len)
}

// ---- on the rooms

// Alike but for the storage's call: each has the clause of its own call, so one for all is no plainer.
impl Engine {
    // A held sector or page is written out.
    pub(crate) fn flush_store(
        &mut self,
        given: &Given<'_>,
        rooms: &mut Rooms<'_>,
    ) -> Result<(), CallError>
        ensures rooms { KeepsRooms rooms.old rooms.new }
        ensures flushes { told (status_in result) 0 (dev_in self.new rooms.new) ≡ flushing given.now.lent (dev_in self.old rooms.old) }
        ensures rest { KeepsRest self.old self.new rooms.old rooms.new }
    {
        flush(&mut self.store, &given.lent, rooms.chip, rooms.buffer)
    }

    // A range is erased, in whole sectors or blocks, after a flush.
    pub(crate) fn erase_store(
        &mut self,
        given: &Given<'_>,
        rooms: &mut Rooms<'_>,
        start: u64,
        size: u64,
    ) -> Result<(), CallError>
        ensures rooms { KeepsRooms rooms.old rooms.new }
        ensures erases { told (status_in result) 0 (dev_in self.new rooms.new) ≡ erasing given.now.lent start size (dev_in self.old rooms.old) }
        ensures rest { KeepsRest self.old self.new rooms.old rooms.new }
    {
        erase(
            &mut self.store,
            &given.lent,
            rooms.chip,
            rooms.buffer,
            start,
            size,
        )
    }

    // Bytes are written from an offset on: how many were taken.
    pub(crate) fn write_store(
        &mut self,
        given: &Given<'_>,
        rooms: &mut Rooms<'_>,
        offset: u64,
        bytes: &[u8],
    ) -> Result<usize, CallError>
        ensures rooms { KeepsRooms rooms.old rooms.new }
        ensures writes { told (status_in result) (count_in result) (dev_in self.new rooms.new) ≡ writing given.now.lent offset bytes.now (dev_in self.old rooms.old) }
        ensures rest { KeepsRest self.old self.new rooms.old rooms.new }
    {
        self.store
            .write(&given.lent, rooms.chip, rooms.buffer, offset, bytes)
    }

    // Bytes are read from an offset on, after a flush: how many. The room beyond them stays as it was.
    pub(crate) fn read_store(
        &mut self,
        given: &Given<'_>,
        rooms: &mut Rooms<'_>,
        offset: u64,
        room: &mut [u8],
    ) -> Result<usize, CallError>
        ensures rooms { KeepsRooms rooms.old rooms.new }
        ensures reads { seen (told (status_in result) (count_in result) (dev_in self.new rooms.new)) room.new ≡ reading given.now.lent offset room.old (dev_in self.old rooms.old) }
        ensures rest { KeepsRest self.old self.new rooms.old rooms.new }
    {
        read(
            &mut self.store,
            &given.lent,
            rooms.chip,
            rooms.buffer,
            offset,
            room,
        )
    }

    // Bytes of scratch are written to the device, from an offset on: how many were taken.
    pub(crate) fn store_scratch(
        &mut self,
        given: &Given<'_>,
        rooms: &mut Rooms<'_>,
        offset: u64,
        place: usize,
        len: usize,
    ) -> Result<usize, CallError>
        ensures rooms { KeepsRooms rooms.old rooms.new }
        ensures writes { told (status_in result) (count_in result) (dev_in self.new rooms.new) ≡ from_scratch given.now.lent offset place len rooms.old.scratch.now (dev_in self.old rooms.old) }
        ensures rest { KeepsRest self.old self.new rooms.old rooms.new }
    {
        write_from_scratch(
            &mut self.store,
            &given.lent,
            rooms.chip,
            rooms.buffer,
            rooms.scratch,
            offset,
            place,
            len,
        )
    }

    // The device's bytes are read into scratch, from an offset on: how many. A failure leaves what was copied.
    pub(crate) fn load_scratch(
        &mut self,
        given: &Given<'_>,
        rooms: &mut Rooms<'_>,
        offset: u64,
        place: usize,
        len: usize,
    ) -> Result<usize, CallError>
        ensures rooms { KeepsRooms rooms.old rooms.new }
        ensures reads { seen (told (status_in result) (count_in result) (dev_in self.new rooms.new)) rooms.new.scratch.now ≡ into_scratch given.now.lent offset place len rooms.old.scratch.now (dev_in self.old rooms.old) }
        ensures rest { (self.new ≡ with_store self.new.store self.old) × (rooms.new.reply.now ≡ rooms.old.reply.now) }
    {
        read_into_scratch(
            &mut self.store,
            &given.lent,
            rooms.chip,
            rooms.buffer,
            rooms.scratch,
            offset,
            place,
            len,
        )
    }
}

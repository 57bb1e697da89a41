// A write and a read over any kind of device. A write brings a page into the buffer, copies bytes in, and behind them
// the kind does what it does there; a read writes out first what is held. A kind gives the steps.
ghost use Rattle.std.specs.Prelude.{true, is_ok, ◌≡◌, ℕ, ◌+◌, ◌%◌, ◌^◌, ◌<◌, ◌≤◌, length};
ghost use Rattle.storage.specs.declared.types.Store.{Store};
ghost use Rattle.storage.specs.World.{Lent, Dev, Out, dev, out, told, seen};
ghost use Rattle.storage.specs.Fold.{run, reached, writes, Laws};
ghost use Rattle.storage.specs.Paging.{KeepsTo, written_by, read_by};

use crate::lent::Lent;
use crate::types::{ChipError, Stopped, Store};
use wire::bytes::put;

// A kind of device, as a write and a read see it. Its laws are what a write requires: the proofs of them stand in proofs/,
// which an `impl` cannot cite.
pub(crate) trait Paging {
    // The size of a page.
    ghost page: { Store → ℕ };

    // What the steps need of what is lent and of the state. It stays a clause, since chip and buffer are lent anew at each step.
    ghost ready: { Lent → Dev → Type 0 };

    ghost flush: { Lent → Dev → Out };

    ghost load: { Lent → ℕ → ℕ → Dev → Out };

    ghost seal: { Lent → ℕ → Dev → Out };

    // The size of a page.
    fn page(store: &Store) -> u64
        ensures { result ≡ page store.now };

    // What is held is written out.
    fn flush(
        store: &mut Store,
        lent: &Lent<'_>,
        chip: &mut [u8],
        buffer: &[u8],
    ) -> Result<(), ChipError>
        requires { ready lent.now (dev store.old chip.old buffer.now) }
        ensures { out (is_ok result) (dev store.new chip.new buffer.now) ≡ flush lent.now (dev store.old chip.old buffer.now) };

    // The page of an address is brought into the buffer.
    fn load(
        store: &mut Store,
        lent: &Lent<'_>,
        chip: &mut [u8],
        buffer: &mut [u8],
        addr: u64,
    ) -> Result<(), ChipError>
        requires { ready lent.now (dev store.old chip.old buffer.old) }
        ensures { out (is_ok result) (dev store.new chip.new buffer.new) ≡ load lent.now (page store.old) addr (dev store.old chip.old buffer.old) };

    // What is done at the address behind a piece.
    fn seal(
        store: &mut Store,
        lent: &Lent<'_>,
        chip: &mut [u8],
        buffer: &[u8],
        next: u64,
    ) -> Result<(), ChipError>
        requires { ready lent.now (dev store.old chip.old buffer.now) }
        ensures { out (is_ok result) (dev store.new chip.new buffer.now) ≡ seal lent.now next (dev store.old chip.old buffer.now) };
}

// The bytes of one page: it is brought in, they are copied in, and behind them the kind does what it does there.
#[tactic(auto, using(crate::proofs::Fold::piece_unloaded))]
fn piece<D: Paging>(
    store: &mut Store,
    lent: &Lent<'_>,
    chip: &mut [u8],
    buffer: &mut [u8],
    page: u64,
    addr: u64,
    part: &[u8],
) -> Result<(), Stopped>
    requires laws { Laws page (λ d. D.ready lent.now d × (page ≡ D.page d.store)) (D.load lent.now page) (D.seal lent.now) }
    requires ready { D.ready lent.now (dev store.old chip.old buffer.old) × (page ≡ D.page store.old) }
    requires some { 0 < length part.now }
    requires within { addr % page + length part.now ≤ page }
    requires fits { addr + length part.now < 2 ^ 64 }
    ensures written { run (is_ok result) (reached (addr + length part.now) result) (dev store.new chip.new buffer.new) ≡ writes page (D.load lent.now page) (D.seal lent.now) part.now (run true addr (dev store.old chip.old buffer.old)) }
    ensures ready { is_ok result ≡ true → D.ready lent.now (dev store.new chip.new buffer.new) × (page ≡ D.page store.new) }
{
    let next = addr + part.len() as u64;
    D::load(store, lent, chip, buffer, addr).map_err(|_| Stopped { at: addr })?;
    let i = (addr % page) as usize;
    put(buffer, i, part);
    D::seal(store, lent, chip, buffer, next).map_err(|_| Stopped { at: next })?;
    Ok(())
}

// All the bytes, a page's piece at a time, up to the first failure.
#[tactic(auto, using(crate::proofs::Fold::finished))]
fn write_all<D: Paging>(
    store: &mut Store,
    lent: &Lent<'_>,
    chip: &mut [u8],
    buffer: &mut [u8],
    offset: u64,
    bytes: &[u8],
) -> Result<(), Stopped>
    requires laws { KeepsTo D.page (D.ready lent.now) (D.load lent.now) (D.seal lent.now) store.old }
    requires ready { D.ready lent.now (dev store.old chip.old buffer.old) }
    requires fits { offset + length bytes.now < 2 ^ 64 }
    ensures { run (is_ok result) (reached (offset + length bytes.now) result) (dev store.new chip.new buffer.new) ≡ writes (D.page store.old) (D.load lent.now (D.page store.old)) (D.seal lent.now) bytes.now (run true offset (dev store.old chip.old buffer.old)) }
{
    let page = D::page(store);
    let mut done: usize = 0;
    // The first piece ends at its page's end, wherever it starts: no `chunks`.
    while done < bytes.len() {
        let addr = offset + done as u64;
        let n = ((page - addr % page) as usize).min(bytes.len() - done);
        piece::<D>(
            store,
            lent,
            chip,
            buffer,
            page,
            addr,
            &bytes[done..done + n],
        )?;
        done += n;
    }
    Ok(())
}

// Bytes from an offset on: how many were taken, and none where they do not fit below the capacity.
#[tactic(auto, using(crate::proofs::Fold::no_less))]
pub(crate) fn write<D: Paging>(
    store: &mut Store,
    lent: &Lent<'_>,
    chip: &mut [u8],
    buffer: &mut [u8],
    offset: u64,
    bytes: &[u8],
) -> usize
    requires laws { KeepsTo D.page (D.ready lent.now) (D.load lent.now) (D.seal lent.now) store.old }
    requires ready { D.ready lent.now (dev store.old chip.old buffer.old) }
    ensures { told 0 result (dev store.new chip.new buffer.new) ≡ written_by (D.page store.old) (D.load lent.now (D.page store.old)) (D.seal lent.now) offset bytes.now (dev store.old chip.old buffer.old) }
{
    if !store.takes(offset, bytes.len()) {
        return 0;
    }
    match write_all::<D>(store, lent, chip, buffer, offset, bytes) {
        Ok(()) => bytes.len(),
        Err(stopped) => (stopped.at - offset) as usize,
    }
}

// What is held is written out; then the chip's bytes from an offset on, as many as the room takes below the capacity: how
// many. A failure reads none.
pub(crate) fn read<D: Paging>(
    store: &mut Store,
    lent: &Lent<'_>,
    chip: &mut [u8],
    buffer: &[u8],
    offset: u64,
    room: &mut [u8],
) -> usize
    requires { D.ready lent.now (dev store.old chip.old buffer.now) }
    ensures { seen (told 0 result (dev store.new chip.new buffer.now)) room.new ≡ read_by (D.flush lent.now) lent.now.faults offset room.old (dev store.old chip.old buffer.now) }
{
    if D::flush(store, lent, chip, buffer).is_err() {
        return 0;
    }
    let n = store.read_len(room.len(), offset);
    if n == 0 {
        return 0;
    }
    match store.fetch(lent, chip, offset as usize, &mut room[..n]) {
        Ok(()) => n,
        Err(_) => 0,
    }
}

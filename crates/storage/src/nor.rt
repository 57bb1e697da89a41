// `NorUpgStorage` of storage.rs over a modelled NOR chip: sectors of 4,096 bytes are read whole,
// changed in the buffer, and erased and written on leaving or filling them.
ghost use Rattle.std.specs.Prelude.{is_ok, List, ◌≡◌, ℕ, ◌+◌, ◌*◌, ◌^◌, ◌<◌, ◌≤◌, length};
ghost use Rattle.storage.specs.World.{dev, out};
ghost use Rattle.storage.specs.Nor.{erase_sector, write_bytes, flushes, loads, erase_n, erased};

use crate::lent::Lent;
use crate::paging::Paging;
use crate::types::{ChipError, Store};
use wire::bytes::put;

// The buffer's bound stays a clause: the buffer is lent as `&` or `&mut` in turn, and may be longer than a sector.
// A clause for any `b` is of a step that is not lent the buffer.
impl Store {
    // The chip's erase: a sector is set to 0xFF.
    #[tactic(auto, unfolding(crate::specs::Nor::erase_sector, crate::specs::Nor::blank, crate::specs::Chip::programs, crate::specs::Chip::able, crate::specs::Chip::over))]
    fn erase_sector(&mut self, lent: &Lent<'_>, chip: &mut [u8], at: usize) -> Result<(), ChipError>
        ensures { (b : List ℕ) → out (is_ok result) (dev self.new chip.new b) ≡ erase_sector lent.now.faults at (dev self.old chip.old b) }
    {
        self.call(lent, chip, at, 4096)?;
        let end = at + 4096;
        chip[at..end].fill(255);
        Ok(())
    }

    // The chip's write: the given bytes are stored.
    #[tactic(auto, using(crate::proofs::Sectors::write_laid), unfolding(crate::specs::Nor::write_bytes, crate::specs::Chip::programs, crate::specs::Chip::able, crate::specs::Chip::over))]
    fn write_bytes(
        &mut self,
        lent: &Lent<'_>,
        chip: &mut [u8],
        at: usize,
        from: &[u8],
    ) -> Result<(), ChipError>
        ensures { (b : List ℕ) → out (is_ok result) (dev self.new chip.new b) ≡ write_bytes lent.now.faults at from.now (dev self.old chip.old b) }
    {
        self.call(lent, chip, at, from.len())?;
        put(chip, at, from);
        Ok(())
    }

    // A held sector is erased and written: `flush_buffer`. A failure keeps it.
    #[tactic(auto, unfolding(crate::specs::Nor::flushes))]
    pub(crate) fn nor_flush(
        &mut self,
        lent: &Lent<'_>,
        chip: &mut [u8],
        buffer: &[u8],
    ) -> Result<(), ChipError>
        requires { 4096 ≤ length buffer.now }
        ensures { out (is_ok result) (dev self.new chip.new buffer.now) ≡ flushes lent.now.faults (dev self.old chip.old buffer.now) }
    {
        if self.held {
            let at = self.at as usize;
            self.erase_sector(lent, chip, at)?;
            self.write_bytes(lent, chip, at, &buffer[..4096])?;
            self.held = false;
        }
        Ok(())
    }

    // The sector of an address is brought into the buffer, unless it is there.
    #[tactic(auto, unfolding(crate::specs::Nor::loads, crate::specs::Nor::reads))]
    fn nor_load(
        &mut self,
        lent: &Lent<'_>,
        chip: &mut [u8],
        buffer: &mut [u8],
        addr: u64,
    ) -> Result<(), ChipError>
        requires { 4096 ≤ length buffer.old }
        ensures { out (is_ok result) (dev self.new chip.new buffer.new) ≡ loads lent.now.faults addr (dev self.old chip.old buffer.old) }
    {
        let start = addr - addr % 4096;
        if self.holds(start) {
            return Ok(());
        }
        self.nor_flush(lent, chip, buffer)?;
        self.fetch(lent, chip, start as usize, &mut buffer[..4096])?;
        self.held = true;
        self.at = start;
        Ok(())
    }

    // k sectors from a first on, up to the first failure.
    #[tactic(auto, using(crate::proofs::Nors::erase_none, crate::proofs::Nors::erase_failed, crate::proofs::Nors::erase_went))]
    fn erase_sectors(
        &mut self,
        lent: &Lent<'_>,
        chip: &mut [u8],
        first: u64,
        k: u64,
    ) -> Result<(), ChipError>
        requires { first + k * 4096 < 2 ^ 64 + 4096 }
        ensures { (b : List ℕ) → out (is_ok result) (dev self.new chip.new b) ≡ erase_n lent.now.faults k first (dev self.old chip.old b) }
    {
        // a range: the clause counts the sectors, as `erase_n` does
        for i in 0..k {
            self.erase_sector(lent, chip, (first + i * 4096) as usize)?;
        }
        Ok(())
    }

    // A flush, then every sector that a range touches, if it ends within the capacity.
    #[tactic(auto, unfolding(crate::specs::Nor::erased))]
    pub(crate) fn nor_erase(
        &mut self,
        lent: &Lent<'_>,
        chip: &mut [u8],
        buffer: &[u8],
        start: u64,
        size: u64,
    ) -> Result<(), ChipError>
        requires { 4096 ≤ length buffer.now }
        ensures { out (is_ok result) (dev self.new chip.new buffer.now) ≡ erased lent.now.faults start size (dev self.old chip.old buffer.now) }
    {
        self.nor_flush(lent, chip, buffer)?;
        let end = start.saturating_add(size);
        if self.shape.capacity < end {
            return Err(ChipError);
        }
        let first = start - start % 4096;
        self.erase_sectors(lent, chip, first, (end - first).div_ceil(4096))
    }
}

// A NOR as a write and a read see it: a sector is loaded, and flushed as it fills.
pub(crate) struct Sectors;

impl Paging for Sectors {
    ghost use Rattle.std.specs.Prelude.{◌≤◌, length};
    ghost use Rattle.storage.specs.Nor.{flushes, loads, closes};

    ghost page = { λ s. 4096 };

    ghost ready = { λ l d. 4096 ≤ length d.buf };

    ghost flush = { λ l. flushes l.faults };

    ghost load = { λ l p. loads l.faults };

    ghost seal = { λ l. closes l.faults };

    fn page(_store: &Store) -> u64 {
        4096
    }

    fn flush(
        store: &mut Store,
        lent: &Lent<'_>,
        chip: &mut [u8],
        buffer: &[u8],
    ) -> Result<(), ChipError> {
        store.nor_flush(lent, chip, buffer)
    }

    fn load(
        store: &mut Store,
        lent: &Lent<'_>,
        chip: &mut [u8],
        buffer: &mut [u8],
        addr: u64,
    ) -> Result<(), ChipError> {
        store.nor_load(lent, chip, buffer, addr)
    }

    #[tactic(auto, unfolding(crate::specs::Nor::closes))]
    fn seal(
        store: &mut Store,
        lent: &Lent<'_>,
        chip: &mut [u8],
        buffer: &[u8],
        next: u64,
    ) -> Result<(), ChipError> {
        if next % 4096 == 0 {
            return store.nor_flush(lent, chip, buffer);
        }
        Ok(())
    }
}

// NAND, from storage.rs: the modelled chip's calls and the page buffering of `NandUpgStorage` over them. A page buffer
// starts as 0xFF; a page is flushed on leaving it, never on filling it; a flush is tried twice, the second time with the
// block erased again; a marked block is never programmed.
ghost use Rattle.std.specs.Prelude.{◌≡◌, true, is_ok, List, ℕ, ◌+◌, ◌*◌, ◌^◌, ◌<◌, ◌≤◌, length};
ghost use Rattle.text.specs.Token.{same};
ghost use Rattle.storage.specs.World.{dev, out};
ghost use Rattle.storage.specs.Fold.{base};
ghost use Rattle.storage.specs.Open.{page_ok};
ghost use Rattle.storage.specs.Nand.{Shaped, Sound, block_size, kept, asks_good, erase_block, program_page, erase_checked, ready, burns, attempt, or_else, flushes, flushed, loads, erase_range, erased};

use crate::lent::Lent;
use crate::open::page_number;
use crate::paging::Paging;
use crate::types::{ChipError, Store};

// A bit stays only where old and new have it. The bytes are set by index: nothing is known of the values after a loop
// over `iter_mut`.
#[tactic(auto, using(crate::proofs::NandCalls::kept_more, crate::proofs::NandCalls::kept_whole), unfolding(crate::proofs::NandCalls::kept_to))]
fn keep(to: &mut [u8], from: &[u8])
    requires { length from.now ≡ length to.old }
    ensures { to.new ≡ kept to.old from.now }
{
    for (i, byte) in from.iter().enumerate() {
        to[i] &= *byte;
    }
}

// A page is programmed; whether it then holds the bytes that it should.
#[tactic(auto, using(text::proofs::Tokens::same_is))]
fn program(to: &mut [u8], from: &[u8]) -> bool
    requires { length from.now ≡ length to.old }
    ensures bytes { to.new ≡ kept to.old from.now }
    ensures held { result ≡ same (kept to.old from.now) from.now }
{
    keep(to, from);
    &*to == from
}

// Where the page of an address starts: the address without the bits that the page's shift leaves out.
fn page_start(page: u64, at: u64) -> u64
    requires { page_ok page ≡ true }
    ensures { result ≡ base page at }
{
    page_number(page, at) * page
}

// `Shaped` and `Sound` stay clauses: a struct of record and marks owed them anew at each step, and kept the buffer's bound.
// A clause for any `c` or `b` is of a step that is not lent the chip or the buffer.
impl Store {
    // The chip call that asks whether a block is good: `is_bad_block`, turned round. It is a call on no bytes.
    #[tactic(auto, unfolding(crate::specs::Nand::asks_good, crate::specs::Chip::able))]
    fn ask_good(&mut self, lent: &Lent<'_>, k: u64) -> Result<(), ChipError>
        requires { k < length lent.now.marks }
        ensures { (c b : List ℕ) → out (is_ok result) (dev self.new c b) ≡ asks_good lent.now k (dev self.old c b) }
    {
        self.call(lent, &[], 0, 0)?;
        if lent.marks[k as usize] == 255 {
            Ok(())
        } else {
            Err(ChipError)
        }
    }

    // The chip call that sets a block to 0xFF.
    #[tactic(auto, unfolding(crate::specs::Nand::erase_block, crate::specs::Nand::blanks, crate::specs::Chip::programs, crate::specs::Chip::able, crate::specs::Chip::over))]
    fn erase_block(&mut self, lent: &Lent<'_>, chip: &mut [u8], k: u64) -> Result<(), ChipError>
        requires { k * block_size self.old + block_size self.old ≤ 2 ^ 32 }
        ensures { (b : List ℕ) → out (is_ok result) (dev self.new chip.new b) ≡ erase_block lent.now.faults k (dev self.old chip.old b) }
    {
        let size = self.shape.page * self.shape.pages;
        let at = (k * size) as usize;
        let end = at + size as usize;
        self.call(lent, chip, at, size as usize)?;
        chip[at..end].fill(255);
        Ok(())
    }

    // The chip call that programs the page at a place; it errs if the page then differs from the bytes.
    #[tactic(auto, unfolding(crate::specs::Nand::program_page, crate::specs::Chip::able, crate::specs::Chip::over))]
    fn program_page(
        &mut self,
        lent: &Lent<'_>,
        chip: &mut [u8],
        at: usize,
        from: &[u8],
    ) -> Result<(), ChipError>
        ensures { (b : List ℕ) → out (is_ok result) (dev self.new chip.new b) ≡ program_page lent.now.faults at from.now (dev self.old chip.old b) }
    {
        self.call(lent, chip, at, from.len())?;
        let end = at + from.len();
        if program(&mut chip[at..end], from) {
            Ok(())
        } else {
            Err(ChipError)
        }
    }

    // A block is erased, if it is on the chip and good: `erase_checked`. Beyond the chip no call is made.
    #[tactic(auto, unfolding(crate::specs::Nand::erase_checked))]
    fn erase_checked(&mut self, lent: &Lent<'_>, chip: &mut [u8], k: u64) -> Result<(), ChipError>
        requires { Shaped lent.now.marks self.old.shape }
        ensures { (b : List ℕ) → out (is_ok result) (dev self.new chip.new b) ≡ erase_checked lent.now k (dev self.old chip.old b) }
    {
        if self.shape.blocks <= k {
            return Err(ChipError);
        }
        self.ask_good(lent, k)?;
        self.erase_block(lent, chip, k)
    }

    // A block is made ready to be programmed: it was erased last, or is erased now. A failure forgets what was erased.
    #[tactic(auto, unfolding(crate::specs::Nand::ready, crate::specs::Nand::is_erased))]
    fn make_ready(&mut self, lent: &Lent<'_>, chip: &mut [u8], k: u64) -> Result<(), ChipError>
        requires { Shaped lent.now.marks self.old.shape }
        ensures { (b : List ℕ) → out (is_ok result) (dev self.new chip.new b) ≡ ready lent.now k (dev self.old chip.old b) }
    {
        if self.erased == Some(k) {
            return Ok(());
        }
        let done = self.erase_checked(lent, chip, k);
        self.erased = if done.is_ok() { Some(k) } else { None };
        done
    }

    // The held page is programmed. A failure forgets what was erased.
    #[tactic(auto, unfolding(crate::specs::Nand::burns))]
    fn burn(&mut self, lent: &Lent<'_>, chip: &mut [u8], buffer: &[u8]) -> Result<(), ChipError>
        requires { self.old.shape.page ≤ length buffer.now }
        ensures { out (is_ok result) (dev self.new chip.new buffer.now) ≡ burns lent.now (dev self.old chip.old buffer.now) }
    {
        let at = self.at as usize;
        let n = self.shape.page as usize;
        let done = self.program_page(lent, chip, at, &buffer[..n]);
        if done.is_err() {
            self.erased = None; // a second try erases the block again
        }
        done
    }

    // One try to flush the held page: its block is made ready, and the page programmed.
    #[tactic(auto, unfolding(crate::specs::Nand::attempt))]
    fn try_flush(
        &mut self,
        lent: &Lent<'_>,
        chip: &mut [u8],
        buffer: &[u8],
    ) -> Result<(), ChipError>
        requires { Sound lent.now.marks self.old.shape buffer.now }
        ensures { out (is_ok result) (dev self.new chip.new buffer.now) ≡ attempt lent.now (dev self.old chip.old buffer.now) }
    {
        let k = self.at / (self.shape.page * self.shape.pages);
        self.make_ready(lent, chip, k)?;
        self.burn(lent, chip, buffer)
    }

    // After a failure, again; the block is then erased anew, as the failure has forgotten it.
    #[tactic(auto, using(crate::proofs::NandKeeps::sound_as, crate::proofs::NandKeeps::attempt_shape))]
    fn try_twice(
        &mut self,
        lent: &Lent<'_>,
        chip: &mut [u8],
        buffer: &[u8],
    ) -> Result<(), ChipError>
        requires { Sound lent.now.marks self.old.shape buffer.now }
        ensures { out (is_ok result) (dev self.new chip.new buffer.now) ≡ or_else (attempt lent.now (dev self.old chip.old buffer.now)) (attempt lent.now) }
    {
        if self.try_flush(lent, chip, buffer).is_ok() {
            return Ok(());
        }
        self.try_flush(lent, chip, buffer)
    }

    // A held page is flushed and is held no more; a failure keeps it: `flush_page`.
    #[tactic(auto, unfolding(crate::specs::Nand::flushes))]
    fn flush_page(
        &mut self,
        lent: &Lent<'_>,
        chip: &mut [u8],
        buffer: &[u8],
    ) -> Result<(), ChipError>
        requires { Sound lent.now.marks self.old.shape buffer.now }
        ensures { out (is_ok result) (dev self.new chip.new buffer.now) ≡ flushes lent.now (dev self.old chip.old buffer.now) }
    {
        if self.held {
            self.try_twice(lent, chip, buffer)?;
            self.held = false;
        }
        Ok(())
    }

    // `flush`: a flush that succeeds forgets what was erased.
    #[tactic(auto, unfolding(crate::specs::Nand::flushed))]
    pub(crate) fn nand_flush(
        &mut self,
        lent: &Lent<'_>,
        chip: &mut [u8],
        buffer: &[u8],
    ) -> Result<(), ChipError>
        requires { Sound lent.now.marks self.old.shape buffer.now }
        ensures { out (is_ok result) (dev self.new chip.new buffer.now) ≡ flushed lent.now (dev self.old chip.old buffer.now) }
    {
        self.flush_page(lent, chip, buffer)?;
        self.erased = None;
        Ok(())
    }

    // The page of an address is held: as it is, or after a flush of the one that is, as 0xFF.
    #[tactic(auto, using(crate::proofs::NandSteps::page_fits, crate::proofs::NandKeeps::sound_as, crate::proofs::NandKeeps::flushes_shape), unfolding(crate::specs::Nand::loads, crate::specs::Nand::begins, crate::specs::Nand::blanks))]
    fn nand_load(
        &mut self,
        lent: &Lent<'_>,
        chip: &mut [u8],
        buffer: &mut [u8],
        addr: u64,
    ) -> Result<(), ChipError>
        requires { Sound lent.now.marks self.old.shape buffer.old }
        ensures { out (is_ok result) (dev self.new chip.new buffer.new) ≡ loads lent.now self.old.shape.page addr (dev self.old chip.old buffer.old) }
    {
        let start = page_start(self.shape.page, addr);
        if self.holds(start) {
            return Ok(());
        }
        self.flush_page(lent, chip, buffer)?;
        let n = self.shape.page as usize;
        buffer[..n].fill(255);
        self.held = true;
        self.at = start;
        Ok(())
    }

    // Every block that a range touches, up to the first failure, if the range ends within the capacity.
    #[tactic(auto, using(crate::proofs::NandSteps::block_some, crate::proofs::NandMoves::erase_none, crate::proofs::NandMoves::erase_failed, crate::proofs::NandMoves::erase_went, crate::proofs::NandMoves::range_past, crate::proofs::NandMoves::range_done))]
    fn erase_range(
        &mut self,
        lent: &Lent<'_>,
        chip: &mut [u8],
        start: u64,
        size: u64,
    ) -> Result<(), ChipError>
        requires { Shaped lent.now.marks self.old.shape }
        ensures { (b : List ℕ) → out (is_ok result) (dev self.new chip.new b) ≡ erase_range lent.now start size (dev self.old chip.old b) }
    {
        let end = start.saturating_add(size);
        if self.shape.capacity < end {
            return Err(ChipError);
        }
        let block = self.shape.page * self.shape.pages;
        let first = start / block;
        let last = end.div_ceil(block);
        // a range: a block is its number
        for k in first..last {
            self.erase_checked(lent, chip, k)?;
        }
        Ok(())
    }

    // `erase`: a flush; what was erased is forgotten; then the blocks of the range.
    #[tactic(auto, using(crate::proofs::NandKeeps::shaped_as, crate::proofs::NandKeeps::flushes_shape), unfolding(crate::specs::Nand::erased))]
    pub(crate) fn nand_erase(
        &mut self,
        lent: &Lent<'_>,
        chip: &mut [u8],
        buffer: &[u8],
        start: u64,
        size: u64,
    ) -> Result<(), ChipError>
        requires { Sound lent.now.marks self.old.shape buffer.now }
        ensures { out (is_ok result) (dev self.new chip.new buffer.now) ≡ erased lent.now start size (dev self.old chip.old buffer.now) }
    {
        self.flush_page(lent, chip, buffer)?;
        self.erased = None;
        self.erase_range(lent, chip, start, size)
    }
}

// A NAND as a write and a read see it: a page is loaded, and stays held as it fills. A read's flush keeps the memory of
// the erased block.
pub(crate) struct Pages;

impl Paging for Pages {
    ghost use Rattle.std.specs.Prelude.{◌≡◌};
    ghost use Rattle.storage.specs.Nand.{Sound, flushes, loads, stays};

    ghost page = { λ s. s.shape.page };

    ghost ready = { λ l d. Sound l.marks d.store.shape d.buf };

    ghost flush = { flushes };

    ghost load = { loads };

    ghost seal = { λ l. stays };

    fn page(store: &Store) -> u64 {
        store.shape.page
    }

    fn flush(
        store: &mut Store,
        lent: &Lent<'_>,
        chip: &mut [u8],
        buffer: &[u8],
    ) -> Result<(), ChipError> {
        store.flush_page(lent, chip, buffer)
    }

    fn load(
        store: &mut Store,
        lent: &Lent<'_>,
        chip: &mut [u8],
        buffer: &mut [u8],
        addr: u64,
    ) -> Result<(), ChipError> {
        store.nand_load(lent, chip, buffer, addr)
    }

    #[tactic(auto, unfolding(crate::specs::Nand::stays))]
    fn seal(
        _store: &mut Store,
        _lent: &Lent<'_>,
        _chip: &mut [u8],
        _buffer: &[u8],
        _next: u64,
    ) -> Result<(), ChipError> {
        Ok(())
    }
}

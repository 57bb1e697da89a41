// The storage as the engine sees it, for whichever kind of device: storage.rs's trait `StorageBackend`.
// No call asks anything of its caller: a record out of bounds, or parts that an opening would refuse,
// are refused with 9, and nothing is changed.
ghost use Rattle.std.specs.Prelude.{◌≡◌};
ghost use Rattle.storage.specs.World.{dev, told, seen, status_in, count_in};
ghost use Rattle.storage.specs.Store.{good, flushing, erasing, writing, reading};

use crate::lent::Lent;
use crate::nand::Pages;
use crate::nor::Sectors;
use crate::paging;
use crate::types::{CallError, ChipError, Kind, Store};

// A step that fails is a call that fails.
impl From<ChipError> for CallError {
    ghost use Rattle.storage.specs.declared.types.CallError.TheVariants.{Failed};

    ghost from_gives = { λ _ e. e ≡ Failed };

    fn from(_error: ChipError) -> CallError {
        CallError::Failed
    }
}

impl Store {
    // Is the record in bounds, and are the parts those that an opening takes.
    #[tactic(auto, unfolding(crate::specs::Store::good))]
    pub(crate) fn accepts(&self, lent: &Lent<'_>, chip: &[u8], buffer: &[u8]) -> bool
        ensures { result ≡ good lent.now (dev self.now chip.now buffer.now) }
    {
        self.fits(chip.len(), lent.marks.len(), buffer.len())
    }

    /// A held sector or page is written out: storage.rs's `flush`. A failure keeps it.
    #[tactic(auto, unfolding(crate::specs::Store::flushing, crate::specs::Store::by_good), using(crate::proofs::Stores::room, crate::proofs::Stores::shaped))]
    pub fn flush(
        &mut self,
        lent: &Lent<'_>,
        chip: &mut [u8],
        buffer: &[u8],
    ) -> Result<(), CallError>
        ensures { told (status_in result) 0 (dev self.new chip.new buffer.now) ≡ flushing lent.now (dev self.old chip.old buffer.now) }
    {
        if !self.accepts(lent, chip, buffer) {
            return Err(CallError::Refused);
        }
        match self.shape.kind {
            Kind::Nor => self.nor_flush(lent, chip, buffer)?,
            Kind::Nand => self.nand_flush(lent, chip, buffer)?,
        }
        Ok(())
    }

    /// A range of `size` bytes is erased, in whole sectors or blocks, after a flush: storage.rs's `erase`.
    #[tactic(auto, using(crate::proofs::Stores::room, crate::proofs::Stores::shaped), unfolding(crate::specs::Store::erasing, crate::specs::Store::by_good))]
    pub fn erase(
        &mut self,
        lent: &Lent<'_>,
        chip: &mut [u8],
        buffer: &[u8],
        start: u64,
        size: u64,
    ) -> Result<(), CallError>
        ensures { told (status_in result) 0 (dev self.new chip.new buffer.now) ≡ erasing lent.now start size (dev self.old chip.old buffer.now) }
    {
        if !self.accepts(lent, chip, buffer) {
            return Err(CallError::Refused);
        }
        match self.shape.kind {
            Kind::Nor => self.nor_erase(lent, chip, buffer, start, size)?,
            Kind::Nand => self.nand_erase(lent, chip, buffer, start, size)?,
        }
        Ok(())
    }

    /// Bytes are written from an offset on: how many were taken. None are where they do not fit below the
    /// capacity.
    #[tactic(auto, using(crate::proofs::Stores::room, crate::proofs::Stores::shaped), unfolding(crate::specs::Store::writing, crate::specs::Store::by_good, crate::specs::Nor::written, crate::specs::Nand::written))]
    pub fn write(
        &mut self,
        lent: &Lent<'_>,
        chip: &mut [u8],
        buffer: &mut [u8],
        offset: u64,
        bytes: &[u8],
    ) -> Result<usize, CallError>
        ensures { told (status_in result) (count_in result) (dev self.new chip.new buffer.new) ≡ writing lent.now offset bytes.now (dev self.old chip.old buffer.old) }
    {
        if !self.accepts(lent, chip, buffer) {
            return Err(CallError::Refused);
        }
        Ok(match self.shape.kind {
            Kind::Nor => paging::write::<Sectors>(self, lent, chip, buffer, offset, bytes),
            Kind::Nand => paging::write::<Pages>(self, lent, chip, buffer, offset, bytes),
        })
    }

    /// Bytes are read from an offset on, after a flush: how many. The room beyond them stays as it was.
    // As `write`, but for what is lent to be changed: one function for both would lend it for a read too.
    #[tactic(auto, using(crate::proofs::Stores::room, crate::proofs::Stores::shaped), unfolding(crate::specs::Store::reading, crate::specs::Store::by_good, crate::specs::Nor::read_out, crate::specs::Nand::read_out))]
    pub fn read(
        &mut self,
        lent: &Lent<'_>,
        chip: &mut [u8],
        buffer: &[u8],
        offset: u64,
        room: &mut [u8],
    ) -> Result<usize, CallError>
        ensures { seen (told (status_in result) (count_in result) (dev self.new chip.new buffer.now)) room.new ≡ reading lent.now offset room.old (dev self.old chip.old buffer.now) }
    {
        if !self.accepts(lent, chip, buffer) {
            return Err(CallError::Refused);
        }
        Ok(match self.shape.kind {
            Kind::Nor => paging::read::<Sectors>(self, lent, chip, buffer, offset, room),
            Kind::Nand => paging::read::<Pages>(self, lent, chip, buffer, offset, room),
        })
    }
}

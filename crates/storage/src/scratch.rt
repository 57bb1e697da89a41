// Moves between scratch and the device, in pieces of 256 bytes: storage.rs `write_from_scratch` and
// `read_into_scratch`. The Rust's room of 256 bytes between the two is not needed.
ghost use Rattle.std.specs.Prelude.{◌≡◌, length};
ghost use Rattle.storage.specs.World.{dev, told, seen, status_in, count_in};
ghost use Rattle.storage.specs.Nor.{pages_of};
ghost use Rattle.storage.specs.Scratch.{out_k, in_k, from_scratch, into_scratch};

use crate::lent::Lent;
use crate::types::{CallError, Store};

impl Store {
    /// Bytes of scratch from a place on are written to the device, as many as scratch has there, in pieces of 256,
    /// up to the first that comes up short: storage.rs's `write_from_scratch`. The answer is how many were taken.
    /// Refused, with nothing changed, where `fits` does not hold.
    // Place and count, here and below: they come from a shell line, and scratch may have less there.
    #[tactic(auto, using(crate::proofs::Scratches::from_none, crate::proofs::Scratches::from_told))]
    pub fn write_from_scratch(
        &mut self,
        lent: &Lent<'_>,
        chip: &mut [u8],
        buffer: &mut [u8],
        scratch: &[u8],
        offset: u64,
        place: usize,
        len: usize,
    ) -> Result<usize, CallError>
        ensures { told (status_in result) (count_in result) (dev self.new chip.new buffer.new) ≡ from_scratch lent.now offset place len scratch.now (dev self.old chip.old buffer.old) }
    {
        if !self.fits(chip.len(), lent.marks.len(), buffer.len()) {
            return Err(CallError::Refused);
        }
        let start = place.min(scratch.len());
        let end = place.saturating_add(len).min(scratch.len());
        Ok(self.pieces_out(lent, chip, buffer, offset, &scratch[start..end]))
    }

    // The bytes go out, a piece at a time, up to the first that comes up short: how many were taken.
    fn pieces_out(
        &mut self,
        lent: &Lent<'_>,
        chip: &mut [u8],
        buffer: &mut [u8],
        offset: u64,
        bytes: &[u8],
    ) -> usize
        ensures { told 0 result (dev self.new chip.new buffer.new) ≡ out_k (pages_of 256 (length bytes.now)) lent.now offset bytes.now (dev self.old chip.old buffer.old) }
    {
        let mut at = offset;
        let mut done = 0;
        for piece in bytes.chunks(256) {
            let count = self.write(lent, chip, buffer, at, piece).unwrap_or(0);
            done += count;
            if count != piece.len() {
                return done;
            }
            at = at.saturating_add(count as u64);
        }
        done
    }

    /// The device's bytes are read into scratch from a place on, as many as scratch has room for there, in pieces
    /// of 256, up to the first that comes up short: storage.rs's `read_into_scratch`. The answer is how many were
    /// read; a failure leaves what was copied. Refused, with nothing changed, where `fits` does not hold.
    #[tactic(auto, using(crate::proofs::Scratches::into_none, crate::proofs::Scratches::into_told))]
    pub fn read_into_scratch(
        &mut self,
        lent: &Lent<'_>,
        chip: &mut [u8],
        buffer: &[u8],
        scratch: &mut [u8],
        offset: u64,
        place: usize,
        len: usize,
    ) -> Result<usize, CallError>
        ensures { seen (told (status_in result) (count_in result) (dev self.new chip.new buffer.now)) scratch.new ≡ into_scratch lent.now offset place len scratch.old (dev self.old chip.old buffer.now) }
    {
        if !self.fits(chip.len(), lent.marks.len(), buffer.len()) {
            return Err(CallError::Refused);
        }
        let start = place.min(scratch.len());
        let end = place.saturating_add(len).min(scratch.len());
        Ok(self.pieces_in(lent, chip, buffer, offset, &mut scratch[start..end]))
    }

    // The room is filled, a piece at a time, up to the first that comes up short: how many bytes were read.
    fn pieces_in(
        &mut self,
        lent: &Lent<'_>,
        chip: &mut [u8],
        buffer: &[u8],
        offset: u64,
        room: &mut [u8],
    ) -> usize
        ensures { seen (told 0 result (dev self.new chip.new buffer.now)) room.new ≡ in_k (pages_of 256 (length room.old)) lent.now offset room.old (dev self.old chip.old buffer.now) }
    {
        let mut at = offset;
        let mut done = 0;
        // No `chunks_mut`: behind it a proof knows the room's length and not its bytes.
        while done < room.len() {
            let n = (room.len() - done).min(256);
            let count = self
                .read(lent, chip, buffer, at, &mut room[done..done + n])
                .unwrap_or(0);
            if count != n {
                return done + count;
            }
            at = at.saturating_add(n as u64);
            done += n;
        }
        done
    }
}

// What all modelled chips share: calls take numbers, a lent list says
// which of them fail, and a call out of range errs.
ghost use Rattle.std.specs.Prelude.{◌≡◌, ◌+◌, leb, is_ok, length, replicate};
ghost use Rattle.storage.specs.Chip.{failing, called, able, got, fetched};

use crate::lent::Lent;
use crate::types::{ChipError, Store};

// Every byte becomes `v`. It stays for the theorem `fill_one` (promises): the steps of nor.rt and nand.rt fill by
// std's method.
pub fn fill(s: &mut [u8], v: u8)
    ensures { s.new ≡ replicate (length s.old) v }
{
    s.fill(v);
}

// Is call number n told to fail: the last byte stands for all later calls.
#[tactic(auto, unfolding(crate::specs::Chip::failing))]
fn fails(faults: &[u8], n: u64) -> bool
    ensures { result ≡ failing faults.now n }
{
    faults
        .get(n as usize)
        .or(faults.last())
        .is_some_and(|fault| *fault != 0)
}

// Do n bytes from a place on end within a size.
fn within(at: usize, n: usize, size: usize) -> bool
    ensures { result ≡ leb (at + n) size }
{
    n <= size && at <= size - n
}

impl Store {
    // Is the next chip call, on n bytes at a place, in range and not told to fail.
    // A place, here and in the steps of both kinds: it is the address of the call, which may lie past the chip.
    #[tactic(auto, unfolding(crate::specs::Chip::able))]
    fn may(&self, lent: &Lent<'_>, chip: &[u8], at: usize, n: usize) -> bool
        ensures { result ≡ able lent.now.faults self.now chip.now at n }
    {
        within(at, n, chip.len()) && !fails(lent.faults, self.calls)
    }

    /// The next chip call is made, on n bytes at a place: it takes its number, and errs where it is out of range or
    /// told to fail.
    pub(crate) fn call(
        &mut self,
        lent: &Lent<'_>,
        chip: &[u8],
        at: usize,
        n: usize,
    ) -> Result<(), ChipError>
        ensures made { is_ok result ≡ able lent.now.faults self.old chip.now at n }
        ensures counted { self.new ≡ called self.old }
    {
        let may = self.may(lent, chip, at, n);
        self.calls = self.calls.saturating_add(1);
        if may { Ok(()) } else { Err(ChipError) }
    }

    /// A chip read that fills the room from a place on. A call that errs leaves the room.
    #[tactic(auto, unfolding(crate::specs::Chip::fetched, crate::specs::Chip::able))]
    pub(crate) fn fetch(
        &mut self,
        lent: &Lent<'_>,
        chip: &[u8],
        at: usize,
        room: &mut [u8],
    ) -> Result<(), ChipError>
        ensures { got (is_ok result) self.new room.new ≡ fetched lent.now.faults at self.old chip.now room.old }
    {
        let n = room.len();
        self.call(lent, chip, at, n)?;
        let end = at + n;
        room.copy_from_slice(&chip[at..end]);
        Ok(())
    }
}

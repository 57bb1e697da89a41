// Small questions of the buffering, which both kinds of device ask: is a page held, do bytes fit below the
// capacity, and how many bytes a read takes.
ghost use Rattle.std.specs.Prelude.{true, ◌≡◌, ◌+◌, ◌-◌, ◌^◌, ◌<◌, leb, min};
ghost use Rattle.storage.specs.Nor.{holds};

use crate::types::Store;

impl Store {
    // Is the sector or page that starts at a place held in the buffer.
    #[tactic(auto, unfolding(crate::specs::Nor::holds))]
    pub(crate) fn holds(&self, start: u64) -> bool
        ensures { result ≡ holds self.now start }
    {
        self.held && self.at == start
    }

    // Do n bytes from an offset on end within the capacity.
    pub(crate) fn takes(&self, offset: u64, n: usize) -> bool
        ensures within { result ≡ leb (offset + n) self.now.shape.capacity }
        ensures fits { result ≡ true → offset + n < 2 ^ 64 }
    {
        let n = n as u64;
        n <= self.shape.capacity && offset <= self.shape.capacity - n
    }

    // How many bytes a read at an offset moves: as many as the room takes below the capacity.
    pub(crate) fn read_len(&self, room: usize, offset: u64) -> usize
        ensures { result ≡ min room (self.now.shape.capacity - offset) }
    {
        let left = self.shape.capacity.saturating_sub(offset) as usize;
        room.min(left)
    }
}

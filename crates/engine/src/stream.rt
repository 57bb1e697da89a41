// SEND_FWC_DATA, from protocol.rs: `begin_fwc_stream`, `write_fwc_payload` and `finish_fwc_stream`.
ghost use Rattle.std.specs.Prelude.{◌≡◌, ℕ, ◌≤◌, List, length};
ghost use Rattle.storage.specs.World.{status_in, told};
ghost use Rattle.storage.specs.Store.{writing};
ghost use Rattle.engine.specs.World.{KeepsRooms, world_of, out_of};
ghost use Rattle.engine.specs.Stream.{UpFit, burn_by, taken, fed, settled, finishes, streams, started, begins};

use crate::command::CMD_SEND_FWC_DATA;
use crate::given::Given;
use crate::reply::whether;
use crate::rooms::Rooms;
use crate::types::{Engine, Failure, Update};
use storage::types::CallError;
use wire::crc::crc32_update;

/// The burn result after a piece of n bytes of which so many were stored: a short storage write sets it to 1.
// A rule of the protocol with a name: who has the record in parts asks it too.
pub fn burn_by(old: u32, count: usize, n: usize) -> u32
    ensures { result ≡ burn_by old count n }
{
    if count == n || old != 0 { old } else { 1 }
}

impl Update {
    // A piece of which so many bytes were stored: all of it is counted, and goes into the checksum.
    // `count` is what the storage took, which may be less than `piece` has.
    fn take(&mut self, count: usize, piece: &[u8])
        requires { UpFit self.old × (length piece.now ≤ self.old.left) }
        ensures { self.new ≡ taken piece.now count self.old }
    {
        let n = piece.len();
        self.burn = burn_by(self.burn, count, n);
        self.crc = crc32_update(self.crc, piece);
        self.written += n as u64;
        self.left -= n as u64;
    }

    // Counts and results start anew, and so many bytes are payload.
    fn start(&mut self, n: u32)
        ensures { self.new ≡ started n self.old }
    {
        self.written = 0;
        self.crc = 0;
        self.burn = 0;
        self.run = 0;
        self.left = n as u64;
    }
}

impl Engine {
    // ---- a piece

    // A piece is stored at the target, where there is one, and counted; without one all of it counts as stored.
    // `q`, here and below, is any request: no step of a stream looks at the request room.
    #[tactic(auto, using(std::proofs::lemmas::Bool::Decides::nat_tests), unfolding(crate::specs::Stream::fed))]
    fn feed_piece(&mut self, given: &Given<'_>, rooms: &mut Rooms<'_>, piece: &[u8])
        requires { UpFit self.old.up × (length piece.now ≤ self.old.up.left) }
        ensures rooms { KeepsRooms rooms.old rooms.new }
        ensures feeds { (q : List ℕ) → world_of self.new q rooms.new ≡ fed given.now.lent piece.now (world_of self.old q rooms.old) }
    {
        if !self.up.aimed {
            self.up.take(piece.len(), piece);
            return;
        }
        let at = self.up.target + self.up.written;
        let count = self.write_store(given, rooms, at, piece).unwrap_or(0);
        self.up.take(count, piece);
    }

    // ---- the end

    // A flush if nothing failed so far. One that fails sets the burn result to 1.
    #[tactic(auto, using(std::proofs::lemmas::Bool::Decides::nat_tests), unfolding(crate::specs::Stream::settled))]
    fn settle(&mut self, given: &Given<'_>, rooms: &mut Rooms<'_>)
        ensures rooms { KeepsRooms rooms.old rooms.new }
        ensures settles { (q : List ℕ) → world_of self.new q rooms.new ≡ settled given.now.lent (world_of self.old q rooms.old) }
    {
        if self.up.burn == 0 && self.flush_store(given, rooms).is_err() {
            self.up.burn = 1;
        }
    }

    // The one reply of a stream. The write goes on, whatever it says.
    // The bound on `reply`, here and below, stays a clause for the reason that exec.rt gives.
    fn finish(&mut self, given: &Given<'_>, rooms: &mut Rooms<'_>)
        requires { length rooms.old.reply.now ≡ 4112 }
        ensures rooms { KeepsRooms rooms.old rooms.new }
        ensures finishes { (q : List ℕ) → out_of 0 (world_of self.new q rooms.new) ≡ finishes given.now.lent (world_of self.old q rooms.old) }
    {
        self.settle(given, rooms);
        let ended = whether(self.up.burn == 0);
        let _ = self.end(rooms, CMD_SEND_FWC_DATA, ended);
    }

    // A piece of the payload is taken; the last one brings the reply.
    #[tactic(auto, using(std::proofs::lemmas::Bool::Decides::nat_tests, crate::proofs::Streams::fed_room), unfolding(crate::specs::Stream::streams))]
    pub(crate) fn stream(&mut self, given: &Given<'_>, rooms: &mut Rooms<'_>, piece: &[u8])
        requires { (length rooms.old.reply.now ≡ 4112) × UpFit self.old.up × (length piece.now ≤ self.old.up.left) }
        ensures rooms { KeepsRooms rooms.old rooms.new }
        ensures streams { (q : List ℕ) → out_of 0 (world_of self.new q rooms.new) ≡ streams given.now.lent piece.now (world_of self.old q rooms.old) }
    {
        self.feed_piece(given, rooms, piece);
        if self.up.left == 0 {
            self.finish(given, rooms);
        }
    }

    // ---- the header

    // SEND_FWC_DATA is taken at its header. Without metadata it fails (1c), and with no payload it ends at once.
    #[tactic(auto, using(std::proofs::lemmas::Bool::Decides::nat_tests, crate::proofs::Replies::ends_is), unfolding(crate::specs::Stream::begins))]
    pub(crate) fn begin(
        &mut self,
        given: &Given<'_>,
        rooms: &mut Rooms<'_>,
        n: u32,
    ) -> Result<(), CallError>
        requires { length rooms.old.reply.now ≡ 4112 }
        ensures rooms { KeepsRooms rooms.old rooms.new }
        ensures begins { (q : List ℕ) → out_of (status_in result) (world_of self.new q rooms.new) ≡ begins given.now.lent n (world_of self.old q rooms.old) }
    {
        if !self.up.valid {
            return self.end(rooms, CMD_SEND_FWC_DATA, Err(Failure::Failed));
        }
        self.up.start(n);
        if n == 0 {
            self.finish(given, rooms);
        }
        Ok(())
    }
}

// A write's bytes, from protocol.rs `transport_write`: cut where the engine's state changes kind, a turn
// for each piece.
ghost use Rattle.std.specs.Prelude.{◌≡◌, ◌≤◌, length};
ghost use Rattle.storage.specs.World.{status_in};
ghost use Rattle.engine.specs.World.{KeepsRooms, world_of, out_of};
ghost use Rattle.engine.specs.Feed.{FrameFit, Fit, want_of, turns, feeds};

use crate::given::Given;
use crate::rooms::Rooms;
use crate::types::Engine;
use storage::types::CallError;

impl Engine {
    // How many bytes the engine takes before its state changes kind.
    fn want(&self) -> usize
        requires { FrameFit self.now.frame }
        ensures { result ≡ want_of self.now }
    {
        if self.up.left != 0 {
            self.up.left as usize
        } else if self.frame.total == 0 {
            16 - self.frame.len
        } else {
            self.frame.total - self.frame.len
        }
    }

    // A piece goes to the stream, or to the frame.
    #[tactic(auto, using(std::proofs::lemmas::Bool::Decides::nat_tests), unfolding(crate::specs::Feed::turns))]
    fn turn(
        &mut self,
        given: &Given<'_>,
        request: &mut [u8],
        rooms: &mut Rooms<'_>,
        piece: &[u8],
    ) -> Result<(), CallError>
        requires { Fit (world_of self.old request.old rooms.old) × (length piece.now ≤ want_of self.old) }
        ensures rooms { KeepsRooms rooms.old rooms.new }
        ensures turns { out_of (status_in result) (world_of self.new request.new rooms.new) ≡ turns given.now piece.now (world_of self.old request.old rooms.old) }
    {
        if self.up.left == 0 {
            return self.gather(given, request, rooms, piece);
        }
        self.stream(given, rooms, piece);
        Ok(())
    }

    // Turn after turn, until one has a status other than 0. A turn takes what is wanted, or all that is left.
    pub(crate) fn feed(
        &mut self,
        given: &Given<'_>,
        request: &mut [u8],
        rooms: &mut Rooms<'_>,
        bytes: &[u8],
    ) -> Result<(), CallError>
        requires { Fit (world_of self.old request.old rooms.old) }
        ensures rooms { KeepsRooms rooms.old rooms.new }
        ensures feeds { out_of (status_in result) (world_of self.new request.new rooms.new) ≡ feeds given.now (world_of self.old request.old rooms.old) bytes.now }
    {
        // No iterator over pieces: the record after a turn says how long the next one is.
        let mut rest = bytes;
        while !rest.is_empty() {
            let (piece, behind) = rest.split_at(self.want().min(rest.len()));
            self.turn(given, request, rooms, piece)?;
            rest = behind;
        }
        Ok(())
    }
}

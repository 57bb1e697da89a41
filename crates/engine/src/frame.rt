// Gathering a frame, from protocol.rs `transport_write`: what its header asks for, and what happens once
// its bytes are there.
ghost use Rattle.std.specs.Prelude.{◌≡◌, ◌+◌, ◌≤◌, length};
ghost use Rattle.storage.specs.World.{status_in};
ghost use Rattle.engine.specs.World.{KeepsRooms, world_of, out_of};
ghost use Rattle.engine.specs.Frame.{next_of, ripens, heads, fills, gathers};

use crate::command::CMD_SEND_FWC_DATA;
use crate::given::Given;
use crate::rooms::Rooms;
use crate::types::{Engine, Frame};
use storage::types::CallError;
use wire::bytes::put;
use wire::header::{Header, parse_header};

/// How many bytes the request room has: protocol.rs's `REQ_MAX`.
pub const REQ_MAX: usize = 8208;

/// What a header asks for: nothing that is taken (1a, 1b), a stream of so many bytes, or a frame of so
/// many in all.
// Three answers and no `Option`: the theorems `refused_means` and `means_refused` of promises name `Refused`.
#[derive(Clone, Copy, Debug, PartialEq, Eq)]
pub enum Next {
    Refused,
    Send(u32),
    Total(usize),
}

// SEND_FWC_DATA is taken at any length, all other commands with at most 8,192 bytes of data.
fn next_of(request: &[u8]) -> Next
    ensures { result ≡ next_of request.now }
{
    let Some(
        Header {
            command,
            status: _,
            length,
        },
    ) = parse_header(request)
    else {
        return Next::Refused;
    };
    // Not a `match` on the command: the second test asks the length.
    if command == CMD_SEND_FWC_DATA {
        Next::Send(length)
    } else if length <= 8192 {
        Next::Total(16 + length as usize)
    } else {
        Next::Refused
    }
}

impl Engine {
    // A frame that is whole is executed. The bound on `reply` stays a clause, here and below, for the reason that
    // exec.rt gives.
    #[tactic(auto, using(std::proofs::lemmas::Bool::Decides::nat_tests), unfolding(crate::specs::Frame::ripens))]
    fn ripe(
        &mut self,
        given: &Given<'_>,
        request: &[u8],
        rooms: &mut Rooms<'_>,
    ) -> Result<(), CallError>
        requires { (self.old.frame.total ≤ length request.now) × (length rooms.old.reply.now ≡ 4112) }
        ensures rooms { KeepsRooms rooms.old rooms.new }
        ensures ripens { out_of (status_in result) (world_of self.new request.now rooms.new) ≡ ripens given.now (world_of self.old request.now rooms.old) }
    {
        if self.frame.len < self.frame.total {
            return Ok(());
        }
        self.exec(given, request, rooms)
    }

    // The header is there.
    // A slice and a bound, here and in the two below: for an array `write` would test the length again behind `fits`.
    #[tactic(auto, unfolding(crate::specs::Frame::heads))]
    fn headed(
        &mut self,
        given: &Given<'_>,
        request: &[u8],
        rooms: &mut Rooms<'_>,
    ) -> Result<(), CallError>
        requires { (length request.now ≡ 8208) × (length rooms.old.reply.now ≡ 4112) }
        ensures rooms { KeepsRooms rooms.old rooms.new }
        ensures heads { out_of (status_in result) (world_of self.new request.now rooms.new) ≡ heads given.now (world_of self.old request.now rooms.old) }
    {
        // a `match`, since `Next` is a closed enum
        match next_of(request) {
            Next::Refused => {
                self.empty_request();
                Err(CallError::Failed)
            }
            Next::Send(n) => {
                self.empty_request();
                self.begin(given, rooms, n)
            }
            Next::Total(total) => {
                self.frame = Frame { len: 16, total };
                self.ripe(given, request, rooms)
            }
        }
    }

    // A piece of a frame is there.
    #[tactic(auto, using(std::proofs::lemmas::Bool::Decides::nat_tests), unfolding(crate::specs::Frame::fills))]
    fn filled(
        &mut self,
        given: &Given<'_>,
        request: &[u8],
        rooms: &mut Rooms<'_>,
    ) -> Result<(), CallError>
        requires { (length request.now ≡ 8208) × (self.old.frame.total ≤ 8208) × (length rooms.old.reply.now ≡ 4112) }
        ensures rooms { KeepsRooms rooms.old rooms.new }
        ensures fills { out_of (status_in result) (world_of self.new request.now rooms.new) ≡ fills given.now (world_of self.old request.now rooms.old) }
    {
        if self.frame.total != 0 {
            return self.ripe(given, request, rooms);
        }
        if self.frame.len < 16 {
            return Ok(());
        }
        self.headed(given, request, rooms)
    }

    // A piece of a frame is gathered.
    #[tactic(auto, using(storage::proofs::Fold::laid_sets), unfolding(crate::specs::Frame::gathers))]
    pub(crate) fn gather(
        &mut self,
        given: &Given<'_>,
        request: &mut [u8],
        rooms: &mut Rooms<'_>,
        piece: &[u8],
    ) -> Result<(), CallError>
        requires { (length request.old ≡ 8208) × (self.old.frame.total ≤ 8208) × (length rooms.old.reply.now ≡ 4112) × (self.old.frame.len + length piece.now ≤ 8208) }
        ensures rooms { KeepsRooms rooms.old rooms.new }
        ensures gathers { out_of (status_in result) (world_of self.new request.new rooms.new) ≡ gathers given.now piece.now (world_of self.old request.old rooms.old) }
    {
        put(request, self.frame.len, piece);
        self.frame.len += piece.len();
        self.filled(given, request, rooms)
    }
}

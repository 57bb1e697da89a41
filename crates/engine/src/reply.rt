// The reply's header, from protocol.rs: `begin_response`, `finish_response`, `fail_response` and
// `unsupported_response`. A command has laid its data behind the header's place and says how it ended.
ghost use Rattle.std.specs.Prelude.{◌≡◌, ℕ, List};
ghost use Rattle.storage.specs.World.{status_in};
ghost use Rattle.engine.specs.World.{KeepsRooms, world_of, out_of};
ghost use Rattle.engine.specs.Reply.{whether, ended_by, status_is, header_is, length_is, ends_by};

use crate::rooms::Rooms;
use crate::types::{Engine, Failure, Said};
use storage::types::CallError;
use wire::bytes::put;
use wire::header::{UPG_RESP_MAGIC, build_header};

/// How many bytes of data a reply takes, behind its header of sixteen bytes.
pub(crate) const REPLY_DATA_MAX: usize = 4096;
/// How many bytes the reply room has: protocol.rs's `RESP_MAX`.
pub const RESP_MAX: usize = 4112;

// A storage call that fails, or is refused, fails its command.
impl From<CallError> for Failure {
    ghost use Rattle.engine.specs.declared.types.Failure.TheVariants.{Failed};

    ghost from_gives = { λ _ f. f ≡ Failed };

    fn from(_e: CallError) -> Failure {
        Failure::Failed
    }
}

// OK with no data, or failed.
pub(crate) fn whether(done: bool) -> Result<u32, Failure>
    ensures { result ≡ ended_by (whether done) }
{
    if done { Ok(0) } else { Err(Failure::Failed) }
}

/// The status of the write that brought a command, by how the command ended: a command that is not known
/// has a reply of its own, and its write goes on.
// A function, as `len_of`: `Result` belongs to std, so there is neither a `From` nor a method between two of it.
pub fn status_of(ended: Result<u32, Failure>) -> Result<(), CallError>
    ensures { status_in result ≡ status_is ended }
{
    match ended {
        Ok(_) | Err(Failure::Unsupported) => Ok(()),
        Err(Failure::Failed | Failure::Odd) => Err(CallError::Failed),
    }
}

// The header of the reply. A command is its byte, here and below, as command.rt says: any may come.
pub(crate) fn header_of(command: u8, ended: Result<u32, Failure>) -> [u8; 16]
    ensures { result ≡ header_is command ended }
{
    match ended {
        Ok(n) => build_header(UPG_RESP_MAGIC, command, 0, n),
        Err(Failure::Failed) => build_header(UPG_RESP_MAGIC, command, 1, 0),
        Err(Failure::Unsupported) => build_header(UPG_RESP_MAGIC, command, 1, 108),
        Err(Failure::Odd) => build_header(0, 1, 0, 0),
    }
}

/// The length of the reply, header and data, by how its command ended.
pub fn len_of(ended: Result<u32, Failure>) -> usize
    ensures { result ≡ length_is ended }
{
    match ended {
        Ok(n) => 16 + n as usize,
        Err(Failure::Unsupported) => 124,
        Err(Failure::Failed | Failure::Odd) => 16,
    }
}

impl Engine {
    // A command's end: its reply replaces the one that waits, and none of it was read. `q` is any request, which
    // isn't lent: a command's data are a part of it.
    pub(crate) fn end(
        &mut self,
        rooms: &mut Rooms<'_>,
        command: u8,
        ended: Result<u32, Failure>,
    ) -> Result<(), CallError>
        ensures rooms { KeepsRooms rooms.old rooms.new }
        ensures ends { (q : List ℕ) → out_of (status_in result) (world_of self.new q rooms.new) ≡ ends_by command ended (world_of self.old q rooms.old) }
    {
        put(rooms.reply, 0, &header_of(command, ended));
        self.said = Said {
            len: len_of(ended),
            pos: 0,
        };
        status_of(ended)
    }
}

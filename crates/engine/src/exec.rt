// A whole frame is executed: protocol.rs `execute_inner`. The commands stand in four groups, by what
// they touch.
ghost use Rattle.std.specs.Prelude.{◌≡◌, ℕ, ◌≤◌, List, length, MatchOption, None};
ghost use Rattle.storage.specs.World.{status_in};
ghost use Rattle.engine.specs.World.{KeepsRooms, world_of, emptied, out_of};
ghost use Rattle.engine.specs.Reply.{gone, going};
ghost use Rattle.engine.specs.Exec.{group_of, runs, order_of, IsOrder, begun, performed, execs};

use crate::command::{
    CMD_ERASE_STORAGE, CMD_GET_FWC_CRC, CMD_READ, CMD_READ_FWC_DATA, CMD_RUN_SHELL_STR,
    CMD_SET_FWC_META, CMD_SET_UPG_END, CMD_WRITE, is_query, plain,
};
use crate::given::Given;
use crate::rooms::Rooms;
use crate::types::{Engine, Failure, Frame};
use storage::types::CallError;
use wire::header::{Header, parse_header};

/// What a command touches besides the reply: scratch, scratch and storage, storage, or nothing.
#[derive(Clone, Copy, Debug, PartialEq, Eq)]
pub enum Group {
    Memory,
    Shell,
    Storage,
    Plain,
}

// A table and no `From`: a command is no group, and many share one.
#[tactic(auto, using(std::proofs::lemmas::Bool::Decides::nat_tests), unfolding(storage::specs::Open::one_of))]
pub(crate) fn group_of(command: u8) -> Group
    ensures { result ≡ group_of command }
{
    match command {
        CMD_WRITE | CMD_READ => Group::Memory,
        CMD_RUN_SHELL_STR => Group::Shell,
        CMD_SET_UPG_END
        | CMD_SET_FWC_META
        | CMD_GET_FWC_CRC
        | CMD_READ_FWC_DATA
        | CMD_ERASE_STORAGE => Group::Storage,
        _ => Group::Plain,
    }
}

// What a frame asks for: its command and the bytes of its data; `None` where it is cut. The header is read
// once more, as the Rust does.
fn order_of(frame: &[u8]) -> Option<(u8, &[u8])>
    ensures { MatchOption result (order_of frame.now ≡ None) (λ o. IsOrder frame.now o.0 o.1.now) }
{
    let Header {
        command,
        status: _,
        length,
    } = parse_header(frame)?;
    let n = length as usize;
    if frame.len() < 16 + n {
        return None;
    }
    Some((command, &frame[16..16 + n]))
}

impl Engine {
    // A command is run on its payload: its data lie in the reply room from 16 on.
    // A command is its byte, as command.rt says: any may come, and the reply's header has it.
    // `q`, here and below, is any request: it isn't lent, since a command's data are a part of it.
    #[tactic(auto, using(crate::proofs::Commands::plain_sees), unfolding(crate::specs::Exec::runs))]
    fn runs(
        &mut self,
        given: &Given<'_>,
        rooms: &mut Rooms<'_>,
        command: u8,
        payload: &[u8],
    ) -> Result<u32, Failure>
        ensures rooms { KeepsRooms rooms.old rooms.new }
        ensures runs { (q : List ℕ) → gone result (world_of self.new q rooms.new) ≡ going (runs given.now command payload.now (world_of self.old q rooms.old)) }
    {
        // a `match`: each group is lent other parts
        match group_of(command) {
            Group::Memory => self.memory(rooms, command, payload),
            Group::Shell => self.shell(given, rooms, payload),
            Group::Storage => self.stored(given, rooms, command, payload),
            Group::Plain => plain(
                self.base,
                self.up.burn,
                self.up.run,
                &self.store,
                command,
                given.table,
                rooms.reply,
            ),
        }
    }

    // ---- a frame

    // The request emptied: its bytes stay, its length is 0.
    pub(crate) fn empty_request(&mut self)
        ensures { self.new ≡ emptied self.old }
    {
        self.frame = Frame { len: 0, total: 0 };
    }

    // A command that does not only look raises `host_upgrading`; the request is emptied.
    fn begin_command(&mut self, command: u8)
        ensures { self.new ≡ begun command self.old }
    {
        self.empty_request();
        if !is_query(command) {
            self.upgrading = true;
        }
    }

    // A command is run on its data and answered.
    // The bound on `reply`, here and in the callers: an array wants a second `Rooms`, and in `write` a second test behind `fits`.
    fn perform(
        &mut self,
        given: &Given<'_>,
        rooms: &mut Rooms<'_>,
        command: u8,
        payload: &[u8],
    ) -> Result<(), CallError>
        requires { length rooms.old.reply.now ≡ 4112 }
        ensures rooms { KeepsRooms rooms.old rooms.new }
        ensures performs { (q : List ℕ) → out_of (status_in result) (world_of self.new q rooms.new) ≡ performed given.now command payload.now (world_of self.old q rooms.old) }
    {
        self.begin_command(command);
        let ended = self.runs(given, rooms, command, payload);
        self.end(rooms, command, ended)
    }

    // The frame that the request room holds is executed.
    #[tactic(auto, unfolding(crate::specs::Exec::execs))]
    pub(crate) fn exec(
        &mut self,
        given: &Given<'_>,
        request: &[u8],
        rooms: &mut Rooms<'_>,
    ) -> Result<(), CallError>
        requires { (self.old.frame.total ≤ length request.now) × (length rooms.old.reply.now ≡ 4112) }
        ensures rooms { KeepsRooms rooms.old rooms.new }
        ensures execs { out_of (status_in result) (world_of self.new request.now rooms.new) ≡ execs given.now (world_of self.old request.now rooms.old) }
    {
        let Some((command, payload)) = order_of(&request[..self.frame.total]) else {
            self.empty_request();
            return Err(CallError::Failed);
        };
        self.perform(given, rooms, command, payload)
    }
}

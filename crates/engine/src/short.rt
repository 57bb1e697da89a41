// A status query alone in a write: the header of a frame without data, which an engine between frames
// answers at once and of which it keeps nothing but the reply. A caller that has the record in parts can
// answer it without putting the record together.
ghost use Rattle.std.specs.Prelude.{◌≡◌};
ghost use Rattle.engine.specs.Command.{asking, plain};
ghost use Rattle.engine.specs.Reply.{place, ended_by};
ghost use Rattle.engine.specs.Short.{alone_of, answered, answered_by, answer_of};

use crate::command::{Short, is_query, long, short_of};
use crate::exec::{Group, group_of};
use crate::reply::header_of;
use crate::types::Failure;
use storage::types::Store;
use wire::bytes::{le4, put};
use wire::header::{Header, parse_header};

/// What the bytes of a write ask for where they are one header and no more: the command of a status query
/// that touches nothing but the reply. `None` for all other bytes.
pub fn alone_of(bytes: &[u8]) -> Option<u8>
    ensures { result ≡ alone_of bytes.now }
{
    if bytes.len() != 16 {
        return None;
    }
    let Header {
        command,
        status: _,
        length,
    } = parse_header(bytes)?;
    if length != 0 || !is_query(command) {
        return None;
    }
    match group_of(command) {
        Group::Plain => Some(command),
        Group::Memory | Group::Shell | Group::Storage => None,
    }
}

// How a query ended is told: the header is laid before its data. A command is its byte, here and below, as
// command.rt says: any may come.
fn told(command: u8, ended: Result<u32, Failure>, reply: &mut [u8]) -> Result<u32, Failure>
    ensures reply { answered result reply.new ≡ answered_by command (place ended reply.old) }
    ensures same { result ≡ ended }
{
    put(reply, 0, &header_of(command, ended));
    ended
}

/// A query is answered: its data and then the header are laid into the reply room. How it ended gives the
/// status of its write and the length of the reply, by `reply::status_of` and `reply::len_of`.
// It is `plain` again, in line: a word is told without the rest of the record being looked at.
#[tactic(auto, using(crate::proofs::Commands::laid_none), unfolding(crate::specs::Short::answer_of, crate::specs::Command::plain, crate::specs::Command::long_of, wire::specs::Bytes::bytes_of))]
pub fn answer(
    base: u32,
    burn: u32,
    run: u32,
    store: &Store,
    command: u8,
    table: &[u8],
    reply: &mut [u8],
) -> Result<u32, Failure>
    ensures reply { answered result reply.new ≡ answer_of command (asking base burn run store.now) table.now reply.old }
    ensures ended { result ≡ ended_by (plain command (asking base burn run store.now) table.now) }
{
    match short_of(base, burn, run, store.block_size(), command) {
        Short::Empty => told(command, Ok(0), reply),
        Short::Word(x) => {
            put(reply, 16, &le4(x));
            told(command, Ok(4), reply)
        }
        Short::Other => {
            let ended = long(store, command, table, reply);
            told(command, ended, reply)
        }
    }
}

// The writes that are made on the state's bytes: a query alone, and a piece that does not end its stream.
// The record is not put together for them; `way_of` tells them from all others.
ghost use Rattle.std.specs.Prelude.{true, ◌≡◌, ◌≤◌, ◌++◌, List, ℕ, length};
ghost use Rattle.wire.specs.Bytes.{word_at, laid};
ghost use Rattle.storage.specs.World.{status_in, count_in, dev, told};
ghost use Rattle.storage.specs.Store.{good};
ghost use Rattle.engine.specs.Stream.{UpFit};
ghost use Rattle.engine.specs.Short.{answer_of};
ghost use Rattle.engine_laws.specs.Piece.{stored_by};
ghost use Rattle.lamjhotu.specs.State.{store_at, update_at, unpack_of};
ghost use Rattle.lamjhotu.specs.Calls.{idle_of, asks, asked, pieced, piece_by, piece_in, way_of};

use crate::fields;
use crate::state::{Record, count, set_at, small_at, store_at, tell, word_at};
use engine::reply::{len_of, status_of};
use engine::short::{alone_of, answer};
use engine::stream::burn_by;
use storage::lent::Lent;
use storage::types::{CallError, Store};
use wire::bytes::put;
use wire::crc::crc32_update;

// ---- a query alone

// A header is copied through sixteen bytes of its own, which go at once.
fn header_in(request: &mut [u8], bytes: &[u8])
    requires { length bytes.now ≡ 16 }
    ensures { request.new ≡ laid request.old 0 bytes.now }
{
    let mut header = [0u8; 16];
    header.copy_from_slice(bytes);
    put(request, 0, &header);
}

// A query alone is answered from the state's bytes: the reply's place is all that changes in them.
// The command is its byte, as in the engine. `rest`, here and below, is any bytes behind the record: they stay.
pub(crate) fn ask(
    state: &mut Record,
    request: &mut [u8],
    table: &[u8],
    reply: &mut [u8],
    bytes: &[u8],
    command: u8,
) -> Result<(), CallError>
    requires { length bytes.now ≡ 16 }
    ensures { (rest : List ℕ) → asks (status_in result) (state.new ++ rest) request.new reply.new ≡ asked (state.old ++ rest) request.old bytes.now (answer_of command (unpack_of (state.old ++ rest)) table.now reply.old) }
{
    let store = store_at(state);
    let ended = answer(
        small_at(state, fields::BASE),
        small_at(state, fields::BURN),
        small_at(state, fields::RUN),
        &store,
        command,
        table,
        reply,
    );
    let status = status_of(ended);
    tell(state, len_of(ended) as u64, 0);
    header_in(request, bytes);
    status
}

// ---- a piece of a stream

// A piece goes to the target, where there is one; else all of it is taken. Chip and buffer are apart, here and
// below, as the storage's write takes them.
fn stored(
    s: &Record,
    store: &mut Store,
    lent: &Lent<'_>,
    chip: &mut [u8],
    buffer: &mut [u8],
    bytes: &[u8],
) -> Result<usize, CallError>
    requires { UpFit (update_at s.now) × (store.old ≡ store_at s.now) }
    ensures { told (status_in result) (count_in result) (dev store.new chip.new buffer.new) ≡ stored_by lent.now bytes.now (unpack_of s.now) chip.old buffer.old }
{
    if !set_at(s, fields::AIMED) {
        return Ok(bytes.len());
    }
    let at = word_at(s, fields::TARGET) + word_at(s, fields::WRITTEN);
    store.write(lent, chip, buffer, at, bytes)
}

// A piece that does not end its stream: it is stored, and counted in the state's bytes.
pub(crate) fn piece(
    state: &mut Record,
    lent: &Lent<'_>,
    chip: &mut [u8],
    buffer: &mut [u8],
    bytes: &[u8],
)
    requires { UpFit (update_at state.old) × (length bytes.now ≤ word_at 8 state.old 48) × (good lent.now (dev (store_at state.old) chip.old buffer.old) ≡ true) }
    ensures { (rest : List ℕ) → pieced (state.new ++ rest) chip.new buffer.new ≡ piece_by (state.old ++ rest) bytes.now (stored_by lent.now bytes.now (unpack_of (state.old ++ rest)) chip.old buffer.old) }
{
    let mut store = store_at(state);
    let went = stored(state, &mut store, lent, chip, buffer, bytes).unwrap_or(0);
    let n = bytes.len();
    let k = n as u64;
    let crc = crc32_update(small_at(state, fields::CRC), bytes);
    let burn = burn_by(small_at(state, fields::BURN), went, n);
    let written = word_at(state, fields::WRITTEN) + k;
    let left = word_at(state, fields::LEFT) - k;
    count(state, written, left, crc, burn, store);
}

// ---- which it is

// Is an engine in bounds between frames, with no stream open: then all three numbers are 0.
#[tactic(auto, unfolding(crate::specs::Calls::idle_of))]
fn idle(s: &Record) -> bool
    ensures { result ≡ idle_of s.now }
{
    let total = word_at(s, fields::FRAME_TOTAL);
    word_at(s, fields::FRAME_LEN) == total && word_at(s, fields::LEFT) == total
}

/// What a write is to an engine in bounds: a query alone (of this command), a piece that does not end its
/// stream, or anything else.
// Three answers, so no Option: one inside another would not name them.
#[derive(Clone, Copy, Debug, PartialEq, Eq)]
pub enum Way {
    Query(u8),
    Piece,
    Whole,
}

// Are a write's bytes less than what is left of a stream.
#[tactic(auto, unfolding(crate::specs::Calls::piece_in))]
fn in_stream(s: &Record, bytes: &[u8]) -> bool
    ensures { result ≡ piece_in s.now bytes.now }
{
    let n = bytes.len() as u64;
    n != 0 && n < word_at(s, fields::LEFT)
}

// What a write's bytes are to the engine of a state.
pub(crate) fn way_of(s: &Record, bytes: &[u8]) -> Way
    ensures { result ≡ way_of s.now bytes.now }
{
    if in_stream(s, bytes) {
        return Way::Piece;
    }
    if !idle(s) {
        return Way::Whole;
    }
    match alone_of(bytes) {
        Some(command) => Way::Query(command),
        None => Way::Whole,
    }
}

// The engine's record as 652 bytes. `fields` says where each field of it begins.
ghost use Rattle.std.specs.Prelude.{◌≡◌, ◌++◌, ◌+◌, ◌≤◌, ◌<◌, length, get_or};
ghost use Rattle.wire.specs.Bytes.{bytes_of, word_at, laid};
ghost use Rattle.engine.specs.World.{with_said};
ghost use Rattle.lamjhotu.specs.State.{mark_over, set_of, four_of, words_over, smalls_of, marks_over, pack_over, meta_at, shape_at, store_at, update_at, frame_at, said_at, unpack_of, counted};

use crate::fields;
use engine::types::{Engine, Frame, Said, Update};
use storage::types::{Kind, Shape, Store};
use wire::bytes::{le4, le8, put};

/// The bytes of a record.
pub(crate) type Record = [u8; 652];

// ---- from bytes to a record

// The number of four bytes from a place on.
#[tactic(auto, using(crate::proofs::States::small_told))]
pub(crate) fn small_at(s: &Record, at: usize) -> u32
    requires { at + 4 ≤ 652 }
    ensures { result ≡ word_at 4 s.now at }
{
    u32::from_le_bytes([s[at], s[at + 1], s[at + 2], s[at + 3]])
}

// The number of eight bytes from a place on.
#[tactic(auto, using(crate::proofs::States::word_told))]
pub(crate) fn word_at(s: &Record, at: usize) -> u64
    requires { at + 8 ≤ 652 }
    ensures { result ≡ word_at 8 s.now at }
{
    u64::from_le_bytes([
        s[at],
        s[at + 1],
        s[at + 2],
        s[at + 3],
        s[at + 4],
        s[at + 5],
        s[at + 6],
        s[at + 7],
    ])
}

// A mark is set where its byte is not 0.
pub(crate) fn set_at(s: &Record, at: usize) -> bool
    requires { at < 652 }
    ensures { result ≡ set_of (get_or s.now at 0) }
{
    s[at] != 0
}

// The metadata.
#[tactic(auto, unfolding(crate::specs::State::meta_at))]
fn meta_at(s: &Record) -> [u8; 512]
    ensures { result ≡ meta_at s.now }
{
    let mut meta = [0u8; 512];
    meta.copy_from_slice(&s[fields::META..]);
    meta
}

// Zeros spell a NAND without pages, which every write and read refuses.
#[tactic(auto, unfolding(crate::specs::State::shape_at))]
fn shape_at(s: &Record) -> Shape
    ensures { result ≡ shape_at s.now }
{
    Shape {
        kind: if set_at(s, fields::NOR) {
            Kind::Nor
        } else {
            Kind::Nand
        },
        page: word_at(s, fields::PAGE),
        pages: word_at(s, fields::PAGES),
        blocks: word_at(s, fields::BLOCKS),
        capacity: word_at(s, fields::CAPACITY),
        stage: s[fields::STAGE],
        device: small_at(s, fields::DEVICE),
    }
}

#[tactic(auto, unfolding(crate::specs::State::store_at))]
pub(crate) fn store_at(s: &Record) -> Store
    ensures { result ≡ store_at s.now }
{
    Store {
        shape: shape_at(s),
        held: set_at(s, fields::HELD),
        at: word_at(s, fields::HELD_AT),
        erased: set_at(s, fields::ERASED).then_some(word_at(s, fields::ERASED_BLOCK)),
        calls: word_at(s, fields::CALLS),
    }
}

#[tactic(auto, unfolding(crate::specs::State::update_at))]
fn update_at(s: &Record) -> Update
    ensures { result ≡ update_at s.now }
{
    Update {
        meta: meta_at(s),
        valid: set_at(s, fields::VALID),
        aimed: set_at(s, fields::AIMED),
        target: word_at(s, fields::TARGET),
        written: word_at(s, fields::WRITTEN),
        crc: small_at(s, fields::CRC),
        burn: small_at(s, fields::BURN),
        run: small_at(s, fields::RUN),
        left: word_at(s, fields::LEFT),
    }
}

pub(crate) fn frame_at(s: &Record) -> Frame
    ensures { result ≡ frame_at s.now }
{
    Frame {
        len: word_at(s, fields::FRAME_LEN) as usize,
        total: word_at(s, fields::FRAME_TOTAL) as usize,
    }
}

// As `frame_at`, of other fields and another type.
pub(crate) fn said_at(s: &Record) -> Said
    ensures { result ≡ said_at s.now }
{
    Said {
        len: word_at(s, fields::SAID_LEN) as usize,
        pos: word_at(s, fields::SAID_POS) as usize,
    }
}

// The record that bytes hold. Bytes that nobody packed give a record too, which the engine refuses where it
// is out of bounds.
#[tactic(auto, unfolding(crate::specs::State::unpack_of))]
pub(crate) fn unpack(s: &Record) -> Engine
    ensures { result ≡ unpack_of s.now }
{
    Engine {
        frame: frame_at(s),
        said: said_at(s),
        up: update_at(s),
        upgrading: set_at(s, fields::UPGRADING),
        asked: set_at(s, fields::ASKED),
        base: small_at(s, fields::BASE),
        store: store_at(s),
    }
}

// ---- from a record to bytes

// A mark over the byte that stands there: one that says the same stays.
#[tactic(auto, unfolding(crate::specs::State::mark_over), using(crate::proofs::States::one_more))]
fn mark(old: u8, b: bool) -> u8
    ensures { result ≡ mark_over old b }
{
    if b { old.max(1) } else { 0 }
}

// The boot stage and the seven marks.
#[tactic(auto, unfolding(crate::specs::State::marks_over))]
fn marks(s: &Record, e: &Engine) -> [u8; 8]
    ensures { result ≡ marks_over s.now e.now }
{
    let t = e.store;
    let p = t.shape;
    [
        p.stage,
        mark(s[fields::VALID], e.up.valid),
        mark(s[fields::AIMED], e.up.aimed),
        mark(s[fields::UPGRADING], e.upgrading),
        mark(s[fields::ASKED], e.asked),
        mark(s[fields::HELD], t.held),
        mark(s[fields::NOR], p.kind == Kind::Nor),
        mark(s[fields::ERASED], t.erased.is_some()),
    ]
}

// Two numbers from a place on.
#[tactic(auto, using(crate::proofs::States::put_as, crate::proofs::States::two_told))]
fn two(s: &mut Record, at: usize, a: u64, b: u64)
    requires { at + 16 ≤ 652 }
    ensures { s.new ≡ laid s.old at (bytes_of 8 a ++ bytes_of 8 b) }
{
    put(s, at, &le8(a));
    put(s, at + 8, &le8(b));
}

// Four numbers from a place on.
#[tactic(auto, using(crate::proofs::States::put_as, crate::proofs::States::four_told))]
fn four(s: &mut Record, at: usize, a: u64, b: u64, c: u64, d: u64)
    requires { at + 32 ≤ 652 }
    ensures { s.new ≡ laid s.old at (four_of a b c d) }
{
    put(s, at, &le8(a));
    put(s, at + 8, &le8(b));
    put(s, at + 16, &le8(c));
    put(s, at + 24, &le8(d));
}

// The fourteen numbers of eight bytes.
#[tactic(auto, using(crate::proofs::States::block_told, crate::proofs::States::words_told))]
fn words(s: &mut Record, e: &Engine)
    ensures { s.new ≡ laid s.old 0 (words_over s.old e.now) }
{
    let f = e.frame;
    let q = e.said;
    let t = e.store;
    let p = t.shape;
    let block = t.erased.unwrap_or(word_at(s, fields::ERASED_BLOCK));
    four(
        s,
        fields::FRAME_LEN,
        f.len as u64,
        f.total as u64,
        q.len as u64,
        q.pos as u64,
    );
    four(
        s,
        fields::TARGET,
        e.up.target,
        e.up.written,
        e.up.left,
        p.capacity,
    );
    four(s, fields::PAGE, p.page, p.pages, p.blocks, t.at);
    two(s, fields::ERASED_BLOCK, block, t.calls);
}

// The five numbers of four bytes.
#[tactic(auto, using(crate::proofs::States::put_as, crate::proofs::States::smalls_told))]
fn smalls(s: &mut Record, e: &Engine)
    ensures { s.new ≡ laid s.old 112 (smalls_of e.now) }
{
    put(s, fields::CRC, &le4(e.up.crc));
    put(s, fields::BURN, &le4(e.up.burn));
    put(s, fields::RUN, &le4(e.up.run));
    put(s, fields::BASE, &le4(e.base));
    put(s, fields::DEVICE, &le4(e.store.shape.device));
}

// The record over the bytes that stand there.
pub(crate) fn pack(s: &mut Record, e: &Engine)
    ensures { s.new ≡ pack_over s.old e.now }
{
    let m = marks(s, e);
    words(s, e);
    smalls(s, e);
    put(s, fields::STAGE, &m);
    put(s, fields::META, &e.up.meta);
}

// The record with another place in the reply: two numbers are written, and the rest stands.
#[tactic(auto, using(crate::proofs::States::said_told))]
pub(crate) fn tell(s: &mut Record, len: u64, pos: u64)
    ensures { s.new ≡ pack_over s.old (with_said (record { len = len; pos = pos }) (unpack_of s.old)) }
{
    two(s, fields::SAID_LEN, len, pos);
}

// What a store and its burning have come to: five numbers in a row.
#[tactic(auto, using(crate::proofs::States::put_as, crate::proofs::States::moves_told))]
fn moves(s: &mut Record, at: u64, block: u64, calls: u64, crc: u32, burn: u32)
    ensures { s.new ≡ laid s.old 88 (bytes_of 8 at ++ (bytes_of 8 block ++ (bytes_of 8 calls ++ (bytes_of 4 crc ++ bytes_of 4 burn)))) }
{
    two(s, fields::HELD_AT, at, block);
    put(s, fields::CALLS, &le8(calls));
    put(s, fields::CRC, &le4(crc));
    put(s, fields::BURN, &le4(burn));
}

// The record with a piece of a stream counted: seven numbers and two marks are written, and the rest stands.
pub(crate) fn count(s: &mut Record, written: u64, left: u64, crc: u32, burn: u32, t: Store)
    requires { t.shape ≡ shape_at s.old }
    ensures { s.new ≡ pack_over s.old (counted written left crc burn t (unpack_of s.old)) }
{
    let block = t.erased.unwrap_or(word_at(s, fields::ERASED_BLOCK));
    let held = mark(s[fields::HELD], t.held);
    let erased = mark(s[fields::ERASED], t.erased.is_some());
    two(s, fields::WRITTEN, written, left);
    moves(s, t.at, block, t.calls, crc, burn);
    s[fields::HELD] = held;
    s[fields::ERASED] = erased;
}

// The engine's record in groups: protocol.rs's `Engine` without what is lent at every call (rooms, chip,
// buffer, scratch, partitions, table).
use storage::types::Store;

/// The request room: how many bytes are gathered, and how many the frame has (0 while its header is not
/// whole).
// Counts and no slice, as in `Said`: a room is lent anew at each call. Each has bounds of its own, so no shared type.
#[derive(Clone, Copy, Debug, PartialEq, Eq)]
pub struct Frame {
    pub len: usize,
    pub total: usize,
}

/// The reply room: how many bytes wait, and how many were read of them.
#[derive(Clone, Copy, Debug, PartialEq, Eq)]
pub struct Said {
    pub len: usize,
    pub pos: usize,
}

/// The update record, `FwcState`: the metadata and whether they are valid; whether there is a target, and
/// where; bytes written, their checksum, the burn and the run result; and what is left of the stream.
// `valid` and `meta`, `aimed` and `target` are pairs and no `Option`s: `meta` keeps its bytes where `valid` is
// false, and the definition `bounds_ok` bounds `target` also where `aimed` is false.
#[derive(Clone, Copy, Debug, PartialEq, Eq)]
pub struct Update {
    pub meta: [u8; 512],
    pub valid: bool,
    pub aimed: bool,
    pub target: u64,
    pub written: u64,
    pub crc: u32,
    pub burn: u32,
    pub run: u32,
    pub left: u64,
}

/// The upgrade engine, protocol.rs's `Engine`. `upgrading` and `asked` are `host_upgrading` and
/// `reset_requested`; `base` is where scratch starts for the host.
#[derive(Clone, Copy, Debug, PartialEq, Eq)]
pub struct Engine {
    pub frame: Frame,
    pub said: Said,
    pub up: Update,
    pub upgrading: bool,
    pub asked: bool,
    pub base: u32,
    pub store: Store,
}

/// How a command ends that isn't OK: it failed, it is not known, or it has more data than a reply takes and
/// answers with the odd reply. A command that is OK says how many bytes of data it laid into the reply.
#[derive(Clone, Copy, Debug, PartialEq, Eq)]
pub enum Failure {
    Failed,
    Unsupported,
    Odd,
}

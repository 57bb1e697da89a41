// The record of a store, and how its calls and openings end; chip, buffer and lists are lent at every call.
// storage.rs keeps the same in `NorUpgStorage` and `NandUpgStorage`.
ghost use Rattle.std.specs.Prelude.{◌≡◌};
ghost use Rattle.storage.specs.World.{call_number, status_in};
ghost use Rattle.storage.specs.Open.{refusal_number};

use std::fmt;

/// The kind of device: storage.rs has a `dyn StorageBackend` in its place.
// Two kinds, told apart by `match`: C's record holds the kind, so neither `dyn` nor a table of functions is plainer.
#[derive(Clone, Copy, Debug, PartialEq, Eq)]
pub enum Kind {
    Nor,
    Nand,
}

/// What an opening fixes: the kind, the bytes of a page, the pages of a block, the blocks, the capacity in
/// bytes, the boot stage and the device id. A NOR reports no pages and blocks.
#[derive(Clone, Copy, Debug, PartialEq, Eq)]
pub struct Shape {
    pub kind: Kind,
    pub page: u64,
    pub pages: u64,
    pub blocks: u64,
    pub capacity: u64,
    pub stage: u8,
    pub device: u32,
}

/// A store: its shape, whether a sector or page is held in the buffer and where it starts, the block that a
/// NAND has erased and may program on (storage.rs's `erased_block`), and the number of the next chip call.
// `held` and `at` are a pair and no `Option`: `at` keeps its number, which C's record shows, when nothing is held.
#[derive(Clone, Copy, Debug, PartialEq, Eq)]
pub struct Store {
    pub shape: Shape,
    pub held: bool,
    pub at: u64,
    pub erased: Option<u64>,
    pub calls: u64,
}

/// A NAND's numbers at opening: the bytes of a page, the pages of a block, the blocks, and the bytes that are
/// used of it.
#[derive(Clone, Copy, Debug, PartialEq, Eq)]
pub struct Geometry {
    pub page: u64,
    pub pages: u64,
    pub blocks: u64,
    pub capacity: u64,
}

/// The other numbers of an opening: the host's address of scratch, the boot stage and the device id.
#[derive(Clone, Copy, Debug, PartialEq, Eq)]
pub struct Board {
    pub base: u32,
    pub stage: u8,
    pub device: u32,
}

/// A chip call failed, or was out of range.
#[derive(Clone, Copy, Debug, PartialEq, Eq)]
pub struct ChipError;

/// A chip call stopped a write: the address of the next byte.
#[derive(Clone, Copy, Debug, PartialEq, Eq)]
pub struct Stopped {
    pub at: u64,
}

/// How a call ends that does not do what was asked.
// The error of a call's `Result`: neither variant carries a value.
#[derive(Clone, Copy, Debug, PartialEq, Eq)]
pub enum CallError {
    /// A step failed; the steps before it stay done.
    Failed = 1,
    /// The record or what is lent with it is out of bounds: nothing is changed.
    Refused = 9,
}

impl CallError {
    /// The error's number as a status.
    // A cast of its own, as `Refusal` has: a trait for the two would have no other use.
    pub fn number(self) -> u8
        ensures { result ≡ call_number self }
    {
        self as u8
    }
}

/// How a call ended, as a status: 0 where it did what was asked, else the error's number.
// No method and no `From`: `Result` and `u8` are std's. C and a CSW take the number.
pub fn status_number(ended: Result<(), CallError>) -> u8
    ensures { result ≡ status_in ended }
{
    match ended {
        Ok(()) => 0,
        Err(e) => e.number(),
    }
}

// The text of each, here and for `Refusal`: std has no derive for it.
impl fmt::Display for CallError {
    fn fmt<W: fmt::Write>(&self, f: &mut fmt::Formatter<W>) -> fmt::Result {
        match self {
            CallError::Failed => write!(f, "a step failed, and the steps before it stay done"),
            CallError::Refused => write!(f, "refused, and nothing is changed"),
        }
    }
}

/// Why an opening is refused; the first reason that holds is told.
#[derive(Clone, Copy, Debug, PartialEq, Eq)]
pub enum Refusal {
    /// A room of the engine has another length.
    Rooms = 9,
    /// The sector buffer has fewer than 4,096 bytes.
    Buffer = 10,
    /// A NOR is no multiple of 4,096 bytes, is empty, or has more than 16 MiB.
    ChipSize = 11,
    /// The lists of partitions are out of bounds.
    Partitions = 12,
    /// A NAND's numbers are out of bounds, or the chip or its marks have another length.
    Geometry = 13,
    /// Scratch ends past 2^32.
    Scratch = 14,
}

impl Refusal {
    /// The refusal's number.
    pub fn number(self) -> u8
        ensures { result ≡ refusal_number self }
    {
        self as u8
    }
}

impl fmt::Display for Refusal {
    fn fmt<W: fmt::Write>(&self, f: &mut fmt::Formatter<W>) -> fmt::Result {
        match self {
            Refusal::Rooms => write!(f, "a room of the engine has another length"),
            Refusal::Buffer => write!(f, "the buffer has fewer than 4096 bytes"),
            Refusal::ChipSize => write!(
                f,
                "the chip is empty, no multiple of 4096 bytes, or larger than 16 MiB"
            ),
            Refusal::Partitions => write!(f, "the partitions are out of bounds"),
            Refusal::Geometry => write!(
                f,
                "the NAND's numbers are out of bounds, or its chip or marks have another length"
            ),
            Refusal::Scratch => write!(f, "scratch ends past 2^32"),
        }
    }
}

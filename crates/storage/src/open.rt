// Openings: what both `new` of storage.rs do, with the refusals in their order; the tests that a later call
// makes of a record and of what is lent with it; and the questions of a store.
ghost use Rattle.std.specs.Prelude.{true, ◌&&◌, ◌≡◌, ◌*◌, ◌/◌, ◌<◌, cond, Ok, Err, length};
ghost use Rattle.storage.specs.Open.{shift_of, page_ok, pages_ok, geometry_ok, nor_size, scratch_ok, chip_ok, numbers_ok, opened_nor, opened_nand, held_ok, in_bounds, parts_fit, nor_fits, is_nand, block_size_of};

use crate::lent::Partitions;
use crate::types::{Board, Geometry, Kind, Refusal, Shape, Store};

// ---- geometry

// Is the page size one that an opening takes: from 512 to 4,096, with exactly one bit set.
#[tactic(auto, using(crate::proofs::Powers::page_low, crate::proofs::Powers::page_high, crate::proofs::Powers::page_bits))]
fn page_ok(page: u64) -> bool
    ensures { result ≡ page_ok page }
{
    512 <= page && page <= 4096 && page.count_ones() == 1
}

// Is it a number of pages per block that an opening takes: one bit of 1 to 256.
#[tactic(auto, using(crate::proofs::Powers::pages_high, crate::proofs::Powers::pages_bits))]
fn pages_ok(pages: u64) -> bool
    ensures { result ≡ pages_ok pages }
{
    pages <= 256 && pages.count_ones() == 1
}

/// Are these a NAND's numbers: a page of 512 to 4,096 bytes and 1 to 256 pages per block, each with one bit set,
/// and 1 to 4,096 blocks.
#[tactic(auto, unfolding(crate::specs::Open::geometry_ok))]
pub fn geometry_ok(page: u64, pages: u64, blocks: u64) -> bool
    ensures { result ≡ geometry_ok page pages blocks }
{
    page_ok(page) && pages_ok(pages) && 1 <= blocks && blocks <= 4096
}

/// The shift of a page size: how many of its low bits are zero.
pub fn page_shift(page: u64) -> u32
    ensures { result ≡ shift_of page }
{
    page.trailing_zeros()
}

// The number of the page that an address lies in.
#[tactic(auto, using(crate::proofs::Powers::shift_page))]
pub(crate) fn page_number(page: u64, at: u64) -> u64
    requires { page_ok page ≡ true }
    ensures { result ≡ at / page }
{
    at >> page_shift(page)
}

impl Geometry {
    // The bytes of the chip.
    #[tactic(auto, using(crate::proofs::Opens::geometry))]
    fn chip_size(self) -> u64
        requires { geometry_ok self.page self.pages self.blocks ≡ true }
        ensures { result ≡ self.page * self.pages * self.blocks }
    {
        self.page * self.pages * self.blocks
    }

    // Has a chip the size that the numbers say, and a mark for each block.
    #[tactic(auto, unfolding(crate::specs::Open::chip_ok))]
    fn lends(self, chip: usize, marks: usize) -> bool
        requires { geometry_ok self.page self.pages self.blocks ≡ true }
        ensures { result ≡ chip_ok self.page self.pages self.blocks chip marks }
    {
        chip as u64 == self.chip_size() && marks as u64 == self.blocks
    }

    // Would an opening take the numbers, and lengths of chip and marks with them.
    #[tactic(auto, unfolding(crate::specs::Open::numbers_ok))]
    fn fits(self, chip: usize, marks: usize) -> bool
        ensures { result ≡ numbers_ok self.page self.pages self.blocks chip marks self.capacity }
    {
        geometry_ok(self.page, self.pages, self.blocks)
            && self.lends(chip, marks)
            && self.capacity <= 2147483648
    }
}

impl Shape {
    // A NAND's numbers. Four fields, as in `Partitions::iter`, of other types.
    fn geometry(self) -> Geometry
        ensures { result ≡ record { page = self.page; pages = self.pages; blocks = self.blocks; capacity = self.capacity } }
    {
        Geometry {
            page: self.page,
            pages: self.pages,
            blocks: self.blocks,
            capacity: self.capacity,
        }
    }
}

// ---- the openings

// A NOR's size: a multiple of 4,096, at least 4,096 and at most 16 MiB.
#[tactic(auto, unfolding(crate::specs::Open::nor_size))]
fn nor_size(n: usize) -> bool
    ensures { result ≡ nor_size n }
{
    4096 <= n && n <= 16777216 && n % 4096 == 0
}

/// Does scratch of n bytes end at most at 2^32, from the host's address of it. The end is tested before it is
/// computed.
#[tactic(auto, unfolding(crate::specs::Open::scratch_ok))]
pub fn scratch_ok(base: u32, n: usize) -> bool
    ensures { result ≡ scratch_ok base n }
{
    n <= 4294967296 && base as usize <= 4294967296 - n
}

// Refused for a reason unless the test holds.
fn require(holds: bool, refusal: Refusal) -> Result<(), Refusal>
    ensures { result ≡ cond holds (Ok tt) (Err refusal) }
{
    if holds { Ok(()) } else { Err(refusal) }
}

impl Store {
    /// Opens a NOR: `NorUpgStorage::new`. Its capacity is the larger of the chip and the partitions' ends.
    // Each room is lent as `&`, here and below: an opening only looks at its length.
    #[tactic(auto, unfolding(crate::specs::Open::opened_nor, crate::specs::Partition::table_of, crate::specs::Partition::end_of))]
    pub fn open_nor(
        chip: &[u8],
        buffer: &[u8],
        scratch: &[u8],
        partitions: &Partitions<'_>,
        board: Board,
    ) -> Result<Store, Refusal>
        ensures { result ≡ opened_nor (length chip.now) (length buffer.now) partitions.now board.base (length scratch.now) board.stage board.device }
    {
        require(4096 <= buffer.len(), Refusal::Buffer)?;
        require(nor_size(chip.len()), Refusal::ChipSize)?;
        let end = partitions.walk().ok_or(Refusal::Partitions)?;
        require(scratch_ok(board.base, scratch.len()), Refusal::Scratch)?;
        Ok(Store {
            shape: Shape {
                kind: Kind::Nor,
                page: 4096,
                pages: 0,
                blocks: 0,
                capacity: (chip.len() as u64).max(end),
                stage: board.stage,
                device: board.device,
            },
            held: false,
            at: 0,
            erased: None,
            calls: 0,
        })
    }

    /// Opens a NAND: `NandUpgStorage::new`. Its capacity is the opening's figure.
    #[tactic(auto, unfolding(crate::specs::Open::opened_nand))]
    pub fn open_nand(
        chip: &[u8],
        marks: &[u8],
        geometry: Geometry,
        scratch: &[u8],
        partitions: &Partitions<'_>,
        board: Board,
    ) -> Result<Store, Refusal>
        ensures { result ≡ opened_nand (length chip.now) geometry.page geometry.pages geometry.blocks (length marks.now) geometry.capacity partitions.now board.base (length scratch.now) board.stage board.device }
    {
        require(partitions.fit(), Refusal::Partitions)?;
        require(geometry.fits(chip.len(), marks.len()), Refusal::Geometry)?;
        require(scratch_ok(board.base, scratch.len()), Refusal::Scratch)?;
        Ok(Store {
            shape: Shape {
                kind: Kind::Nand,
                page: geometry.page,
                pages: geometry.pages,
                blocks: geometry.blocks,
                capacity: geometry.capacity,
                stage: board.stage,
                device: board.device,
            },
            held: false,
            at: 0,
            erased: None,
            calls: 0,
        })
    }
}

// ---- what later calls test

// Does a held sector or page start on its boundary, below the capacity.
#[tactic(auto, unfolding(crate::specs::Open::held_ok))]
fn held_ok(held: bool, at: u64, unit: u64, capacity: u64) -> bool
    requires { 0 < unit }
    ensures { result ≡ held_ok held at unit capacity }
{
    !held || (at % unit == 0 && at < capacity)
}

/// Would a NOR's record of these numbers fit chip and buffer of these lengths: `Store::fits` for one whose
/// record is not put together.
#[tactic(auto, unfolding(crate::specs::Open::nor_fits))]
pub fn nor_fits(capacity: u64, held: bool, at: u64, chip: usize, buffer: usize) -> bool
    ensures { result ≡ nor_fits capacity held at chip buffer }
{
    capacity <= 2147483648 && held_ok(held, at, 4096, capacity) && 4096 <= buffer && nor_size(chip)
}

impl Store {
    // Is the record in bounds.
    #[tactic(auto, unfolding(crate::specs::Open::in_bounds))]
    fn in_bounds(&self) -> bool
        ensures { result ≡ in_bounds self.now }
    {
        let shape = self.shape;
        shape.capacity <= 2147483648
            && match shape.kind {
                Kind::Nor => held_ok(self.held, self.at, 4096, shape.capacity),
                Kind::Nand => {
                    geometry_ok(shape.page, shape.pages, shape.blocks)
                        && held_ok(self.held, self.at, shape.page, shape.capacity)
                }
            }
    }

    // May these lengths be lent with the record: would an opening have taken them.
    #[tactic(auto, using(crate::proofs::Opens::bounds_nand), unfolding(crate::specs::Open::parts_fit))]
    fn parts_fit(&self, chip: usize, marks: usize, buffer: usize) -> bool
        requires { in_bounds self.now ≡ true }
        ensures { result ≡ parts_fit self.now chip marks buffer }
    {
        4096 <= buffer
            && match self.shape.kind {
                Kind::Nor => nor_size(chip),
                Kind::Nand => self.shape.geometry().lends(chip, marks),
            }
    }

    /// Are the record and the lengths of what is lent with it as an opening and the calls since leave them.
    pub fn fits(&self, chip: usize, marks: usize, buffer: usize) -> bool
        ensures { result ≡ (in_bounds self.now && parts_fit self.now chip marks buffer) }
    {
        self.in_bounds() && self.parts_fit(chip, marks, buffer)
    }

    // ---- questions

    /// Is the store a NAND: `media_type` says "spi-nand" of it, and "spi-nor" of a NOR.
    pub fn is_nand(&self) -> bool
        ensures { result ≡ is_nand self.now }
    {
        matches!(self.shape.kind, Kind::Nand)
    }

    /// `block_size`, in bytes: a NOR's sector, a NAND's page. A page that no u32 holds, which no opening gives,
    /// is 0.
    #[tactic(auto, unfolding(crate::specs::Open::block_size_of))]
    pub fn block_size(&self) -> u32
        ensures { result ≡ block_size_of self.now }
    {
        match self.shape.kind {
            Kind::Nor => 4096,
            Kind::Nand => u32::try_from(self.shape.page).unwrap_or(0),
        }
    }

    /// `capacity`, in bytes.
    pub fn capacity(&self) -> u64
        ensures { result ≡ self.now.shape.capacity }
    {
        self.shape.capacity
    }

    /// `boot_stage`, a number of the opening.
    pub fn boot_stage(&self) -> u8
        ensures { result ≡ self.now.shape.stage }
    {
        self.shape.stage
    }

    /// `media_dev_id`, a number of the opening.
    pub fn device_id(&self) -> u32
        ensures { result ≡ self.now.shape.device }
    {
        self.shape.device
    }
}

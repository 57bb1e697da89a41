// The body of an opening (kinds 16 and 17): its numbers, and the runs of bytes behind them.
use engine::given::Given;
use engine::rooms::Rooms;
use record::parts::{byte, cut, first, from, upto};
use storage::lent::{Lent, Partitions};
use storage::types::{Board, Geometry, Kind};
use wire::bytes::{put, u16_at, u32_at, u64_at};

/// The numbers of an opening's body: the device, what the chip is filled with, how much of each room is lent, and
/// last how much of each list and of each run of bytes stands behind them.
#[derive(Clone, Copy, Debug, PartialEq, Eq)]
pub struct Opening {
    pub device: Kind,
    pub fill: u8,
    pub step: u8,
    pub board: Board,
    pub geometry: Geometry,
    pub chip: usize,
    pub buffer: usize,
    pub scratch: usize,
    pub request: usize,
    pub reply: usize,
    pub sent: usize,
    pub offsets: usize,
    pub sizes: usize,
    pub lens: usize,
    pub names: usize,
    pub marks: usize,
    pub faults: usize,
    pub table: usize,
}

/// What stands behind the numbers: three lists of eight-byte numbers, and four runs of bytes.
#[derive(Clone, Copy, Debug)]
pub struct Runs<'a> {
    pub offsets: &'a [u8],
    pub sizes: &'a [u8],
    pub lens: &'a [u8],
    pub names: &'a [u8],
    pub marks: &'a [u8],
    pub faults: &'a [u8],
    pub table: &'a [u8],
}

/// An opening's body as it is kept: its bytes, and the numbers of its three lists.
#[derive(Drop)]
pub struct Body<'a> {
    pub bytes: &'a mut [u8],
    pub offsets: &'a mut [u64],
    pub sizes: &'a mut [u64],
    pub lens: &'a mut [u64],
}

// The eight-byte numbers of a run.
fn numbers(to: &mut [u64], run: &[u8]) {
    for (number, bytes) in to.iter_mut().zip(run.chunks(8)) {
        *number = u64_at(bytes, 0);
    }
}

impl Body<'_> {
    /// Keeps the body of an opening.
    pub fn keep(&mut self, opening: &Opening, bytes: &[u8]) {
        put(self.bytes, 0, bytes);
        let runs = opening.runs(bytes);
        numbers(self.offsets, runs.offsets);
        numbers(self.sizes, runs.sizes);
        numbers(self.lens, runs.lens);
    }
}

// The kind of device. No TryFrom: the enum is storage's, and the numbers are this program's.
fn device(body: &[u8]) -> Option<Kind> {
    match byte(body, 0) {
        0 => Some(Kind::Nor),
        1 => Some(Kind::Nand),
        _ => None,
    }
}

impl Opening {
    /// The numbers of a body that is what it announces, and within the limits.
    pub fn parse(body: &[u8]) -> Option<Opening> {
        let opening = Opening {
            device: device(body)?,
            fill: byte(body, 1),
            step: byte(body, 2),
            board: Board {
                base: u32_at(body, 36),
                stage: byte(body, 3),
                device: u32_at(body, 4),
            },
            geometry: Geometry {
                page: u64::from(u32_at(body, 12)),
                pages: u64::from(u32_at(body, 16)),
                blocks: u64::from(u32_at(body, 20)),
                capacity: u64_at(body, 24),
            },
            chip: u32_at(body, 8) as usize,
            buffer: u32_at(body, 32) as usize,
            scratch: u32_at(body, 40) as usize,
            request: usize::from(u16_at(body, 44)),
            reply: usize::from(u16_at(body, 46)),
            sent: usize::from(u16_at(body, 48)),
            offsets: usize::from(u16_at(body, 52)),
            sizes: usize::from(u16_at(body, 54)),
            lens: usize::from(u16_at(body, 56)),
            names: usize::from(u16_at(body, 58)),
            marks: usize::from(u16_at(body, 60)),
            faults: usize::from(u16_at(body, 62)),
            table: usize::from(u16_at(body, 64)),
        };
        // 66 bytes of numbers, the lists and the runs
        let words = opening.offsets + opening.sizes + opening.lens;
        let bytes = opening.names + opening.marks + opening.faults + opening.table;
        let good = body.len() == 66 + 8 * words + bytes
            && u16_at(body, 50) == 0
            && opening.chip <= 1048576
            && opening.buffer <= 1048576
            && opening.scratch <= 65536
            && opening.request <= 16384
            && opening.reply <= 16384
            && opening.sent <= 16384;
        if good { Some(opening) } else { None }
    }

    /// What stands behind the numbers of this opening's body.
    pub fn runs<'a>(&self, body: &'a [u8]) -> Runs<'a> {
        let rest = from(body, 66);
        let (offsets, rest) = cut(rest, self.offsets.saturating_mul(8));
        let (sizes, rest) = cut(rest, self.sizes.saturating_mul(8));
        let (lens, rest) = cut(rest, self.lens.saturating_mul(8));
        let (names, rest) = cut(rest, self.names);
        let (marks, rest) = cut(rest, self.marks);
        let (faults, rest) = cut(rest, self.faults);
        let (table, _) = cut(rest, self.table);
        Runs {
            offsets,
            sizes,
            lens,
            names,
            marks,
            faults,
            table,
        }
    }

    /// What is lent and never changed, of the opening's body.
    pub fn given<'a>(&self, body: &'a Body<'_>) -> Given<'a> {
        let runs = self.runs(body.bytes);
        Given {
            lent: Lent {
                faults: runs.faults,
                marks: runs.marks,
            },
            partitions: Partitions {
                offsets: upto(body.offsets, self.offsets),
                sizes: upto(body.sizes, self.sizes),
                lens: upto(body.lens, self.lens),
                names: runs.names,
            },
            table: runs.table,
        }
    }

    /// As much of each room as is lent.
    pub fn rooms<'a>(&self, rooms: &'a mut Rooms<'_>) -> Rooms<'a> {
        let Rooms {
            reply,
            chip,
            buffer,
            scratch,
        } = rooms;
        Rooms {
            reply: first(reply, self.reply),
            chip: first(chip, self.chip),
            buffer: first(buffer, self.buffer_len()),
            scratch: first(scratch, self.scratch),
        }
    }

    /// The length of the buffer that is lent: a NAND's is never under 4,096.
    pub fn buffer_len(&self) -> usize {
        match self.device {
            Kind::Nor => self.buffer,
            Kind::Nand => self.buffer.max(4096),
        }
    }
}

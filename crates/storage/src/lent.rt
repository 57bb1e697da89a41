// What a caller lends and no call changes. This file has no clause, so that the files of the views lead back
// to nothing.
use std::marker::Model;

/// Which chip calls fail (a byte for each call in the order of their numbers, not 0 where it fails; the last
/// stands for all later calls, none: no call fails), and the marks of a NAND's blocks (255: good).
// Chip and buffer are lent beside it and each by itself: the one that a call is lent as `&` stays as it was by its type.
// Where both are `&mut` they stay apart too, so that all calls are lent the same.
#[derive(Drop)]
pub struct Lent<'a> {
    pub faults: &'a [u8],
    pub marks: &'a [u8],
}

// Clauses see the two lists.
impl<'a> Model for Lent<'a> {
    ghost use Rattle.storage.specs.World.{Lent};

    ghost Value = { Lent };

    ghost view = { λ l. record { faults = l.faults.now; marks = l.marks.now } };
}

/// The partitions: where each starts, how many bytes it has, how long its name is, and the names' bytes one
/// behind the other.
#[derive(Drop)]
pub struct Partitions<'a> {
    pub offsets: &'a [u64],
    pub sizes: &'a [u64],
    pub lens: &'a [u64],
    pub names: &'a [u8],
}

// Clauses see the four lists.
impl<'a> Model for Partitions<'a> {
    ghost use Rattle.storage.specs.Partition.{Lists};

    ghost Value = { Lists };

    ghost view = { λ p. record { offsets = p.offsets.now; sizes = p.sizes.now; lens = p.lens.now; names = p.names.now } };
}

/// A partition: its name's bytes, where it starts, and how many bytes it has.
#[derive(Clone, Copy, Debug)]
pub struct Partition<'a> {
    pub name: &'a [u8],
    pub offset: u64,
    pub size: u64,
}

/// The partitions one after the other, from `Partitions::iter`: what is left of the lists.
// The fields of `Partitions`, but an iterator's own: it moves on, and what is lent does not.
#[derive(Clone, Copy, Debug)]
pub struct Iter<'a> {
    pub offsets: &'a [u64],
    pub sizes: &'a [u64],
    pub lens: &'a [u64],
    pub names: &'a [u8],
}

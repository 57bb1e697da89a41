// What a caller lends to every call of the engine and no call changes. This file has no clause, so that the
// view's file leads back to nothing.
use std::marker::Model;
use storage::lent::{Lent, Partitions};

/// What is lent and never changed: which chip calls fail and the marks of a NAND's blocks, the partitions,
/// and the partition table's text.
#[derive(Drop)]
pub struct Given<'a> {
    pub lent: Lent<'a>,
    pub partitions: Partitions<'a>,
    pub table: &'a [u8],
}

// Clauses see the record that the definitions have.
impl<'a> Model for Given<'a> {
    ghost use Rattle.engine.specs.World.{Given};

    ghost Value = { Given };

    ghost view = { λ g. record { lent = g.lent; lists = g.partitions; table = g.table.now } };
}

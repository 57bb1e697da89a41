// Where each field of a record begins.

// Numbers of eight bytes, lowest byte first.
pub(crate) const FRAME_LEN: usize = 0;

pub(crate) const FRAME_TOTAL: usize = 8;

pub(crate) const SAID_LEN: usize = 16;

pub(crate) const SAID_POS: usize = 24;

pub(crate) const TARGET: usize = 32;

pub(crate) const WRITTEN: usize = 40;

pub(crate) const LEFT: usize = 48;

pub(crate) const CAPACITY: usize = 56;

pub(crate) const PAGE: usize = 64;

pub(crate) const PAGES: usize = 72;

pub(crate) const BLOCKS: usize = 80;

pub(crate) const HELD_AT: usize = 88;

pub(crate) const ERASED_BLOCK: usize = 96;

pub(crate) const CALLS: usize = 104;

// Numbers of four bytes, lowest byte first.
pub(crate) const CRC: usize = 112;

pub(crate) const BURN: usize = 116;

pub(crate) const RUN: usize = 120;

pub(crate) const BASE: usize = 124;

pub(crate) const DEVICE: usize = 128;

// The boot stage and seven marks, a byte each.
pub(crate) const STAGE: usize = 132;

pub(crate) const VALID: usize = 133;

pub(crate) const AIMED: usize = 134;

pub(crate) const UPGRADING: usize = 135;

pub(crate) const ASKED: usize = 136;

pub(crate) const HELD: usize = 137;

pub(crate) const NOR: usize = 138;

pub(crate) const ERASED: usize = 139;

// The metadata, up to the record's end.
pub(crate) const META: usize = 140;

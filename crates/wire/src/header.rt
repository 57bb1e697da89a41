// The header of a frame, from protocol.rs: `header_checksum`, `build_header`, `parse_header`.
ghost use Rattle.std.specs.Prelude.{◌≡◌};
ghost use Rattle.wire.specs.Header.{checksum_of, header_of, parsed};

use crate::bytes::{le4, u32_at};

/// `UPGC`: the magic of a request.
pub const UPG_CMD_MAGIC: u32 = 0x4347_5055;
/// `UPGR`: the magic of a reply.
pub const UPG_RESP_MAGIC: u32 = 0x5247_5055;

/// What the header of a request says: its command, its status and how many bytes of data follow it. The command and the
/// status are bytes of the wire, here and below: any value comes, and the checksum is over it.
#[derive(Clone, Copy, Debug, PartialEq, Eq)]
pub struct Header {
    pub command: u8,
    pub status: u8,
    pub length: u32,
}

/// The three words of a header, added modulo 2^32: protocol.rs's `header_checksum`.
#[tactic(auto, unfolding(crate::specs::Header::checksum_of))]
pub fn checksum(magic: u32, command: u8, status: u8, length: u32) -> u32
    ensures { result ≡ checksum_of magic command status length }
{
    let field = u32::from_le_bytes([1, 1, command, status]);
    magic.wrapping_add(field).wrapping_add(length)
}

/// The sixteen bytes of a header.
#[tactic(auto, unfolding(crate::specs::Bytes::bytes_of, crate::specs::Header::header_of))]
pub fn build_header(magic: u32, command: u8, status: u8, length: u32) -> [u8; 16]
    ensures { result ≡ header_of magic command status length }
{
    let sum = checksum(magic, command, status, length);
    let [m0, m1, m2, m3] = le4(magic);
    let [l0, l1, l2, l3] = le4(length);
    let [s0, s1, s2, s3] = le4(sum);
    [
        m0, m1, m2, m3, 1, 1, command, status, l0, l1, l2, l3, s0, s1, s2, s3,
    ]
}

/// What a byte run says that starts with a header; `None` for every run that does not.
#[tactic(auto, unfolding(crate::specs::Header::accepted, crate::specs::Header::parsed))]
pub fn parse_header(frame: &[u8]) -> Option<Header>
    ensures { result ≡ parsed frame.now }
{
    if frame.len() < 16 {
        return None;
    }
    let magic = u32_at(frame, 0);
    if magic != UPG_CMD_MAGIC {
        return None;
    }
    let command = frame[6];
    let status = frame[7];
    let length = u32_at(frame, 8);
    let sum = u32_at(frame, 12);
    if sum != checksum(magic, command, status, length) {
        return None;
    }
    Some(Header {
        command,
        status,
        length,
    })
}

// The wrappers of a packet, from protocol.rs: `Cbw::parse`, `Csw::reply` and `Csw::to_bytes`.
ghost use Rattle.std.specs.Prelude.{◌≡◌};
ghost use Rattle.wire.specs.Packet.{cbw_of, csw_of};

use crate::bytes::{le4, u32_at};

/// `USBC`: the signature of a CBW.
pub const CBW_MAGIC: u32 = 0x4342_5355;

/// What a packet says as a CBW: the tag, the length of the data stage and the transport command.
#[derive(Clone, Copy, Debug, PartialEq, Eq)]
pub struct Cbw {
    pub tag: u32,
    pub length: u32,
    pub command: u8,
}

/// What a byte run says that starts with a CBW; `None` for every run that does not.
#[tactic(auto, unfolding(crate::specs::Packet::is_cbw, crate::specs::Packet::cbw_of))]
pub fn parse_cbw(packet: &[u8]) -> Option<Cbw>
    ensures { result ≡ cbw_of packet.now }
{
    if packet.len() < 31 || u32_at(packet, 0) != CBW_MAGIC {
        return None;
    }
    let tag = u32_at(packet, 4);
    let length = u32_at(packet, 8);
    let command = packet[15];
    Some(Cbw {
        tag,
        length,
        command,
    })
}

/// The thirteen bytes of a CSW. The status is a byte of the wire: any value may be said.
#[tactic(auto, unfolding(crate::specs::Bytes::bytes_of, crate::specs::Packet::csw_of))]
pub fn csw(tag: u32, status: u8, residue: u32) -> [u8; 13]
    ensures { result ≡ csw_of tag status residue }
{
    let [t0, t1, t2, t3] = le4(tag);
    let [r0, r1, r2, r3] = le4(residue);
    [
        0x55, 0x53, 0x42, 0x53, t0, t1, t2, t3, r0, r1, r2, r3, status,
    ]
}

// The commands over the storage, from protocol.rs `execute_inner`: SET_UPG_END, SET_FWC_META,
// GET_FWC_CRC, READ_FWC_DATA and ERASE_STORAGE.
ghost use Rattle.std.specs.Prelude.{◌≡◌, ℕ, List};
ghost use Rattle.engine.specs.World.{KeepsRooms, world, world_of};
ghost use Rattle.engine.specs.Reply.{gone, going};
ghost use Rattle.engine.specs.Storing.{end_upgrade, probed, crc_query, read_fwc, erase_storage, target_of, aims, is_meta, set_meta};
ghost use Rattle.engine.specs.Exec.{storing};

use crate::command::{
    CMD_GET_FWC_CRC, CMD_READ_FWC_DATA, CMD_SET_FWC_META, CMD_SET_UPG_END, pair_of,
};
use crate::given::Given;
use crate::rooms::Rooms;
use crate::types::{Engine, Failure, Update};
use storage::lent::Partitions;
use text::token::{before_zero, same};
use text::utf8::is_utf8;
use wire::bytes::{le4, put, u64_at};

// ---- SET_FWC_META

// Do metadata start with `META`.
fn is_meta(meta: &[u8; 512]) -> bool
    ensures { result ≡ is_meta meta.now }
{
    same(&meta[..4], b"META")
}

// Where the payload of an update goes, by the partition that the metadata name: `meta_str` and
// `partition_offset`. `None` for an empty name, which has no target; a partition that is not known fails.
#[tactic(auto, unfolding(crate::specs::Storing::target_of, crate::specs::Storing::partition_field))]
fn target_of(meta: &[u8; 512], partitions: &Partitions<'_>) -> Result<Option<u64>, Failure>
    ensures { result ≡ target_of partitions.now meta.now }
{
    let name = before_zero(&meta[0x48..0x88]);
    if name.is_empty() || !is_utf8(name) {
        return Ok(None);
    }
    match partitions.lookup(name)? {
        Some(offset) => Ok(Some(offset)),
        None => Err(Failure::Failed),
    }
}

impl Engine {
    // Metadata are stored, and the target is found. An unknown partition leaves the OLD target, counts and
    // results. The clause is for any rooms: none is lent, since only the record changes.
    #[tactic(auto, using(crate::proofs::Commands::laid_none), unfolding(crate::specs::Storing::aims))]
    fn aim(&mut self, given: &Given<'_>, meta: &[u8; 512]) -> Result<u32, Failure>
        ensures { (q p c b x : List ℕ) → gone result (world self.new q p c b x) ≡ going (aims given.now.lists meta.now (world self.old q p c b x)) }
    {
        self.up.meta = *meta;
        self.up.valid = true;
        let target = target_of(meta, &given.partitions)?;
        self.up.aimed = target.is_some();
        self.up.target = target.unwrap_or(0);
        self.up.written = 0;
        self.up.crc = 0;
        self.up.burn = 0;
        self.up.run = 0;
        Ok(0)
    }

    // SET_FWC_META: the last 512 bytes count; `META`; a flush; then the target.
    // `q`, here and below, is any request: it isn't lent, since a command's data are a part of it.
    #[tactic(auto, using(std::proofs::lemmas::Bool::Decides::nat_tests, crate::proofs::Commands::laid_none), unfolding(crate::specs::Storing::set_meta))]
    fn set_meta(
        &mut self,
        given: &Given<'_>,
        rooms: &mut Rooms<'_>,
        payload: &[u8],
    ) -> Result<u32, Failure>
        ensures rooms { KeepsRooms rooms.old rooms.new }
        ensures sets { (q : List ℕ) → gone result (world_of self.new q rooms.new) ≡ going (set_meta given.now.lent given.now.lists payload.now (world_of self.old q rooms.old)) }
    {
        let Some(meta) = payload.last_chunk::<512>() else {
            return Err(Failure::Failed);
        };
        if !is_meta(meta) {
            return Err(Failure::Failed);
        }
        self.flush_store(given, rooms)?;
        self.aim(given, meta)
    }

    // ---- the others

    // SET_UPG_END: a flush.
    #[tactic(auto, using(crate::proofs::Commands::laid_none), unfolding(crate::specs::Storing::end_upgrade))]
    fn end_upgrade(&mut self, given: &Given<'_>, rooms: &mut Rooms<'_>) -> Result<u32, Failure>
        ensures rooms { KeepsRooms rooms.old rooms.new }
        ensures ends { (q : List ℕ) → gone result (world_of self.new q rooms.new) ≡ going (end_upgrade given.now.lent (world_of self.old q rooms.old)) }
    {
        self.flush_store(given, rooms)?;
        Ok(0)
    }

    // The sixteen bytes at the target are read, which the reply does not show, nor whether that failed.
    #[tactic(auto, unfolding(crate::specs::Storing::probed))]
    fn probe(&mut self, given: &Given<'_>, rooms: &mut Rooms<'_>)
        ensures rooms { KeepsRooms rooms.old rooms.new }
        ensures probes { (q : List ℕ) → world_of self.new q rooms.new ≡ probed given.now.lent (world_of self.old q rooms.old) }
    {
        if self.up.aimed {
            let target = self.up.target;
            let _ = self.read_store(given, rooms, target, &mut [0u8; 16]);
        }
    }

    // GET_FWC_CRC: the checksum of the bytes received.
    #[tactic(auto, using(crate::proofs::Storings::probed_reply, crate::proofs::Storings::probed_same), unfolding(crate::specs::Storing::crc_query, wire::specs::Bytes::bytes_of))]
    fn crc_query(&mut self, given: &Given<'_>, rooms: &mut Rooms<'_>) -> Result<u32, Failure>
        ensures rooms { KeepsRooms rooms.old rooms.new }
        ensures answers { (q : List ℕ) → gone result (world_of self.new q rooms.new) ≡ going (crc_query given.now.lent (world_of self.old q rooms.old)) }
    {
        self.flush_store(given, rooms)?;
        put(rooms.reply, 16, &le4(self.up.crc));
        self.probe(given, rooms);
        Ok(4)
    }

    // READ_FWC_DATA: at most 512 bytes, and as many as the storage gives. It never fails on storage.
    #[tactic(auto, using(std::proofs::lemmas::Bool::Decides::nat_tests), unfolding(crate::specs::Storing::read_fwc))]
    fn read_fwc(
        &mut self,
        given: &Given<'_>,
        rooms: &mut Rooms<'_>,
        payload: &[u8],
    ) -> Result<u32, Failure>
        ensures rooms { KeepsRooms rooms.old rooms.new }
        ensures reads { (q : List ℕ) → gone result (world_of self.new q rooms.new) ≡ going (read_fwc given.now.lent payload.now (world_of self.old q rooms.old)) }
    {
        let Some((offset, len)) = pair_of(payload) else {
            return Err(Failure::Failed);
        };
        let n = (len as usize).min(512);
        let mut room = [0u8; 512];
        let count = self
            .read_store(given, rooms, offset as u64, &mut room[..n])
            .unwrap_or(0);
        put(rooms.reply, 16, &room[..count]);
        Ok(count as u32)
    }

    // ERASE_STORAGE: 24 bytes at least, of which the first two words of eight count.
    #[tactic(auto, using(std::proofs::lemmas::Bool::Decides::nat_tests, crate::proofs::Commands::laid_none), unfolding(crate::specs::Storing::erase_storage))]
    fn erase_storage(
        &mut self,
        given: &Given<'_>,
        rooms: &mut Rooms<'_>,
        payload: &[u8],
    ) -> Result<u32, Failure>
        ensures rooms { KeepsRooms rooms.old rooms.new }
        ensures erases { (q : List ℕ) → gone result (world_of self.new q rooms.new) ≡ going (erase_storage given.now.lent payload.now (world_of self.old q rooms.old)) }
    {
        if payload.len() < 24 {
            return Err(Failure::Failed);
        }
        self.flush_store(given, rooms)?;
        self.erase_store(given, rooms, u64_at(payload, 0), u64_at(payload, 8))?;
        Ok(0)
    }

    // The commands over the storage by number, a byte as command.rt says; the last of them is ERASE_STORAGE.
    #[tactic(auto, using(std::proofs::lemmas::Bool::Decides::nat_tests), unfolding(crate::specs::Exec::storing))]
    pub(crate) fn stored(
        &mut self,
        given: &Given<'_>,
        rooms: &mut Rooms<'_>,
        command: u8,
        payload: &[u8],
    ) -> Result<u32, Failure>
        ensures rooms { KeepsRooms rooms.old rooms.new }
        ensures stores { (q : List ℕ) → gone result (world_of self.new q rooms.new) ≡ going (storing given.now command payload.now (world_of self.old q rooms.old)) }
    {
        // a `match`: each arm takes other arguments
        match command {
            CMD_SET_UPG_END => self.end_upgrade(given, rooms),
            CMD_SET_FWC_META => self.set_meta(given, rooms, payload),
            CMD_GET_FWC_CRC => self.crc_query(given, rooms),
            CMD_READ_FWC_DATA => self.read_fwc(given, rooms, payload),
            _ => self.erase_storage(given, rooms, payload),
        }
    }
}

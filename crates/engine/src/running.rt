// RUN_SHELL_STR over the storage: shell.rs `run` behind its parsing.
ghost use Rattle.std.specs.Prelude.{◌≡◌, ℕ, ◌≤◌, ◌+◌, List, Some, length};
ghost use Rattle.engine.specs.World.{KeepsRooms, world_of};
ghost use Rattle.engine.specs.Reply.{gone, going};
ghost use Rattle.engine.specs.Running.{Held, run_erase, run_write, run_read, run_boot, run_by, run_line, shell};

use crate::given::Given;
use crate::reply::whether;
use crate::rooms::Rooms;
use crate::shell::{Line, Window, boot_table, is_reset, parse, text_len, window_of};
use crate::types::{Engine, Failure};

impl Engine {
    // `bderase`: a range is erased.
    // `q`, here and below, is any request: it isn't lent, since a command's data are a part of it.
    #[tactic(auto, using(crate::proofs::Commands::laid_none), unfolding(crate::specs::Running::run_erase))]
    fn run_erase(
        &mut self,
        given: &Given<'_>,
        rooms: &mut Rooms<'_>,
        start: u64,
        size: u64,
    ) -> Result<u32, Failure>
        ensures rooms { KeepsRooms rooms.old rooms.new }
        ensures erases { (q : List ℕ) → gone result (world_of self.new q rooms.new) ≡ going (run_erase given.now.lent start size (world_of self.old q rooms.old)) }
    {
        self.erase_store(given, rooms, start, size)?;
        Ok(0)
    }

    // `bdwrite`: bytes of scratch go to the device; if all went, a flush.
    #[tactic(auto, using(std::proofs::lemmas::Bool::Decides::nat_tests, crate::proofs::Commands::laid_none), unfolding(crate::specs::Running::run_write))]
    fn run_write(
        &mut self,
        given: &Given<'_>,
        rooms: &mut Rooms<'_>,
        offset: u64,
        window: Option<Window>,
    ) -> Result<u32, Failure>
        ensures rooms { KeepsRooms rooms.old rooms.new }
        ensures writes { (q : List ℕ) → gone result (world_of self.new q rooms.new) ≡ going (run_write given.now.lent offset window (world_of self.old q rooms.old)) }
    {
        let Window { place, len } = window.ok_or(Failure::Failed)?;
        let count = self
            .store_scratch(given, rooms, offset, place, len)
            .unwrap_or(0);
        if count != len {
            return Err(Failure::Failed);
        }
        self.flush_store(given, rooms)?;
        Ok(0)
    }

    // `bdread`: bytes of the device come into scratch; a failure leaves what was copied.
    #[tactic(auto, using(std::proofs::lemmas::Bool::Decides::nat_tests, crate::proofs::Commands::laid_none), unfolding(crate::specs::Running::run_read))]
    fn run_read(
        &mut self,
        given: &Given<'_>,
        rooms: &mut Rooms<'_>,
        offset: u64,
        window: Option<Window>,
    ) -> Result<u32, Failure>
        ensures rooms { KeepsRooms rooms.old rooms.new }
        ensures reads { (q : List ℕ) → gone result (world_of self.new q rooms.new) ≡ going (run_read given.now.lent offset window (world_of self.old q rooms.old)) }
    {
        let Window { place, len } = window.ok_or(Failure::Failed)?;
        let count = self
            .load_scratch(given, rooms, offset, place, len)
            .unwrap_or(0);
        whether(count == len)
    }

    // `get_bootdevice`: the device table is laid into the window.
    #[tactic(auto, unfolding(crate::specs::Running::run_boot))]
    fn run_boot(&self, rooms: &mut Rooms<'_>, window: Option<Window>) -> Result<u32, Failure>
        requires { Held window (length rooms.old.scratch.now) }
        ensures rooms { KeepsRooms rooms.old rooms.new }
        ensures fills { (q : List ℕ) → gone result (world_of self.now q rooms.new) ≡ going (run_boot window (world_of self.now q rooms.old)) }
    {
        let Window { place, len } = window.ok_or(Failure::Failed)?;
        // The low half by `%`: a cast keeps every bit.
        boot_table(
            &mut rooms.scratch[place..place + len],
            self.base,
            (place % 0x1_0000_0000) as u32,
            self.store.block_size(),
            self.store.capacity(),
        );
        Ok(0)
    }

    // What a line asks for is done; one that asks for nothing known fails.
    #[tactic(auto, using(crate::proofs::Told::gone_none))]
    fn run_asked(
        &mut self,
        given: &Given<'_>,
        rooms: &mut Rooms<'_>,
        line: Option<Line>,
    ) -> Result<u32, Failure>
        ensures rooms { KeepsRooms rooms.old rooms.new }
        ensures runs { (q : List ℕ) → gone result (world_of self.new q rooms.new) ≡ going (run_by given.now.lent (world_of self.old q rooms.old) line) }
    {
        let base = self.base;
        let size = rooms.scratch.len();
        match line.ok_or(Failure::Failed)? {
            Line::Done => Ok(0),
            Line::Erase { start, size } => self.run_erase(given, rooms, start, size),
            Line::Write { offset, len, addr } => {
                self.run_write(given, rooms, offset, window_of(base, size, addr, len))
            }
            Line::Read { offset, len, addr } => {
                self.run_read(given, rooms, offset, window_of(base, size, addr, len))
            }
            Line::Boot { addr, len } => self.run_boot(rooms, window_of(base, size, addr, len)),
        }
    }

    // A line is run. One whose first word is `reset` raises `reset_requested`.
    #[tactic(auto, unfolding(crate::specs::Running::run_line))]
    fn run_line(
        &mut self,
        given: &Given<'_>,
        rooms: &mut Rooms<'_>,
        line: &[u8],
    ) -> Result<u32, Failure>
        ensures rooms { KeepsRooms rooms.old rooms.new }
        ensures runs { (q : List ℕ) → gone result (world_of self.new q rooms.new) ≡ going (run_line given.now.lent line.now (world_of self.old q rooms.old)) }
    {
        self.asked |= is_reset(line);
        self.run_asked(given, rooms, parse(line))
    }

    // RUN_SHELL_STR: the line of the payload is run, if there is one.
    #[tactic(auto, unfolding(crate::specs::Running::shell))]
    pub(crate) fn shell(
        &mut self,
        given: &Given<'_>,
        rooms: &mut Rooms<'_>,
        payload: &[u8],
    ) -> Result<u32, Failure>
        ensures rooms { KeepsRooms rooms.old rooms.new }
        ensures runs { (q : List ℕ) → gone result (world_of self.new q rooms.new) ≡ going (shell given.now.lent payload.now (world_of self.old q rooms.old)) }
    {
        let n = text_len(payload).ok_or(Failure::Failed)?;
        self.run_line(given, rooms, &payload[4..4 + n])
    }
}

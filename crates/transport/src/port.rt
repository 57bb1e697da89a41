// The state of the transport between packets, which goes in and comes back by value.
ghost use Rattle.std.specs.Prelude.{◌≡◌, ◌≤◌};
ghost use Rattle.transport.specs.Port.{idle, awaiting, closing, room_of, took};

/// What the next packet is: a CBW, a packet of the data stage of a WRITE, or one to a closed session, which
/// answers nothing.
#[derive(Clone, Copy, Debug, PartialEq, Eq)]
pub enum Mode {
    Command,
    Data,
    Closed,
}

/// The transport between packets: the tag of the CBW, how many bytes are left of its data stage, and the
/// status of the last engine write in it.
// A status is a number here and below, since it is a byte that the CSW sends.
#[derive(Clone, Copy, Debug, PartialEq, Eq)]
pub struct Port {
    pub mode: Mode,
    pub tag: u32,
    pub left: u32,
    pub status: u8,
}

impl Port {
    /// A session as it starts: a CBW is next.
    pub fn start() -> Port
        ensures { result ≡ idle }
    {
        Port {
            mode: Mode::Command,
            tag: 0,
            left: 0,
            status: 0,
        }
    }

    // The data stage of a WRITE begins: so many bytes are awaited.
    pub(crate) fn stage(tag: u32, left: u32) -> Port
        ensures { result ≡ awaiting tag left 0 }
    {
        Port {
            mode: Mode::Data,
            tag,
            left,
            status: 0,
        }
    }

    // After the CSW for a valid CBW: the session closes if the host asked for a reset.
    pub(crate) fn ended(self, asked: bool) -> Port
        ensures { result ≡ closing asked }
    {
        if asked {
            return Port {
                mode: Mode::Closed,
                ..Port::start()
            };
        }
        Port::start()
    }

    // The room of the next packet of a data stage.
    pub(crate) fn room(self) -> usize
        ensures { result ≡ room_of self }
    {
        (self.left as usize).min(512)
    }

    // A packet of so many bytes was written to the engine, which answered so.
    pub(crate) fn took(mut self, n: u32, status: u8) -> Port
        requires { n ≤ self.left }
        ensures { result ≡ took self n status }
    {
        self.left -= n;
        self.status = status;
        self
    }
}

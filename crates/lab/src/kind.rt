// What a record asks for.
use record::Unknown;
use wire::bytes::u16_at;

/// The kinds of records: 1 to 5 are calls on an engine, 16 and 17 openings, 32 to 38 calls on a storage; 39 sets
/// bytes of scratch and 40 looks, whichever of the two is open.
#[derive(Clone, Copy, Debug, PartialEq, Eq)]
pub enum Kind {
    Write = 1,
    Read = 2,
    Reset = 3,
    Packet = 4,
    Flags = 5,
    OpenStore = 16,
    OpenEngine = 17,
    Flush = 32,
    Erase = 33,
    Put = 34,
    Get = 35,
    From = 36,
    Into = 37,
    At = 38,
    Poke = 39,
    Look = 40,
}

impl TryFrom<u16> for Kind {
    type Error = Unknown;

    // std has no derive for it
    fn try_from(n: u16) -> Result<Kind, Unknown> {
        match n {
            1 => Ok(Kind::Write),
            2 => Ok(Kind::Read),
            3 => Ok(Kind::Reset),
            4 => Ok(Kind::Packet),
            5 => Ok(Kind::Flags),
            16 => Ok(Kind::OpenStore),
            17 => Ok(Kind::OpenEngine),
            32 => Ok(Kind::Flush),
            33 => Ok(Kind::Erase),
            34 => Ok(Kind::Put),
            35 => Ok(Kind::Get),
            36 => Ok(Kind::From),
            37 => Ok(Kind::Into),
            38 => Ok(Kind::At),
            39 => Ok(Kind::Poke),
            40 => Ok(Kind::Look),
            _ => Err(Unknown),
        }
    }
}

impl Kind {
    /// Is a body right for this kind, whatever is open. What an opening needs is told where it is parsed.
    pub fn takes(self, body: &[u8]) -> bool {
        let len = body.len();
        match self {
            Kind::Write => len <= 4096,
            Kind::Read => len == 2 && u16_at(body, 0) <= 4112,
            Kind::Packet => len <= 512,
            Kind::Reset | Kind::Flags | Kind::Flush | Kind::Look => len == 0,
            Kind::Erase | Kind::From | Kind::Into => len == 16,
            Kind::Put => 8 <= len && len <= 65544,
            Kind::Get => len == 10,
            Kind::Poke => 4 <= len,
            Kind::At | Kind::OpenStore | Kind::OpenEngine => true,
        }
    }

    /// The kind of a record whose body is right for it.
    // The kind is a number until here, where the enum is made. replay has this line too, and its reason.
    pub fn of(kind: u16, body: &[u8]) -> Option<Kind> {
        Kind::try_from(kind).ok().filter(|kind| kind.takes(body))
    }
}

// What a record asks for.
use record::Unknown;
use wire::bytes::u16_at;

/// The kinds of records.
#[derive(Clone, Copy, Debug, PartialEq, Eq)]
pub enum Kind {
    Write = 1,
    Read = 2,
    Reset = 3,
    Packet = 4,
}

impl TryFrom<u16> for Kind {
    type Error = Unknown;

    // std has no derive for it
    fn try_from(n: u16) -> Result<Kind, Unknown> {
        match n {
            1 => Ok(Kind::Write),
            2 => Ok(Kind::Read),
            3 => Ok(Kind::Reset),
            4 => Ok(Kind::Packet),
            _ => Err(Unknown),
        }
    }
}

impl Kind {
    /// Is a body right for this kind.
    pub fn takes(self, body: &[u8]) -> bool {
        match self {
            Kind::Write => body.len() <= 4096,
            Kind::Read => body.len() == 2 && u16_at(body, 0) <= 4112,
            Kind::Reset => body.is_empty(),
            Kind::Packet => body.len() <= 512,
        }
    }

    /// The kind of a record whose body is right for it.
    // The kind is a number until here, where the enum is made. lab has this line too: to share it, `record` would need a trait of both kinds, which is no plainer.
    pub fn of(kind: u16, body: &[u8]) -> Option<Kind> {
        Kind::try_from(kind).ok().filter(|kind| kind.takes(body))
    }
}

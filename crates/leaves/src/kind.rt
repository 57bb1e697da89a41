// What a record asks for.
use record::Unknown;

/// The kinds of records: 1 to 7 a text, 8 and 9 two texts, 16 to 23 words, checksums and wrappers.
#[derive(Clone, Copy, Debug, PartialEq, Eq)]
pub enum Kind {
    Texts = 1,
    Utf8 = 2,
    Trim = 3,
    Number = 4,
    Tokens = 5,
    BeforeSemicolon = 6,
    BeforeZero = 7,
    Same = 8,
    StartsWith = 9,
    Crc = 16,
    Header = 17,
    Parsed = 18,
    Cbw = 19,
    Csw = 20,
    Words = 21,
    Put = 22,
    Bytes = 23,
}

impl TryFrom<u16> for Kind {
    type Error = Unknown;

    // std has no derive for it
    fn try_from(n: u16) -> Result<Kind, Unknown> {
        Ok(match n {
            1 => Kind::Texts,
            2 => Kind::Utf8,
            3 => Kind::Trim,
            4 => Kind::Number,
            5 => Kind::Tokens,
            6 => Kind::BeforeSemicolon,
            7 => Kind::BeforeZero,
            8 => Kind::Same,
            9 => Kind::StartsWith,
            16 => Kind::Crc,
            17 => Kind::Header,
            18 => Kind::Parsed,
            19 => Kind::Cbw,
            20 => Kind::Csw,
            21 => Kind::Words,
            22 => Kind::Put,
            23 => Kind::Bytes,
            _ => return Err(Unknown),
        })
    }
}

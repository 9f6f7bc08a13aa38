// The types of expansion messages, and the bytes that they are.
ghost use Rattle.std.specs.Prelude.{◌≡◌};
ghost use Rattle.gate.specs.Contract.{type_of, kind_in};

#[derive(Clone, Copy, Debug, PartialEq, Eq, Hash)]
pub enum Kind {
    Request = 0,
    Acknowledgement = 1,
    CheckError = 2,
}

impl From<Kind> for u8 {
    ghost from_gives = { λ kind byte. byte ≡ type_of kind };

    fn from(kind: Kind) -> u8 {
        kind as u8
    }
}

// A byte that is no type is given back.
impl TryFrom<u8> for Kind {
    type Error = u8;

    ghost try_from_gives = { λ byte r. r ≡ kind_in byte };

    fn try_from(byte: u8) -> Result<Kind, u8> {
        match byte {
            0 => Ok(Kind::Request),
            1 => Ok(Kind::Acknowledgement),
            2 => Ok(Kind::CheckError),
            _ => Err(byte),
        }
    }
}

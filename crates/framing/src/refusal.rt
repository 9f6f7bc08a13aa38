// The numbers that the box refuses with, each given exactly when its line says (docs/RULES.md). No other numbering exists.
ghost use Rattle.std.specs.Prelude.{◌≡◌, ℕ};
ghost use Rattle.framing.specs.Number.{number_of};

use std::error::Error;
use std::fmt;

// What a call refuses, by the name of its number.
#[derive(Clone, Copy, Debug, PartialEq, Eq, Hash)]
pub enum Refusal {
    // A receiver is lent a store below the link's size.
    StoreShort = 1,
    // The memory lent for the result cannot hold it.
    OutputShort = 2,
    // The link does not allow the message: one of its fields, or how long it is.
    Unsendable = 3,
    // A start mark inside an open frame.
    NewStart = 4,
    // A byte to gather when the link's size is reached, or the end of a PCS frame that has no CRC and more than 1,180 gathered bytes.
    TooLong = 5,
    // The end of a frame below the least size, or a run lent as a whole frame that is none.
    TooShort = 6,
    // A hidden byte is wrongly coded.
    WrongCode = 7,
    // The check value differs.
    WrongCheck = 8,
    // A field has a value that is not allowed.
    WrongField = 9,
    // The stated length is wrong.
    WrongLength = 10,
    // 11, a PCS frame that asked for a CRC, is withdrawn by 02: no call gives it.
    // A state whose mode is none of its kind, whose count passes the link's size or is not 0 while it hunts, whose repeat passes 3, or as MDU adds.
    UnknownState = 12,
    // PCS data is badly packed.
    BadlyPacked = 13,
    // The exchange is busy.
    Busy = 14,
    // The chain address cannot step.
    NoStep = 15,
    // The record is malformed.
    Malformed = 16,
    // The record's type is of the other signedness.
    OtherSign = 17,
    // The element number is not below the count.
    NoElement = 18,
    // 19 and 20 do not exist.
    // A PCS message is outside the display's profile.
    OutsideProfile = 21,
}

impl From<Refusal> for u8 {
    ghost from_gives = { λ refusal n. n ≡ number_of refusal };

    fn from(refusal: Refusal) -> u8 {
        refusal as u8
    }
}

// By its number, as the documents name it.
impl fmt::Display for Refusal {
    fn fmt<W: fmt::Write>(&self, f: &mut fmt::Formatter<W>) -> fmt::Result {
        write!(f, "{}", u8::from(*self))
    }
}

impl Error for Refusal {}

// What a caller may hold in place of a refusal: the refusal, or any byte as its number.
pub trait Numbered: Copy {
    ghost number: { Self → ℕ };

    fn number(self) -> u8
        ensures { result ≡ number self };
}

impl Numbered for Refusal {
    ghost number = { number_of };

    fn number(self) -> u8 {
        u8::from(self)
    }
}

impl Numbered for u8 {
    ghost number = { λ n. n };

    fn number(self) -> u8 {
        self
    }
}

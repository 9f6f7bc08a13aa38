// What the type says of a record, and the tests of its header.
ghost use Rattle.std.specs.Prelude.{◌≡◌, true, false, Some, MatchOption, MatchResult, ◌+◌, ◌^◌};
ghost use Rattle.framing.specs.declared.refusal.Refusal.TheVariants.{Malformed};
ghost use Rattle.record.specs.Form.{bytes_in, form_of, allowed, well_formed};
ghost use Rattle.record.specs.Helpers.{Found};

use framing::Refusal;
use runs::number_at;

// How many bytes an element has.
#[derive(Clone, Copy, Debug, PartialEq, Eq, Hash)]
pub enum Size {
    One = 1,
    Two = 2,
    Four = 4,
}

impl From<Size> for usize {
    ghost from_gives = { λ size n. n ≡ bytes_in size };

    fn from(size: Size) -> usize {
        size as usize
    }
}

impl Size {
    // The largest number that so many bytes hold.
    pub(crate) fn top(self) -> u32
        ensures { result + 1 ≡ 256 ^ bytes_in self }
    {
        match self {
            Size::One => 0xFF,
            Size::Two => 0xFFFF,
            Size::Four => 0xFFFF_FFFF,
        }
    }
}

// What a record's type says of its elements: their size, whether they are signed, and the limit of address plus count.
#[derive(Clone, Copy, Debug, PartialEq, Eq, Hash)]
pub struct Form {
    pub size: Size,
    pub signed: bool,
    pub limit: usize,
}

// What the header of a well-formed record says: its type, that type's form, and its count.
#[derive(Clone, Copy)]
pub(crate) struct Header {
    pub(crate) kind: u8,
    pub(crate) form: Form,
    pub(crate) count: usize,
}

// The decision over the record's type number, which may be any byte. No other place knows what a type means.
pub fn form_of(kind: u8) -> Option<Form>
    ensures { result ≡ form_of kind }
{
    let (size, signed, limit) = match kind {
        1 => (Size::One, false, 2000),
        2 => (Size::Two, false, 1000),
        3 => (Size::Two, true, 1000),
        4 => (Size::Four, true, 500),
        5 => (Size::Four, false, 500),
        _ => return None,
    };
    Some(Form {
        size,
        signed,
        limit,
    })
}

// The form of a type of which count elements may stand at an address.
pub(crate) fn allowed_form(kind: u8, address: usize, count: usize) -> Option<Form>
    ensures { MatchOption result (allowed kind address count ≡ false)
        (λ form. (allowed kind address count ≡ true) × (Some form ≡ form_of kind)) }
{
    let form = form_of(kind)?;
    if 0 < count
        && count <= form.limit
        && address <= form.limit - count
        && 5 + usize::from(form.size) * count <= 1024
    {
        Some(form)
    } else {
        None
    }
}

// Tests a whole record: its length, the fields of its header, and that it has exactly the elements that it counts.
pub(crate) fn header_of(bytes: &[u8]) -> Result<Header, Refusal>
    ensures { MatchResult result (Found bytes.now) (λ refusal. (well_formed bytes.now ≡ false) × (refusal ≡ Malformed)) }
{
    if bytes.len() < 5 {
        return Err(Refusal::Malformed);
    }
    let kind = bytes[0];
    let address = number_at(bytes, 1, 2) as usize;
    let count = number_at(bytes, 3, 2) as usize;
    let Some(form) = allowed_form(kind, address, count) else {
        return Err(Refusal::Malformed);
    };
    if bytes.len() != 5 + usize::from(form.size) * count {
        return Err(Refusal::Malformed);
    }
    Ok(Header { kind, form, count })
}

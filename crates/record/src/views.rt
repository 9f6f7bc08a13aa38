// One fare of a record, by its index, asked for as of one sort, or of whichever sort it is through a view that keeps hold of the payload.
ghost use Rattle.std.specs.Prelude.{◌≡◌, cond, ltb, Some, None};
ghost use Rattle.framing.specs.Answer.{outcome_of};
ghost use Rattle.record.specs.Form.{header_of};
ghost use Rattle.record.specs.Fares.{fare_at};
ghost use Rattle.record.specs.Answers.{reading, viewing, element_of, outcomes_of};
ghost use Rattle.record.specs.Helpers.{Found};

use super::fare::{Element, Fare};
use super::form::{Header, header_of};
use super::read::fare_at;
use framing::Refusal;

// A view keeps hold of the lent payload, with the type and the count of the record. Any numbers may stand in it.
#[derive(Clone, Copy)]
pub struct RecordView<'a> {
    pub payload: &'a [u8],
    pub kind: u8,
    pub count: usize,
}

// The view of a record. Of any other run its type and count are 0, and no element can be read.
pub fn view<'a>(bytes: &'a [u8]) -> RecordView<'a>
    ensures { (result.payload ≡ bytes.entry) × ((result.kind, result.count) ≡ header_of bytes.now) }
{
    let (kind, count) = match header_of(bytes) {
        Ok(header) => (header.kind, header.count),
        Err(_) => (0, 0),
    };
    RecordView {
        payload: bytes,
        kind,
        count,
    }
}

// The fare at an index of a record, if it counts such an element.
fn counted<F: Fare>(bytes: &[u8], header: Header, index: usize) -> Option<F>
    requires { Found bytes.now header }
    ensures { result ≡ cond (ltb index header.count) (Some (fare_at F.fares bytes.now index)) None }
{
    if index < header.count {
        Some(fare_at(bytes, header, index))
    } else {
        None
    }
}

// One element of a view.
pub fn view_element<'a>(v: RecordView<'a>, index: usize) -> Result<Element, Refusal>
    ensures { outcomes_of result ≡ viewing v.entry.payload.now v.entry.kind v.entry.count index }
{
    let header = header_of(v.payload)?;
    if header.kind != v.kind || header.count != v.count {
        return Err(Refusal::Malformed);
    }
    Ok(if header.form.signed {
        Element::Signed(counted(v.payload, header, index))
    } else {
        Element::Unsigned(counted(v.payload, header, index))
    })
}

// One element of a record, through a view. Its parameters are plain, so its callers need not know of views.
pub fn element_at(bytes: &[u8], index: usize) -> Result<Element, Refusal>
    ensures { outcomes_of result ≡ element_of bytes.now index }
{
    view_element(view(bytes), index)
}

// An element, or the refusal in its place, asked for as an unsigned fare.
pub fn as_unsigned(element: Result<Element, Refusal>) -> Result<u32, Refusal>
    ensures { outcome_of result ≡ (outcomes_of element).0 }
{
    u32::try_from(element?)
}

// The same, asked for as a signed one: a function of its own, since the answer's type is the one that is asked for.
pub fn as_signed(element: Result<Element, Refusal>) -> Result<i32, Refusal>
    ensures { outcome_of result ≡ (outcomes_of element).1 }
{
    i32::try_from(element?)
}

// The fare at an index of a record of its signedness.
pub fn element<F: Fare>(bytes: &[u8], index: usize) -> Result<F, Refusal>
    ensures { outcome_of result ≡ reading F.fares bytes.now index }
{
    let header = header_of(bytes)?;
    if header.form.signed != F::SIGNED {
        return Err(Refusal::OtherSign);
    }
    counted(bytes, header, index).ok_or(Refusal::NoElement)
}

// All fares of a record, copied to lent memory.
ghost use Rattle.std.specs.Prelude.{◌≡◌, ◌<◌};
ghost use Rattle.framing.specs.Answer.{outcome_of};
ghost use Rattle.record.specs.Fares.{fare_at};
ghost use Rattle.record.specs.Answers.{copying};
ghost use Rattle.record.specs.Helpers.{Found};

use super::fare::{Fare, Place};
use super::form::{Header, header_of};
use framing::{Answer, Refusal};
use runs::number_at;
use std::marker::PhantomData;

// The fare of an element of a record, by its index.
pub(crate) fn fare_at<F: Fare>(bytes: &[u8], header: Header, index: usize) -> F
    requires { Found bytes.now header × (index < header.count) }
    ensures { result ≡ fare_at F.fares bytes.now index }
{
    let size = header.form.size;
    let width = usize::from(size);
    let place = Place {
        within: PhantomData,
    };
    F::from_number_at(&place, number_at(bytes, 5 + width * index, width), size)
}

// Copies the fares of a record of their signedness to the start of out and answers their count.
pub fn copy<F: Fare>(bytes: &[u8], out: &mut [F]) -> Answer
    ensures { (outcome_of result, out.new) ≡ copying F.fares bytes.now out.old }
{
    let header = header_of(bytes)?;
    if header.form.signed != F::SIGNED {
        return Err(Refusal::OtherSign);
    }
    if out.len() < header.count {
        return Err(Refusal::OutputShort);
    }
    for i in 0..header.count {
        out[i] = fare_at(bytes, header, i);
    }
    Ok(header.count)
}

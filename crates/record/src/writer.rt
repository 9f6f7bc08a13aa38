// The record of given fares, written to lent memory.
ghost use Rattle.std.specs.Prelude.{◌≡◌, true, ◌∷◌, ◌++◌, ◌+◌, ◌*◌, ◌≤◌, ◌<◌, length};
ghost use Rattle.std.proofs.lemmas.List.Edits.{sets};
ghost use Rattle.std.specs.List.{list_all};
ghost use Rattle.runs.specs.Number.{bytes_of};
ghost use Rattle.framing.specs.Answer.{outcome_of};
ghost use Rattle.record.specs.Form.{bytes_in};
ghost use Rattle.record.specs.Fares.{elements};
ghost use Rattle.record.specs.Answers.{writing};

use super::fare::{Fare, Place};
use super::form::{Size, allowed_form};
use framing::{Answer, Refusal};
use runs::put_number;
use std::marker::PhantomData;

// Whether a size holds every fare.
fn holds_all<F: Fare>(fares: &[F], size: Size) -> bool
    ensures { result ≡ list_all (F.fares.holds (bytes_in size)) fares.now }
{
    fares.iter().all(|fare| fare.is_held(size))
}

// Stores the type, the address and the count at the start of out.
fn put_header(kind: u8, address: u16, count: usize, out: &mut [u8])
    requires { (5 ≤ length out.old) × (count < 65536) }
    ensures { out.new ≡ sets out.old 0 ((kind ∷ bytes_of 2 address) ++ bytes_of 2 count) }
{
    out[0] = kind;
    put_number(out, 1, 2, u32::from(address));
    put_number(out, 3, 2, count as u32);
}

// Stores the fares behind the header, as elements of a size that holds them.
fn put_elements<F: Fare>(fares: &[F], size: Size, out: &mut [u8])
    requires { (5 + bytes_in size * length fares.now ≤ length out.old) × (list_all (F.fares.holds (bytes_in size)) fares.now ≡ true) }
    ensures { out.new ≡ sets out.old 5 (elements F.fares (bytes_in size) fares.now) }
{
    let bytes = usize::from(size);
    let place = Place {
        within: PhantomData,
    };
    for (i, &fare) in fares.iter().enumerate() {
        put_number(out, 5 + bytes * i, bytes, fare.to_number_at(&place, size));
    }
}

// Writes the record of fares of the type's signedness at the start of out and answers its length.
pub fn write<F: Fare>(kind: u8, address: u16, fares: &[F], out: &mut [u8]) -> Answer
    ensures { (outcome_of result, out.new) ≡ writing F.fares kind address fares.now out.old }
{
    let count = fares.len();
    let Some(form) = allowed_form(kind, usize::from(address), count) else {
        return Err(Refusal::Unsendable);
    };
    if form.signed != F::SIGNED || !holds_all(fares, form.size) {
        return Err(Refusal::Unsendable);
    }
    let whole = 5 + usize::from(form.size) * count;
    if out.len() < whole {
        return Err(Refusal::OutputShort);
    }
    put_header(kind, address, count, out);
    put_elements(fares, form.size, out);
    Ok(whole)
}

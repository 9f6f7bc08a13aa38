// The two sorts of fares, u32 for the unsigned types and i32 for the signed ones, and an element of either.
ghost use Rattle.std.specs.Prelude.{◌≡◌, Bool, true, false, ◌<◌, ◌%◌, ◌^◌, refl};
ghost use Rattle.std.specs.Int.Signed.{mag};
ghost use Rattle.framing.specs.Answer.{outcome_of};
ghost use Rattle.record.specs.Form.{bytes_in};
ghost use Rattle.record.specs.Fares.{Signedness, unsigned_fares, signed_fares};
ghost use Rattle.record.specs.Answers.{asked_unsigned, asked_signed};

use super::form::Size;
use framing::Refusal;
use std::marker::PhantomData;

// What stands at an element number of a record: none where the record counts no such element.
#[derive(Clone, Copy, Debug, PartialEq, Eq, Hash)]
pub enum Element {
    Unsigned(Option<u32>),
    Signed(Option<i32>),
}

// An element that a call of this crate goes through, or a number or a fare that it has tested, of one sort of fares. Only those calls make one, and
// lend it, so no other can ask a fare for a number that its size does not hold.
#[derive(Drop)]
pub struct Place<F> {
    pub(crate) within: PhantomData<F>,
}

// How fares of one signedness stand for the numbers of elements.
pub trait Fare: Copy {
    ghost fares: { Signedness Self };

    ghost SIGNED: { Bool };

    // Whether a record's type has to be signed for these fares.
    const SIGNED: bool;

    // The fare that a number of such a size stands for.
    fn from_number_at(place: &Place<Self>, n: u32, size: Size) -> Self
        requires { n < 256 ^ bytes_in size }
        ensures { result ≡ fares.fare_of (bytes_in size) n };

    // Whether such a size holds the fare.
    fn is_held(self, size: Size) -> bool
        ensures { result ≡ fares.holds (bytes_in size) self };

    // The number of such a size that stands for the fare.
    fn to_number_at(self, place: &Place<Self>, size: Size) -> u32
        requires { fares.holds (bytes_in size) self ≡ true }
        ensures { result ≡ fares.number_of (bytes_in size) self };

    ghost sign: { SIGNED ≡ fares.signed };

    // What `from_number_at` gives, outside of a record. Of a number that the size does not hold, the fare of its low bytes.
    final fn from_number(n: u32, size: Size) -> Self
        ensures held { n < 256 ^ bytes_in size → result ≡ fares.fare_of (bytes_in size) n }
        ensures low { result ≡ fares.fare_of (bytes_in size) (n % 256 ^ bytes_in size) }
    {
        let place = Place {
            within: PhantomData,
        };
        Self::from_number_at(&place, n & size.top(), size)
    }

    // What `to_number_at` gives, outside of a record. Of a fare that the size does not hold, 0.
    final fn to_number(self, size: Size) -> u32
        ensures held { fares.holds (bytes_in size) self ≡ true → result ≡ fares.number_of (bytes_in size) self }
        ensures others { fares.holds (bytes_in size) self ≡ false → result ≡ 0 }
    {
        let place = Place {
            within: PhantomData,
        };
        if self.is_held(size) {
            self.to_number_at(&place, size)
        } else {
            0
        }
    }
}

impl Fare for u32 {
    ghost fares = { unsigned_fares };

    ghost SIGNED = { false };

    const SIGNED: bool = false;

    fn from_number_at(_place: &Place<Self>, n: u32, _size: Size) -> u32
        requires { n < 256 ^ bytes_in _size }
        ensures { result ≡ unsigned_fares.fare_of (bytes_in _size) n }
    {
        n
    }

    fn is_held(self, size: Size) -> bool {
        self <= size.top()
    }

    fn to_number_at(self, _place: &Place<Self>, _size: Size) -> u32
        requires { unsigned_fares.holds (bytes_in _size) self ≡ true }
        ensures { result ≡ unsigned_fares.number_of (bytes_in _size) self }
    {
        self
    }

    ghost sign = { refl };
}

// An element that is asked for as an unsigned fare.
impl TryFrom<Element> for u32 {
    type Error = Refusal;

    ghost try_from_gives = { λ element r. outcome_of r ≡ asked_unsigned element };

    fn try_from(element: Element) -> Result<u32, Refusal> {
        match element {
            Element::Unsigned(fare) => fare.ok_or(Refusal::NoElement),
            Element::Signed(_) => Err(Refusal::OtherSign),
        }
    }
}

// The same as a signed one: a second impl, since each names the case that the other refuses.
impl TryFrom<Element> for i32 {
    type Error = Refusal;

    ghost try_from_gives = { λ element r. outcome_of r ≡ asked_signed element };

    fn try_from(element: Element) -> Result<i32, Refusal> {
        match element {
            Element::Signed(fare) => fare.ok_or(Refusal::NoElement),
            Element::Unsigned(_) => Err(Refusal::OtherSign),
        }
    }
}

// How far a fare is from 0, or from -1 where it is negative: a size holds the fares for which this is below half of its numbers. `!x` is -1 - x.
fn magnitude(fare: i32) -> u32
    ensures { result ≡ mag fare }
{
    (if fare < 0 { !fare } else { fare }).cast_unsigned()
}

// Two's complement.
impl Fare for i32 {
    ghost fares = { signed_fares };

    ghost SIGNED = { true };

    const SIGNED: bool = true;

    fn from_number_at(_place: &Place<Self>, n: u32, size: Size) -> i32
        requires { n < 256 ^ bytes_in size }
        ensures { result ≡ signed_fares.fare_of (bytes_in size) n }
    {
        let top = size.top();
        if n <= top / 2 {
            n.cast_signed()
        } else {
            !(top - n).cast_signed()
        }
    }

    fn is_held(self, size: Size) -> bool {
        magnitude(self) <= size.top() / 2
    }

    fn to_number_at(self, _place: &Place<Self>, size: Size) -> u32
        requires { signed_fares.holds (bytes_in size) self ≡ true }
        ensures { result ≡ signed_fares.number_of (bytes_in size) self }
    {
        if self < 0 {
            size.top() - magnitude(self)
        } else {
            self.cast_unsigned()
        }
    }

    ghost sign = { refl };
}

// Numbers in decimal: in ASCII, without leading zeros.
#![tactic(auto)]

ghost use Rattle.std.specs.Prelude.{◌≡◌, ◌+◌, ◌≤◌, length};
ghost use Rattle.std.proofs.lemmas.List.Edits.{sets};
ghost use Rattle.framing.specs.Answer.{outcome_of, stored_at};
ghost use Rattle.decimal.specs.Decimal.{decimal};

use framing::{Answer, Refusal};

// How many decimal digits a number has.
pub fn digit_count(n: u64) -> usize
    ensures { (result ≡ length (decimal n)) × (result ≤ 20) }
{
    // a logarithm takes longer than this test
    if n < 10 {
        return 1;
    }
    n.checked_ilog10().map_or(1, |k| k as usize + 1)
}

// Stores the digits of a number, so many, the last one first.
fn put_digits(out: &mut [u8], at: usize, n: u64, digits: usize)
    requires { (digits ≡ length (decimal n)) × (at + digits ≤ length out.old) }
    ensures { out.new ≡ sets out.old at (decimal n) }
{
    let mut rest = n;
    for place in (at..at + digits).rev() {
        out[place] = b'0' + (rest % 10) as u8;
        rest /= 10;
    }
}

// Stores a number in decimal from a place on.
pub fn put(out: &mut [u8], at: usize, n: u64) -> Answer
    ensures { (outcome_of result, out.new) ≡ stored_at (decimal n) out.old at }
{
    let digits = digit_count(n);
    if !runs::fits(at, digits, out.len()) {
        return Err(Refusal::OutputShort);
    }
    put_digits(out, at, n, digits);
    Ok(digits)
}

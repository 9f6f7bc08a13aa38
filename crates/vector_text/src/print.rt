// What is printed of an answer: words, each behind a space. No contract can say what is written; what is lent stays as it came. A write that fails
// ends the call with its error, and what came before it is written.
ghost use Rattle.std.specs.Prelude.{◌≡◌};

use crate::memory;
use framing::Numbered;
use std::io;

// Bytes as they are.
pub fn text(rt: &impl Print, bytes: &[u8]) -> io::Result<()>
    ensures { bytes.exit.now ≡ bytes.entry.now }
{
    rt.write_all(bytes)
}

// A word behind a space.
pub fn word(rt: &impl Print, name: &[u8]) -> io::Result<()>
    ensures { name.exit.now ≡ name.entry.now }
{
    text(rt, b" ")?;
    text(rt, name)
}

// A number, and what stands before it.
pub fn number(rt: &impl Print, before: &[u8], value: u64) -> io::Result<()>
    ensures { before.exit.now ≡ before.entry.now }
{
    text(rt, before)?;
    rt.print(value)
}

fn next(rt: &impl Print, value: u64) -> io::Result<()> {
    number(rt, b" ", value)
}

// A name and one-byte numbers.
pub fn numbers(rt: &impl Print, name: &[u8], values: &[u8]) -> io::Result<()>
    ensures { (name.exit.now ≡ name.entry.now) × (values.exit.now ≡ values.entry.now) }
{
    word(rt, name)?;
    for value in values {
        next(rt, u64::from(*value))?;
    }
    Ok(())
}

// A name and a number.
pub fn named(rt: &impl Print, name: &[u8], value: u64) -> io::Result<()>
    ensures { name.exit.now ≡ name.entry.now }
{
    word(rt, name)?;
    next(rt, value)
}

// Bytes in upper-case hex, behind a space: eight of them are one number, since a call of the formatter costs more than a digit.
pub fn hex(rt: &impl Print, bytes: &[u8]) -> io::Result<()>
    ensures { bytes.exit.now ≡ bytes.entry.now }
{
    text(rt, b" ")?;
    for part in bytes.chunks(8) {
        let value = part
            .iter()
            .fold(0u64, |value, byte| value << 8 | u64::from(*byte));
        let width = 2 * part.len();
        print!(rt; "{value:0width$X}")?;
    }
    Ok(())
}

// Bytes of an answer: `-` for none, `long` for more than 64.
pub fn bytes(rt: &impl Print, bytes: &[u8]) -> io::Result<()>
    ensures { bytes.exit.now ≡ bytes.entry.now }
{
    if bytes.is_empty() {
        word(rt, b"-")
    } else if 64 < bytes.len() {
        word(rt, b"long")
    } else {
        hex(rt, bytes)
    }
}

// A name, and the number that the bytes are compared by.
pub fn mix(rt: &impl Print, name: &[u8], bytes: &[u8]) -> io::Result<()>
    ensures { (name.exit.now ≡ name.entry.now) × (bytes.exit.now ≡ bytes.entry.now) }
{
    named(rt, name, memory::mix(bytes))
}

// What a writer answered, whatever stands for the number of its refusal, the bytes under this name, and the memory lent.
pub fn written<E: Numbered>(
    rt: &impl Print,
    answer: Result<usize, E>,
    name: &[u8],
    out: &[u8],
) -> io::Result<()>
    ensures { (name.exit.now ≡ name.entry.now) × (out.exit.now ≡ out.entry.now) }
{
    match answer {
        Ok(count) => {
            let n = memory::within(count, out);
            named(rt, b"length", count as u64)?;
            word(rt, name)?;
            bytes(rt, &out[..n])?;
        }
        Err(refusal) => named(rt, b"refused", u64::from(refusal.number()))?,
    }
    mix(rt, b"memory", out)
}

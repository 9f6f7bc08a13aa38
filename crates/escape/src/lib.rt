// Hiding bytes between the marks of a frame: DLE doubling and the expansion escape.
#![tactic(auto)]

mod enclosed;

ghost use Rattle.std.specs.Prelude.{◌≡◌, ℕ, ◌+◌, ◌≤◌, nat_le, length};
ghost use Rattle.std.proofs.Common.{lit≤};
ghost use Rattle.std.proofs.lemmas.List.Edits.{sets};
ghost use Rattle.framing.specs.Answer.{outcome_of, stored_at};
ghost use Rattle.runs.specs.Runs.{between};
ghost use Rattle.escape.specs.Code as Rules;
ghost use Rattle.escape.specs.Code.{meaning_of, meaning, hide, unhide_up_to, unhide_into};
ghost use Rattle.escape.specs.Dle.{dle};
ghost use Rattle.escape.specs.Expansion.{expansion};
ghost use Rattle.escape.specs.Lawful.{Lawful};
ghost use Rattle.escape.specs.Form.{run_of, hidden_first};
ghost use Rattle.escape.specs.Laws.{dle_lawful, dle_hides, expansion_lawful, expansion_hides};

pub use enclosed::{Enclosed, enclose_into};
use framing::{Answer, Refusal};

// What a wire byte means between the marks: it completes this byte, it is half of an escape, it is or completes a mark, or it is wrongly coded.
#[derive(Clone, Copy)]
pub enum Meaning {
    Byte(u8),
    Waits,
    Start,
    End,
    Wrong,
}

// What is read of a run of wire bytes: how many bytes it stands for, and how many wire bytes they take.
#[derive(Clone, Copy)]
pub struct Unhidden {
    pub count: usize,
    pub used: usize,
}

// A code: it hides the bytes from FIRST to ESCAPE, each as ESCAPE and then TOP less the byte.
pub trait Code {
    ghost code: { Rules.Code };

    ghost FIRST: { ℕ };

    ghost ESCAPE: { ℕ };

    ghost TOP: { ℕ };

    const FIRST: u8;

    const ESCAPE: u8;

    const TOP: u8;

    // A wire byte with no ESCAPE waiting.
    fn plain(byte: u8) -> Meaning
        ensures { meaning_of result ≡ code.plain byte };

    // A wire byte after an ESCAPE.
    fn after(byte: u8) -> Meaning
        ensures { meaning_of result ≡ code.after byte };

    // Hidden bytes read back, and only they do.
    ghost lawful: { Lawful code };

    ghost hides: { (b : ℕ) → code.hide_byte b ≡ run_of FIRST ESCAPE TOP b };

    ghost codes_fit: { ESCAPE ≤ TOP };

    // A wire byte, with an ESCAPE waiting or not.
    final fn meaning(waiting: bool, byte: u8) -> Meaning
        ensures { meaning_of result ≡ meaning code waiting byte }
    {
        if waiting {
            Self::after(byte)
        } else {
            Self::plain(byte)
        }
    }

    // How many wire bytes bytes take.
    final fn hidden_length(bytes: &[u8]) -> usize
        ensures { result ≡ length (hide code bytes.now) }
    {
        bytes.iter().map(|byte| size::<Self>(*byte)).sum()
    }

    // Stores bytes hidden from a place on; where they do not fit there, stores nothing.
    final fn hide_into(bytes: &[u8], out: &mut [u8], at: usize) -> Answer
        ensures { (outcome_of result, out.new) ≡ stored_at (hide code bytes.now) out.old at }
    {
        if has_room::<Self>(bytes, at, out.len()) {
            Ok(put_bytes::<Self>(bytes, out, at))
        } else {
            Err(Refusal::OutputShort)
        }
    }

    // Stores what wire bytes stand for from a place on, as many as come whole and fit there, and so many at most.
    final fn unhide_into(wire: &[u8], out: &mut [u8], at: usize, most: usize) -> Unhidden
        ensures count { result.count ≡ length (unhide_into code wire.now out.old at most).0 }
        ensures used { result.used ≡ (unhide_into code wire.now out.old at most).1 }
        ensures put { out.new ≡ sets out.old at (unhide_into code wire.now out.old at most).0 }
    {
        match out.len().checked_sub(at) {
            Some(left) => unhide::<Self>(wire, &mut out[at..at + most.min(left)]),
            None => Unhidden { count: 0, used: 0 },
        }
    }
}

// Between the marks every 10 is doubled.
pub struct Dle;

impl Code for Dle {
    ghost code = { dle };

    ghost FIRST = { 0x10 };

    ghost ESCAPE = { 0x10 };

    ghost TOP = { 0x20 };

    ghost lawful = { dle_lawful };

    ghost hides = { dle_hides };

    ghost codes_fit = { lit≤ tt };

    const FIRST: u8 = 0x10;

    const ESCAPE: u8 = 0x10;

    const TOP: u8 = 0x20;

    fn plain(byte: u8) -> Meaning {
        match byte {
            0x10 => Meaning::Waits,
            _ => Meaning::Byte(byte),
        }
    }

    fn after(byte: u8) -> Meaning {
        match byte {
            0x02 => Meaning::Start,
            0x03 => Meaning::End,
            0x10 => Meaning::Byte(0x10),
            _ => Meaning::Wrong,
        }
    }
}

// A byte b from FD on is sent as FF and then FF - b.
pub struct Expansion;

impl Code for Expansion {
    ghost code = { expansion };

    ghost FIRST = { 0xFD };

    ghost ESCAPE = { 0xFF };

    ghost TOP = { 0xFF };

    ghost lawful = { expansion_lawful };

    ghost hides = { expansion_hides };

    ghost codes_fit = { lit≤ tt };

    const FIRST: u8 = 0xFD;

    const ESCAPE: u8 = 0xFF;

    const TOP: u8 = 0xFF;

    fn plain(byte: u8) -> Meaning {
        match byte {
            0xFD => Meaning::Start,
            0xFE => Meaning::End,
            0xFF => Meaning::Waits,
            _ => Meaning::Byte(byte),
        }
    }

    fn after(byte: u8) -> Meaning {
        match byte {
            0xFD => Meaning::Start, // FD always starts
            0x02 => Meaning::Byte(0xFD),
            0x01 => Meaning::Byte(0xFE),
            0x00 => Meaning::Byte(0xFF),
            _ => Meaning::Wrong, // FE too
        }
    }
}

// Whether a code hides a byte.
fn is_hidden<C: Code>(byte: u8) -> bool
    ensures { result ≡ between C.FIRST C.ESCAPE byte }
{
    runs::is_between(C::FIRST, C::ESCAPE, byte)
}

// How many wire bytes a byte takes.
fn size<C: Code>(byte: u8) -> usize
    ensures { result ≡ length (C.code.hide_byte byte) }
{
    if is_hidden::<C>(byte) { 2 } else { 1 }
}

// Whether a run of bytes, hidden, fits at a place of a memory. Where two wire bytes for each fit, they need not be counted.
fn has_room<C: Code>(bytes: &[u8], at: usize, memory: usize) -> bool
    ensures { result ≡ nat_le (at + length (hide C.code bytes.now)) memory }
{
    match memory.checked_sub(at) {
        Some(room) => bytes.len() <= room / 2 || C::hidden_length(bytes) <= room,
        None => false,
    }
}

// Stores a byte at a place, hidden, and tells how many wire bytes it took.
fn put_byte<C: Code>(byte: u8, out: &mut [u8], at: usize) -> usize
    requires { at + length (C.code.hide_byte byte) ≤ length out.old }
    ensures taken { result ≡ length (C.code.hide_byte byte) }
    ensures put { out.new ≡ sets out.old at (C.code.hide_byte byte) }
{
    if is_hidden::<C>(byte) {
        out[at] = C::ESCAPE;
        out[at + 1] = C::TOP - byte;
        2
    } else {
        out[at] = byte;
        1
    }
}

// Stores bytes from a place on, hidden, and tells how many wire bytes they took.
fn put_bytes<C: Code>(bytes: &[u8], out: &mut [u8], at: usize) -> usize
    requires { at + length (hide C.code bytes.now) ≤ length out.old }
    ensures taken { result ≡ length (hide C.code bytes.now) }
    ensures put { out.new ≡ sets out.old at (hide C.code bytes.now) }
{
    let mut n: usize = 0;
    for byte in bytes {
        n += put_byte::<C>(*byte, out, at + n);
    }
    n
}

// The hidden byte with which wire bytes begin, where it lies whole.
fn first_hidden<C: Code>(wire: &[u8]) -> Option<u8>
    ensures { result ≡ hidden_first C.code wire.now }
{
    match wire {
        [first, second, ..] => match (C::plain(*first), C::after(*second)) {
            (Meaning::Waits, Meaning::Byte(byte)) => Some(byte),
            _ => None,
        },
        _ => None,
    }
}

// Stores what wire bytes stand for, as many bytes as come whole and as there is room for.
fn unhide<C: Code>(wire: &[u8], out: &mut [u8]) -> Unhidden
    ensures count { result.count ≡ length (unhide_up_to C.code (length out.old) wire.now).0 }
    ensures used { result.used ≡ (unhide_up_to C.code (length out.old) wire.now).1 }
    ensures put { out.new ≡ sets out.old 0 (unhide_up_to C.code (length out.old) wire.now).0 }
{
    let mut count: usize = 0;
    let mut used: usize = 0;
    // no `for`: a turn takes a run of bytes and then a pair
    loop {
        let n = runs::copy_before(
            C::FIRST,
            C::ESCAPE,
            &wire[used..],
            &mut out[count..],
            0,
            usize::MAX,
        );
        count += n;
        used += n;
        if count == out.len() {
            break;
        }
        let Some(byte) = first_hidden::<C>(&wire[used..]) else {
            break;
        };
        out[count] = byte;
        count += 1;
        used += 2;
    }
    Unhidden { count, used }
}

// The words of a line, counted from 0. A word that is not there is empty: it stands for 0 and for no bytes.
ghost use Rattle.std.specs.Prelude.{◌≡◌, true, ◌↔◌, ◌<◌, ◌≤◌, ◌+◌, ◌%◌, ◌^◌, min, length, take, drop};
ghost use Rattle.vector_text.specs.Counted.{PutAtStart};
ghost use Rattle.vector_text.specs.Laid.{byte_of, laid};
ghost use Rattle.vector_text.specs.Words.{index_of, words_from, word_of, first_byte, with_digit, parsed_decimal, number_of, hex_of};
ghost use Rattle.vector_text.specs.Words.{unhexed, given_by, example};

use crate::memory;
use crate::memory::Content;

// The first place of such a byte from a place on; the length where there is none.
pub fn find(bytes: &[u8], from: usize, byte: u8) -> usize
    ensures place { from ≤ length bytes.now → result ≡ from + index_of byte (drop from bytes.now) }
    ensures beyond { length bytes.now < from → result ≡ length bytes.now }
    ensures within { result ≤ length bytes.now }
{
    if bytes.len() < from {
        return bytes.len();
    }
    from + runs::count_before(byte, byte, &bytes[from..])
}

// The place at which word k begins.
fn start(line: &[u8], k: usize) -> usize
    ensures { (result ≤ length line.now) × (drop result line.now ≡ words_from k line.now) }
{
    let mut at = 0;
    for passed in 0..k {
        let end = find(line, at, b' ');
        if end == line.len() {
            return end;
        }
        at = end + 1;
    }
    at
}

// Word k.
pub fn word(line: &[u8], k: usize) -> &[u8]
    ensures { result.now ≡ word_of k line.now }
{
    let from = start(line, k);
    let to = find(line, from, b' ');
    &line[from..to]
}

// Whether word k is this name.
pub fn is(line: &[u8], k: usize, name: &[u8]) -> bool
    ensures { (result ≡ true) ↔ (word_of k line.now ≡ name.now) }
{
    word(line, k) == name
}

// A line without the words `example N` at its front.
pub fn call(line: &[u8]) -> &[u8]
    ensures { (word_of 0 line.now ≡ example → result.now ≡ words_from 2 line.now)
        × ((word_of 0 line.now ≡ example → ⊥) → result.now ≡ line.now) }
{
    if is(line, 0, b"example") {
        let from = start(line, 2);
        &line[from..]
    } else {
        line
    }
}

fn with_digit(value: u64, b: u8) -> u64
    ensures { result ≡ with_digit value b }
{
    if b.is_ascii_digit() {
        value % 1_000_000_000 * 10 + u64::from(b - b'0')
    } else {
        value
    }
}

// The number that the digits of a word make, whatever else stands in it.
fn decimal(word: &[u8]) -> u64
    ensures { result ≡ parsed_decimal word.now }
{
    let mut value: u64 = 0;
    for b in word {
        value = with_digit(value, *b);
    }
    value
}

fn number(line: &[u8], k: usize) -> u64
    ensures { result ≡ number_of k line.now }
{
    decimal(word(line, k))
}

// Word k as a number.
pub fn size(line: &[u8], k: usize) -> usize
    ensures { result ≡ number_of k line.now }
{
    number(line, k) as usize
}

// Word k as a number modulo 2^32; below, 2^16 and 2^8: no method of the library cuts a number to the width of a type parameter.
pub fn number32(line: &[u8], k: usize) -> u32
    ensures { result ≡ number_of k line.now % 2 ^ 32 }
{
    (number(line, k) % 4294967296) as u32
}

// Word k as a number modulo 2^16.
pub fn number16(line: &[u8], k: usize) -> u16
    ensures { result ≡ number_of k line.now % 2 ^ 16 }
{
    (number(line, k) % 65536) as u16
}

// Word k as a number modulo 256.
pub fn byte(line: &[u8], k: usize) -> u8
    ensures { result ≡ number_of k line.now % 2 ^ 8 }
{
    (number(line, k) % 256) as u8
}

fn first_of(word: &[u8]) -> u8
    ensures { result ≡ first_byte word.now }
{
    word.first().copied().unwrap_or(0)
}

// The first byte of a word.
pub fn first(line: &[u8], k: usize) -> u8
    ensures { result ≡ first_byte (word_of k line.now) }
{
    first_of(word(line, k))
}

fn hex_digit(b: u8) -> u8
    ensures { (result ≡ hex_of b) × (result ≤ 15) }
{
    match b {
        b'0'..=b'9' => b - b'0',
        b'A'..=b'F' => b - b'A' + 10,
        _ => 0,
    }
}

// The bytes of a word in hex, as far as there is room.
fn unhex(word: &[u8], out: &mut [u8]) -> usize
    ensures { PutAtStart (take (length out.old) (unhexed word.now)) out.old out.new result }
{
    let most = out.len().min(word.len() / 2);
    for n in 0..most {
        out[n] = hex_digit(word[2 * n]) * 16 + hex_digit(word[2 * n + 1]);
    }
    most
}

// So many bytes of a content, as far as there is room.
fn lay(content: Content, count: usize, out: &mut [u8]) -> usize
    ensures { PutAtStart (laid (byte_of content) (min count (length out.old))) out.old out.new result }
{
    let n = memory::within(count, out);
    memory::fill(content, &mut out[..n]);
    n
}

// Puts the bytes of a word at the start of out and answers how many. The last frame is `frame`.
pub fn bytes(line: &[u8], k: usize, frame: &[u8], out: &mut [u8]) -> usize
    ensures { PutAtStart (given_by (word_of k line.now) frame.now (length out.old))
        out.old out.new result }
{
    let it = word(line, k);
    match first_of(it) {
        b'f' => memory::copy(frame, out),
        b'r' => lay(Content::Run, decimal(it) as usize, out),
        b's' => lay(Content::Same, decimal(it) as usize, out),
        _ => unhex(it, out),
    }
}

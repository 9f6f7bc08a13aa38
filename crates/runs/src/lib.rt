// Runs of bytes, for every crate above: definitions in specs/, laws in proofs/, and here numbers of up to four bytes, low byte first, read from and
// stored in slices, the bytes of a run before the first mark, and the total of a run. No function asks anything of its caller: bytes that are not
// there are not read, and places that are not there not stored to.
#![tactic(auto)]

ghost use Rattle.std.specs.Prelude.{◌≡◌, ◌+◌, ◌-◌, ◌≤◌, min, length, take, drop, nat_le};
ghost use Rattle.std.proofs.lemmas.List.Edits.{sets};
ghost use Rattle.runs.specs.Runs.{between, before};
ghost use Rattle.runs.specs.Number.{little_endian, bytes_of};
ghost use Rattle.runs.specs.Total.{total_from};

// The smaller of two numbers, as `usize::min` has it: docs/CLAIMS.md names this function.
pub fn least(a: usize, b: usize) -> usize
    ensures { result ≡ min a b }
{
    a.min(b)
}

// Whether so many bytes fit at a place of a memory.
pub fn fits(at: usize, size: usize, memory: usize) -> bool
    ensures { result ≡ nat_le (at + size) memory }
{
    at <= memory && size <= memory - at
}

// The number that the bytes from a place stand for, at most size of them and at most four.
pub fn number_at(s: &[u8], at: usize, size: usize) -> u32
    ensures { result ≡ little_endian (take (min size 4) (drop at s.now)) }
{
    let many = size.min(4).min(s.len().saturating_sub(at));
    let mut n = 0;
    for k in (0..many).rev() {
        n = n * 256 + u32::from(s[at + k]);
    }
    n
}

// Stores size bytes of a number from a place on, as far as the slice goes.
pub fn put_number(out: &mut [u8], at: usize, size: usize, n: u32)
    ensures { out.new ≡ sets out.old at (bytes_of size n) }
{
    let stop = size.min(out.len().saturating_sub(at));
    let mut rest = n;
    for k in 0..stop {
        out[at + k] = (rest % 256) as u8;
        rest /= 256;
    }
}

// Whether a byte lies from low to high, both included: as the marks do, or digits.
pub fn is_between(low: u8, high: u8, byte: u8) -> bool
    ensures { result ≡ between low high byte }
{
    (low..=high).contains(&byte)
}

// How many bytes of a run lie before its first mark; all of them where it has none.
pub fn count_before(low: u8, high: u8, s: &[u8]) -> usize
    ensures count { result ≡ before low high s.now }
    ensures within { result ≤ length s.now }
{
    s.iter()
        .position(|byte| is_between(low, high, *byte))
        .unwrap_or(s.len())
}

// Stores the bytes of a run before its first mark from a place on, at most so many and as far as the slice goes, and tells how many.
pub fn copy_before(low: u8, high: u8, s: &[u8], out: &mut [u8], at: usize, most: usize) -> usize
    ensures count { result ≡ min (min most (length out.old - at)) (before low high s.now) }
    ensures within { (result ≤ most) × (result ≤ length s.now) }
    ensures stored { out.new ≡ sets out.old at (take result s.now) }
{
    let stop = most.min(out.len().saturating_sub(at)).min(s.len());
    for (k, byte) in s[..stop].iter().enumerate() {
        if is_between(low, high, *byte) {
            return k;
        }
        out[at + k] = *byte;
    }
    stop
}

// The bytes added up from a start, modulo 256.
pub fn total(start: u8, bytes: &[u8]) -> u8
    ensures { result ≡ total_from start bytes.now }
{
    bytes
        .iter()
        .fold(start, |total, byte| total.wrapping_add(*byte))
}

// Memory that is lent to calls: what it holds beforehand, and a number to compare it by afterwards.
ghost use Rattle.std.specs.Prelude.{◌≡◌, min, length, take, IfOk, OnErr};
ghost use Rattle.vector_text.specs.Counted.{Counted, PutAtStart};
ghost use Rattle.vector_text.specs.Laid.{byte_of, laid};
ghost use Rattle.vector_text.specs.Words.{fitted};

use framing::Answer;

// What the programs lend a call at most, and keep of a frame. What they print of a longer word or a larger room depends on it: no Vec.
pub const SIZE: usize = 4096;

// What is laid into memory: byte k is 7k + 3, or 5, or k modulo 251.
#[derive(Clone, Copy)]
pub enum Content {
    Run,
    Same,
    Lent,
}

fn byte_of(content: Content, k: usize) -> u8
    ensures { result ≡ byte_of content k }
{
    match content {
        Content::Run => ((k % 256 * 7 + 3) % 256) as u8,
        Content::Same => 5,
        Content::Lent => (k % 251) as u8,
    }
}

// Fills a memory with a content.
pub fn fill(content: Content, out: &mut [u8])
    ensures { out.new ≡ laid (byte_of content) (length out.old) }
{
    for (k, byte) in out.iter_mut().enumerate() {
        *byte = byte_of(content, k);
    }
}

// From 0, for each byte: 31 times as much and the byte, modulo 2^32.
pub(crate) fn mix(bytes: &[u8]) -> u64 {
    let mixed = bytes.iter().fold(
        0u32,
        |mixed, byte| mixed.wrapping_mul(31).wrapping_add(u32::from(*byte)),
    );
    u64::from(mixed)
}

// So many bytes, or all if there are not so many.
pub fn within(count: usize, bytes: &[u8]) -> usize
    ensures { (result ≡ min count (length bytes.now)) × Counted result bytes.now }
{
    count.min(bytes.len())
}

// Copies all bytes to the start of out, none if they do not fit, and answers how many.
pub fn copy(source: &[u8], out: &mut [u8]) -> usize
    ensures { PutAtStart (fitted (length out.old) source.now) out.old out.new result }
{
    if source.len() <= out.len() {
        out[..source.len()].copy_from_slice(source);
        source.len()
    } else {
        0
    }
}

// Keeps at the start of memory the frame that a writer made in out, as far as it fits; answers the length of the last frame kept.
pub fn keep(answer: Answer, out: &[u8], frame: &mut [u8], last: usize) -> usize
    ensures made { IfOk answer (λ n. PutAtStart (fitted (length frame.old) (take n out.now)) frame.old frame.new result) }
    ensures none { OnErr answer ((frame.new ≡ frame.old) × (result ≡ last)) }
{
    match answer {
        Ok(count) => copy(&out[..within(count, out)], frame),
        Err(_) => last,
    }
}

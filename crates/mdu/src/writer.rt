// Which messages may be sent, and their frames.
ghost use Rattle.std.specs.Prelude.{◌≡◌, ◌+◌, ◌≤◌, length};
ghost use Rattle.std.proofs.lemmas.List.Edits.{sets};
ghost use Rattle.mdu.specs.Frame.{ok, header, frame};

use super::header::{header_sum, length_ok};

// Whether a message may be sent.
pub(crate) fn may_send(address: u8, body: &[u8]) -> bool
    ensures { result ≡ ok (record { address = address; body = body.now }) }
{
    1 <= address && length_ok(body.len())
}

// The header of a body of so many bytes.
fn header(stated: u16, address: u8) -> [u8; 6]
    ensures { result ≡ header stated address }
{
    let [high, low] = stated.to_be_bytes();
    let mut header = [0xE3, 0x01, high, low, address, 0];
    header[5] = header_sum(&header[..5]);
    header
}

// Stores the bytes from a place on. By hand, since `copy_from_slice` calls memmove, and the C library wants no symbol from outside (README).
pub(crate) fn put_bytes(out: &mut [u8], at: usize, bytes: &[u8])
    requires { at + length bytes.now ≤ length out.old }
    ensures { out.new ≡ sets out.old at bytes.now }
{
    for i in 0..bytes.len() {
        out[at + i] = bytes[i];
    }
}

// Stores a frame at the start.
pub(crate) fn put_frame(address: u8, body: &[u8], out: &mut [u8])
    requires { (length body.now ≤ 1025) × (8 + length body.now ≤ length out.old) }
    ensures { out.new ≡ sets out.old 0 (frame (record { address = address; body = body.now })) }
{
    let end = 6 + body.len();
    let check = checksum::crc16(0, body);
    out[..6].copy_from_slice(&header(body.len() as u16, address));
    put_bytes(out, 6, body);
    out[end..end + 2].copy_from_slice(&check.to_be_bytes());
}

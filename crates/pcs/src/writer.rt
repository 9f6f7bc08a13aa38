// The frames of PCS messages.
ghost use Rattle.std.specs.Prelude.{◌≡◌, true, false, [], ◌∷◌, ◌++◌, ◌+◌, ◌-◌, ◌≤◌, ◌<◌, length, take, drop, get_or};
ghost use Rattle.std.proofs.lemmas.List.Edits.{sets};
ghost use Rattle.framing.specs.Answer.{outcome_of};
ghost use Rattle.framing.specs.Writer.{writes};
ghost use Rattle.packing.specs.Packed.{packed_length};
ghost use Rattle.checksum.specs.Sum.{total_of};
ghost use Rattle.pcs.specs.Frame.{ok, header, crc_bytes, trailer, trailing, frame};
ghost use Rattle.pcs.specs.Contract.{with_data};
ghost use Rattle.pcs.specs.Steps.{with_crc, crc_marked};

use super::{Message, fields};
use framing::{Answer, Refusal};

// Whether a message may be sent.
fn may_send(message: Message, data: &[u8]) -> bool
    ensures { result ≡ ok (with_data message «data».now) }
{
    fields::plain_fields_ok(message)
        && fields::kind_ok(message.kind, data.len())
        && data.len() <= 1024
}

// Stores the start mark and the header of a message with so many packed bytes, as it is without a CRC.
fn put_header(message: Message, packed: usize, out: &mut [u8])
    requires { (message.kind ≤ 3) × (packed < 16384) × (9 ≤ length out.old) }
    ensures { out.new ≡ sets out.old 0 (253 ∷ header (with_crc false (with_data message [])) packed) }
{
    let header = [
        fields::START,
        message.receiver,
        message.sender,
        fields::INFO + message.kind,
        message.number,
        packing::sent_as((packed / 128) as u8),
        packing::sent_as((packed % 128) as u8),
        message.sender_port,
        message.receiver_port,
    ];
    out[..9].copy_from_slice(&header);
}

// Stores the three bytes of a CRC of this value and the end mark from a place on.
fn put_crc(out: &mut [u8], at: usize, value: u16)
    requires { at + 4 ≤ length out.old }
    ensures { out.new ≡ sets out.old at (crc_bytes value ++ (254 ∷ [])) }
{
    let end = at + 3;
    out[at..end].copy_from_slice(&fields::crc_bytes(value));
    out[end] = fields::END;
}

// Stores the sum of the body, which stands behind the start mark up to a place and has this total, and the end mark from that place on.
fn put_end(out: &mut [u8], at: usize, total: u8)
    requires { (1 ≤ at) × (at + 1 < length out.old) × (total ≡ total_of (take (at - 1) (drop 1 out.old))) }
    ensures { out.new
        ≡ sets out.old at (trailer false (take (at - 1) (drop 1 out.old)) ++ (254 ∷ [])) }
{
    out[at] = checksum::sum_of_total(total);
    out[at + 1] = fields::END;
}

// Makes the header that of a frame with a CRC, and stores the sum, the CRC and the end mark from a place on.
fn put_crc_end(out: &mut [u8], at: usize)
    requires { (4 ≤ at) × (at + 4 < length out.old) × (get_or out.old 3 0 ≤ 247) }
    ensures { out.new
        ≡ sets (crc_marked out.old) at
        (trailer true (take (at - 1) (drop 1 (crc_marked out.old))) ++ (254 ∷ [])) }
{
    out[3] += 8;
    let sum = checksum::sum(&out[1..at]);
    let value = checksum::crc16(0, &out[1..at]);
    out[at] = sum;
    put_crc(out, at + 1, value);
}

// Stores a frame at the start, with so many packed bytes. What a CRC changes is stored last, so that a frame without one does not pay for it.
fn put_frame(message: Message, data: &[u8], packed: usize, out: &mut [u8])
    requires { (message.kind ≤ 3) × (length «data».now ≤ 1024)
        × (packed ≡ packed_length (length «data».now)) × (10 + packed + trailing message.crc ≤ length out.old) }
    ensures { out.new ≡ sets out.old 0 (frame (with_data message «data».now)) }
{
    put_header(message, packed, out);
    let head = runs::total(0, &out[1..9]);
    let total = packing::pack_summed(head, data, out, 9);
    let at = 9 + packed;
    if message.crc {
        put_crc_end(out, at);
    } else {
        put_end(out, at, total);
    }
}

// Writes the frame of a message at the start of the lent memory, and answers its length. The room of a CRC is a test of its own, which
// costs a frame without one less than a length that depends on the choice.
pub fn write_message(message: Message, data: &[u8], out: &mut [u8]) -> Answer
    ensures { (outcome_of result, out.new) ≡ writes ok frame (with_data message «data».now) out.old }
{
    let packed = packing::packed_length(data);
    let plain = 11 + packed;
    framing::check_write(may_send(message, data), plain <= out.len())?;
    if message.crc && out.len() - plain < 3 {
        return Err(Refusal::OutputShort);
    }
    put_frame(message, data, packed, out);
    Ok(10 + packed + fields::trailing(message.crc))
}

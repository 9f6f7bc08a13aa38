// The fields of a PCS frame.
ghost use Rattle.std.specs.Prelude.{◌≡◌, [], ◌+◌, ◌*◌, ◌%◌};
ghost use Rattle.packing.specs.Seven.{value_of};
ghost use Rattle.pcs.specs.Frame.{plain_ok, receiver_ok, plain_fields_ok, kind_ok, crc_bytes, trailing};
ghost use Rattle.pcs.specs.Rules.{crc_info, info_ok};
ghost use Rattle.pcs.specs.Contract.{with_data};

use super::Message;

// The first byte of a frame.
pub const START: u8 = 253;

// The last byte of a frame.
pub const END: u8 = 254;

// The info of kind 0 in a frame without a CRC; with one it is 8 more.
pub const INFO: u8 = 4;

// Whether an address, a number or a port is allowed.
pub fn plain_ok(b: u8) -> bool
    ensures { result ≡ plain_ok b }
{
    (1..=250).contains(&b)
}

// Whether a receiver is allowed: 255 is everybody.
pub fn receiver_ok(b: u8) -> bool
    ensures { result ≡ receiver_ok b }
{
    plain_ok(b) || b == 255
}

// Whether a kind is known, and may go with so many data bytes or packed bytes.
pub fn kind_ok(kind: u8, count: usize) -> bool
    ensures { result ≡ kind_ok kind count }
{
    let most: u8 = if count == 0 { 3 } else { 1 };
    kind <= most
}

// Whether the addresses, the number and the ports are allowed.
pub fn plain_fields_ok(message: Message) -> bool
    ensures { result ≡ plain_fields_ok (with_data message []) }
{
    receiver_ok(message.receiver)
        && plain_ok(message.sender)
        && plain_ok(message.number)
        && plain_ok(message.sender_port)
        && plain_ok(message.receiver_port)
}

// Whether a frame with this info byte has a CRC.
pub fn crc_info(info: u8) -> bool
    ensures { result ≡ crc_info info }
{
    (12..=15).contains(&info)
}

// Whether an info byte is allowed.
pub fn info_ok(info: u8) -> bool
    ensures { result ≡ info_ok info }
{
    (4..=7).contains(&info) || crc_info(info)
}

// The bytes of a CRC of this value, lowest bits first: seven bits, seven bits, and the top two.
pub fn crc_bytes(value: u16) -> [u8; 3]
    ensures { result ≡ crc_bytes value }
{
    [
        packing::sent_as((value % 128) as u8),
        packing::sent_as((value / 128 % 128) as u8),
        packing::sent_as((value / 16384) as u8),
    ]
}

// How many bytes a trailer has.
pub fn trailing(crc: bool) -> usize
    ensures { result ≡ trailing crc }
{
    if crc { 4 } else { 1 }
}

// The kind that an info byte gives.
pub fn kind_of(info: u8) -> u8
    ensures { result ≡ info % 4 }
{
    info % 4
}

// The length that two bytes state, seven bits each.
pub fn stated_by(high: u8, low: u8) -> usize
    ensures { result ≡ value_of high * 128 + value_of low }
{
    usize::from(packing::value_of(high)) * 128 + usize::from(packing::value_of(low))
}

// The calls of a host that is written in C: numbers and byte slices only. include/linebox.h is their header, and host_c exports them.
#![tactic(auto)]

ghost use Rattle.std.specs.Prelude.{◌≡◌, ℕ, cond, ◌*◌, ◌^◌};
ghost use Rattle.checksum.specs.Crc.{crc16_from};
ghost use Rattle.framing.specs.Answer.{outcome_of};
ghost use Rattle.pcs.specs.Contract as Pcs;
ghost use Rattle.pcs.specs.Frame as PcsFrame;
ghost use Rattle.mdu.specs.Contract as Mdu;
ghost use Rattle.dle.specs.Contract as Dle;
ghost use Rattle.dle.specs.Frame.{content, error as error_message};
ghost use Rattle.expansion.specs.Contract as Expansion;
ghost use Rattle.expansion.specs.Frame as ExpansionFrame;
ghost use Rattle.host.specs.Read.{packed, encode, coded, reads, pcs_code, mdu_code, dle_code, expansion_code};
ghost use Rattle.host.specs.Write.{int32_of, writes_to, chosen};
ghost use Rattle.host.specs.Steps.{Short};
ghost use Rattle.host.specs.Display.{order_written, order_code, order_read, places_code};

use display::Order;
use framing::{Answer, Link, Refusal};

// The bit that tells of a CRC, at its place.
fn crc_bit(crc: bool) -> u64
    ensures { result ≡ 2 ^ 22 * cond crc 1 0 }
{
    if crc { 4194304 } else { 0 }
}

// A message as one number; a field that a link does not have is 0.
fn pack(size: usize, kind: u8, crc: bool, fields: [u8; 5]) -> u64
    ensures { result ≡ packed size kind crc fields }
{
    let [a, b, c, d, _] = fields;
    let high = (u64::from(fields[4]) * 256 + u64::from(d)) * 256 + u64::from(c);
    let all = (high * 256 + u64::from(b)) * 256 + u64::from(a);
    let low = 256 * ((size % 4096) as u64) + 1048576 * u64::from(kind % 4);
    low + crc_bit(crc) + 16777216 * all
}

// What is read, as one number.
trait Coded {
    ghost code: { Self → ℕ };

    fn code(self) -> u64
        ensures { result ≡ code self };
}

impl Coded for pcs::Message {
    ghost code = { pcs_code };

    fn code(self) -> u64 {
        pack(
            self.length,
            self.kind,
            self.crc,
            [
                self.receiver,
                self.sender,
                self.number,
                self.sender_port,
                self.receiver_port,
            ],
        )
    }
}

impl Coded for mdu::Message {
    ghost code = { mdu_code };

    fn code(self) -> u64 {
        pack(self.length, 0, false, [self.address, 0, 0, 0, 0])
    }
}

// Length 0 is an error message.
impl Coded for dle::Message {
    ghost code = { dle_code };

    fn code(self) -> u64 {
        if self.length == 0 {
            pack(0, 1, false, [self.sequence, self.node, self.error, 0, 0])
        } else {
            let size = usize::from(self.length);
            pack(size, 0, false, [self.sequence, self.node, 0, 0, 0])
        }
    }
}

impl Coded for expansion::Message {
    ghost code = { expansion_code };

    fn code(self) -> u64 {
        pack(
            self.length,
            0,
            false,
            [self.id, self.kind, self.repeat, self.address, 0],
        )
    }
}

impl Coded for Order {
    ghost code = { order_code };

    fn code(self) -> u64 {
        let low = 256 * u64::from(self.receiver) + 65536 * u64::from(self.sender);
        low + 16777216 * u64::from(self.number) + 4294967296 * u64::from(self.value)
    }
}

// A read's answer as one number: a message by its code, or the refusal's number.
fn encode<M: Coded>(read: Result<M, Refusal>) -> u64
    ensures { result ≡ encode M.code (outcome_of read) }
{
    match read {
        Ok(message) => message.code(),
        Err(refusal) => u64::from(u8::from(refusal)),
    }
}

// Reads one whole frame of a link.
fn read_frame<L: Link>(frame: &[u8], store: &mut [u8]) -> u64
where
    L::Message: Coded,
    ensures { (result, store.new) ≡ coded L.Message.code (L.reads frame.now store.old) }
{
    encode(L::read(frame, store))
}

// A writer's answer as one number: the length, or minus the refusal's number.
fn int32_of(answer: Answer) -> i32
    requires { Short (outcome_of answer) }
    ensures { result ≡ int32_of (outcome_of answer) }
{
    match answer {
        Ok(n) => n as i32,
        Err(refusal) => -(u8::from(refusal) as i32),
    }
}

// Writes a PCS message.
pub fn linebox_pcs_write(
    receiver: u8,
    sender: u8,
    kind: u8,
    number: u8,
    sender_port: u8,
    receiver_port: u8,
    crc: u8,
    data: &[u8],
    out: &mut [u8],
) -> i32
    ensures { (result, out.new) ≡ chosen crc
        (λ k. writes_to Pcs.link
        (PcsFrame.with_fields receiver sender kind number sender_port receiver_port k «data».now) out.old)
        out.old }
{
    if crc > 1 {
        return int32_of(Err(Refusal::Unsendable));
    }
    int32_of(pcs::write(
        receiver,
        sender,
        kind,
        number,
        sender_port,
        receiver_port,
        crc == 1,
        &data[..], // not `data`: handed on as it came, its two words are copied in one load, which waits for the caller's two stores
        out,
    ))
}

// Writes an MDU message.
pub fn linebox_mdu_write(address: u8, body: &[u8], out: &mut [u8]) -> i32
    ensures { (result, out.new) ≡ writes_to Mdu.link (record { address = address; body = body.now }) out.old }
{
    int32_of(mdu::write(address, body, out))
}

// Writes a DLE message with data.
pub fn linebox_dle_write(sequence: u8, node: u8, data: &[u8], out: &mut [u8]) -> i32
    ensures { (result, out.new) ≡ writes_to Dle.link (content sequence node «data».now) out.old }
{
    int32_of(dle::write(sequence, node, data, out))
}

// Writes a DLE error message.
pub fn linebox_dle_write_error(sequence: u8, node: u8, error: u8, out: &mut [u8]) -> i32
    ensures { (result, out.new) ≡ writes_to Dle.link (error_message sequence node error) out.old }
{
    int32_of(dle::write_error(sequence, node, error, out))
}

// Writes an expansion message; its type is named `kind`, since `type` is a word of the language.
pub fn linebox_expansion_write(
    id: u8,
    kind: u8,
    repeat: u8,
    address: u8,
    data: &[u8],
    out: &mut [u8],
) -> i32
    ensures { (result, out.new) ≡ writes_to Expansion.link
        (ExpansionFrame.with_fields id kind repeat address «data».now) out.old }
{
    int32_of(expansion::write(id, kind, repeat, address, data, out))
}

// Reads one whole PCS frame. A function for each link, here and of the writers: C links no generic one.
pub fn linebox_pcs_read(frame: &[u8], store: &mut [u8]) -> u64
    ensures { (result, store.new) ≡ reads Pcs.link pcs_code frame.now store.old }
{
    read_frame::<pcs::Pcs>(frame, store)
}

// Reads one whole MDU frame.
pub fn linebox_mdu_read(frame: &[u8], store: &mut [u8]) -> u64
    ensures { (result, store.new) ≡ reads Mdu.link mdu_code frame.now store.old }
{
    read_frame::<mdu::Mdu>(frame, store)
}

// Reads one whole DLE frame.
pub fn linebox_dle_read(frame: &[u8], store: &mut [u8]) -> u64
    ensures { (result, store.new) ≡ reads Dle.link dle_code frame.now store.old }
{
    read_frame::<dle::Dle>(frame, store)
}

// Reads one whole expansion frame.
pub fn linebox_expansion_read(frame: &[u8], store: &mut [u8]) -> u64
    ensures { (result, store.new) ≡ reads Expansion.link expansion_code frame.now store.old }
{
    read_frame::<expansion::Expansion>(frame, store)
}

// Carries the 16-bit check value on over a block.
pub fn linebox_crc16(start: u16, bytes: &[u8]) -> u16
    ensures { result ≡ crc16_from start bytes.now }
{
    checksum::crc16(start, bytes)
}

// Writes an order for a display.
pub fn linebox_display_write(
    value: u32,
    receiver: u8,
    sender: u8,
    number: u8,
    out: &mut [u8],
) -> i32
    ensures { (result, out.new) ≡ order_written
        (record { receiver = receiver; sender = sender; number = number; value = value }) out.old }
{
    int32_of(display::write(value, receiver, sender, number, out))
}

// Reads one whole frame of the display's profile.
pub fn linebox_display_read(frame: &[u8], store: &mut [u8]) -> u64
    ensures { (result, store.new) ≡ order_read frame.now store.old }
{
    encode(display::read(frame, store))
}

// The places that show a value, as one number.
pub fn linebox_display_shown(value: u32) -> u32
    ensures { result ≡ places_code value }
{
    runs::number_at(&display::shown(value), 0, 3)
}

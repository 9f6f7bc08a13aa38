// The C interface, whose header is include/linebox.h: each export calls the function of the same name in `host`, and states what that one does.
#![tactic(auto)]

ghost use Rattle.std.specs.Prelude.{◌≡◌};
ghost use Rattle.checksum.specs.Crc.{crc16_from};
ghost use Rattle.pcs.specs.Contract as Pcs;
ghost use Rattle.pcs.specs.Frame as PcsFrame;
ghost use Rattle.mdu.specs.Contract as Mdu;
ghost use Rattle.dle.specs.Contract as Dle;
ghost use Rattle.dle.specs.Frame.{content, error as error_message};
ghost use Rattle.expansion.specs.Contract as Expansion;
ghost use Rattle.expansion.specs.Frame as ExpansionFrame;
ghost use Rattle.host.specs.Read.{reads, pcs_code, mdu_code, dle_code, expansion_code};
ghost use Rattle.host.specs.Write.{writes_to, chosen};
ghost use Rattle.host.specs.Display.{order_written, order_read, places_code};

// Writes a PCS message.
#[unsafe(no_mangle)]
pub extern "C" fn linebox_pcs_write(
    receiver: u8,
    sender: u8,
    kind: u8,
    number: u8,
    sender_port: u8,
    receiver_port: u8,
    crc: u8,
    data: &[u8],
    out: &mut [u8],
) -> i32
    ensures { (result, out.new) ≡ chosen crc
        (λ k. writes_to Pcs.link
        (PcsFrame.with_fields receiver sender kind number sender_port receiver_port k «data».now) out.old)
        out.old }
{
    host::linebox_pcs_write(
        receiver,
        sender,
        kind,
        number,
        sender_port,
        receiver_port,
        crc,
        data,
        out,
    )
}

// Writes an MDU message.
#[unsafe(no_mangle)]
pub extern "C" fn linebox_mdu_write(address: u8, body: &[u8], out: &mut [u8]) -> i32
    ensures { (result, out.new) ≡ writes_to Mdu.link (record { address = address; body = body.now }) out.old }
{
    host::linebox_mdu_write(address, body, out)
}

// Writes a DLE message with data.
#[unsafe(no_mangle)]
pub extern "C" fn linebox_dle_write(sequence: u8, node: u8, data: &[u8], out: &mut [u8]) -> i32
    ensures { (result, out.new) ≡ writes_to Dle.link (content sequence node «data».now) out.old }
{
    host::linebox_dle_write(sequence, node, data, out)
}

// Writes a DLE error message.
#[unsafe(no_mangle)]
pub extern "C" fn linebox_dle_write_error(sequence: u8, node: u8, error: u8, out: &mut [u8]) -> i32
    ensures { (result, out.new) ≡ writes_to Dle.link (error_message sequence node error) out.old }
{
    host::linebox_dle_write_error(sequence, node, error, out)
}

// Writes an expansion message; its type is named `kind`, since `type` is a word of the language.
#[unsafe(no_mangle)]
pub extern "C" fn linebox_expansion_write(
    id: u8,
    kind: u8,
    repeat: u8,
    address: u8,
    data: &[u8],
    out: &mut [u8],
) -> i32
    ensures { (result, out.new) ≡ writes_to Expansion.link
        (ExpansionFrame.with_fields id kind repeat address «data».now) out.old }
{
    host::linebox_expansion_write(id, kind, repeat, address, data, out)
}

// Reads one whole PCS frame. A function for each link: C links no generic one.
#[unsafe(no_mangle)]
pub extern "C" fn linebox_pcs_read(frame: &[u8], store: &mut [u8]) -> u64
    ensures { (result, store.new) ≡ reads Pcs.link pcs_code frame.now store.old }
{
    host::linebox_pcs_read(frame, store)
}

// Reads one whole MDU frame.
#[unsafe(no_mangle)]
pub extern "C" fn linebox_mdu_read(frame: &[u8], store: &mut [u8]) -> u64
    ensures { (result, store.new) ≡ reads Mdu.link mdu_code frame.now store.old }
{
    host::linebox_mdu_read(frame, store)
}

// Reads one whole DLE frame.
#[unsafe(no_mangle)]
pub extern "C" fn linebox_dle_read(frame: &[u8], store: &mut [u8]) -> u64
    ensures { (result, store.new) ≡ reads Dle.link dle_code frame.now store.old }
{
    host::linebox_dle_read(frame, store)
}

// Reads one whole expansion frame.
#[unsafe(no_mangle)]
pub extern "C" fn linebox_expansion_read(frame: &[u8], store: &mut [u8]) -> u64
    ensures { (result, store.new) ≡ reads Expansion.link expansion_code frame.now store.old }
{
    host::linebox_expansion_read(frame, store)
}

// Carries the 16-bit check value on over a block.
#[unsafe(no_mangle)]
pub extern "C" fn linebox_crc16(start: u16, bytes: &[u8]) -> u16
    ensures { result ≡ crc16_from start bytes.now }
{
    host::linebox_crc16(start, bytes)
}

// Writes an order for a display.
#[unsafe(no_mangle)]
pub extern "C" fn linebox_display_write(
    value: u32,
    receiver: u8,
    sender: u8,
    number: u8,
    out: &mut [u8],
) -> i32
    ensures { (result, out.new) ≡ order_written
        (record { receiver = receiver; sender = sender; number = number; value = value }) out.old }
{
    host::linebox_display_write(value, receiver, sender, number, out)
}

// Reads one whole frame of the display's profile.
#[unsafe(no_mangle)]
pub extern "C" fn linebox_display_read(frame: &[u8], store: &mut [u8]) -> u64
    ensures { (result, store.new) ≡ order_read frame.now store.old }
{
    host::linebox_display_read(frame, store)
}

// The places that show a value, as one number.
#[unsafe(no_mangle)]
pub extern "C" fn linebox_display_shown(value: u32) -> u32
    ensures { result ≡ places_code value }
{
    host::linebox_display_shown(value)
}

// Check values, the 16-bit one also by the host's call from a start, packing, and the examples of 01 that are neither frames of a section
// nor records.
use escape::{Code, Expansion};
use framing::Answer;
use std::io;
use vector_text::{memory, print, words};

// The bytes that a call leaves at the start of memory of its own, or what it refuses.
fn show_done<C: FnOnce(&mut [u8]) -> Answer>(rt: &impl Print, call: C) -> io::Result<()>
    requires { C.IsAlwaysCallable call }
{
    let mut memory = [0u8; memory::SIZE];
    match call(&mut memory) {
        Ok(length) => {
            let n = memory::within(length, &memory);
            print::bytes(rt, &memory[..n])
        }
        Err(refusal) => print!(rt; " refused {refusal}"),
    }
}

fn run_on_bytes(rt: &impl Print, line: &[u8], bytes: &[u8]) -> io::Result<()> {
    match words::word(line, 0) {
        b"crc16" => print::hex(rt, &checksum::crc16(0, bytes).to_be_bytes()),
        b"crc32" => print::hex(rt, &checksum::crc32(bytes).to_be_bytes()),
        b"sum" => print::number(rt, b" ", u64::from(checksum::sum(bytes))),
        b"pack" => show_done(rt, |out| packing::pack_into(bytes, out, 0)),
        b"unpack" => show_done(rt, |out| {
            let n = memory::copy(bytes, out);
            packing::unpack_in_place(out, 0, n)
        }),
        b"hide" => show_done(rt, |out| Expansion::hide_into(bytes, out, 0)),
        _ => Ok(()),
    }
}

pub(crate) fn run(rt: &impl Print, line: &[u8]) -> io::Result<()> {
    let mut bytes = [0u8; memory::SIZE];
    match words::word(line, 0) {
        b"dle-frame" => {
            let n = words::bytes(line, 3, b"", &mut bytes);
            show_done(rt, |out| {
                dle::write(words::byte(line, 1), words::byte(line, 2), &bytes[..n], out)
            })
        }
        b"crc16-from" => {
            let n = words::bytes(line, 2, b"", &mut bytes);
            let value = host::linebox_crc16(words::number16(line, 1), &bytes[..n]);
            print::hex(rt, &value.to_be_bytes())
        }
        _ => {
            let n = words::bytes(line, 1, b"", &mut bytes);
            run_on_bytes(rt, line, &bytes[..n])
        }
    }
}

// Lines of records that are written.
use crate::fares::{MOST, Sort};
use framing::Answer;
use std::io;
use vector_text::memory::Content;
use vector_text::{memory, print, words};

// The first fare is word 8 of a line.
fn write<F: Sort>(line: &[u8], memory: &mut [F], out: &mut [u8]) -> Answer {
    let count = words::size(line, 7).min(memory.len());
    let fares = &mut memory[..count];
    for (fare, k) in fares.iter_mut().zip(8..8 + MOST) {
        *fare = F::at(line, k);
    }
    record::write(words::byte(line, 2), words::number16(line, 3), fares, out)
}

// The fares of either sort have a memory of their own, laid out for a line that needs it.
fn write_sort(line: &[u8], out: &mut [u8]) -> Answer {
    if words::is(line, 1, b"signed") {
        write(line, &mut [0i32; MOST], out)
    } else {
        write(line, &mut [0u32; MOST], out)
    }
}

fn make(rt: &impl Print, line: &[u8]) -> io::Result<()> {
    let mut memory = [0u8; memory::SIZE];
    let room = memory::within(words::size(line, 5), &memory);
    let out = &mut memory[..room];
    memory::fill(Content::Lent, out);
    print::written(rt, write_sort(line, out), b"record", out)
}

pub(crate) fn run(rt: &impl Print, line: &[u8]) -> io::Result<()> {
    if words::is(line, 0, b"make") {
        make(rt, line)?;
    }
    Ok(())
}

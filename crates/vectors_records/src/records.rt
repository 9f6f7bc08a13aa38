// Lines of records that are read: copied into a run of fares, and element by element.
use crate::fares::{self, MOST, Sort};
use std::io;
use vector_text::{memory, words};

// Place k holds k + 1 before the call.
fn copy<F: Sort>(rt: &impl Print, line: &[u8], payload: &[u8], memory: &mut [F]) -> io::Result<()> {
    let room = words::size(line, 4).min(memory.len());
    let places = &mut memory[..room];
    for (fare, k) in places.iter_mut().zip(1..=MOST as u16) {
        *fare = F::from(k);
    }
    match record::copy(payload, places) {
        Ok(count) => print!(rt; " count {count}")?,
        Err(refusal) => print!(rt; " refused {refusal}")?,
    }
    print!(rt; " places")?;
    for fare in places {
        print!(rt; " {fare}")?;
    }
    Ok(())
}

fn element<F: Sort>(rt: &impl Print, line: &[u8], payload: &[u8]) -> io::Result<()> {
    fares::show(rt, record::element::<F>(payload, words::size(line, 3)))
}

// The memory of fares is laid out for a line that copies, not for each.
pub(crate) fn run(rt: &impl Print, line: &[u8], kept: &[u8]) -> io::Result<()> {
    let mut payload = [0u8; memory::SIZE];
    let n = words::bytes(line, 2, kept, &mut payload);
    let payload = &payload[..n];
    let signed = words::is(line, 1, b"signed");
    match words::word(line, 0) {
        b"copy" if signed => copy(rt, line, payload, &mut [0i32; MOST]),
        b"copy" => copy(rt, line, payload, &mut [0u32; MOST]),
        b"element" if signed => element::<i32>(rt, line, payload),
        b"element" => element::<u32>(rt, line, payload),
        _ => Ok(()),
    }
}

// Makes the calls on records that standard input names, one a line, and prints each line again with what the call answered.
// Both standard input and what is to be printed come from the second implementation, whose src/vectors.rs says how lines are written.
#![tactic(auto)]

mod fares;
mod makers;
mod records;
#[cfg(test)]
mod tests;
mod views;

use std::io;
use vector_text::{input, memory, print, words};

// The bytes of the last `keep` line.
#[derive(Drop)]
struct Kept {
    memory: [u8; memory::SIZE],
    count: usize,
}

impl Kept {
    fn new() -> Kept {
        Kept {
            memory: [0; memory::SIZE],
            count: 0,
        }
    }

    fn keep(&mut self, line: &[u8]) {
        self.count = words::bytes(line, 1, b"", &mut self.memory);
    }

    fn bytes(&self) -> &[u8] {
        &self.memory[..memory::within(self.count, &self.memory)]
    }
}

// A call with the bytes that are kept.
fn run_call(rt: &impl Print, call: &[u8], kept: &[u8]) -> io::Result<()> {
    records::run(rt, call, kept)?;
    makers::run(rt, call)?;
    views::run(rt, call, kept)
}

// One line, without its end.
fn run_line(rt: &impl Print, line: &[u8], kept: &mut Kept) -> io::Result<()> {
    print::text(rt, line)?;
    if words::is(line, 0, b"keep") {
        kept.keep(line);
    }
    run_call(rt, words::call(line), kept.bytes())?;
    print::text(rt, b"\n")
}

fn run_lines(rt: &impl Print, text: &[u8]) -> io::Result<()> {
    let mut kept = Kept::new();
    for line in text.split_inclusive(|byte| *byte == b'\n') {
        run_line(rt, line.strip_suffix(b"\n").unwrap_or(line), &mut kept)?;
    }
    Ok(())
}

// Text beyond this memory is not read: a Vec would read on.
fn main(rt: HostRuntime) -> io::Result<()> {
    let mut text = [0u8; 65536];
    let length = input::read_full(&mut rt.stdin(), &mut text)?;
    run_lines(&rt, &text[..length])
}

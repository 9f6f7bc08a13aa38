// Makes the calls on the links that standard input names, one a line, and prints each line again with what the call answered.
// Both standard input and what is to be printed come from the second implementation, whose src/vectors.rs says how lines are written.
#![tactic(auto)]

mod kept;
mod parts;
mod receivers;
mod shown;
#[cfg(test)]
mod tests;
mod writers;

use framing::Link;
use kept::Kept;
use mdu::Mdu;
use std::io;
use vector_text::{input, links, memory, print};

// One line, without its end.
fn run_line(rt: &impl Print, line: &[u8], kept: &mut Kept) -> io::Result<()> {
    print::text(rt, line)?;
    writers::run(rt, line, kept)?;
    receivers::run(rt, line, kept)?;
    print::text(rt, b"\n")
}

fn run_lines(rt: &impl Print, text: &[u8]) -> io::Result<()> {
    let mut kept = Kept {
        link: links::Link::Expansion,
        frame: [0; memory::SIZE],
        length: 0,
        store: [0; memory::SIZE],
        room: 0,
        state: Mdu::fresh(),
    };
    for line in text.split_inclusive(|byte| *byte == b'\n') {
        run_line(rt, line.strip_suffix(b"\n").unwrap_or(line), &mut kept)?;
    }
    Ok(())
}

// Text beyond this memory is not read: a Vec would read on.
fn main(rt: HostRuntime) -> io::Result<()> {
    let mut text = [0u8; 65536];
    let length = input::read_full(&mut rt.stdin(), &mut text)?;
    run_lines(&rt, &text[..length])
}

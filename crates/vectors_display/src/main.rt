// Makes the calls on orders and on a display that standard input names, one a line, and prints each line again with what the call answered.
// Both standard input and what is to be printed come from the second implementation, whose src/vectors.rs says how lines are written.
#![tactic(auto)]

mod end;
mod orders;

use display::Display;
use std::io;
use vector_text::{input, memory, print};

// What is kept from line to line: the last frame and its length, and the display.
#[derive(Drop)]
struct Kept {
    frame: [u8; memory::SIZE],
    length: usize,
    end: Display,
}

// One line, without its end.
fn run_line(rt: &impl Print, line: &[u8], kept: &mut Kept) -> io::Result<()> {
    print::text(rt, line)?;
    let written = orders::run_write(rt, line, &mut kept.frame, kept.length)?;
    kept.length = memory::within(written, &kept.frame);
    let frame = &kept.frame[..kept.length];
    orders::run(rt, line, frame)?;
    kept.end = end::run(rt, line, kept.end, frame)?;
    print::text(rt, b"\n")
}

// Before a line names another, the display has address 0.
fn run_lines(rt: &impl Print, text: &[u8]) -> io::Result<()> {
    let mut kept = Kept {
        frame: [0; memory::SIZE],
        length: 0,
        end: display::fresh(0),
    };
    for line in text.split_inclusive(|byte| *byte == b'\n') {
        run_line(rt, line.strip_suffix(b"\n").unwrap_or(line), &mut kept)?;
    }
    Ok(())
}

// Text beyond this memory is not read: a Vec would read on.
fn main(rt: HostRuntime) -> io::Result<()> {
    let mut text = [0u8; 65536];
    let length = input::read_full(&mut rt.stdin(), &mut text)?;
    run_lines(&rt, &text[..length])
}

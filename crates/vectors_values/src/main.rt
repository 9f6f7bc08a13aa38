// Makes the calls on check values, packing, small examples and whole frames that standard input names, one a line, and prints each line again with
// what the call answered.
// Both standard input and what is to be printed come from the second implementation, whose src/vectors.rs says how lines are written.
#![tactic(auto)]

#[cfg(test)]
mod tests;
mod values;
mod whole;

use std::io;
use vector_text::{input, print, words};

// One line, without its end.
fn run_line(rt: &impl Print, line: &[u8]) -> io::Result<()> {
    print::text(rt, line)?;
    let call = words::call(line);
    values::run(rt, call)?;
    whole::run(rt, call)?;
    print::text(rt, b"\n")
}

// Text beyond this memory is not read: a Vec would read on.
fn main(rt: HostRuntime) -> io::Result<()> {
    let mut text = [0u8; 65536];
    let length = input::read_full(&mut rt.stdin(), &mut text)?;
    for line in text[..length].split_inclusive(|byte| *byte == b'\n') {
        let line = line.strip_suffix(b"\n").unwrap_or(line);
        run_line(&rt, line)?;
    }
    Ok(())
}

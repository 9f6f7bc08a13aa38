// Makes the calls on the gate exchange that standard input names, one a line, and prints each line again with what the call answered.
// Both standard input and what is to be printed come from the second implementation, whose src/vectors.rs says how lines are written.
#![tactic(auto)]

mod asking;
mod chain;
mod responding;

use gate::{Exchange, Responder};
use std::io;
use vector_text::{input, print, words};

// The two ends, kept from line to line.
#[derive(Drop)]
struct Ends {
    asking: Exchange,
    responder: Responder,
}

// One line, without its end.
fn run_line(rt: &impl Print, line: &[u8], ends: &mut Ends) -> io::Result<()> {
    print::text(rt, line)?;
    match words::word(line, 0) {
        b"ask" => asking::run(rt, line, &mut ends.asking)?,
        b"respond" => responding::run(rt, line, &mut ends.responder)?,
        b"respond-refused" => responding::run_refused(rt, line, &mut ends.responder)?,
        b"chain" => chain::run(rt, line)?,
        _ => {}
    }
    print::text(rt, b"\n")
}

fn run_lines(rt: &impl Print, text: &[u8]) -> io::Result<()> {
    let mut ends = Ends {
        asking: Exchange::fresh(),
        responder: Responder::fresh(),
    };
    for line in text.split_inclusive(|byte| *byte == b'\n') {
        run_line(rt, line.strip_suffix(b"\n").unwrap_or(line), &mut ends)?;
    }
    Ok(())
}

// Text beyond this memory is not read: a Vec would read on.
fn main(rt: HostRuntime) -> io::Result<()> {
    let mut text = [0u8; 65536];
    let length = input::read_full(&mut rt.stdin(), &mut text)?;
    run_lines(&rt, &text[..length])
}

// Lines of an address that steps along the chain.
use std::io;
use vector_text::{print, words};

// The address that goes on, if it does; 0 is meant for here.
fn show_down(rt: &impl Print, address: u8) -> io::Result<()> {
    match gate::step_down(address) {
        Ok(None) => print::word(rt, b"gives 0 here 1"),
        Ok(Some(next)) => {
            print::named(rt, b"gives", u64::from(next))?;
            print::word(rt, b"here 0")
        }
        Err(refusal) => print!(rt; " refused {refusal}"),
    }
}

fn show_up(rt: &impl Print, address: u8) -> io::Result<()> {
    match gate::step_up(address) {
        Ok(next) => print::named(rt, b"gives", u64::from(next)),
        Err(refusal) => print!(rt; " refused {refusal}"),
    }
}

pub(crate) fn run(rt: &impl Print, line: &[u8]) -> io::Result<()> {
    let address = words::byte(line, 2);
    if words::is(line, 1, b"down") {
        show_down(rt, address)
    } else {
        show_up(rt, address)
    }
}

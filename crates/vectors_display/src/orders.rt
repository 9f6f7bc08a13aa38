// Lines of orders that are written and read, and of a value's places. A line that asks for more memory than there is is answered by nothing.
use display::Order;
use framing::{Answer, Refusal};
use std::io;
use vector_text::memory::Content;
use vector_text::{memory, print, words};

fn write(line: &[u8], out: &mut [u8]) -> Answer {
    memory::fill(Content::Lent, out);
    display::write(
        words::number32(line, 1),
        words::byte(line, 2),
        words::byte(line, 3),
        words::byte(line, 4),
        out,
    )
}

// The length of the last frame, after a line that may write one.
pub(crate) fn run_write(
    rt: &impl Print,
    line: &[u8],
    frame: &mut [u8],
    last: usize,
) -> io::Result<usize> {
    if !words::is(line, 0, b"display-write") {
        return Ok(last);
    }
    let mut out = [0u8; memory::SIZE];
    let Some(out) = out.get_mut(..words::size(line, 6)) else {
        return Ok(last);
    };
    let answer = write(line, out);
    print::written(rt, answer, b"frame", out)?;
    Ok(memory::keep(answer, out, frame, last))
}

fn show_reading(rt: &impl Print, reading: Result<Order, Refusal>) -> io::Result<()> {
    match reading {
        Ok(order) => {
            print::numbers(rt, b"order", &[order.receiver, order.sender, order.number])?;
            print::number(rt, b" ", u64::from(order.value))
        }
        Err(refusal) => print!(rt; " refused {refusal}"),
    }
}

fn run_read(rt: &impl Print, line: &[u8], frame: &[u8]) -> io::Result<()> {
    let mut space = [0u8; memory::SIZE];
    let mut store = [0u8; memory::SIZE];
    let n = words::bytes(line, 1, frame, &mut space);
    let Some(store) = store.get_mut(..words::size(line, 3)) else {
        return Ok(());
    };
    memory::fill(Content::Lent, store);
    show_reading(rt, display::read(&space[..n], store))?;
    print::mix(rt, b"store", store)
}

pub(crate) fn run(rt: &impl Print, line: &[u8], frame: &[u8]) -> io::Result<()> {
    match words::word(line, 0) {
        b"display-read" => run_read(rt, line, frame),
        b"display-shown" => print::bytes(rt, &display::shown(words::number32(line, 1))),
        _ => Ok(()),
    }
}

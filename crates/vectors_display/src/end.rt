// Lines of a display. One that asks for more memory than there is is answered by nothing.
use display::Display;
use framing::Refusal;
use std::io;
use vector_text::memory::Content;
use vector_text::{memory, print, words};

fn show_reply(
    rt: &impl Print,
    reply: Result<Option<usize>, Refusal>,
    out: &[u8],
) -> io::Result<()> {
    match reply {
        Ok(None) => print::word(rt, b"nothing"),
        Ok(Some(count)) => {
            let n = memory::within(count, out);
            print::named(rt, b"length", count as u64)?;
            print::word(rt, b"frame")?;
            print::bytes(rt, &out[..n])
        }
        Err(refusal) => print!(rt; " refused {refusal}"),
    }
}

fn take(
    rt: &impl Print,
    end: Display,
    bytes: &[u8],
    store: &mut [u8],
    out: &mut [u8],
) -> io::Result<Display> {
    memory::fill(Content::Lent, store);
    memory::fill(Content::Lent, out);
    let taken = display::take(end, bytes, store, out);
    show_reply(rt, taken.reply, out)?;
    let after = taken.display;
    print::word(rt, b"shown")?;
    print::bytes(rt, &after.places)?;
    print::mix(rt, b"store", store)?;
    print::mix(rt, b"memory", out)?;
    Ok(after)
}

fn run_take(rt: &impl Print, line: &[u8], end: Display, frame: &[u8]) -> io::Result<Display> {
    let mut space = [0u8; memory::SIZE];
    let mut store = [0u8; memory::SIZE];
    let mut out = [0u8; memory::SIZE];
    let n = words::bytes(line, 2, frame, &mut space);
    let Some(store) = store.get_mut(..words::size(line, 4)) else {
        return Ok(end);
    };
    let Some(out) = out.get_mut(..words::size(line, 6)) else {
        return Ok(end);
    };
    take(rt, end, &space[..n], store, out)
}

pub(crate) fn run(rt: &impl Print, line: &[u8], end: Display, frame: &[u8]) -> io::Result<Display> {
    if !words::is(line, 0, b"display") {
        return Ok(end);
    }
    match words::word(line, 1) {
        b"fresh" => Ok(display::fresh(words::byte(line, 2))),
        b"take" => run_take(rt, line, end, frame),
        _ => Ok(end),
    }
}

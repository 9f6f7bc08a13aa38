// Lines of the host's calls on a whole frame.
use std::io;
use vector_text::links::Link;
use vector_text::memory::Content;
use vector_text::{memory, print, words};

fn read(link: Link, frame: &[u8], store: &mut [u8]) -> u64 {
    match link {
        Link::Pcs => host::linebox_pcs_read(frame, store),
        Link::Mdu => host::linebox_mdu_read(frame, store),
        Link::Dle => host::linebox_dle_read(frame, store),
        Link::Expansion => host::linebox_expansion_read(frame, store),
    }
}

pub(crate) fn run(rt: &impl Print, line: &[u8]) -> io::Result<()> {
    if !words::is(line, 0, b"whole") {
        return Ok(());
    }
    let mut frame = [0u8; memory::SIZE];
    let mut store = [0u8; memory::SIZE];
    let n = words::bytes(line, 2, b"", &mut frame);
    let room = memory::within(words::size(line, 4), &store);
    let store = &mut store[..room];
    memory::fill(Content::Lent, store);
    let link = Link::from(words::first(line, 1));
    print::named(rt, b"answer", read(link, &frame[..n], store))?;
    print::mix(rt, b"store", store)
}

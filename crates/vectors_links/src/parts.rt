// Lines of the links' data accessors: a store of so many bytes, and a message of so much data.
use crate::shown::Shown;
use dle::Dle;
use expansion::Expansion;
use mdu::Mdu;
use pcs::Pcs;
use std::io;
use vector_text::links::Link;
use vector_text::{memory, print, words};

fn part<L: Shown>(store: &[u8], length: usize) -> usize {
    L::data(store, L::sample(length)).len()
}

pub(crate) fn run(rt: &impl Print, line: &[u8], link: Link) -> io::Result<()> {
    let store = [0u8; memory::SIZE];
    let room = memory::within(words::size(line, 1), &store);
    let store = &store[..room];
    let length = words::size(line, 2);
    let given = match link {
        Link::Pcs => part::<Pcs>(store, length),
        Link::Mdu => part::<Mdu>(store, length),
        Link::Dle => part::<Dle>(store, length),
        Link::Expansion => part::<Expansion>(store, length),
    };
    print::named(rt, b"gives", given as u64)
}

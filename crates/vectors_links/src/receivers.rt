// Lines of the links' receivers.
use crate::kept::Kept;
use crate::parts;
use crate::shown::Shown;
use dle::Dle;
use expansion::Expansion;
use framing::{Link as _, Told};
use mdu::Mdu;
use pcs::Pcs;
use std::io;
use vector_text::links::Link;
use vector_text::memory::Content;
use vector_text::{memory, print, words};

fn show_told<L: Shown>(rt: &impl Print, told: Told<L::Message>, store: &[u8]) -> io::Result<()> {
    match told {
        Ok(None) => print::word(rt, b"nothing"),
        Ok(Some(message)) => {
            L::show_fields(rt, message)?;
            print::number(rt, b" ", L::length(message) as u64)?;
            print::bytes(rt, L::data(store, message))
        }
        Err(refusal) => print!(rt; " refused {refusal}"),
    }
}

fn receive<L: Shown>(
    rt: &impl Print,
    state: mdu::State,
    store: &mut [u8],
    piece: &[u8],
) -> io::Result<mdu::State> {
    let received = L::receive(L::state(state), store, piece);
    print::named(rt, b"used", received.used as u64)?;
    show_told::<L>(rt, received.told, store)?;
    Ok(L::kept(received.state))
}

fn receive_on(
    rt: &impl Print,
    link: Link,
    state: mdu::State,
    store: &mut [u8],
    piece: &[u8],
) -> io::Result<mdu::State> {
    match link {
        Link::Pcs => receive::<Pcs>(rt, state, store, piece),
        Link::Mdu => receive::<Mdu>(rt, state, store, piece),
        Link::Dle => receive::<Dle>(rt, state, store, piece),
        Link::Expansion => receive::<Expansion>(rt, state, store, piece),
    }
}

// MDU's state shows its length as the third number.
fn show_state(rt: &impl Print, link: Link, state: mdu::State) -> io::Result<()> {
    let base = state.base;
    print::named(rt, b"state", base.mode as u64)?;
    print::number(rt, b" ", base.count as u64)?;
    if link == Link::Mdu {
        print::number(rt, b" ", state.length as u64)?;
    }
    print::number(rt, b" ", u64::from(base.open))?;
    print::number(rt, b" ", u64::from(base.noise))
}

// A call on a piece, with the store that is kept.
fn run_receive(rt: &impl Print, line: &[u8], kept: &mut Kept) -> io::Result<()> {
    let mut space = [0u8; memory::SIZE];
    let last = memory::within(kept.length, &kept.frame);
    let n = words::bytes(line, 1, &kept.frame[..last], &mut space);
    let link = kept.link;
    let room = memory::within(kept.room, &kept.store);
    kept.state = receive_on(rt, link, kept.state, &mut kept.store[..room], &space[..n])?;
    show_state(rt, link, kept.state)?;
    print::mix(rt, b"store", &kept.store[..room])
}

// All bytes of the store, however many.
fn show_content(rt: &impl Print, kept: &Kept) -> io::Result<()> {
    let room = memory::within(kept.room, &kept.store);
    if room == 0 {
        print::word(rt, b"-")
    } else {
        print::hex(rt, &kept.store[..room])
    }
}

// MDU's numbers have the length as the third.
fn stated(line: &[u8], link: Link) -> mdu::State {
    let (length, at) = match link {
        Link::Mdu => (words::size(line, 3), 4),
        _ => (0, 3),
    };
    let base = framing::State {
        mode: words::size(line, 1),
        count: words::size(line, 2),
        open: words::number32(line, at),
        noise: words::number32(line, at + 1),
    };
    mdu::State { base, length }
}

pub(crate) fn run(rt: &impl Print, line: &[u8], kept: &mut Kept) -> io::Result<()> {
    match words::word(line, 0) {
        b"receive" => run_receive(rt, line, kept),
        // a fresh state, and a store of so many bytes
        b"fresh" => {
            memory::fill(Content::Lent, &mut kept.store);
            kept.room = words::size(line, 1);
            kept.state = Mdu::fresh();
            Ok(())
        }
        // a store of these bytes; the state stays
        b"store" => {
            let last = memory::within(kept.length, &kept.frame);
            kept.room = words::bytes(line, 1, &kept.frame[..last], &mut kept.store);
            Ok(())
        }
        b"state" => {
            kept.state = stated(line, kept.link);
            Ok(())
        }
        b"content" => show_content(rt, kept),
        b"part" => parts::run(rt, line, kept.link),
        _ => Ok(()),
    }
}

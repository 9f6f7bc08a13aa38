// What the lines of the programs show of each link.
use dle::Dle;
use expansion::Expansion;
use framing::{Link, State};
use mdu::Mdu;
use pcs::Pcs;
use std::io;
use vector_text::print;

// A link whose messages and states stand in lines. The state that is kept is MDU's, which holds that of every link.
pub(crate) trait Shown: Link {
    fn state(kept: mdu::State) -> Self::State;

    fn kept(state: Self::State) -> mdu::State;

    // A message of so much data, to ask the link for its data.
    fn sample(length: usize) -> Self::Message;

    fn length(message: Self::Message) -> usize;

    fn show_fields(rt: &impl Print, message: Self::Message) -> io::Result<()>;
}

// The state of a link that has no length to keep.
fn base_only(base: State) -> mdu::State {
    mdu::State { base, length: 0 }
}

impl Shown for Pcs {
    fn state(kept: mdu::State) -> State {
        kept.base
    }

    fn kept(state: State) -> mdu::State {
        base_only(state)
    }

    fn sample(length: usize) -> pcs::Message {
        pcs::Message {
            receiver: 1,
            sender: 1,
            kind: 0,
            number: 1,
            sender_port: 1,
            receiver_port: 1,
            crc: false,
            length,
        }
    }

    fn length(message: pcs::Message) -> usize {
        message.length
    }

    fn show_fields(rt: &impl Print, message: pcs::Message) -> io::Result<()> {
        print::numbers(
            rt,
            b"message",
            &[
                message.receiver,
                message.sender,
                message.kind,
                message.number,
                message.sender_port,
                message.receiver_port,
                u8::from(message.crc),
            ],
        )
    }
}

impl Shown for Mdu {
    fn state(kept: mdu::State) -> mdu::State {
        kept
    }

    fn kept(state: mdu::State) -> mdu::State {
        state
    }

    fn sample(length: usize) -> mdu::Message {
        mdu::Message { address: 1, length }
    }

    fn length(message: mdu::Message) -> usize {
        message.length
    }

    fn show_fields(rt: &impl Print, message: mdu::Message) -> io::Result<()> {
        print::numbers(rt, b"message", &[message.address])
    }
}

impl Shown for Dle {
    fn state(kept: mdu::State) -> State {
        kept.base
    }

    fn kept(state: State) -> mdu::State {
        base_only(state)
    }

    // Its length is a byte.
    fn sample(length: usize) -> dle::Message {
        dle::Message {
            sequence: 1,
            node: 1,
            length: (length % 256) as u8,
            error: 0,
        }
    }

    fn length(message: dle::Message) -> usize {
        usize::from(message.length)
    }

    // A length of 0 marks an error message; its byte stands behind the 1.
    fn show_fields(rt: &impl Print, message: dle::Message) -> io::Result<()> {
        let is_error = u8::from(message.length == 0);
        print::numbers(
            rt,
            b"message",
            &[message.sequence, message.node, is_error, message.error],
        )
    }
}

impl Shown for Expansion {
    fn state(kept: mdu::State) -> State {
        kept.base
    }

    fn kept(state: State) -> mdu::State {
        base_only(state)
    }

    fn sample(length: usize) -> expansion::Message {
        expansion::Message {
            id: 1,
            kind: 0,
            repeat: 0,
            address: 0,
            length,
        }
    }

    fn length(message: expansion::Message) -> usize {
        message.length
    }

    fn show_fields(rt: &impl Print, message: expansion::Message) -> io::Result<()> {
        print::numbers(
            rt,
            b"message",
            &[message.id, message.kind, message.repeat, message.address],
        )
    }
}

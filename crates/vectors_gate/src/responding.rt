// Lines of the responding end.
use expansion::Message;
use gate::Responder;
use std::io;
use vector_text::{memory, print, words};

// Which id was handed out last, if one was.
fn show_last(rt: &impl Print, responder: Responder) -> io::Result<()> {
    if responder.handed {
        print::named(rt, b"last", u64::from(responder.last))
    } else {
        print::word(rt, b"last none")
    }
}

// What the end does with what the receiver told, and with the store as that call left it.
fn respond(
    rt: &impl Print,
    line: &[u8],
    responder: &mut Responder,
    told: Result<Option<Message>, u8>,
    store: &[u8],
) -> io::Result<()> {
    let response = responder.respond(words::is(line, 1, b"head"), told, store);
    match response.reply {
        None => print::word(rt, b"reply none")?,
        // every reply has repeat 0
        Some(reply) => print::numbers(
            rt,
            b"reply",
            &[reply.id, u8::from(reply.kind), 0, reply.address],
        )?,
    }
    print::named(rt, b"handed", u64::from(response.handed_out))?;
    show_last(rt, *responder)
}

fn stated(line: &[u8]) -> Responder {
    Responder {
        handed: words::is(line, 2, b"1"),
        last: words::byte(line, 3),
    }
}

fn accepted(line: &[u8]) -> Message {
    Message {
        id: words::byte(line, 2),
        kind: words::byte(line, 3),
        repeat: words::byte(line, 4),
        address: words::byte(line, 5),
        length: 0,
    }
}

pub(crate) fn run(rt: &impl Print, line: &[u8], responder: &mut Responder) -> io::Result<()> {
    match words::word(line, 1) {
        b"fresh" => *responder = Responder::fresh(),
        b"state" => *responder = stated(line),
        _ => respond(rt, line, responder, Ok(Some(accepted(line))), b"")?,
    }
    Ok(())
}

// What the receiver told is a refusal, or nothing where its number is 0.
pub(crate) fn run_refused(
    rt: &impl Print,
    line: &[u8],
    responder: &mut Responder,
) -> io::Result<()> {
    let mut store = [0u8; memory::SIZE];
    let n = words::bytes(line, 3, b"", &mut store);
    let told = match words::byte(line, 2) {
        0 => Ok(None),
        number => Err(number),
    };
    respond(rt, line, responder, told, &store[..n])
}

// Lines of the asking end.
use framing::Told;
use gate::{Asked, Exchange, Kind};
use std::io;
use vector_text::{print, words};

fn show_told(rt: &impl Print, told: Told<Asked>) -> io::Result<()> {
    match told {
        Ok(None) => print::word(rt, b"nothing"),
        Ok(Some(Asked::Send { id, repeat })) => print::numbers(rt, b"send", &[id, repeat]),
        Ok(Some(Asked::Done)) => print::word(rt, b"done"),
        Ok(Some(Asked::GaveUp)) => print::word(rt, b"given-up"),
        Err(refusal) => print!(rt; " refused {refusal}"),
    }
}

fn show_state(rt: &impl Print, state: Exchange) -> io::Result<()> {
    print::named(rt, b"state", u64::from(state.mode))?;
    print::number(rt, b" ", u64::from(state.id))?;
    print::number(rt, b" ", u64::from(state.repeat))?;
    print::number(rt, b" ", u64::from(state.sent))
}

fn stated(line: &[u8]) -> Exchange {
    Exchange {
        mode: words::number16(line, 2),
        id: words::byte(line, 3),
        repeat: words::byte(line, 4),
        sent: words::number32(line, 5),
    }
}

// A start and its acknowledgement, so many times; the id that was sent last.
fn cycle(asking: &mut Exchange, count: u16) -> u8 {
    let mut last = 0;
    for _ in 0..count {
        if let Ok(Some(Asked::Send { id, .. })) = asking.start(0) {
            last = id;
        }
        let _ = asking.arrived(last, u8::from(Kind::Acknowledgement), 0);
    }
    last
}

pub(crate) fn run(rt: &impl Print, line: &[u8], asking: &mut Exchange) -> io::Result<()> {
    match words::word(line, 1) {
        b"fresh" => {
            *asking = Exchange::fresh();
            return Ok(());
        }
        b"state" => {
            *asking = stated(line);
            return Ok(());
        }
        // a count of 16 bits, so that no line takes long
        b"cycle" => print::numbers(rt, b"last", &[cycle(asking, words::number16(line, 2))])?,
        b"start" => show_told(rt, asking.start(words::number32(line, 2)))?,
        b"tick" => show_told(rt, asking.tick(words::number32(line, 2)))?,
        _ => {
            let now = words::number32(line, 4);
            show_told(
                rt,
                asking.arrived(words::byte(line, 2), words::byte(line, 3), now),
            )?;
        }
    }
    show_state(rt, *asking)
}

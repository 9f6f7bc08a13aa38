// Lines that name a section, and those of the links' writers.
ghost use Rattle.std.specs.Prelude.{◌<◌};

use crate::kept::Kept;
use framing::Answer;
use std::io;
use vector_text::links::Link;
use vector_text::memory::Content;
use vector_text::{memory, print, words};

// The number of the word that holds a writer's bytes. The room stands two words behind it.
fn data_at(link: Link) -> usize
    ensures { result < 9 }
{
    match link {
        Link::Pcs => 8,
        Link::Mdu => 2,
        Link::Dle => 3,
        Link::Expansion => 5,
    }
}

fn write_pcs(line: &[u8], data: &[u8], out: &mut [u8]) -> Answer {
    pcs::write(
        words::byte(line, 1),
        words::byte(line, 2),
        words::byte(line, 3),
        words::byte(line, 4),
        words::byte(line, 5),
        words::byte(line, 6),
        words::byte(line, 7) == 1,
        data,
        out,
    )
}

fn write_expansion(line: &[u8], data: &[u8], out: &mut [u8]) -> Answer {
    expansion::write(
        words::byte(line, 1),
        words::byte(line, 2),
        words::byte(line, 3),
        words::byte(line, 4),
        data,
        out,
    )
}

fn write(line: &[u8], link: Link, data: &[u8], out: &mut [u8]) -> Answer {
    match link {
        Link::Pcs => write_pcs(line, data, out),
        Link::Mdu => mdu::write(words::byte(line, 1), data, out),
        Link::Dle => dle::write(words::byte(line, 1), words::byte(line, 2), data, out),
        Link::Expansion => write_expansion(line, data, out),
    }
}

// Makes a call of a writer on the bytes of word k, with the room that the word two behind it states, and keeps the frame that it writes.
fn run_write<W: FnOnce(&[u8], &mut [u8]) -> Answer>(
    rt: &impl Print,
    line: &[u8],
    k: usize,
    kept: &mut Kept,
    write: W,
) -> io::Result<()>
    requires callable { W.IsAlwaysCallable write }
    requires small { k < 9 }
{
    let mut space = [0u8; memory::SIZE];
    let mut memory = [0u8; memory::SIZE];
    let n = words::bytes(line, k, b"", &mut space);
    let room = memory::within(words::size(line, k + 2), &memory);
    let out = &mut memory[..room];
    memory::fill(Content::Lent, out);
    let answer = write(&space[..n], out);
    print::written(rt, answer, b"frame", out)?;
    kept.length = memory::keep(answer, out, &mut kept.frame, kept.length);
    Ok(())
}

pub(crate) fn run(rt: &impl Print, line: &[u8], kept: &mut Kept) -> io::Result<()> {
    let link = kept.link;
    match words::word(line, 0) {
        b"write" => run_write(rt, line, data_at(link), kept, |data, out| {
            write(line, link, data, out)
        }),
        b"write-error" => run_write(rt, line, 3, kept, |_, out| {
            dle::write_error(
                words::byte(line, 1),
                words::byte(line, 2),
                words::byte(line, 3),
                out,
            )
        }),
        b"section" => {
            kept.link = Link::from(words::first(line, 1));
            Ok(())
        }
        _ => Ok(()),
    }
}

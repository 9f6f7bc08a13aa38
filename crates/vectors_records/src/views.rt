// Lines of record views.
ghost use Rattle.std.specs.Prelude.{◌≡◌};
ghost use Rattle.record.specs.Form.{header_of};
ghost use Rattle.record.specs.Answers.{viewing, outcomes_of};

use crate::fares;
use framing::Refusal;
use record::{Element, RecordView};
use std::io;
use vector_text::{memory, words};

// The type and the count that a view of a payload has.
fn fields_of(payload: &[u8]) -> (u8, usize)
    ensures { result ≡ header_of payload.now }
{
    let view = record::view(payload);
    (view.kind, view.count)
}

// An element of a view with any fields.
fn element_of(payload: &[u8], kind: u8, count: usize, index: usize) -> Result<Element, Refusal>
    ensures { outcomes_of result ≡ viewing payload.now kind count index }
{
    let view = RecordView {
        payload,
        kind,
        count,
    };
    record::view_element(view, index)
}

// Type 0 stands for what is no record.
fn view(rt: &impl Print, payload: &[u8]) -> io::Result<()> {
    match fields_of(payload) {
        (0, _) => print!(rt; " refused {}", Refusal::Malformed),
        (kind, count) => print!(rt; " type {kind} count {count}"),
    }
}

fn view_element(rt: &impl Print, line: &[u8], payload: &[u8]) -> io::Result<()> {
    let element = element_of(
        payload,
        words::byte(line, 3),
        words::size(line, 4),
        words::size(line, 5),
    );
    if words::is(line, 1, b"signed") {
        fares::show(rt, record::as_signed(element))
    } else {
        fares::show(rt, record::as_unsigned(element))
    }
}

fn run_view(rt: &impl Print, line: &[u8], kept: &[u8]) -> io::Result<()> {
    let mut payload = [0u8; memory::SIZE];
    let n = words::bytes(line, 1, kept, &mut payload);
    view(rt, &payload[..n])
}

fn run_element(rt: &impl Print, line: &[u8], kept: &[u8]) -> io::Result<()> {
    let mut payload = [0u8; memory::SIZE];
    let n = words::bytes(line, 2, kept, &mut payload);
    view_element(rt, line, &payload[..n])
}

// The memory of a payload is laid out for a line that needs it, not for each.
pub(crate) fn run(rt: &impl Print, line: &[u8], kept: &[u8]) -> io::Result<()> {
    match words::word(line, 0) {
        b"view" => run_view(rt, line, kept),
        b"view-element" => run_element(rt, line, kept),
        _ => Ok(()),
    }
}

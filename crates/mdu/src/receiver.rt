// The steps of a call: noise and the bytes of a body are passed as many at once as the piece has, the others are taken one by one.
ghost use Rattle.std.specs.Prelude.{◌≡◌, ℕ, ◌+◌, ◌<◌, ◌≤◌, true, cond, ◌==◌, List, length, take};
ghost use Rattle.std.proofs.Math.Option.{some};
ghost use Rattle.runs.specs.Runs.{over};
ghost use Rattle.framing.specs.Answer.{done, refused, outcome_of};
ghost use Rattle.framing.specs.Segment.{event_of};
ghost use Rattle.framing.specs.Link.{told};
ghost use Rattle.framing.specs.Call.{told_of};
ghost use Rattle.mdu.specs.Rules.{hunting, in_header, in_body, size, stated, header_fault, enter, finish, on_byte};
ghost use Rattle.mdu.specs.Contract.{known_state, front, link};
ghost use Rattle.mdu.specs.Steps.{ended_with, gone_on, ByRules, Open, ToCome, Passes};

use super::header::{header_sum, length_ok};
use super::{Message, State, writer};
use framing::{Reached, Refusal, Stepped, Told};

// Hunting: an E3 opens a frame, any other byte is noise.
pub(crate) fn hunt(state: State, store: &mut [u8], byte: u8) -> Stepped<Message, State>
    requires { (state.base.mode ≡ 0) × (size ≤ length store.old) }
    ensures stepped { ByRules state (on_byte hunting byte) result }
    ensures stored { store.new ≡ over (front hunting byte) store.old }
{
    let base = if byte == 0xE3 {
        store[0] = byte;
        state.base.reopen(1, 1, 1)
    } else {
        state.base.add_noise(1)
    };
    Stepped {
        told: Ok(None),
        state: State { base, length: 0 },
    }
}

// A refused or accepted frame is over.
fn end(base: framing::State, told: Told<Message>) -> Stepped<Message, State>
    ensures { result ≡ ended_with base told }
{
    Stepped {
        told,
        state: State {
            base: base.close(),
            length: 0,
        },
    }
}

// One more byte is gathered, and the frame goes on.
fn go_on(base: framing::State, count: usize, length: usize) -> Stepped<Message, State>
    ensures { result ≡ gone_on base count length }
{
    Stepped {
        told: Ok(None),
        state: State {
            base: base.hold(1, count),
            length,
        },
    }
}

// The length that a header states, or the refusal of the first test that it fails.
#[tactic(auto, using(crate::proofs::Sum::sum_first), unfolding(crate::specs::Rules::header_fault))]
fn stated_length(gathered: &[u8]) -> Result<usize, Refusal>
    requires { length gathered.now ≡ 6 }
    ensures { outcome_of result ≡ cond (header_fault gathered.now == 0) (done (stated gathered.now)) (refused (header_fault gathered.now)) }
{
    if gathered[1] != 0x01 || gathered[4] == 0 {
        return Err(Refusal::WrongField);
    }
    if gathered[5] != header_sum(&gathered[..5]) {
        return Err(Refusal::WrongCheck);
    }
    // not `from_be_bytes`: a load of both bytes at once would wait until the stores of either are done
    let length = usize::from(gathered[2]) * 256 + usize::from(gathered[3]);
    if !length_ok(length) {
        return Err(Refusal::WrongLength);
    }
    Ok(length)
}

// Byte six: whether a body follows the header.
fn enter_body(state: State, gathered: &[u8]) -> Stepped<Message, State>
    requires { (state.base.mode ≡ 1) × (length gathered.now ≡ 6) }
    ensures { ByRules state (enter gathered.now) result }
{
    match stated_length(gathered) {
        Ok(length) => go_on(state.base, 6, length),
        Err(refusal) => end(state.base, Err(refusal)),
    }
}

// An open frame below six bytes: the sixth ends the header.
pub(crate) fn header_byte(state: State, store: &mut [u8], byte: u8) -> Stepped<Message, State>
    requires { Open state store.old × (state.base.count < 6) }
    ensures stepped { ByRules state (on_byte (in_header (take state.base.count store.old)) byte) result }
    ensures stored { store.new
        ≡ over (front (in_header (take state.base.count store.old)) byte) store.old }
{
    let at = state.base.count;
    store[at] = byte;
    if at == 5 {
        enter_body(state, &store[..6])
    } else {
        go_on(state.base, at + 1, 0)
    }
}

// A whole frame with so long a body: whether its check value is right.
fn finish_frame(store: &[u8], stated: usize) -> Told<Message>
    requires { (stated ≤ 1025) × (size ≤ length store.now) }
    ensures { told_of result ≡ told link (event_of (some (finish stated (take (8 + stated) store.now)))) }
{
    let end = 6 + stated;
    if u16::from_be_bytes([store[end], store[end + 1]]) == checksum::crc16(0, &store[6..end]) {
        Ok(Some(Message {
            address: store[4],
            length: stated,
        }))
    } else {
        Err(Refusal::WrongCheck)
    }
}

// The last byte of a frame.
pub(crate) fn last_byte(state: State, store: &mut [u8], byte: u8) -> Stepped<Message, State>
    requires { Open state store.old × ToCome state.length state.base.count × (state.base.count ≡ 7 + state.length) }
    ensures stepped { ByRules state (on_byte (in_body state.length (take state.base.count store.old)) byte) result }
    ensures stored { store.new
        ≡ over (front (in_body state.length (take state.base.count store.old)) byte) store.old }
{
    store[state.base.count] = byte;
    end(state.base, finish_frame(store, state.length))
}

// The bytes of a body and its check value that the piece has from a place on, but for the last.
pub(crate) fn pass_body(state: State, store: &mut [u8], piece: &[u8], from: usize) -> Reached<State>
    requires { Open state store.old × ToCome state.length state.base.count × (from ≤ length piece.now) }
    ensures { Passes piece.now (state, store.old) from result store.new }
{
    let at = state.base.count;
    let n = (piece.len() - from).min(7 + state.length - at);
    writer::put_bytes(store, at, &piece[from..from + n]);
    Reached {
        state: State {
            base: state.base.pass_open(at + n, n),
            length: state.length,
        },
        next: from + n,
    }
}

// The noise from a place on, up to the next E3. Where there is none the state stays as it came, whatever length stands in it.
pub(crate) fn pass_noise(state: State, piece: &[u8], from: usize) -> Reached<State>
    requires { (known_state state ≡ true) × (state.base.mode ≡ 0) × (from ≤ length piece.now) }
    ensures { (store : List ℕ) → Passes piece.now (state, store) from result store }
{
    let passed = state.base.pass_hunting(piece, from, 0xE3);
    Reached {
        state: State {
            base: passed.state,
            length: if passed.next == from { state.length } else { 0 },
        },
        next: passed.next,
    }
}

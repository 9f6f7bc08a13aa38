// The MDU link of lane signs.
#![tactic(auto)]

mod header;
mod receiver;
mod writer;

ghost use Rattle.std.specs.Prelude.{◌≡◌, ◌≤◌, ◌<◌, length};
ghost use Rattle.framing.specs.Answer.{outcome_of};
ghost use Rattle.framing.specs.Segment as Segment;
ghost use Rattle.framing.specs.Writer.{writes};
ghost use Rattle.framing.specs.Link.{step_on, told, receives};
ghost use Rattle.framing.specs.Call.{told_of};
ghost use Rattle.framing.specs.Passing.{Leads};
ghost use Rattle.framing.specs.Whole.{read_on};
ghost use Rattle.framing.proofs.Called.{silent, loud, calls, wholes};
ghost use Rattle.mdu.specs.Frame as Frame;
ghost use Rattle.mdu.specs.Frame.{ok, frame};
ghost use Rattle.mdu.specs.Rules.{size};
ghost use Rattle.mdu.specs.Contract.{fresh_state, known_state, data_of, link};
ghost use Rattle.mdu.specs.Steps.{Ready, Due};

use framing::{Answer, Link, Reached, Stepped, Stepwise, Turn};
use header::length_ok;

// What the receiver keeps between calls: what every link's does, and from byte six of a frame on its stated length.
// No enum with the length in one case: a caller may hand in any numbers, and gets 12 for those that do not fit together (`known_state`).
#[derive(Clone, Copy)]
pub struct State {
    pub base: framing::State,
    pub length: usize,
}

// An accepted message: its address, and the length of its body, which lies in the store from place 6.
#[derive(Clone, Copy)]
pub struct Message {
    pub address: u8,
    pub length: usize,
}

// Writes the frame of a message at the start of the lent memory, and answers its length.
pub fn write(address: u8, body: &[u8], out: &mut [u8]) -> Answer
    ensures { (outcome_of result, out.new)
        ≡ writes ok frame (record { address = address; body = body.now }) out.old }
{
    let end = 8 + body.len();
    framing::check_write(writer::may_send(address, body), end <= out.len())?;
    writer::put_frame(address, body, out);
    Ok(end)
}

// The link: `Mdu::receive` is a call of the receiver, `Mdu::read` reads a whole frame.
pub struct Mdu;

impl Link for Mdu {
    type Message = Message;

    type State = State;

    ghost SIZE = { size };

    ghost known = { known_state };

    ghost fresh = { fresh_state };

    ghost noise = { λ s. s.base.noise };

    ghost Event = { Segment.Event Frame.Message };

    ghost step_on = { step_on link };

    ghost told = { told link };

    ghost receives = { receives link };

    ghost reads = { read_on link };

    ghost data_of = { data_of };

    ghost Ready = { Ready };

    ghost Due = { Due };

    // A header of 6 bytes, a body of at most 1,025, a check value of 2.
    const SIZE: usize = 1033;

    fn fresh() -> State {
        State {
            base: framing::State::fresh(),
            length: 0,
        }
    }

    fn is_known(state: State) -> bool {
        let State { base, length } = state;
        base.is_known(2, 1, Self::SIZE)
            && match base.count {
                0 => base.mode == 0,
                1..=5 => true,
                count => length_ok(length) && count < 8 + length,
            }
    }

    fn noise(state: State) -> u32 {
        state.base.noise
    }

    // Noise, the bytes of a body, or none.
    fn advance_in(
        _turn: &Turn<Self>,
        state: State,
        store: &mut [u8],
        piece: &[u8],
        from: usize,
    ) -> Reached<State>
        requires ready { Ready state store.old }
        requires within { from ≤ length piece.now }
        ensures leads { Leads (step_on link) piece.now (state, store.old) from (result.state, store.new) result.next }
        ensures due { result.next < length piece.now → Due result.state store.new }
    {
        if state.base.mode == 0 {
            receiver::pass_noise(state, piece, from)
        } else if state.base.count < 6 {
            Reached { state, next: from }
        } else {
            receiver::pass_body(state, store, piece, from)
        }
    }

    // Of a body and its check value only the last byte.
    fn step_in(
        _turn: &Turn<Self>,
        state: State,
        store: &mut [u8],
        byte: u8,
    ) -> Stepped<Message, State>
        requires { Due state store.old }
        ensures tells { told_of result.told ≡ told link (step_on link (state, store.old) byte).1 }
        ensures leaves { (result.state, store.new) ≡ (step_on link (state, store.old) byte).0 }
        ensures ready { Ready result.state store.new }
    {
        if state.base.mode == 0 {
            receiver::hunt(state, store, byte)
        } else if state.base.count < 6 {
            receiver::header_byte(state, store, byte)
        } else {
            receiver::last_byte(state, store, byte)
        }
    }

    fn data(store: &[u8], message: Message) -> &[u8] {
        framing::data_at(store, 6, message.length)
    }

    ghost starts = { λ s store known room. (known, room) };

    ghost silent = { silent link };

    ghost loud = { loud link };

    ghost calls = { calls link };

    ghost wholes = { wholes link };
}

impl Stepwise for Mdu {
    fn is_ready(state: State, store: &[u8]) -> bool {
        Self::is_known(state) && Self::SIZE <= store.len()
    }

    // Of a body and its check value only the last byte.
    fn is_due(state: State, store: &[u8]) -> bool {
        let State { base, length } = state;
        Self::is_ready(state, store)
            && (base.count < 6 || 7 <= base.count && base.count - 7 == length)
    }
}

// The expansion link of gate boards: writer and receiver.
#![tactic(auto)]

ghost use Rattle.std.specs.Prelude.{◌≡◌, ◌&&◌, leb, ◌≤◌, ◌<◌, length};
ghost use Rattle.framing.specs.Answer.{outcome_of};
ghost use Rattle.framing.specs.Writer.{writes};
ghost use Rattle.framing.specs.Segment as Segment;
ghost use Rattle.framing.specs.State.{fresh_state, known_state};
ghost use Rattle.framing.specs.Link.{told, step_on, receives};
ghost use Rattle.framing.specs.Call.{told_of};
ghost use Rattle.framing.specs.Passing.{Leads};
ghost use Rattle.framing.specs.Whole.{read_on};
ghost use Rattle.framing.specs.Open.{Room};
ghost use Rattle.framing.proofs.Called as Called;
ghost use Rattle.framing.proofs.States.{known_count};
ghost use Rattle.expansion.specs.Frame as Frame;
ghost use Rattle.expansion.specs.Frame.{with_fields, kind_ok, ok, frame};
ghost use Rattle.expansion.specs.Rules.{hunting, size, on_byte};
ghost use Rattle.expansion.specs.Contract.{data_of, link};
ghost use Rattle.expansion.specs.Steps.{judged, ByRules};

use escape::{Enclosed, Expansion as Escape};
use framing::{Answer, Link, Reached, Refusal, State, Stepped, Stepwise, Turn};

// An accepted message; its data lies in the store from place 4. The kind stays a number, since a call of `linebox_expansion_write` may give any,
// and one that is none is answered with 3.
#[derive(Clone, Copy)]
pub struct Message {
    pub id: u8,
    pub kind: u8,
    pub repeat: u8,
    pub address: u8,
    pub length: usize,
}

// Whether a message of this type may carry so much data.
fn kind_ok(kind: u8, count: usize) -> bool
    ensures { result ≡ kind_ok kind count }
{
    kind == 0 || (kind <= 2 && count == 0)
}

// Whether the fields of a message with so much data are allowed.
fn fields_ok(kind: u8, repeat: u8, count: usize) -> bool
    ensures { result ≡ (kind_ok kind count && leb repeat 3) }
{
    kind_ok(kind, count) && repeat <= 3
}

// Whether a message may be sent.
fn is_sendable(kind: u8, repeat: u8, count: usize) -> bool
    ensures { result ≡ (kind_ok kind count && (leb repeat 3 && leb count 1024)) }
{
    fields_ok(kind, repeat, count) && count <= 1024
}

// Writes the frame of a message at the start of the lent memory, and answers its length.
pub fn write(id: u8, kind: u8, repeat: u8, address: u8, data: &[u8], out: &mut [u8]) -> Answer
    ensures { (outcome_of result, out.new)
        ≡ writes ok frame (with_fields id kind repeat address «data».now) out.old }
{
    if !is_sendable(kind, repeat, data.len()) {
        return Err(Refusal::Unsendable);
    }
    let header = [id, kind, repeat, address];
    let check = checksum::crc32_joined(&header, data).to_le_bytes();
    escape::enclose_into::<Escape>(&[0xFD], &header, data, &check, &[0xFE], out)
}

// The link. Its receiver hunts in mode 0; in mode 1 and, behind an FF, in mode 2 a frame is open.
pub struct Expansion;

impl Link for Expansion {
    type Message = Message;

    type State = State;

    ghost SIZE = { size };

    ghost known = { known_state 3 1 size };

    ghost fresh = { fresh_state };

    ghost noise = { λ s. s.noise };

    ghost Event = { Segment.Event Frame.Message };

    ghost step_on = { step_on link };

    ghost told = { told link };

    ghost receives = { receives link };

    ghost reads = { read_on link };

    ghost data_of = { data_of };

    ghost Ready = { Room size };

    ghost Due = { Room size };

    // A header of 4 bytes, at most 1,024 of data, a CRC of 4.
    const SIZE: usize = 1032;

    fn fresh() -> State {
        State::fresh()
    }

    fn is_known(state: State) -> bool {
        state.is_known(3, 1, Self::SIZE)
    }

    fn noise(state: State) -> u32 {
        state.noise
    }

    // Noise, or bytes of an open frame with no FF waiting. A `match` on the mode, here and in `step_in`: a caller may hold any number there.
    fn advance_in(
        turn: &Turn<Self>,
        state: State,
        store: &mut [u8],
        piece: &[u8],
        from: usize,
    ) -> Reached<State>
        requires ready { Room size state store.old }
        requires within { from ≤ length piece.now }
        ensures leads { Leads (step_on link) piece.now (state, store.old) from (result.state, store.new) result.next }
        ensures due { result.next < length piece.now → Room size result.state store.new }
    {
        match state.mode {
            0 => state.pass_hunting(piece, from, 0xFD),
            1 => Self::pass_bytes_in(turn, state, store, piece, from),
            _ => Reached { state, next: from },
        }
    }

    fn step_in(
        turn: &Turn<Self>,
        state: State,
        store: &mut [u8],
        byte: u8,
    ) -> Stepped<Message, State>
        requires { Room size state store.old }
        ensures tells { told_of result.told ≡ told link (step_on link (state, store.old) byte).1 }
        ensures leaves { (result.state, store.new) ≡ (step_on link (state, store.old) byte).0 }
        ensures ready { Room size result.state store.new }
    {
        match state.mode {
            0 => hunt(state, byte),
            _ => Self::take_byte_in(turn, state, store, byte),
        }
    }

    fn data(store: &[u8], message: Message) -> &[u8] {
        framing::data_at(store, 4, message.length)
    }

    ghost starts = { λ s store k room. record { count = known_count 3 1 size s k; room = room } };

    ghost silent = { Called.silent link };

    ghost loud = { Called.loud link };

    ghost calls = { Called.calls link };

    ghost wholes = { Called.wholes link };
}

impl Stepwise for Expansion {
    fn is_ready(state: State, store: &[u8]) -> bool {
        state.count <= Self::SIZE && Self::SIZE <= store.len()
    }

    fn is_due(state: State, store: &[u8]) -> bool {
        Self::is_ready(state, store)
    }
}

impl Enclosed for Expansion {
    type Code = Escape;

    type Message = Message;

    ghost OPEN = { 1 };

    ghost WAITING = { 2 };

    ghost MARK = { 1 };

    ghost MOST = { size };

    ghost judged = { judged };

    const OPEN: usize = 1;

    const WAITING: usize = 2;

    const MARK: u32 = 1;

    const MOST: usize = Self::SIZE;

    // Header, data and the CRC of both, low byte first.
    fn judge(gathered: &[u8]) -> Result<Message, Refusal> {
        let [id, kind, repeat, address, data @ .., a, b, c, d] = gathered else {
            return Err(Refusal::TooShort);
        };
        let length = data.len();
        if u32::from_le_bytes([*a, *b, *c, *d]) != checksum::crc32(&gathered[..4 + length]) {
            return Err(Refusal::WrongCheck);
        }
        if !fields_ok(*kind, *repeat, length) {
            return Err(Refusal::WrongField);
        }
        Ok(Message {
            id: *id,
            kind: *kind,
            repeat: *repeat,
            address: *address,
            length,
        })
    }
}

// Hunting: an FD opens a frame, any other byte is noise.
fn hunt(state: State, byte: u8) -> Stepped<Message, State>
    requires { state.mode ≡ 0 }
    ensures { ByRules state (on_byte hunting byte) result }
{
    Stepped {
        told: Ok(None),
        state: if byte == 0xFD {
            state.reopen(1, 0, 1)
        } else {
            state.add_noise(1)
        },
    }
}

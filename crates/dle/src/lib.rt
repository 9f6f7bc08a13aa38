// The DLE link of gas meters: writer and receiver.
#![tactic(auto)]

ghost use Rattle.std.specs.Prelude.{◌≡◌, List, ◌++◌, ℕ, ◌+◌, ◌≤◌, ◌<◌, length};
ghost use Rattle.framing.specs.Answer.{outcome_of, stored_at};
ghost use Rattle.framing.specs.Writer.{writes};
ghost use Rattle.framing.specs.Segment as Segment;
ghost use Rattle.framing.specs.State.{fresh_state, known_state};
ghost use Rattle.framing.specs.Link.{told, step_on, receives};
ghost use Rattle.framing.specs.Call.{told_of};
ghost use Rattle.framing.specs.Passing.{Leads};
ghost use Rattle.framing.specs.Whole.{read_on};
ghost use Rattle.framing.specs.Open.{Room};
ghost use Rattle.framing.proofs.Called as Called;
ghost use Rattle.framing.proofs.States.{known_count};
ghost use Rattle.dle.specs.Frame as Frame;
ghost use Rattle.dle.specs.Frame.{content, error, ok, enclose, frame};
ghost use Rattle.dle.specs.Rules.{hunting, half, size, bytes_behind, on_byte};
ghost use Rattle.dle.specs.Contract.{data_of, link};
ghost use Rattle.dle.specs.Steps.{judged, ByRules, Passes};

use escape::{Dle as Doubling, Enclosed};
use framing::{Answer, Link, Reached, Refusal, State, Stepped, Stepwise, Turn};

// An accepted message: length 0 marks an error message with its error byte; else so much data lies in the store from place 3.
// Sequence and node do not stand side by side: they would be loaded together where they were stored apart, which takes longer.
#[derive(Clone, Copy)]
pub struct Message {
    pub sequence: u8,
    pub length: u8,
    pub node: u8,
    pub error: u8,
}

// Writes the frame of a message with data at the start of the lent memory, and answers its length.
pub fn write(sequence: u8, node: u8, data: &[u8], out: &mut [u8]) -> Answer
    ensures { (outcome_of result, out.new) ≡ writes ok frame (content sequence node «data».now) out.old }
{
    match u8::try_from(data.len()) {
        Ok(count) if 0 < count => send(&[sequence, node, count], data, out),
        _ => Err(Refusal::Unsendable),
    }
}

// Writes the frame of an error message.
pub fn write_error(sequence: u8, node: u8, code: u8, out: &mut [u8]) -> Answer
    ensures { (outcome_of result, out.new) ≡ writes ok frame (error sequence node code) out.old }
{
    send(&[sequence, node, 0], &[code], out)
}

// Stores the frame of a header and data, if the memory holds it.
fn send(header: &[u8], data: &[u8], out: &mut [u8]) -> Answer
    requires { length header.now + length «data».now ≤ size }
    ensures { (outcome_of result, out.new) ≡ stored_at (enclose (header.now ++ «data».now)) out.old 0 }
{
    escape::enclose_into::<Doubling>(&[0x10, 0x02], header, data, &[], &[0x10, 0x03], out)
}

// The link. Its receiver hunts in mode 0 and, behind a 10, in mode 1; in mode 2 and, behind a 10, in mode 3 a frame is open.
pub struct Dle;

impl Link for Dle {
    type Message = Message;

    type State = State;

    ghost SIZE = { size };

    ghost known = { known_state 4 2 size };

    ghost fresh = { fresh_state };

    ghost noise = { λ s. s.noise };

    ghost Event = { Segment.Event Frame.Message };

    ghost step_on = { step_on link };

    ghost told = { told link };

    ghost receives = { receives link };

    ghost reads = { read_on link };

    ghost data_of = { data_of };

    ghost Ready = { Room size };

    ghost Due = { Room size };

    // A header of 3 bytes and data of at most 255.
    const SIZE: usize = 258;

    fn fresh() -> State {
        State::fresh()
    }

    fn is_known(state: State) -> bool {
        state.is_known(4, 2, Self::SIZE)
    }

    fn noise(state: State) -> u32 {
        state.noise
    }

    // Noise, or bytes of an open frame with no 10 waiting. A `match` on the mode, here and in `step_in`: a caller may hold any number there.
    fn advance_in(
        turn: &Turn<Self>,
        state: State,
        store: &mut [u8],
        piece: &[u8],
        from: usize,
    ) -> Reached<State>
        requires ready { Room size state store.old }
        requires within { from ≤ length piece.now }
        ensures leads { Leads (step_on link) piece.now (state, store.old) from (result.state, store.new) result.next }
        ensures due { result.next < length piece.now → Room size result.state store.new }
    {
        match state.mode {
            0 => pass_to_frame(turn, state, store, piece, from),
            2 => Self::pass_bytes_in(turn, state, store, piece, from),
            _ => Reached { state, next: from },
        }
    }

    fn step_in(
        turn: &Turn<Self>,
        state: State,
        store: &mut [u8],
        byte: u8,
    ) -> Stepped<Message, State>
        requires { Room size state store.old }
        ensures tells { told_of result.told ≡ told link (step_on link (state, store.old) byte).1 }
        ensures leaves { (result.state, store.new) ≡ (step_on link (state, store.old) byte).0 }
        ensures ready { Room size result.state store.new }
    {
        match state.mode {
            0 => hunt(state, byte),
            1 => begin(state, byte),
            _ => Self::take_byte_in(turn, state, store, byte),
        }
    }

    fn data(store: &[u8], message: Message) -> &[u8] {
        framing::data_at(store, 3, usize::from(message.length))
    }

    ghost starts = { λ s store k room. record { count = known_count 4 2 size s k; room = room } };

    ghost silent = { Called.silent link };

    ghost loud = { Called.loud link };

    ghost calls = { Called.calls link };

    ghost wholes = { Called.wholes link };
}

impl Stepwise for Dle {
    fn is_ready(state: State, store: &[u8]) -> bool {
        state.count <= Self::SIZE && Self::SIZE <= store.len()
    }

    fn is_due(state: State, store: &[u8]) -> bool {
        Self::is_ready(state, store)
    }
}

impl Enclosed for Dle {
    type Code = Doubling;

    type Message = Message;

    ghost OPEN = { 2 };

    ghost WAITING = { 3 };

    ghost MARK = { 2 };

    ghost MOST = { size };

    ghost judged = { judged };

    const OPEN: usize = 2;

    const WAITING: usize = 3;

    const MARK: u32 = 2;

    const MOST: usize = Self::SIZE;

    // Header and data, or header and error byte.
    fn judge(gathered: &[u8]) -> Result<Message, Refusal> {
        let [sequence, node, length, first, ..] = gathered else {
            return Err(Refusal::TooShort);
        };
        if gathered.len() - 3 != bytes_behind(*length) {
            return Err(Refusal::WrongLength);
        }
        Ok(Message {
            sequence: *sequence,
            length: *length,
            node: *node,
            error: if *length == 0 { *first } else { 0 },
        })
    }
}

// Hunting: a 10 waits, any other byte is noise.
fn hunt(state: State, byte: u8) -> Stepped<Message, State>
    requires { state.mode ≡ 0 }
    ensures { ByRules state (on_byte hunting byte) result }
{
    Stepped {
        told: Ok(None),
        state: if byte == 0x10 {
            state.reopen(1, 0, 1)
        } else {
            state.add_noise(1)
        },
    }
}

// Hunting, after a 10: a 02 opens a frame, any other byte is noise with the 10.
fn begin(state: State, byte: u8) -> Stepped<Message, State>
    requires { state.mode ≡ 1 }
    ensures { ByRules state (on_byte half byte) result }
{
    Stepped {
        told: Ok(None),
        state: if byte == 0x02 {
            state.hold(2, 0)
        } else {
            state.add_noise(2)
        },
    }
}

// How many bytes stand behind a stated length: 0 marks an error message with its one byte.
fn bytes_behind(stated: u8) -> usize
    ensures { result ≡ bytes_behind stated }
{
    if stated == 0 { 1 } else { usize::from(stated) }
}

// The start mark, where it lies whole at a place: hunting, it opens a frame. Else nothing is passed.
fn pass_start(state: State, piece: &[u8], from: usize) -> Reached<State>
    requires { (state.mode ≡ 0) × (state.count ≤ size) × (from ≤ length piece.now) }
    ensures { (store : List ℕ) → Passes piece.now (state, store) from result store }
{
    if piece[from..].starts_with(&[0x10, 0x02]) {
        Reached {
            state: state.reopen(2, 0, 2),
            next: from + 2,
        }
    } else {
        Reached { state, next: from }
    }
}

// Hunting: the noise up to the next 10 and, where that starts a frame, its mark and its bytes.
fn pass_to_frame(
    turn: &Turn<Dle>,
    state: State,
    store: &mut [u8],
    piece: &[u8],
    from: usize,
) -> Reached<State>
    requires { (state.mode ≡ 0) × Room size state store.old × (from ≤ length piece.now) }
    ensures { Passes piece.now (state, store.old) from result store.new }
{
    let noise = state.pass_hunting(piece, from, 0x10);
    let start = pass_start(noise.state, piece, noise.next);
    if start.state.mode == 2 {
        Dle::pass_bytes_in(turn, start.state, store, piece, start.next)
    } else {
        start
    }
}

// The PCS link of boards: writer and receiver.
#![tactic(auto)]

mod fields;
mod writer;

ghost use Rattle.std.specs.Prelude.{◌≡◌, List, [], ℕ, ◌≤◌, ◌<◌, length, take};
ghost use Rattle.std.proofs.Math.Option.{some};
ghost use Rattle.runs.specs.Runs.{over};
ghost use Rattle.framing.specs.Answer.{outcome_of, fault_of};
ghost use Rattle.framing.specs.Writer.{writes};
ghost use Rattle.framing.specs.Segment.{Event, event_of};
ghost use Rattle.framing.specs.State.{fresh_state, known_state};
ghost use Rattle.framing.specs.Link.{told, step_on, receives};
ghost use Rattle.framing.specs.Call.{told_of};
ghost use Rattle.framing.specs.Whole.{read_on};
ghost use Rattle.framing.specs.Passing.{Leads};
ghost use Rattle.framing.proofs.Called as Called;
ghost use Rattle.framing.proofs.States.{known_count};
ghost use Rattle.pcs.specs.Frame.{with_fields, ok, frame};
ghost use Rattle.pcs.specs.Frame as Frame;
ghost use Rattle.pcs.specs.Rules.{hunting, inside, size, fields_ok, message_with, judge, gather, on_byte};
ghost use Rattle.pcs.specs.Rules as Rules;
ghost use Rattle.pcs.specs.Contract.{phase_of, front_of, numbers_of, data_of, link};
ghost use Rattle.pcs.specs.Steps.{trailer_fault, heard, ByRules, Ready, Open};

use framing::{Answer, Link, Reached, Refusal, State, Stepped, Stepwise, Turn};

// The least store of a receiver: a header of 8 bytes, at most 1,171 packed bytes, the sum, three bytes of CRC.
const SIZE: usize = 1183;

// The most bytes that are gathered of a frame without a CRC.
const PLAIN_SIZE: usize = 1180;

// The numbers of a message. The data of an accepted one lie in the store from place 0. The kind stays a number, since a call of
// `linebox_pcs_write` may give any, and one that is none is answered with 3.
#[derive(Clone, Copy)]
pub struct Message {
    pub receiver: u8,
    pub sender: u8,
    pub kind: u8,
    pub number: u8,
    pub sender_port: u8,
    pub receiver_port: u8,
    pub crc: bool,
    pub length: usize,
}

// Writes the frame of a message at the start of the lent memory, and answers its length. The parameters are those of `linebox_pcs_write`.
pub fn write(
    receiver: u8,
    sender: u8,
    kind: u8,
    number: u8,
    sender_port: u8,
    receiver_port: u8,
    crc: bool,
    data: &[u8],
    out: &mut [u8],
) -> Answer
    ensures { (outcome_of result, out.new)
        ≡ writes ok frame
        (with_fields receiver sender kind number sender_port receiver_port crc «data».now) out.old }
{
    let message = Message {
        receiver,
        sender,
        kind,
        number,
        sender_port,
        receiver_port,
        crc,
        length: data.len(),
    };
    writer::write_message(message, data, out)
}

// The link. Its receiver hunts in mode 0, and in mode 1 a frame is open, its bytes gathered at the front of the store.
pub struct Pcs;

impl Link for Pcs {
    type Message = Message;

    type State = State;

    ghost SIZE = { size };

    ghost known = { known_state 2 1 size };

    ghost fresh = { fresh_state };

    ghost noise = { λ s. s.noise };

    ghost Event = { Event Frame.Message };

    ghost step_on = { step_on link };

    ghost told = { told link };

    ghost receives = { receives link };

    ghost reads = { read_on link };

    ghost data_of = { data_of };

    ghost Ready = { Ready };

    ghost Due = { Ready };

    const SIZE: usize = SIZE;

    fn fresh() -> State {
        State::fresh()
    }

    fn is_known(state: State) -> bool {
        state.is_known(2, 1, SIZE)
    }

    fn noise(state: State) -> u32 {
        state.noise
    }

    // Noise, or bytes of an open frame. A `match` on the mode, here and in `step_in`: a caller may hold any number there.
    fn advance_in(
        _turn: &Turn<Self>,
        state: State,
        store: &mut [u8],
        piece: &[u8],
        from: usize,
    ) -> Reached<State>
        requires ready { Ready state store.old }
        requires within { from ≤ length piece.now }
        ensures leads { Leads (step_on link) piece.now (state, store.old) from (result.state, store.new) result.next }
        ensures due { result.next < length piece.now → Ready result.state store.new }
    {
        match state.mode {
            0 => state.pass_hunting(piece, from, fields::START),
            1 => pass_bytes(state, store, piece, from),
            _ => Reached { state, next: from },
        }
    }

    fn step_in(
        _turn: &Turn<Self>,
        state: State,
        store: &mut [u8],
        byte: u8,
    ) -> Stepped<Message, State>
        requires { Ready state store.old }
        ensures tells { told_of result.told ≡ told link (step_on link (state, store.old) byte).1 }
        ensures leaves { (result.state, store.new) ≡ (step_on link (state, store.old) byte).0 }
        ensures ready { Ready result.state store.new }
    {
        if state.mode == 0 {
            hunt(state, byte)
        } else {
            inside_byte(state, store, byte)
        }
    }

    fn data(store: &[u8], message: Message) -> &[u8] {
        framing::data_at(store, 0, message.length)
    }

    ghost starts = { λ s store k room. record { count = known_count 2 1 size s k; room = room } };

    ghost silent = { Called.silent link };

    ghost loud = { Called.loud link };

    ghost calls = { Called.calls link };

    ghost wholes = { Called.wholes link };
}

impl Stepwise for Pcs {
    fn is_ready(state: State, store: &[u8]) -> bool {
        state.count <= SIZE && SIZE <= store.len()
    }

    fn is_due(state: State, store: &[u8]) -> bool {
        Self::is_ready(state, store)
    }
}

// Hunting: the start mark opens a frame, any other byte is noise.
fn hunt(state: State, byte: u8) -> Stepped<Message, State>
    requires { state.mode ≡ 0 }
    ensures { ByRules state (on_byte hunting byte) result }
{
    Stepped {
        told: Ok(None),
        state: if byte == fields::START {
            state.reopen(1, 0, 1)
        } else {
            state.add_noise(1)
        },
    }
}

// The bytes of an open frame from a place on, up to a mark, the size or the end of the piece.
fn pass_bytes(state: State, store: &mut [u8], piece: &[u8], from: usize) -> Reached<State>
    requires mode { state.mode ≡ 1 }
    requires ready { Ready state store.old }
    requires within { from ≤ length piece.now }
    ensures leads { Leads (step_on link) piece.now (state, store.old) from (result.state, store.new) result.next }
    ensures ready { Ready result.state store.new }
{
    let at = state.count;
    let n = runs::copy_before(
        fields::START,
        fields::END,
        &piece[from..],
        store,
        at,
        SIZE - at,
    );
    Reached {
        state: state.pass_open(at + n, n),
        next: from + n,
    }
}

// One more byte of the frame is gathered, unless the size is reached.
fn gather_byte(state: State, store: &mut [u8], byte: u8) -> Stepped<Message, State>
    requires { Open state store.old }
    ensures stepped { (wire : List ℕ) → ByRules state (gather (take state.count store.old) byte wire) result }
    ensures stored { (wire : List ℕ) → store.new
        ≡ over (front_of (gather (take state.count store.old) byte wire)) store.old }
{
    state.gather(store, byte, 1, SIZE)
}

// An open frame: the start mark opens the next one, the end mark ends it, any other byte is gathered.
fn inside_byte(state: State, store: &mut [u8], byte: u8) -> Stepped<Message, State>
    requires { Open state store.old }
    ensures stepped { ByRules state (on_byte (inside (take state.count store.old)) byte) result }
    ensures stored { store.new
        ≡ over (front_of (on_byte (inside (take state.count store.old)) byte)) store.old }
{
    match byte {
        fields::START => Stepped {
            told: Err(Refusal::NewStart),
            state: state.reopen(1, 0, 1), // the 253 opens the next frame
        },
        fields::END => Stepped {
            told: judge_frame(store, state.count).map(Some),
            state: state.close(),
        },
        _ => gather_byte(state, store, byte),
    }
}

// The end of a frame with so many gathered bytes. Its numbers are read before unpacking overwrites them.
fn judge_frame(store: &mut [u8], count: usize) -> Result<Message, Refusal>
    requires { count ≤ length store.old }
    ensures told { (wire : List ℕ) → heard (outcome_of result) ≡ told link (event_of (some (judge (take count store.old) wire))) }
    ensures stored { (wire : List ℕ) → store.new
        ≡ over (front_of (hunting, some (judge (take count store.old) wire))) store.old }
{
    let gathered = &store[..count];
    check_frame(gathered)?;
    let numbers = numbers_of(gathered);
    let packed = fields::stated_by(gathered[4], gathered[5]);
    let length = packing::unpack_in_place(store, 8, packed)?;
    // copied whole, and not `..numbers`: fields that are written one by one make a load of several of them wait, as host's has one
    let mut message = numbers;
    message.length = length;
    Ok(message)
}

// The first test before unpacking that a frame's gathered bytes fail.
fn check_frame(gathered: &[u8]) -> Result<(), Refusal>
    ensures { fault_of (outcome_of result) ≡ Rules.fault_of gathered.now }
{
    if gathered.len() < 9 {
        return Err(Refusal::TooShort); // of either sort, and there may be no info
    }
    let crc = fields::crc_info(gathered[2]);
    check_trailer(gathered, crc)?;
    if !fields_ok(gathered) {
        return Err(Refusal::WrongField);
    }
    if fields::stated_by(gathered[4], gathered[5]) != gathered.len() - fields::trailing(crc) - 8 {
        return Err(Refusal::WrongLength);
    }
    Ok(())
}

// The first tests of gathered bytes, taken as a frame with or without a CRC. A branch for each is faster, since the compiler then knows the
// trailer's length.
fn check_trailer(gathered: &[u8], crc: bool) -> Result<(), Refusal>
    ensures { fault_of (outcome_of result) ≡ trailer_fault crc gathered.now }
{
    if crc {
        check_as(gathered, true)
    } else {
        check_as(gathered, false)
    }
}

// How many bytes there are, and their check values.
fn check_as(gathered: &[u8], crc: bool) -> Result<(), Refusal>
    ensures { fault_of (outcome_of result) ≡ trailer_fault crc gathered.now }
{
    let count = gathered.len();
    let trailing = fields::trailing(crc);
    if count < 8 + trailing {
        return Err(Refusal::TooShort);
    }
    if !crc && PLAIN_SIZE < count {
        return Err(Refusal::TooLong);
    }
    let (body, trailer) = gathered.split_at(count - trailing);
    if trailer[0] != checksum::sum(body) {
        return Err(Refusal::WrongCheck);
    }
    if crc && !trailer.ends_with(&fields::crc_bytes(checksum::crc16(0, body))) {
        return Err(Refusal::WrongCheck);
    }
    Ok(())
}

// The numbers of a frame's gathered bytes; the length of its data is not known yet.
fn numbers_of(gathered: &[u8]) -> Message
    requires { 9 ≤ length gathered.now }
    ensures { result ≡ numbers_of (message_with gathered.now []) }
{
    let info = gathered[2];
    Message {
        receiver: gathered[0],
        sender: gathered[1],
        kind: fields::kind_of(info),
        number: gathered[3],
        sender_port: gathered[6],
        receiver_port: gathered[7],
        crc: fields::crc_info(info),
        length: 0,
    }
}

// Whether all fields are allowed, the length bytes and the kind with the stated length too.
fn fields_ok(gathered: &[u8]) -> bool
    requires { 9 ≤ length gathered.now }
    ensures { result ≡ fields_ok gathered.now }
{
    let numbers = numbers_of(gathered);
    let high = gathered[4];
    let low = gathered[5];
    fields::plain_fields_ok(numbers)
        && fields::info_ok(gathered[2])
        && packing::is_sent(high)
        && packing::is_sent(low)
        && fields::kind_ok(numbers.kind, fields::stated_by(high, low))
}

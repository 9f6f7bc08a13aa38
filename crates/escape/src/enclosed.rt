// What links share whose frames hide their bytes by a code between two marks: the receiver of an open frame, and the writing of a frame.
ghost use Rattle.std.specs.Prelude.{◌≡◌, ℕ, ◌+◌, ◌*◌, ◌≤◌, ◌==◌, nat_le, List, ◌++◌, length};
ghost use Rattle.std.proofs.lemmas.List.Edits.{sets};
ghost use Rattle.framing.specs.Answer.{Outcome, outcome_of, stored_at};
ghost use Rattle.framing.specs.Link.{nothing};
ghost use Rattle.framing.specs.Call.{told_of};
ghost use Rattle.framing.specs.Open.{Room};
ghost use Rattle.escape.specs.Code.{hide, meaning};
ghost use Rattle.escape.specs.Enclosed.{taken, passed};

use super::{Code, Meaning, put_bytes};
use framing::{Answer, Reached, Refusal, State, Stepped, Turn};

// A link whose frames hide their bytes by a code. While a frame is open, its bytes lie gathered at the front of the store.
pub trait Enclosed {
    type Code: Code;

    // The numbers that are told of a message.
    type Message: Copy;

    ghost OPEN: { ℕ };

    ghost WAITING: { ℕ };

    ghost MARK: { ℕ };

    ghost MOST: { ℕ };

    ghost judged: { List ℕ → Outcome Self.Message };

    // The modes of an open frame, with half an escape waiting or not.
    const OPEN: usize;

    const WAITING: usize;

    // How many wire bytes the start mark has.
    const MARK: u32;

    // The most bytes that are gathered.
    const MOST: usize;

    // The end of a frame of these bytes.
    fn judge(gathered: &[u8]) -> Result<Self::Message, Refusal>
        ensures { outcome_of result ≡ judged gathered.now };

    // One wire byte of an open frame, at a turn of a call.
    final fn take_byte_in(
        _turn: &Turn<Self>,
        state: State,
        store: &mut [u8],
        byte: u8,
    ) -> Stepped<Self::Message, State>
        requires { Room MOST state store.old }
        ensures { ((result.state, store.new), told_of result.told)
            ≡ taken MOST OPEN WAITING MARK judged state store.old (meaning Self.Code.code (state.mode == WAITING) byte) }
    {
        take::<Self>(state, store, byte)
    }

    // What `take_byte_in` makes of a byte, outside of a call. Of a state and a store with no room, nothing.
    final fn take_byte(state: State, store: &mut [u8], byte: u8) -> Stepped<Self::Message, State>
        ensures takes { Room MOST state store.old
            → ((result.state, store.new), told_of result.told)
            ≡ taken MOST OPEN WAITING MARK judged state store.old (meaning Self.Code.code (state.mode == WAITING) byte) }
        ensures others { (Room MOST state store.old → ⊥)
            → (told_of result.told ≡ nothing) × (result.state ≡ state) × (store.new ≡ store.old) }
    {
        if state.count <= Self::MOST && Self::MOST <= store.len() {
            take::<Self>(state, store, byte)
        } else {
            Stepped {
                told: Ok(None),
                state,
            }
        }
    }

    // The wire bytes of an open frame from a place on, as far as whole bytes come and the size allows, at a turn of a call.
    final fn pass_bytes_in(
        _turn: &Turn<Self>,
        state: State,
        store: &mut [u8],
        piece: &[u8],
        from: usize,
    ) -> Reached<State>
        requires room { Room MOST state store.old }
        requires within { from ≤ length piece.now }
        ensures { (result, store.new) ≡ passed Self.Code.code MOST state store.old piece.now from }
    {
        pass::<Self>(state, store, piece, from)
    }

    // What `pass_bytes_in` passes, outside of a call. Of a state and a store with no room, or from behind the piece, nothing.
    final fn pass_bytes(state: State, store: &mut [u8], piece: &[u8], from: usize) -> Reached<State>
        ensures passes { Room MOST state store.old
            → from ≤ length piece.now
            → (result, store.new) ≡ passed Self.Code.code MOST state store.old piece.now from }
        ensures others { (Room MOST state store.old × (from ≤ length piece.now) → ⊥)
            → (result.state ≡ state) × (store.new ≡ store.old) × (result.next ≡ from) }
    {
        if from <= piece.len() && state.count <= Self::MOST && Self::MOST <= store.len() {
            pass::<Self>(state, store, piece, from)
        } else {
            Reached { state, next: from }
        }
    }
}

// The byte, for both of the functions: here nobody can make a `Turn`.
fn take<E: Enclosed>(state: State, store: &mut [u8], byte: u8) -> Stepped<E::Message, State>
    requires { Room E.MOST state store.old }
    ensures { ((result.state, store.new), told_of result.told)
        ≡ taken E.MOST E.OPEN E.WAITING E.MARK E.judged state store.old (meaning E.Code.code (state.mode == E.WAITING) byte) }
{
    match E::Code::meaning(state.mode == E::WAITING, byte) {
        Meaning::Byte(byte) => state.gather(store, byte, E::OPEN, E::MOST),
        Meaning::Waits => Stepped {
            told: Ok(None),
            state: state.hold(E::WAITING, state.count),
        },
        Meaning::Start => Stepped {
            told: Err(Refusal::NewStart),
            state: state.reopen(E::OPEN, 0, E::MARK),
        },
        Meaning::End => Stepped {
            told: E::judge(&store[..state.count]).map(Some),
            state: state.close(),
        },
        Meaning::Wrong => Stepped {
            told: Err(Refusal::WrongCode),
            state: state.close(),
        },
    }
}

// The bytes, for both of the functions.
fn pass<E: Enclosed>(state: State, store: &mut [u8], piece: &[u8], from: usize) -> Reached<State>
    requires room { Room E.MOST state store.old }
    requires within { from ≤ length piece.now }
    ensures { (result, store.new) ≡ passed E.Code.code E.MOST state store.old piece.now from }
{
    let got = E::Code::unhide_into(&piece[from..], store, state.count, E::MOST - state.count);
    Reached {
        state: state.pass_open(state.count + got.count, got.used),
        next: from + got.used,
    }
}

// Stores a frame at the start of a memory, if it fits: the start mark, three parts hidden by a code, the end mark.
pub fn enclose_into<C: Code>(
    start: &[u8],
    header: &[u8],
    data: &[u8],
    trailer: &[u8],
    end: &[u8],
    out: &mut [u8],
) -> Answer
    ensures { (outcome_of result, out.new)
        ≡ stored_at (start.now ++ (hide C.code (header.now ++ («data».now ++ trailer.now)) ++ end.now)) out.old 0 }
{
    if !fits::<C>(header, data, trailer, start.len() + end.len(), out) {
        return Err(Refusal::OutputShort);
    }
    let mut at = start.len();
    out[..at].copy_from_slice(start);
    at += put_bytes::<C>(header, out, at);
    at += put_bytes::<C>(data, out, at);
    at += put_bytes::<C>(trailer, out, at);
    let total = at + end.len();
    out[at..total].copy_from_slice(end);
    Ok(total)
}

// Whether a frame with so many bytes of marks fits a memory. Where two wire bytes for each byte fit, they need not be counted.
fn fits<C: Code>(header: &[u8], data: &[u8], trailer: &[u8], marks: usize, out: &[u8]) -> bool
    ensures { result ≡ nat_le (marks + length (hide C.code (header.now ++ («data».now ++ trailer.now)))) (length out.now) }
{
    let Some(room) = out.len().checked_sub(marks) else {
        return false;
    };
    let bytes = header
        .len()
        .saturating_add(data.len())
        .saturating_add(trailer.len());
    if bytes <= room / 2 {
        return true;
    }
    let hidden = C::hidden_length(header).saturating_add(C::hidden_length(data));
    hidden.saturating_add(C::hidden_length(trailer)) <= room
}

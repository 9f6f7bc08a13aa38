// A link in code: what a call of its receiver does, the read of a whole frame, and the data of a message, said once for all links. A link gives
// how its bytes are taken, one by one and in runs.
ghost use Rattle.std.specs.Prelude.{◌≡◌, Bool, true, List, ℕ, ◌≤◌, ◌<◌, length};
ghost use Rattle.std.proofs.Math.Option.{Option, none, some};
ghost use Rattle.framing.specs.Answer.{Outcome, outcome_of};
ghost use Rattle.framing.specs.Receiver.{feed};
ghost use Rattle.framing.specs.Link.{Told, nothing, is_event};
ghost use Rattle.framing.specs.Call.{told_of, received_of, reported, answered, whole};
ghost use Rattle.framing.specs.Passing.{Leads};

use crate::refusal::Refusal;
use crate::{Reached, check_call, is_exact};
use std::marker::PhantomData;

// What a call of a receiver tells: nothing, a message, or a refusal.
pub type Told<M> = Result<Option<M>, Refusal>;

// What a call answers: what it tells, how many bytes of the piece it used, and the state for the next call.
#[derive(Clone, Copy)]
pub struct Received<M, S> {
    pub told: Told<M>,
    pub used: usize,
    pub state: S,
}

// What a byte makes: what is told of it, and the state after it.
#[derive(Clone, Copy)]
pub struct Stepped<M, S> {
    pub told: Told<M>,
    pub state: S,
}

// The turns of a call of one link over a piece. Only `scan`, and `advance` and `step` once they have looked at the state and the store, make it and
// lend it to the link, which can neither keep it nor lend it to another link: so nobody else can ask a link to take bytes of a state and a store that
// nobody looked at. Since it names the link, the clauses of the trait are written out where a link gives its functions.
#[derive(Drop)]
pub struct Turn<L> {
    begun: PhantomData<L>,
}

pub trait Link {
    // The numbers that are told of a message. Its data lie in the store, which is lent anew at each call, so they are named by a length, not held.
    type Message: Copy;

    type State: Copy;

    // The least store, the states that do not give 12, a receiver that has read nothing, its count of noise.
    ghost SIZE: { ℕ };

    ghost known: { Self.State → Bool };

    ghost fresh: { Self.State };

    ghost noise: { Self.State → ℕ };
    // What a byte does to state and store, and what is told of what it makes.
    ghost Event: { Type 0 };

    ghost step_on: { Self.State × List ℕ → ℕ → (Self.State × List ℕ) × Option Event };

    ghost told: { Option Event → Told Self.Message };
    // A call, the read of a whole frame, and the data of a message, by the rules.
    ghost receives: { Self.State × List ℕ → List ℕ → Told Self.Message × ℕ × (Self.State × List ℕ) };

    ghost reads: { List ℕ → List ℕ → Outcome Self.Message × List ℕ };

    ghost data_of: { List ℕ → Self.Message → List ℕ };
    // Of which states and stores runs of bytes are passed, and of which a byte is then taken.
    ghost Ready: { Self.State → List ℕ → Type 0 };

    ghost Due: { Self.State → List ℕ → Type 0 };

    const SIZE: usize;

    fn fresh() -> Self::State
        ensures { result ≡ fresh };

    fn is_known(state: Self::State) -> bool
        ensures { result ≡ known state };

    fn noise(state: Self::State) -> u32
        ensures { result ≡ noise state };

    // The bytes that are passed at once, without an event.
    fn advance_in(
        turn: &Turn<Self>,
        state: Self::State,
        store: &mut [u8],
        piece: &[u8],
        from: usize,
    ) -> Reached<Self::State>
        requires ready { Ready state store.old }
        requires within { from ≤ length piece.now }
        ensures leads { Leads step_on piece.now (state, store.old) from (result.state, store.new) result.next }
        ensures due { result.next < length piece.now → Due result.state store.new };

    // One byte.
    fn step_in(
        turn: &Turn<Self>,
        state: Self::State,
        store: &mut [u8],
        byte: u8,
    ) -> Stepped<Self::Message, Self::State>
        requires { Due state store.old }
        ensures tells { told_of result.told ≡ told (step_on (state, store.old) byte).1 }
        ensures leaves { (result.state, store.new) ≡ (step_on (state, store.old) byte).0 }
        ensures ready { Ready result.state store.new };

    // The data of a message, as a part of the store; empty where the numbers reach beyond the store.
    fn data(store: &[u8], message: Self::Message) -> &[u8]
        ensures { result.now ≡ data_of store.now message };

    ghost starts: { (s : Self.State) (store : List ℕ) → known s ≡ true → SIZE ≤ length store → Ready s store };

    ghost silent: { told none ≡ nothing };

    ghost loud: { (e : Event) → is_event (told (some e)) ≡ true };

    ghost calls: { (c : Self.State × List ℕ) (piece : List ℕ) → answered known SIZE step_on told c piece ≡ receives c piece };

    ghost wholes: { (run store : List ℕ) → whole noise (length run) (receives (fresh, store) run) ≡ reads run store };

    // A call of the receiver: uses the bytes of the piece until one makes an event, that one included.
    final fn receive(
        state: Self::State,
        store: &mut [u8],
        piece: &[u8],
    ) -> Received<Self::Message, Self::State>
        ensures { received_of result store.new ≡ receives (state, store.old) piece.now }
    {
        if let Err(refusal) = check_call(Self::is_known(state), Self::SIZE <= store.len()) {
            return Received {
                told: Err(refusal),
                used: 0,
                state,
            };
        }
        scan::<Self>(state, store, piece)
    }

    // Reads a run that is to be one whole frame, by one call of a fresh receiver.
    final fn read(run: &[u8], store: &mut [u8]) -> Result<Self::Message, Refusal>
        ensures { (outcome_of result, store.new) ≡ reads run.now store.old }
    {
        let got = Self::receive(Self::fresh(), store, run);
        let exact = is_exact(run.len(), got.used, Self::noise(got.state));
        match got.told? {
            Some(message) if exact => Ok(message),
            _ => Err(Refusal::TooShort),
        }
    }

    // What `advance_in` passes, outside of a call. Of a state and a store that are not ready, or from behind the piece, nothing.
    final fn advance(
        state: Self::State,
        store: &mut [u8],
        piece: &[u8],
        from: usize,
    ) -> Reached<Self::State>
    where
        Self: Stepwise,
        ensures leads { Ready state store.old
            → from ≤ length piece.now
            → Leads step_on piece.now (state, store.old) from (result.state, store.new) result.next }
        ensures due { Ready state store.old
            → from ≤ length piece.now
            → result.next < length piece.now
            → Due result.state store.new }
        ensures others { (Ready state store.old × (from ≤ length piece.now) → ⊥)
            → (result.state ≡ state) × (store.new ≡ store.old) × (result.next ≡ from) }
    {
        if from <= piece.len() && Self::is_ready(state, store) {
            let turn = Turn { begun: PhantomData };
            Self::advance_in(&turn, state, store, piece, from)
        } else {
            Reached { state, next: from }
        }
    }

    // What `step_in` makes of a byte, outside of a call. Of a state and a store that are not due, nothing.
    final fn step(
        state: Self::State,
        store: &mut [u8],
        byte: u8,
    ) -> Stepped<Self::Message, Self::State>
    where
        Self: Stepwise,
        ensures tells { Due state store.old → told_of result.told ≡ told (step_on (state, store.old) byte).1 }
        ensures leaves { Due state store.old → (result.state, store.new) ≡ (step_on (state, store.old) byte).0 }
        ensures ready { Due state store.old → Ready result.state store.new }
        ensures others { (Due state store.old → ⊥)
            → (told_of result.told ≡ nothing) × (result.state ≡ state) × (store.new ≡ store.old) }
    {
        if Self::is_due(state, store) {
            let turn = Turn { begun: PhantomData };
            Self::step_in(&turn, state, store, byte)
        } else {
            Stepped {
                told: Ok(None),
                state,
            }
        }
    }
}

// A link that can tell of which states and stores it takes bytes: a caller may then have it take some by themselves, and is asked for nothing.
pub trait Stepwise: Link {
    // Whether runs of bytes are passed.
    fn is_ready(state: Self::State, store: &[u8]) -> bool
        ensures only { result ≡ true → Self.Ready state store.now }
        ensures all { Self.Ready state store.now → result ≡ true };

    // Whether a byte is taken.
    fn is_due(state: Self::State, store: &[u8]) -> bool
        ensures only { result ≡ true → Self.Due state store.now }
        ensures all { Self.Due state store.now → result ≡ true };
}

// The bytes of a piece, until one makes an event.
fn scan<L: Link>(state: L::State, store: &mut [u8], piece: &[u8]) -> Received<L::Message, L::State>
    requires { L.Ready state store.old }
    ensures { received_of result store.new ≡ reported L.told (feed L.step_on (state, store.old) piece.now) }
{
    let turn = Turn { begun: PhantomData };
    let mut current = state;
    let mut i = 0;
    // no `for`: a turn goes as far as the link passes bytes
    loop {
        let reached = L::advance_in(&turn, current, store, piece, i);
        i = reached.next;
        if i == piece.len() {
            return Received {
                told: Ok(None),
                used: i,
                state: reached.state,
            };
        }
        let stepped = L::step_in(&turn, reached.state, store, piece[i]);
        i += 1;
        // a case for each of the two: one test for both would stand behind every byte
        let told = match stepped.told {
            Ok(None) => {
                current = stepped.state;
                continue;
            }
            Ok(Some(message)) => Ok(Some(message)),
            Err(refusal) => Err(refusal),
        };
        return Received {
            told,
            used: i,
            state: stepped.state,
        };
    }
}

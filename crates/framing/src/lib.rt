// What the links share: the numbers of refusals, the answers of writers, the state of a receiver and its rules. The theory of receivers and of
// writers' calls, over any link, is in specs/ and proofs/.
#![tactic(auto)]

mod link;
mod refusal;

ghost use Rattle.std.specs.Prelude.{◌≡◌, ◌+◌, ◌%◌, ◌^◌, min, length};
ghost use Rattle.framing.specs.Answer.{outcome_by, outcome_of, count_of, fault_of};
ghost use Rattle.framing.specs.Link.{data_at};
ghost use Rattle.framing.specs.Tests.{write_fault, call_fault};
ghost use Rattle.framing.specs.Call.{told_of};
ghost use Rattle.framing.specs.Open.{gathered_byte};
ghost use Rattle.framing.specs.State.{fresh_state, known_state, after_noise, hunted_from};
ghost use Rattle.framing.specs.Whole.{exactly};

pub use link::{Link, Received, Stepped, Stepwise, Told, Turn};
pub use refusal::{Numbered, Refusal};

// The answer of a call that makes bytes: how many, or a refusal.
pub type Answer = Result<usize, Refusal>;

// How many bytes a call has made, whatever stands for the number of its refusal.
pub fn count_of<E: Numbered>(answer: Result<usize, E>) -> usize
    ensures { result ≡ count_of (outcome_by E.number answer) }
{
    answer.unwrap_or(0)
}

// Whether a writer's call stores, or what it is refused with before.
pub fn check_write(sendable: bool, fits: bool) -> Result<(), Refusal>
    ensures { fault_of (outcome_of result) ≡ write_fault sendable fits }
{
    if !sendable {
        return Err(Refusal::Unsendable);
    }
    if !fits {
        return Err(Refusal::OutputShort);
    }
    Ok(())
}

// Whether a receiver's call reads, or what it is refused with before.
pub fn check_call(known: bool, holds: bool) -> Result<(), Refusal>
    ensures { fault_of (outcome_of result) ≡ call_fault known holds }
{
    if !known {
        return Err(Refusal::UnknownState);
    }
    if !holds {
        return Err(Refusal::StoreShort);
    }
    Ok(())
}

// What a receiver keeps between calls: the link's mode, the count of gathered bytes, the wire bytes of what is open, the noise bytes.
// Any numbers may stand in it, so the mode is no enum: one of no mode gives 12. It is as wide as the count, since a struct without padding is
// copied faster.
#[derive(Clone, Copy)]
pub struct State {
    pub mode: usize,
    pub count: usize,
    pub open: u32,
    pub noise: u32,
}

// What is reached by passing bytes of a piece without an event: the state, and the next place of the piece.
#[derive(Clone, Copy)]
pub struct Reached<S> {
    pub state: S,
    pub next: usize,
}

impl State {
    // A receiver that has read nothing.
    pub fn fresh() -> State
        ensures { result ≡ fresh_state }
    {
        State {
            mode: 0,
            count: 0,
            open: 0,
            noise: 0,
        }
    }

    // Whether a state does not give 12, on a link of so many modes, of which the first so many hunt, and of this size.
    pub fn is_known(self, modes: usize, hunting: usize, size: usize) -> bool
        ensures { result ≡ known_state modes hunting size self }
    {
        if self.mode < hunting {
            self.mode < modes && self.count == 0
        } else {
            self.mode < modes && self.count <= size
        }
    }

    // So many wire bytes are open, of which so many are gathered: out of plain hunting, or where a new start mark closes a frame.
    pub fn reopen(self, mode: usize, count: usize, open: u32) -> State
        ensures { result ≡ record { mode = mode; count = count; «open» = «open»; noise = self.noise } }
    {
        State {
            mode,
            count,
            open,
            noise: self.noise,
        }
    }

    // One more wire byte is open; the count of them goes round.
    pub fn hold(self, mode: usize, count: usize) -> State
        ensures { result ≡ record { mode = mode; count = count; «open» = (self.«open» + 1) % 2 ^ 32; noise = self.noise } }
    {
        self.reopen(mode, count, self.open.wrapping_add(1))
    }

    // So many bytes of noise, and plain hunting; the count of noise goes round.
    pub fn add_noise(self, bytes: u32) -> State
        ensures { result ≡ record { mode = 0; count = 0; «open» = 0; noise = (self.noise + bytes) % 2 ^ 32 } }
    {
        State {
            mode: 0,
            count: 0,
            open: 0,
            noise: self.noise.wrapping_add(bytes),
        }
    }

    // So many bytes passed in plain hunting, all of them noise; where there are none, the state stays as it came.
    pub fn pass_noise(self, bytes: usize) -> State
        ensures { result ≡ after_noise self bytes }
    {
        if bytes == 0 {
            self
        } else {
            self.add_noise((bytes % 4294967296) as u32)
        }
    }

    // The noise of a piece from a place on, in plain hunting, up to the next mark.
    pub fn pass_hunting(self, piece: &[u8], from: usize, mark: u8) -> Reached<State>
        ensures { result ≡ hunted_from self piece.now from mark }
    {
        if from <= piece.len() {
            let n = runs::count_before(mark, mark, &piece[from..]);
            Reached {
                state: self.pass_noise(n),
                next: from + n,
            }
        } else {
            Reached {
                state: self,
                next: from,
            }
        }
    }

    // So many bytes passed in an open frame, of which so many bytes are then gathered.
    pub fn pass_open(self, count: usize, bytes: usize) -> State
        ensures { result ≡ record { mode = self.mode; count = count; «open» = (self.«open» + bytes) % 2 ^ 32; noise = self.noise } }
    {
        let held = self.open.wrapping_add((bytes % 4294967296) as u32);
        self.reopen(self.mode, count, held)
    }

    // One more byte of an open frame is gathered behind those that are counted, unless the link's size or the store's end is reached: then it is over.
    pub fn gather<M: Copy>(
        self,
        store: &mut [u8],
        byte: u8,
        mode: usize,
        size: usize,
    ) -> Stepped<M, State>
        ensures { ((result.state, store.new), told_of result.told) ≡ gathered_byte (min size (length store.old)) mode self store.old byte }
    {
        let at = self.count;
        if at < size && at < store.len() {
            store[at] = byte;
            Stepped {
                told: Ok(None),
                state: self.hold(mode, at + 1),
            }
        } else {
            Stepped {
                told: Err(Refusal::TooLong),
                state: self.close(),
            }
        }
    }

    // The frame is over, by a message or by a refusal but 4: plain hunting.
    pub fn close(self) -> State
        ensures { result ≡ record { mode = 0; count = 0; «open» = 0; noise = self.noise } }
    {
        self.reopen(0, 0, 0)
    }
}

// Whether a call used a whole run of this length, none of it noise. The noise count goes round at 2^32, and no frame is as long as that.
pub fn is_exact(length: usize, used: usize, noise: u32) -> bool
    ensures { result ≡ exactly length used noise }
{
    used == length && noise == 0 && length < 4294967296
}

// So many bytes of a store from a place on, as a part of it: the data of a message. Empty where they do not lie in the store.
pub fn data_at(store: &[u8], place: usize, count: usize) -> &[u8]
    ensures { result.now ≡ data_at store.now place count }
{
    if store.len() < place {
        return &store[..0];
    }
    if count <= store.len() - place {
        let end = place + count;
        &store[place..end]
    } else {
        &store[..0]
    }
}

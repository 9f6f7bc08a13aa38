// The asking end.
ghost use Rattle.std.specs.Prelude.{◌≡◌, cond, ◌==◌};
ghost use Rattle.gate.specs.Asking as Rules;
ghost use Rattle.gate.specs.Asking.{fresh_exchange, known, wait_over, sends, again, replied, asks};
ghost use Rattle.gate.specs.Contract.{exchange_of, case_of, asked_of};

use crate::kind::Kind;
use framing::{Refusal, Told};

// A request is sent again at most so often.
const MOST_REPEATS: u8 = 3;
// A wait in milliseconds.
const WAIT: u32 = 100;

// The modes of an asking end.
#[derive(Clone, Copy)]
enum Mode {
    Idle = 0,
    Waiting = 1,
}

// The asking end: its mode, the id of the latest request, how often that was sent again, and when it was sent last.
// The mode is a number, since any may stand in a caller's state, and one of no mode gives 12; so wide, the struct has no padding.
#[derive(Clone, Copy, Debug, PartialEq, Eq)]
pub struct Exchange {
    pub mode: u16,
    pub id: u8,
    pub repeat: u8,
    pub sent: u32,
}

// What the asking end is told, if anything: to send its request with this id and this repeat, or how the exchange has ended.
#[derive(Clone, Copy, Debug, PartialEq, Eq)]
pub enum Asked {
    Send { id: u8, repeat: u8 },
    Done,
    GaveUp,
}

impl Exchange {
    // An asking end that has sent nothing; its first request has id 0.
    pub fn fresh() -> Exchange
        ensures { exchange_of result ≡ fresh_exchange }
    {
        Exchange {
            mode: Mode::Idle as u16,
            id: 255,
            repeat: 0,
            sent: 0,
        }
    }

    // The mode of a state that does not give 12.
    fn mode(&self) -> Result<Mode, Refusal>
        ensures { result ≡ cond (known (exchange_of self.now)) (Ok (cond (self.now.mode == 0) Mode.Idle Mode.Waiting)) (Err Refusal.UnknownState) }
    {
        match self.mode {
            0 if self.repeat <= MOST_REPEATS => Ok(Mode::Idle),
            1 if self.repeat <= MOST_REPEATS => Ok(Mode::Waiting),
            _ => Err(Refusal::UnknownState),
        }
    }

    // Whether the wait is over.
    fn is_over(&self, now: u32) -> bool
        ensures { result ≡ wait_over now self.now.sent }
    {
        now.wrapping_sub(self.sent) >= WAIT
    }

    // The request is sent, and the end waits.
    fn send(&mut self, id: u8, repeat: u8, now: u32) -> Asked
        ensures { (case_of result, exchange_of self.new) ≡ sends id repeat now }
    {
        *self = Exchange {
            mode: Mode::Waiting as u16,
            id,
            repeat,
            sent: now,
        };
        Asked::Send { id, repeat }
    }

    // Sent once more, or given up.
    fn send_again(&mut self, now: u32) -> Asked
        ensures { (case_of result, exchange_of self.new) ≡ again (exchange_of self.old) now }
    {
        if self.repeat < MOST_REPEATS {
            self.send(self.id, self.repeat + 1, now)
        } else {
            self.mode = Mode::Idle as u16;
            Asked::GaveUp
        }
    }

    // A new request.
    pub fn start(&mut self, now: u32) -> Told<Asked>
        ensures { (asked_of result, exchange_of self.new) ≡ asks (exchange_of self.old) (Rules.start now) }
    {
        match self.mode()? {
            Mode::Idle => Ok(Some(self.send(self.id.wrapping_add(1), 0, now))),
            Mode::Waiting => Err(Refusal::Busy),
        }
    }

    // The present time.
    pub fn tick(&mut self, now: u32) -> Told<Asked>
        ensures { (asked_of result, exchange_of self.new) ≡ asks (exchange_of self.old) (Rules.tick now) }
    {
        match self.mode()? {
            Mode::Waiting if self.is_over(now) => Ok(Some(self.send_again(now))),
            _ => Ok(None),
        }
    }

    // A reply with this id, of this type; any byte may stand there.
    pub fn arrived(&mut self, id: u8, kind: u8, now: u32) -> Told<Asked>
        ensures { (asked_of result, exchange_of self.new) ≡ asks (exchange_of self.old) (Rules.arrival id kind now) }
    {
        match self.mode()? {
            Mode::Waiting if id == self.id => Ok(self.hear(kind, now)),
            _ => Ok(None),
        }
    }

    // A reply with the waiting id.
    fn hear(&mut self, kind: u8, now: u32) -> Option<Asked>
        ensures { (asked_of (Ok result), exchange_of self.new) ≡ replied (exchange_of self.old) kind now }
    {
        match Kind::try_from(kind) {
            Ok(Kind::Acknowledgement) => {
                self.mode = Mode::Idle as u16;
                Some(Asked::Done)
            }
            Ok(Kind::CheckError) => Some(self.send_again(now)),
            _ => None,
        }
    }
}

// The responding end.
ghost use Rattle.std.specs.Prelude.{◌≡◌};
ghost use Rattle.std.proofs.Math.Option.{some};
ghost use Rattle.framing.specs.Call.{told_by};
ghost use Rattle.gate.specs.Responder.{fresh_responder, is_repeated, silent, reply, accepts, refuses, responds};
ghost use Rattle.gate.specs.Contract.{type_of, responder_of, reply_of, response_of};

use crate::kind::Kind;
use expansion::Message;
use framing::{Numbered, Refusal};

// The responding end: whether a request was handed out, and the id of the last one.
// No Option: `respond` keeps any id beside any flag, also where none was handed out, as `respond state 0 5` of vectors_gate has it.
#[derive(Clone, Copy, Debug, PartialEq, Eq)]
pub struct Responder {
    pub handed: bool,
    pub last: u8,
}

// The reply to send: a message of this id, type and address, with repeat 0 and no data.
#[derive(Clone, Copy, Debug, PartialEq, Eq)]
pub struct Reply {
    pub id: u8,
    pub kind: Kind,
    pub address: u8,
}

// The reply, if any, and whether the request is handed out.
#[derive(Clone, Copy, Debug, PartialEq, Eq)]
pub struct Response {
    pub reply: Option<Reply>,
    pub handed_out: bool,
}

impl Reply {
    // The reply to a frame that arrived with this address: the head's keeps it, a board's has 0.
    fn new(head: bool, id: u8, kind: Kind, address: u8) -> Reply
        ensures { reply_of (Some result) ≡ some (reply head id (type_of kind) address) }
    {
        Reply {
            id,
            kind,
            address: if head { address } else { 0 },
        }
    }
}

// No reply, and nothing handed out.
const SILENT: Response = Response {
    reply: None,
    handed_out: false,
};

impl Responder {
    // A responding end that has handed out nothing.
    pub fn fresh() -> Responder
        ensures { responder_of result ≡ fresh_responder }
    {
        Responder {
            handed: false,
            last: 0,
        }
    }

    // Whether a request was handed out before.
    fn is_repeated(&self, id: u8, repeat: u8) -> bool
        ensures { result ≡ is_repeated (responder_of self.now) id repeat }
    {
        self.handed && id == self.last && repeat > 0
    }

    // An accepted frame: a request is acknowledged, and handed out if it was not before.
    fn accept(&mut self, head: bool, message: Message) -> Response
        ensures { response_of result self.new ≡ accepts (responder_of self.old) head message }
    {
        if !matches!(Kind::try_from(message.kind), Ok(Kind::Request)) {
            return SILENT;
        }
        let handed_out = !self.is_repeated(message.id, message.repeat);
        if handed_out {
            *self = Responder {
                handed: true,
                last: message.id,
            };
        }
        Response {
            reply: Some(Reply::new(head, message.id, Kind::Acknowledgement, message.address)),
            handed_out,
        }
    }

    // A refused frame, whose gathered bytes stand at the front of the store.
    fn refuse(&self, head: bool, fault: u8, store: &[u8]) -> Response
        ensures { response_of result self.now ≡ refuses (responder_of self.now) head fault store.now }
    {
        if fault != u8::from(Refusal::WrongCheck) {
            return SILENT;
        }
        let [id, _, _, address, ..] = store else {
            return SILENT;
        };
        Response {
            reply: Some(Reply::new(head, *id, Kind::CheckError, *address)),
            handed_out: false,
        }
    }

    // What to do with the receiver's answer, from the store as that call left it.
    pub fn respond<E: Numbered>(
        &mut self,
        head: bool,
        told: Result<Option<Message>, E>,
        store: &[u8],
    ) -> Response
        ensures { response_of result self.new ≡ responds (responder_of self.old) head (told_by E.number told) store.now }
    {
        match told {
            Ok(None) => SILENT,
            Ok(Some(message)) => self.accept(head, message),
            Err(refusal) => self.refuse(head, refusal.number(), store),
        }
    }
}

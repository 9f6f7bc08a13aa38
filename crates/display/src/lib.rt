// The three-digit display: a profile of PCS whose messages order a value to be shown, and the display's end.
#![tactic(auto)]

mod text;

ghost use Rattle.std.specs.Prelude.{◌≡◌, true, ◌≤◌, length};
ghost use Rattle.framing.specs.Answer.{outcome_of};
ghost use Rattle.framing.specs.Writer.{writes};
ghost use Rattle.pcs.specs.Frame.{plain_ok};
ghost use Rattle.pcs.specs.Contract.{with_data};
ghost use Rattle.decimal.specs.Decimal.{are_digits, value_of};
ghost use Rattle.display.specs.Profile.{most_digits, in_profile, order_ok, order_frame};
ghost use Rattle.display.specs.Reading.{judged, reading};
ghost use Rattle.display.specs.End.{shown_of, fresh_display, is_repeat, taking, served, takes};
ghost use Rattle.display.specs.Contract.{reply_of, taken_of};
ghost use Rattle.display.specs.Steps.{place_of};

use framing::{Answer, Link, Refusal};
use pcs::{Message, Pcs};

// The largest value that an order carries.
const LARGEST: u32 = 99999999;

// The receiver that is everybody.
const EVERYBODY: u8 = 255;

// The kind of an order, which asks for an acknowledgement.
const ORDER: u8 = 1;

// The kind of an answer: the positive acknowledgement.
const ANSWER: u8 = 2;

// Both ports of the profile.
const PORT: u8 = 1;

// Whether an order and its answer have a CRC.
const CRC: bool = false;

// What an order tells: who it is for and from, its number, and the value to be shown.
#[derive(Clone, Copy)]
pub struct Order {
    pub receiver: u8,
    pub sender: u8,
    pub number: u8,
    pub value: u32,
}

// The display's end: its own address, whether an order was taken, sender and number of the last one taken, and the three places shown. Any values
// may stand in it, and `take` promises what stands there after, also in one that has taken none: an Option would leave out some of them.
#[derive(Clone, Copy)]
pub struct Display {
    pub own: u8,
    pub taken: bool,
    pub sender: u8,
    pub number: u8,
    pub places: [u8; 3],
}

// What a frame is replied with, which is nothing, an answer of so many bytes, or a refusal, and the display after.
#[derive(Clone, Copy)]
pub struct Taken {
    pub reply: Result<Option<usize>, Refusal>,
    pub display: Display,
}

// Writes the frame of an order at the start of the lent memory, and answers its length.
pub fn write(value: u32, receiver: u8, sender: u8, number: u8, out: &mut [u8]) -> Answer
    ensures { (outcome_of result, out.new) ≡ writes order_ok order_frame
        (record { receiver = receiver; sender = sender; number = number; value = value }) out.old }
{
    if LARGEST < value {
        return Err(Refusal::Unsendable);
    }
    let mut data = *b"CLCSH        ";
    let end = 5 + decimal::put(&mut data, 5, u64::from(value))?;
    pcs::write(
        receiver,
        sender,
        ORDER,
        number,
        PORT,
        PORT,
        CRC,
        &data[..end],
        out,
    )
}

// Whether a message with these data is of the profile.
fn in_profile(message: Message, data: &[u8]) -> bool
    ensures { result ≡ in_profile (with_data message «data».now) }
{
    message.kind == ORDER
        && message.sender_port == PORT
        && message.receiver_port == PORT
        && !message.crc
        && text::is_text(data)
}

// The number that at most 8 digits stand for.
fn value_of(digits: &[u8]) -> u32
    requires { (are_digits digits.now ≡ true) × (length digits.now ≤ most_digits) }
    ensures { result ≡ value_of digits.now }
{
    let mut value = 0;
    for digit in digits {
        value = value * 10 + u32::from(*digit - b'0');
    }
    value
}

// What a message with these data is read as.
fn judge(message: Message, data: &[u8]) -> Result<Order, Refusal>
    ensures { outcome_of result ≡ judged (with_data message «data».now) }
{
    if !in_profile(message, data) {
        return Err(Refusal::OutsideProfile);
    }
    Ok(Order {
        receiver: message.receiver,
        sender: message.sender,
        number: message.number,
        value: value_of(&data[5..]),
    })
}

// Reads a run that is to be one whole frame of the profile.
pub fn read(run: &[u8], store: &mut [u8]) -> Result<Order, Refusal>
    ensures { (outcome_of result, store.new) ≡ reading run.now store.old }
{
    let message = Pcs::read(run, store)?;
    judge(message, Pcs::data(store, message))
}

// The place of a unit, 10 or 100: its digit, or a space where the value is smaller.
fn place(value: u32, unit: u32) -> u8
    requires { 1 ≤ unit }
    ensures { result ≡ place_of value unit }
{
    if value < unit {
        b' '
    } else {
        b'0' + (value / unit % 10) as u8
    }
}

// The three places that show a value: the last three of its digits, and spaces on the left where it has fewer.
pub fn shown(value: u32) -> [u8; 3]
    ensures { result ≡ shown_of value }
{
    [
        place(value, 100),
        place(value, 10),
        b'0' + (value % 10) as u8,
    ]
}

// A display that has taken nothing.
pub fn fresh(own: u8) -> Display
    ensures { result ≡ fresh_display own }
{
    Display {
        own,
        taken: false,
        sender: 0,
        number: 0,
        places: *b"   ",
    }
}

impl Display {
    // Whether an order repeats the last one taken: its sender and its number are the same.
    fn is_repeat(&self, order: Order) -> bool
        ensures { result ≡ is_repeat self.now order }
    {
        self.taken && order.sender == self.sender && order.number == self.number
    }

    // Takes an order, and shows its value unless it is a repeat.
    fn show(&mut self, order: Order)
        ensures { self.new ≡ taking self.old order }
    {
        if !self.is_repeat(order) {
            self.taken = true;
            self.sender = order.sender;
            self.number = order.number;
            self.places = shown(order.value);
        }
    }

    // The reply to an order, whoever it is for.
    fn serve(&mut self, order: Order, out: &mut [u8]) -> Result<Option<usize>, Refusal>
        requires { (plain_ok self.old.own ≡ true) × (plain_ok order.sender ≡ true) × (plain_ok order.number ≡ true) }
        ensures { ((reply_of result, self.new), out.new) ≡ served self.old order out.old }
    {
        if order.receiver == self.own {
            let count = pcs::write(
                order.sender,
                order.receiver,
                ANSWER,
                order.number,
                PORT,
                PORT,
                CRC,
                b"",
                out,
            )?;
            self.show(order);
            return Ok(Some(count));
        }
        if order.receiver == EVERYBODY {
            self.show(order);
        }
        Ok(None)
    }

    // The reply to a run.
    fn reply(
        &mut self,
        run: &[u8],
        store: &mut [u8],
        out: &mut [u8],
    ) -> Result<Option<usize>, Refusal>
        ensures { ((reply_of result, self.new), store.new, out.new) ≡ takes self.old run.now store.old out.old }
    {
        if !(1..=250).contains(&self.own) {
            return Err(Refusal::Unsendable);
        }
        let order = read(run, store)?;
        self.serve(order, out)
    }
}

// A run that reaches the display and is to be one whole frame. The answer, if there is one, goes to the start of the lent memory.
pub fn take(display: Display, run: &[u8], store: &mut [u8], out: &mut [u8]) -> Taken
    ensures { (taken_of result, store.new, out.new)
        ≡ takes display run.now store.old out.old }
{
    let mut display = display;
    let reply = display.reply(run, store, out);
    Taken { reply, display }
}

// The kinds of records (docs/SCRIPT.md), and the bodies that they have.
ghost use Rattle.std.specs.Prelude.{◌≡◌};
ghost use Rattle.script.specs.Records.{kind_of, call_body, body_of, admits};

// Their numbers.
pub const ARRIVAL: u8 = 0;

pub const REGISTER: u8 = 1;

pub const RESERVE: u8 = 2;

pub const SEND: u8 = 3;

pub const DROP: u8 = 4;

pub const DONE: u8 = 5;

pub const PUSH: u8 = 6;

pub const START: u8 = 16;

pub const PULL: u8 = 17;

pub const ROOM: u8 = 18;

pub const VIEW: u8 = 19;

pub const ROOM_QUESTION: u8 = 20;

pub const VIEW_QUESTION: u8 = 21;

pub const WRITE_RX: u8 = 32;

pub const WRITE_TX: u8 = 33;

pub const LEND: u8 = 34;

// The calls on an end.
#[derive(Clone, Copy)]
pub enum CallKind {
    Arrival,
    Register,
    Reserve,
    Send,
    Drop,
    Done,
    Push,
    Start,
    Pull,
    Room,
    View,
    RoomQuestion,
    ViewQuestion,
}

// A record is a call, or what happens around the end: a write to the receive or the transmit bytes, or a lend.
#[derive(Clone, Copy)]
pub enum Kind {
    Call(CallKind),
    WriteRx,
    WriteTx,
    Lend,
}

// How long the body of a record is, by its kind.
#[derive(Clone, Copy)]
pub enum Body {
    Any,
    Exactly(usize),
    AtLeast(usize),
}

impl Kind {
    // The kind of this number, if the format has it.
    pub fn of(number: u8) -> Option<Kind>
        ensures { result ≡ kind_of number }
    {
        match number {
            ARRIVAL => Some(Kind::Call(CallKind::Arrival)),
            REGISTER => Some(Kind::Call(CallKind::Register)),
            RESERVE => Some(Kind::Call(CallKind::Reserve)),
            SEND => Some(Kind::Call(CallKind::Send)),
            DROP => Some(Kind::Call(CallKind::Drop)),
            DONE => Some(Kind::Call(CallKind::Done)),
            PUSH => Some(Kind::Call(CallKind::Push)),
            START => Some(Kind::Call(CallKind::Start)),
            PULL => Some(Kind::Call(CallKind::Pull)),
            ROOM => Some(Kind::Call(CallKind::Room)),
            VIEW => Some(Kind::Call(CallKind::View)),
            ROOM_QUESTION => Some(Kind::Call(CallKind::RoomQuestion)),
            VIEW_QUESTION => Some(Kind::Call(CallKind::ViewQuestion)),
            WRITE_RX => Some(Kind::WriteRx),
            WRITE_TX => Some(Kind::WriteTx),
            LEND => Some(Kind::Lend),
            _ => None,
        }
    }

    pub fn body(self) -> Body
        ensures { result ≡ body_of self }
    {
        match self {
            Kind::Call(call) => call.body(),
            Kind::WriteRx => Body::AtLeast(4),
            Kind::WriteTx => Body::AtLeast(4),
            Kind::Lend => Body::Exactly(8),
        }
    }
}

impl CallKind {
    fn body(self) -> Body
        ensures { result ≡ call_body self }
    {
        match self {
            CallKind::Arrival => Body::Any,
            CallKind::Register => Body::Any,
            CallKind::Reserve => Body::Exactly(4),
            CallKind::Send => Body::Exactly(12),
            CallKind::Drop => Body::Exactly(4),
            CallKind::Done => Body::Exactly(4),
            CallKind::Push => Body::Any,
            CallKind::Start => Body::Exactly(0),
            CallKind::Pull => Body::Exactly(2),
            CallKind::Room => Body::Exactly(4),
            CallKind::View => Body::Exactly(4),
            CallKind::RoomQuestion => Body::Exactly(8),
            CallKind::ViewQuestion => Body::Exactly(8),
        }
    }
}

impl Body {
    // Whether a body may have n bytes.
    pub fn admits(self, n: usize) -> bool
        ensures { result ≡ admits self n }
    {
        match self {
            Body::Any => true,
            Body::Exactly(m) => n == m,
            Body::AtLeast(m) => m <= n,
        }
    }
}

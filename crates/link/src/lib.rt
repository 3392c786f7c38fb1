// One end of the link, as code: its state, and its calls by family: openings, rings, messages, arrivals, registrations, turns. A call changes the
// end in place. A refused call changes nothing, but that a pull drops what is unread at a broken packet. Send, done and register push their
// control message themselves, all or nothing.
#![tactic(auto)]

mod announcements;
mod arrivals;
mod messages;
mod openings;
mod registrations;
mod rings;
mod turns;

use endpoints::{Binding, Endpoint};
use icbmsg::Numbers;
use refusal::Refusal;

// One end: its numbers, the tables of its transmit and receive blocks, the endpoints and the stored bindings.
#[derive(Clone, Copy)]
pub struct End {
    pub numbers: Numbers,
    pub tables: [u8; End::TABLES],
    pub endpoints: [Endpoint; End::ENDPOINTS],
    pub bindings: [Binding; End::BINDINGS],
}

impl End {
    // The limits of an end: the largest alignment, the most bytes and blocks of a region, endpoints, stored bindings, and the bytes of a
    // name.
    pub const MAX_ALIGNMENT: u32 = region::MAX_ALIGNMENT;

    pub const MAX_BYTES: u32 = region::MAX_BYTES;

    pub const BLOCKS: usize = blocks::BLOCKS;

    pub const ENDPOINTS: usize = endpoints::PLACES;

    pub const BINDINGS: usize = endpoints::PLACES;

    pub const LONGEST_NAME: usize = endpoints::LONGEST_NAME;

    // The bytes of both tables.
    pub const TABLES: usize = tables::BYTES;
}

// What an accepted call answers.
#[derive(Clone, Copy)]
pub enum Answer {
    // Nothing more to say.
    Accepted,
    // A reservation: its first block, and how many.
    Run { start: u32, count: u32 },
    // A control message, its three bytes as they go on the ring: pushed already by send, register and done; of an arrival it is for the caller to
    // push.
    Control { kind: u8, address: u8, block: u8 },
    // A data message that has arrived: its endpoint's address, its first block and its length.
    Delivered { address: u8, block: u8, length: u32 },
}

// Why a ring call gives no packet: it is refused and nothing changes; or the packet is broken (9), and so many unread bytes were dropped. The
// ring's own error has its index besides, which here is among the end's numbers.
#[derive(Clone, Copy)]
pub enum PacketError {
    Refused(Refusal),
    Dropped(u32),
}

// Where a room or view lies in the slice that is lent: its first byte, and how many.
#[derive(Clone, Copy)]
pub struct Place {
    pub begin: u32,
    pub size: u32,
}

// What an opening answers, and the end that it makes: the rules have one of a refused opening too, which is closed.
#[derive(Clone, Copy)]
pub struct Opened {
    pub answer: Result<Answer, Refusal>,
    pub end: End,
}

// Why a turn stopped.
#[derive(Clone, Copy)]
pub enum Stop {
    // As many packets were taken as may be.
    Reached,
    // The region is not lent whole, or the end is closed (6); or a pull was refused: 7, or 8 where the ring is empty.
    Refused(Refusal),
    // A broken packet (9): how many unread bytes were dropped.
    Dropped(u32),
    // A data message has arrived: its endpoint's address, its first block and its length.
    Delivered { address: u8, block: u8, length: u32 },
    // Three bytes for the caller to push: a binding that has arrived is answered with them.
    Reply { kind: u8, address: u8, block: u8 },
}

// What a turn answers: how many packets it took, and why it stopped.
#[derive(Clone, Copy)]
pub struct Turned {
    pub taken: u32,
    pub stop: Stop,
}

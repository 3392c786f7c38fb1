// Two cores in one process: each opens its end of the link, they bind an endpoint, the panel sends a message, and the pump reads it. To begin a
// program, copy this crate and keep what `talk` does with one of the two.
#![tactic(auto)]

use icbmsg::{Bounds, Opening};
use lines::{Counted, Hex};
use link::{Answer, End, PacketError};
use refusal::Refusal;
use std::fmt;

// The region that the panel sends in, and the one that the pump sends in. The end that receives below where it sends is the initiator: here
// the pump's.
const TO_PUMP: Bounds = Bounds {
    begin: 0x20070000,
    end: 0x20070800,
    block_count: 16,
};

const TO_PANEL: Bounds = Bounds {
    begin: 0x20078000,
    end: 0x20078800,
    block_count: 32,
};

// A refused call, which stops the program here. README.md says what a program can do instead.
#[derive(Clone, Copy)]
enum Stopped {
    Open(Refusal),
    Call {
        core: &'static str,
        call: &'static str,
        why: Refusal,
    },
}

impl fmt::Display for Stopped {
    fn fmt<W: fmt::Write>(&self, f: &mut fmt::Formatter<W>) -> fmt::Result {
        match *self {
            Stopped::Open(why) => write!(f, "open is refused, {}: {why}", why.number()),
            Stopped::Call { core, call, why } => {
                write!(f, "{core}: {call} is refused, {}: {why}", why.number())
            }
        }
    }
}

fn main(rt: HostRuntime) {
    if let Err(stopped) = talk(&rt) {
        println!(rt; "{stopped}").ok();
    }
}

// What both cores do, one after the other. The first refused call ends it.
fn talk(rt: &impl Print) -> Result<(), Stopped> {
    // On a chip these are the bytes of the two regions.
    let mut to_pump = [0u8; 2048];
    let mut to_panel = [0u8; 2048];
    let mut panel = open(TO_PUMP, TO_PANEL, &mut to_pump)?;
    let mut pump = open(TO_PANEL, TO_PUMP, &mut to_panel)?;
    register(&mut panel, &mut to_pump, b"calibration")?;
    register(&mut pump, &mut to_panel, b"calibration")?;
    // The pump's start and its binding, which the panel answers: its endpoint is bound.
    serve(rt, &mut panel, &mut to_pump, &mut to_panel)?;
    send(&mut panel, &mut to_pump, b"pressure?")?;
    // The panel's start, its answer, and the message, which the pump reads and releases.
    serve(rt, &mut pump, &mut to_panel, &mut to_pump)?;
    // The release: the message's blocks are free again.
    serve(rt, &mut panel, &mut to_pump, &mut to_panel)
}

// Opens an end, and starts the ring that it sends on.
fn open(tx: Bounds, rx: Bounds, memory: &mut [u8]) -> Result<End, Stopped> {
    let alignment = 32;
    let opened = End::open(Opening { alignment, tx, rx });
    opened.answer.map_err(Stopped::Open)?;
    let mut end = opened.end;
    match end.start(memory) {
        Err(PacketError::Refused(x)) => Err(refused(&end, "start", x)),
        _ => Ok(end),
    }
}

// Registers an endpoint, which pushes its binding, or the answer to one that has come before. It is bound once both cores have registered the
// name.
fn register(end: &mut End, tx: &mut [u8], name: &[u8]) -> Result<(), Stopped> {
    end.register(tx, name)
        .map_err(|x| refused(end, "register", x))?;
    Ok(())
}

// Sends a text to the first endpoint: reserves blocks, fills their room, and sends, which pushes what announces the message. A text that is
// too long for the region is refused. Where the ring is full, send is 10 and the reservation stays: a program keeps `start` and sends it again
// once the other core has pulled, or gives it up with `end.drop(start)`. On a chip the doorbell is rung behind a call that has pushed.
fn send(end: &mut End, tx: &mut [u8], text: &[u8]) -> Result<(), Stopped> {
    let k = text.len().min(65535) as u32;
    let reserved = end.reserve(k).map_err(|x| refused(end, "reserve", x))?;
    let Answer::Run { start, .. } = reserved else {
        return Ok(());
    };
    let room = end.room(tx, start);
    let n = room.len().min(text.len());
    room[..n].copy_from_slice(&text[..n]);
    let to = u32::from(end.endpoints[0].address);
    end.send(tx, start, to, k)
        .map_err(|x| refused(end, "send", x))?;
    Ok(())
}

// Takes up to eight packets. On a chip a core does so at each doorbell.
fn serve(rt: &impl Print, end: &mut End, tx: &mut [u8], rx: &mut [u8]) -> Result<(), Stopped> {
    for _ in 0..8u32 {
        take(rt, end, tx, rx)?;
    }
    Ok(())
}

// Takes the next packet off the ring, if one has come. A broken packet is gone with all that was behind it; what the other core pushes next is
// pulled again. An empty ring is no trouble.
fn take(rt: &impl Print, end: &mut End, tx: &mut [u8], rx: &mut [u8]) -> Result<(), Stopped> {
    let mut packet = [0u8; 16];
    match end.pull(rx, &mut packet) {
        Ok(k) => {
            let k = packet.len().min(k as usize);
            arrive(rt, end, tx, rx, &packet[..k])
        }
        Err(PacketError::Dropped(n)) => {
            println!(rt;
                "{}: a broken packet, dropped {}",
                name(end),
                Counted(n, "byte")
            )
            .ok();
            Ok(())
        }
        Err(PacketError::Refused(Refusal::Empty)) => Ok(()),
        Err(PacketError::Refused(x)) => Err(refused(end, "pull", x)),
    }
}

// The first packet is the other core's start. Each one after it is a control message, and may announce a message. No trouble is a kind that only
// a newer partner knows.
fn arrive(
    rt: &impl Print,
    end: &mut End,
    tx: &mut [u8],
    rx: &[u8],
    packet: &[u8],
) -> Result<(), Stopped> {
    if icmsg::is_start(packet) {
        println!(rt; "{}: pulled the other core's start", name(end)).ok();
        return Ok(());
    }
    println!(rt; "{}: pulled{}", name(end), Hex(packet)).ok();
    match end.arrival(rx, packet) {
        Ok(Answer::Delivered { block, .. }) => read(rt, end, tx, rx, u32::from(block)),
        Ok(
            Answer::Control {
                kind,
                address,
                block,
            },
        ) => reply(end, tx, [kind, address, block]),
        Ok(_) | Err(Refusal::UnknownKind) => Ok(()),
        Err(x) => Err(refused(end, "arrival", x)),
    }
}

// What an arriving binding answers is for the other core, and is pushed here. On a chip the doorbell is rung then. Where the ring is full (10), a
// program keeps the three bytes and pushes them later.
fn reply(end: &mut End, tx: &mut [u8], message: [u8; 3]) -> Result<(), Stopped> {
    match end.push(tx, &message) {
        Err(PacketError::Refused(x)) => Err(refused(end, "push", x)),
        _ => Ok(()),
    }
}

// Reads a message where it lies. The other core gets its blocks back by what `done` pushes, and not before: where the ring is full (10), the
// message stays held, and a program is done with it later.
fn read(
    rt: &impl Print,
    end: &mut End,
    tx: &mut [u8],
    rx: &[u8],
    start: u32,
) -> Result<(), Stopped> {
    let text = end.view(rx, start).escape_ascii();
    println!(rt; "{}: read \"{text}\"", name(end)).ok();
    end.done(tx, start).map_err(|x| refused(end, "done", x))?;
    Ok(())
}

fn refused(end: &End, call: &'static str, why: Refusal) -> Stopped {
    let core = name(end);
    Stopped::Call { core, call, why }
}

fn name(end: &End) -> &'static str {
    if end.numbers.initiator {
        "pump"
    } else {
        "panel"
    }
}

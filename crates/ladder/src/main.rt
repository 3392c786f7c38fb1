// A panel and the unit of a ladder truck, two units in one process: they open, start, and send each other what they have to say.
#![tactic(auto)]

use icmsg::{Packet, RingError};
use lines::Counted;
use std::fmt::Display;
use unit::{Bounds, Opening, Unit};

// A region of shared memory.
type Memory = [u8; 512];

// The panel sends in the first, the ladder's unit in the second.
const TO_LADDER: Bounds = Bounds {
    begin: 0x20070000,
    end: 0x20070200,
};

const TO_PANEL: Bounds = Bounds {
    begin: 0x20070200,
    end: 0x20070400,
};

const ALIGNMENT: u32 = 32;

fn open(rt: &impl Print, name: &str, tx: Bounds, rx: Bounds) -> Unit {
    let opened = Unit::open(Opening {
        alignment: ALIGNMENT,
        tx,
        rx,
    });
    let unit = opened.unit;
    match opened.answer {
        Ok(()) => {
            let length = Counted(unit.tx.data_length, "byte");
            println!(rt; "{name:<6} open: {length} of ring each way").ok()
        }
        Err(x) => println!(rt; "{name:<6} open: number {}", x.number()).ok(),
    };
    unit
}

// What a unit did, what the call answered, and the own index that it left.
fn tell(
    rt: &impl Print,
    name: &str,
    what: impl Display + Drop,
    answer: Result<Packet, RingError>,
    index: u32,
) {
    let (number, length) = match answer {
        Ok(packet) => (0, packet.length),
        Err(x) => (x.number(), 0),
    };
    let length = Counted(length, "byte");
    println!(rt; "{name:<6} {what}: number {number}, {length}, own index {index}").ok();
}

fn start(rt: &impl Print, name: &str, unit: &mut Unit, tx: &mut Memory) {
    let answer = unit.start(tx);
    tell(rt, name, "start", answer, unit.write);
}

fn send(rt: &impl Print, name: &str, unit: &mut Unit, tx: &mut Memory, text: &[u8]) {
    let answer = unit.push(tx, text);
    let what = format_args!("sends \"{}\"", text.escape_ascii());
    tell(rt, name, what, answer, unit.write);
}

// Receives the next message, or leaves it on the ring where the buffer is shorter.
fn receive(rt: &impl Print, name: &str, unit: &mut Unit, rx: &mut Memory, buffer: &mut [u8]) {
    let answer = unit.receive(rx, buffer);
    let Ok(packet) = answer else {
        tell(rt, name, "receives nothing", answer, unit.read);
        return;
    };
    let length = buffer.len().min(packet.length as usize);
    let content = &buffer[..length];
    if icmsg::is_start(content) {
        tell(rt, name, "receives the start content", answer, unit.read);
    } else {
        let what = format_args!("receives \"{}\"", content.escape_ascii());
        tell(rt, name, what, answer, unit.read);
    }
}

// With a buffer of 16 bytes; it takes the start content, and most of what is said here.
fn hear(rt: &impl Print, name: &str, unit: &mut Unit, rx: &mut Memory) {
    let mut buffer = [0u8; 16];
    receive(rt, name, unit, rx, &mut buffer);
}

// With one that takes whatever a ring of 476 bytes can hold.
fn hear_all(rt: &impl Print, name: &str, unit: &mut Unit, rx: &mut Memory) {
    let mut buffer = [0u8; 468];
    receive(rt, name, unit, rx, &mut buffer);
}

fn main(rt: HostRuntime) {
    let rt = &rt;
    let mut to_ladder = [0u8; 512];
    let mut to_panel = [0u8; 512];
    let mut panel = open(rt, "panel", TO_LADDER, TO_PANEL);
    let mut ladder = open(rt, "ladder", TO_PANEL, TO_LADDER);
    start(rt, "panel", &mut panel, &mut to_ladder);
    start(rt, "ladder", &mut ladder, &mut to_panel);
    hear(rt, "panel", &mut panel, &mut to_panel);
    hear(rt, "ladder", &mut ladder, &mut to_ladder);
    send(rt, "panel", &mut panel, &mut to_ladder, b"angle?");
    hear(rt, "ladder", &mut ladder, &mut to_ladder);
    let reply = b"61 degrees, and rising";
    send(rt, "ladder", &mut ladder, &mut to_panel, reply);
    hear(rt, "panel", &mut panel, &mut to_panel);
    hear_all(rt, "panel", &mut panel, &mut to_panel);
    hear(rt, "ladder", &mut ladder, &mut to_ladder);
}

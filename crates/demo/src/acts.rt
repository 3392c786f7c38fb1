// What the demonstration shows, act by act.
use crate::calls::Memory;
use crate::ends::Ends;
use crate::{calls, texts};
use icbmsg::{Bounds, Opening};
use link::Answer;

const ALIGNMENT: u32 = 32;

// The regions of the specification's example: the panel core sends in the first, and the pump core in the second. The pump's end receives
// below where it sends: it is the initiator.
const TO_PUMP: Bounds = Bounds {
    begin: 0x20070000,
    end: 0x20070800,
    block_count: 16,
};

const TO_PANEL: Bounds = Bounds {
    begin: 0x20078000,
    end: 0x20078800,
    block_count: 32,
};

// A line of plain text.
fn say(rt: &impl Print, text: &str) {
    rt.println(text).ok();
}

fn heading(rt: &impl Print, title: &str) {
    say(rt, "");
    say(rt, title);
}

const LEGEND: [&str; 8] = [
    "ENDS. Two ends of one link in one process: binding, messages and their blocks",
    "",
    "The panel sends in the region at 0x20070000, the pump in the one at 0x20078000.",
    "Each line is a call: whose end, which call, its number, its values. Number 0 is",
    "accepted, any other says why it is refused. A picture has a letter for each block",
    "of one direction, in the sender's table and in the receiver's:",
    "       .  free           R  reserved            -  next block of the same run",
    "       S  message sent   D  message received    B  binding sent   b  binding stored",
];

pub fn legend(rt: &impl Print) {
    for line in &LEGEND {
        say(rt, line);
    }
}

// Both ends are opened, and each pulls the other's start content.
pub fn open(rt: &impl Print) -> Ends {
    heading(rt, "1. Opening and start");
    let panel = calls::open(
        rt,
        Opening {
            alignment: ALIGNMENT,
            tx: TO_PUMP,
            rx: TO_PANEL,
        },
    );
    let pump = calls::open(
        rt,
        Opening {
            alignment: ALIGNMENT,
            tx: TO_PANEL,
            rx: TO_PUMP,
        },
    );
    let mut ends = Ends::new(panel, pump);
    ends.start(rt);
    ends.turn();
    ends.start(rt);
    ends.turn();
    ends
}

// The panel's end registers, and waits. The pump's binding arrives, and is answered with the bytes of its release, which are the caller's to
// push. The panel pushes them late, behind its first message: that message binds the pump's endpoint too, and the release frees the block.
pub fn bind(rt: &impl Print, ends: &mut Ends) {
    heading(
        rt,
        "2. Binding the endpoint calibration: data comes before the release",
    );
    let name = b"calibration";
    ends.register(rt, name);
    ends.turn();
    ends.register(rt, name);
    ends.arrive(rt);
    let release = ends.answer;
    ends.turn();
    texts::print_endpoint(rt, &ends.to);
    ends.send(rt, 5, b"ready");
    ends.announce(rt);
    texts::print_endpoint(rt, &ends.to);
    ends.show_binding(rt);
    ends.finish(rt);
    ends.answer = release;
    ends.push(rt);
    ends.arrive(rt);
    ends.show_binding(rt);
    texts::print_endpoint(rt, &ends.from);
    texts::print_endpoint(rt, &ends.to);
}

// The other way about, the pump's binding is stored, and registering the name pushes its release.
pub fn store(rt: &impl Print, ends: &mut Ends) {
    heading(
        rt,
        "3. Binding the endpoint log: its binding comes before the panel registers",
    );
    let name = b"log";
    ends.turn();
    ends.register(rt, name);
    ends.arrive(rt);
    ends.show_binding(rt);
    ends.turn();
    ends.register(rt, name);
    ends.arrive(rt);
    ends.show_binding(rt);
}

// More is reserved than is sent: send frees the blocks beyond the need.
pub fn hold(rt: &impl Print, ends: &mut Ends) {
    heading(rt, "4. A message arrives, and the pump holds it");
    let text = b"hand-set: 4.10 bar at 1450 rpm, 7.20 bar at 1950 rpm";
    ends.send(rt, 200, text);
    ends.announce(rt);
}

// A message the same way, while the first one is held.
pub fn ask(rt: &impl Print, ends: &mut Ends) {
    heading(rt, "5. Others come and go, both ways, while it is held");
    ends.pass(rt, 9, b"pressure?");
}

// A message the other way, whose blocks are smaller.
pub fn reply(rt: &impl Print, ends: &mut Ends) {
    ends.turn();
    ends.pass(rt, 40, b"4.12 bar at 1452 rpm, valve open");
    ends.turn();
}

// Writes four bytes, where the region has them.
fn overwrite(region: &mut Memory, offset: usize, k: u32) {
    if offset <= region.len() - 4 {
        wire::write_u32(region, offset, k);
    }
}

// The sender's core writes over the header of one of its blocks: in its own region it can write what it likes.
fn write_header(rt: &impl Print, ends: &mut Ends, block: u8, k: u32) {
    let g = ends.from.numbers.tx;
    let offset = g.blocks_offset as usize + block as usize * g.block_size as usize;
    overwrite(&mut ends.region, offset, k);
    println!(rt;
        "{:<7}core writes 0x{k:08x} over the header of block {block}",
        texts::name(&ends.from)
    )
    .ok();
}

// Writes over the header of the message that the pushed control message names, before it is pulled.
fn announce_with(rt: &impl Print, ends: &mut Ends, k: u32) {
    if let Ok(Answer::Control { block, .. }) = ends.answer {
        write_header(rt, ends, block, k);
        ends.announce(rt);
    }
}

// The size of the held message was read at its arrival, and is not read again. Sent once more, it is refused: its block is held.
pub fn spoil(rt: &impl Print, ends: &mut Ends) {
    heading(
        rt,
        "6. The panel's core writes over the header of the held message",
    );
    let held = ends.answer;
    let Ok(Answer::Delivered { address, block, .. }) = held else {
        return;
    };
    write_header(rt, ends, block, 0xFFFFFFFF);
    ends.view(rt);
    ends.answer = Ok(Answer::Control {
        kind: 0,
        address,
        block,
    });
    ends.push(rt);
    announce_with(rt, ends, 5);
    ends.answer = held;
    ends.view(rt);
}

// A header that is wrong when the message arrives is refused. With the header that send wrote, of the text's five bytes, it goes through.
pub fn mend(rt: &impl Print, ends: &mut Ends) {
    heading(rt, "7. A header that is wrong when its message arrives");
    ends.send(rt, 5, b"flow?");
    let control = ends.answer;
    announce_with(rt, ends, 0xFFFFFFFF);
    ends.answer = control;
    ends.push(rt);
    announce_with(rt, ends, 5);
    ends.finish(rt);
}

// The sender's core writes over the packet that the receiver pulls next: its first two bytes are the length of its content.
fn break_packet(rt: &impl Print, ends: &mut Ends) {
    let n = &ends.from.numbers;
    let index = ends.to.numbers.read;
    let offset = n.tx.ring_offset as usize + n.alignment as usize + 4 + index as usize;
    overwrite(&mut ends.region, offset, 0xFFFF);
    println!(rt;
        "{:<7}core writes ff ff over the length of the packet at index {index}",
        texts::name(&ends.from)
    )
    .ok();
}

// Nobody can tell where the packet ends, so all that is unread is dropped. The ring goes on, and the panel pushes the control message once
// more.
pub fn lose(rt: &impl Print, ends: &mut Ends) {
    heading(rt, "8. The panel's core writes over a packet on its ring");
    ends.send(rt, 5, b"stop?");
    break_packet(rt, ends);
    ends.pull(rt);
    ends.pull(rt);
    ends.push(rt);
    ends.announce(rt);
    ends.finish(rt);
}

// A ring that nobody pulls from fills up. Send is refused then, and the reservation stays as it is: once there is room, the same send goes
// through.
pub fn wait(rt: &impl Print, ends: &mut Ends) {
    heading(rt, "9. The panel's ring is full");
    ends.fill_ring(rt);
    ends.reserve(rt, 6);
    let Ok(Answer::Run { start, .. }) = ends.answer else {
        return;
    };
    let text = b"there?";
    ends.send_from(rt, start, text);
    ends.arrive(rt);
    ends.empty_ring(rt);
    ends.send_from(rt, start, text);
    ends.announce(rt);
    ends.finish(rt);
}

// What was held is free again, in both tables, and no message starts there.
pub fn release(rt: &impl Print, ends: &mut Ends) {
    heading(rt, "10. The pump is done with the held message");
    let held = ends.answer;
    ends.finish(rt);
    ends.answer = held;
    ends.view(rt);
    ends.turn();
    ends.show(rt);
}

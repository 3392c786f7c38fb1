// What a pump runs with: each value of its calibration as it was set by hand against a gauge, else as the incoming sheet has it.
#![tactic(auto)]

use lines::Hex;
use sheet::Picked;

// A sheet is a list of fields: tag, length, value. Tags from 0x80 are groups.
const PUMP: u8 = 0x80;

const GAUGE: u8 = 0x81;

const OFFSET: u8 = 0x10;

const SCALE: u8 = 0x11;

// Set by hand: the gauge's scale.
const HAND: [u8; 8] = [PUMP, 6, GAUGE, 4, SCALE, 2, 0x87, 0x28];

const INCOMING: [u8; 12] = [
    PUMP, 10, GAUGE, 8, OFFSET, 2, 0x0C, 0x00, SCALE, 2, 0x10, 0x27,
];

// The value is part of one of the two sheets, and nothing is copied.
fn show(rt: &impl Print, name: &str, hand: &[u8], incoming: &[u8], path: &[u8]) {
    let value = Hex(sheet::pick(hand, incoming, path));
    match sheet::ask_pick(hand, incoming, path) {
        Ok(Picked::InHand { .. }) => println!(rt; "{name}:{value}, set by hand").ok(),
        Ok(Picked::InIncoming { .. }) => println!(rt; "{name}:{value}, incoming").ok(),
        Err(x) => println!(rt; "{name}: {x}").ok(),
    };
}

fn main(rt: HostRuntime) {
    let rt = &rt;
    let scale = [PUMP, GAUGE, SCALE];
    show(rt, "scale", &HAND, &INCOMING, &scale);
    show(rt, "offset", &HAND, &INCOMING, &[PUMP, GAUGE, OFFSET]);
    show(rt, "the gauge as a whole", &HAND, &INCOMING, &[PUMP, GAUGE]);
    show(
        rt,
        "scale of another pump",
        &HAND,
        &INCOMING,
        &[0x82, GAUGE, SCALE],
    );
    show(
        rt,
        "scale, with the hand-set sheet cut short",
        &HAND[..7],
        &INCOMING,
        &scale,
    );
}

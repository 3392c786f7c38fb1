// T11 of docs/RULES.md, the bench case that no theorem holds: a ring with 64 data bytes has space for seven packets and not for an eighth.
#![tactic(auto)]

use icbmsg::{Bounds, Opening};
use lines::Hex;
use link::{End, PacketError};

// Bytes of a region whose ring minimum leaves 64 data bytes: 4 + 4 + 8 × (3 + 3 + 2), and three blocks of four bytes behind it.
const REGION: u32 = 84;

fn opened() -> End {
    let tx = Bounds {
        begin: 0x20070000,
        end: 0x20070000 + REGION,
        block_count: 3,
    };
    let rx = Bounds {
        begin: 0x20078000,
        end: 0x20078000 + REGION,
        block_count: 3,
    };
    let opened = End::open(Opening {
        alignment: 4,
        tx,
        rx,
    });
    opened.end
}

fn number_of(answer: Result<u32, PacketError>) -> u32 {
    match answer {
        Ok(_) => 0,
        Err(PacketError::Dropped(_)) => 9,
        Err(PacketError::Refused(x)) => x.number(),
    }
}

fn main(rt: HostRuntime) {
    let mut region = [0u8; 84];
    let mut end = opened();
    println!(rt; "a ring with {} data bytes", end.numbers.tx.data_length).ok();
    // The control message for data, address 2, block 5.
    let message = [0u8, 2, 5];
    for i in 1..=8 {
        let answer = end.push(&mut region, &message);
        println!(rt; "packet {i} is {}", number_of(answer)).ok();
    }
    println!(rt; "the first packet:{}", Hex(&region[8..16])).ok();
}

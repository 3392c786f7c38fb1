// Rounds of an end's calls, for a C program to time: each function opens an end, makes the same calls again and again, and answers a
// checksum of what they answered. bench/calls.c makes the same rounds with an end in plain C, and compares.
#![tactic(auto)]

use icbmsg::{Bounds, Opening};
use link::{Answer, End};
use refusal::Refusal;

// What an accepted call answers, as a number.
fn of_answer(a: Answer) -> u32 {
    match a {
        Answer::Accepted => 1,
        Answer::Run { start, count } => start % 1024 + count % 1024 * 1024,
        Answer::Control {
            kind,
            address,
            block,
        } => u32::from(kind) * 65536 + u32::from(address) * 256 + u32::from(block),
        Answer::Delivered {
            address,
            block,
            length,
        } => u32::from(address) * 256 + u32::from(block) + length % 65536 * 65536,
    }
}

fn number_of(a: Result<Answer, Refusal>) -> u32 {
    match a {
        Ok(a) => of_answer(a),
        Err(x) => 1_000_000u32.wrapping_add(x.number()),
    }
}

fn added(sum: u32, a: Result<Answer, Refusal>) -> u32 {
    sum.wrapping_add(number_of(a))
}

// Where a reservation starts. Of another answer, a start that no table has, as in bench/calls.c: the call with it is made and summed too.
fn start_of(a: Result<Answer, Refusal>) -> u32 {
    match a {
        Ok(Answer::Run { start, .. }) => start,
        _ => 256,
    }
}

// A fresh end: the alignment, then begin, end and block count of the transmit region and of the receive region.
fn opened(numbers: &[u32; 7]) -> End {
    let tx = Bounds {
        begin: numbers[1],
        end: numbers[2],
        block_count: numbers[3],
    };
    let rx = Bounds {
        begin: numbers[4],
        end: numbers[5],
        block_count: numbers[6],
    };
    End::open(Opening {
        alignment: numbers[0],
        tx,
        rx,
    })
    .end
}

// The end with `taken` reservations of one block each.
fn crowded(fresh: End, taken: u32) -> End {
    let mut end = fresh;
    for _ in 0..taken {
        let _ = end.reserve(0);
    }
    end
}

// Frees the first `blocks` transmit blocks, each a run, but for each `every`-th. It is not done by drop: a second caller would keep drop out of
// the rounds that are timed.
fn thin(both: &mut [u8; tables::BYTES], blocks: usize, every: usize) {
    if every == 0 || blocks::BLOCKS < blocks {
        return;
    }
    for s in 0..blocks {
        if (s + 1) % every != 0 {
            tables::free_run(both, tables::SENT, s, 1);
        }
    }
}

// An initiator's end with one endpoint, bound to address 0.
fn bound(fresh: End, tx: &mut [u8], rx: &[u8]) -> End {
    let mut end = fresh;
    let _ = end.register(tx, b"bench");
    let _ = end.arrival(rx, &[3, 0, 0]);
    end
}

// The partner takes off all that is pushed: it writes its read index. Else the ring would be full after some rounds.
fn take_off(end: &End, tx: &mut [u8]) {
    let at = end.numbers.tx.ring_offset as usize;
    if at + 4 <= tx.len() {
        wire::write_u32(tx, at, end.numbers.write);
    }
}

// Reserves k bytes and drops them. Of the first `taken` blocks each `every`-th is reserved before, or all where `every` is 0.
#[unsafe(no_mangle)]
pub extern "C" fn petrelknob_rounds_reserve(
    opening: &[u32; 7],
    taken: u32,
    every: u32,
    k: u32,
    rounds: u32,
) -> u32 {
    let mut end = crowded(opened(opening), taken);
    thin(&mut end.tables, taken as usize, every as usize);
    let mut sum = 0;
    for _ in 0..rounds {
        let run = end.reserve(k);
        let gone = end.drop(start_of(run));
        sum = added(added(sum, run), gone);
    }
    sum
}

// Reserves k bytes, sends them to the bound endpoint, and has the partner release them.
#[unsafe(no_mangle)]
pub extern "C" fn petrelknob_rounds_send(
    opening: &[u32; 7],
    tx: &mut [u8],
    rx: &[u8],
    k: u32,
    rounds: u32,
) -> u32 {
    let mut end = bound(opened(opening), tx, rx);
    let message = [1u8, 0, 0];
    let mut sum = 0;
    for _ in 0..rounds {
        let run = end.reserve(k);
        let order = end.send(tx, start_of(run), 0, k);
        take_off(&end, tx);
        let freed = end.arrival(rx, &message);
        sum = added(added(added(sum, run), order), freed);
    }
    sum
}

// Takes the data message in receive block 0 for the bound endpoint, and ends its reading.
#[unsafe(no_mangle)]
pub extern "C" fn petrelknob_rounds_arrival(
    opening: &[u32; 7],
    tx: &mut [u8],
    rx: &[u8],
    rounds: u32,
) -> u32 {
    let mut end = bound(opened(opening), tx, rx);
    let message = [0u8, 0, 0];
    let mut sum = 0;
    for _ in 0..rounds {
        let delivered = end.arrival(rx, &message);
        let order = end.done(tx, 0);
        take_off(&end, tx);
        sum = added(added(sum, delivered), order);
    }
    sum
}

// A row: the 14 numbers that a script gives for its opening and for each record.
ghost use Rattle.std.specs.Prelude.{◌≡◌, ◌+◌, ◌≤◌, ◌<◌, length};
ghost use Rattle.link.specs.Answers.{end_of, answer_number, answer_given, packet_number, packet_given};
ghost use Rattle.script.specs.Rows.{reply, placed_reply, size_at, weighted, sum as sumRule, row_of};

use link::{Answer, End, PacketError, Place};
use refusal::Refusal;

// Bytes of a row.
pub const BYTES: usize = 56;

// What a row tells of an answer: the number, how many values, four values (0 where there are fewer), begin and size of a room or view, and
// what is given.
pub fn answered(a: Result<Answer, Refusal>) -> [u32; 9]
    ensures { result ≡ reply (answer_number a) (answer_given a) 0 0 }
{
    match a {
        Ok(Answer::Accepted) => [0; 9],
        Ok(Answer::Run { start, count }) => [0, 2, start, count, 0, 0, 0, 0, 2],
        Ok(
            Answer::Control {
                kind,
                address,
                block,
            },
        ) => [0, 3, kind as u32, address as u32, block as u32, 0, 0, 0, 3],
        Ok(
            Answer::Delivered {
                address,
                block,
                length,
            },
        ) => [0, 3, address as u32, block as u32, length, 0, 0, 0, 4],
        Err(x) => [x.number(), 0, 0, 0, 0, 0, 0, 0, 0],
    }
}

// Of start, push and pull: the length, 0 on a refusal, and behind it what was dropped.
pub fn ring_answered(a: Result<u32, PacketError>) -> [u32; 9]
    ensures { result ≡ reply (packet_number a) (packet_given a) 0 0 }
{
    match a {
        Ok(k) => [0, 1, k, 0, 0, 0, 0, 0, 1],
        Err(PacketError::Dropped(n)) => [9, 2, 0, n, 0, 0, 0, 0, 1],
        Err(PacketError::Refused(x)) => [x.number(), 1, 0, 0, 0, 0, 0, 0, 1],
    }
}

// Of a room or view: where it is said to lie, and how many bytes were handed out, which are as many.
pub fn placed(place: Result<Place, Refusal>, size: usize) -> [u32; 9]
    requires { size ≡ size_at place }
    ensures { result ≡ placed_reply place }
{
    match place {
        Ok(p) => [0, 0, 0, 0, 0, 0, p.begin, size as u32, 0],
        Err(x) => [x.number(), 0, 0, 0, 0, 0, 0, size as u32, 0],
    }
}

const MODULUS: u64 = 65521;

// Bytes that are summed before a remainder is taken.
const PIECE: usize = 4096;

// The sum of bytes, each times its position plus 1, where the first stands at `first`.
fn sum_piece(part: &[u8], first: u64) -> u64
    requires { (length part.now ≤ 4096) × (first < 65521) }
    ensures { (result ≡ weighted first part.now) × (result ≤ 72713564160) }
{
    let weight = first + 1;
    let mut sum: u64 = 0;
    for (i, &b) in part.iter().enumerate() {
        sum += u64::from(b) * (weight + i as u64);
    }
    sum
}

// The sum of all bytes, each times its position plus 1, modulo 65,521. Piece by piece, by hand: where a piece begins is wanted with it, and
// `chunks` does not tell.
fn sum(s: &[u8]) -> u32
    ensures { result ≡ sumRule s.now }
{
    let mut total: u64 = 0;
    let mut p = 0;
    while p < s.len() {
        let end = p + (s.len() - p).min(PIECE);
        total = (total + sum_piece(&s[p..end], p as u64 % MODULUS)) % MODULUS;
        p = end;
    }
    total as u32
}

// The row of a record that was answered so, and left the end and the memory so.
pub fn row(reply: [u32; 9], end: &End, tx: &[u8], rx: &[u8], buffer: &[u8]) -> [u32; 14]
    ensures { result ≡ row_of reply (end_of end.now) tx.now rx.now buffer.now }
{
    let sent = tables::free_blocks(&end.tables, tables::SENT, end.numbers.tx.block_count);
    let held = tables::free_blocks(&end.tables, tables::HELD, end.numbers.rx.block_count);
    [
        reply[0],
        reply[1],
        reply[2],
        reply[3],
        reply[4],
        reply[5],
        reply[6],
        reply[7],
        sent,
        held,
        sum(tx),
        sum(rx),
        sum(buffer),
        reply[8],
    ]
}

// Runs a call script (docs/SCRIPT.md) on one end: its opening, then each of its records.
#![tactic(auto)]

mod calls;
pub mod kinds;
pub mod records;
mod rows;

ghost use Rattle.std.specs.Prelude.{true, ◌≡◌, ◌+◌, ◌≤◌, length, drop};
ghost use Rattle.script.specs.Records.{has};
ghost use Rattle.script.specs.Script.{opening_step, with_row, result_of, RowsFrom, Runs, IsLeft, left_step, LeftLeaves};

use calls::Lent;
use icbmsg::Opening;
use kinds::Kind;
use link::End;

// What a record leaves beside the memory.
#[derive(Clone, Copy)]
pub struct Left {
    pub end: End,
    pub lent: Lent,
}

// Opens an end, and writes its row.
fn open(opening: Opening, tx: &[u8], rx: &[u8], buffer: &[u8], out: &mut [u8]) -> Left
    requires { 56 ≤ length out.old }
    ensures left { IsLeft result (opening_step opening) }
    ensures out { out.new ≡ with_row out.old 0 (opening_step opening) tx.now rx.now buffer.now }
{
    let opened = End::open(opening);
    let lent = Lent {
        tx: records::bytes(opening.tx),
        rx: records::bytes(opening.rx),
    };
    let row = rows::row(rows::answered(opened.answer), &opened.end, tx, rx, buffer);
    wire::write_numbers(out, 0, &row);
    Left {
        end: opened.end,
        lent,
    }
}

// Runs a record, and writes its row at p.
fn run_record(
    left: &mut Left,
    kind: Kind,
    body: &[u8],
    tx: &mut [u8],
    rx: &mut [u8],
    buffer: &mut [u8],
    out: &mut [u8],
    p: usize,
)
    requires { (has kind (length body.now) ≡ true) × (p + 56 ≤ length out.old) }
    ensures left { IsLeft left.new (left_step left.old kind body.now tx.old rx.old buffer.old) }
    ensures memory { LeftLeaves left.old kind body.now tx.old rx.old buffer.old tx.new rx.new buffer.new }
    ensures out { out.new ≡ with_row out.old p (left_step left.old kind body.now tx.old rx.old buffer.old) tx.new rx.new buffer.new }
{
    let reply = calls::step(&mut left.end, &mut left.lent, kind, body, tx, rx, buffer);
    let row = rows::row(reply, &left.end, tx, rx, buffer);
    wire::write_numbers(out, p, &row);
}

// Runs the records behind the opening, and answers how many bytes of `out` have rows then.
fn run_records(
    mut left: Left,
    script: &[u8],
    tx: &mut [u8],
    rx: &mut [u8],
    buffer: &mut [u8],
    out: &mut [u8],
) -> usize
    requires { (22 ≤ length script.now) × (56 ≤ length out.old) }
    ensures rows { RowsFrom (drop 22 script.now) 56 left tx.old rx.old buffer.old out.old (result_of result out.new tx.new rx.new buffer.new) }
    ensures fits { result ≤ length out.old }
{
    let mut at = records::OPENING;
    let mut written = rows::BYTES;
    // Each record says where the next begins.
    while rows::BYTES <= out.len() - written {
        let Some(next) = records::first_record(&script[at..]) else {
            return written;
        };
        let begin = at + records::HEADER;
        at = begin + next.length;
        run_record(
            &mut left,
            next.kind,
            &script[begin..at],
            tx,
            rx,
            buffer,
            out,
            written,
        );
        written += rows::BYTES;
    }
    written
}

// Opens an end and runs the records on it. Writes a row of 14 numbers to `out` for the opening and for each record, and answers how many
// bytes it wrote. Stops before a record that is not whole, that the format does not have, or whose row does not fit.
pub fn run(script: &[u8], tx: &mut [u8], rx: &mut [u8], buffer: &mut [u8], out: &mut [u8]) -> usize
    ensures run { Runs script.now tx.old rx.old buffer.old out.old (result_of result out.new tx.new rx.new buffer.new) }
    ensures fits { result ≤ length out.old }
{
    let Some(opening) = records::opening(script) else {
        return 0;
    };
    if out.len() < rows::BYTES {
        return 0;
    }
    let left = open(opening, tx, rx, buffer, out);
    run_records(left, script, tx, rx, buffer, out)
}

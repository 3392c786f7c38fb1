// Runs the call script on standard input (docs/SCRIPT.md), prints each row as a line of decimal numbers, and says where and why it
// stopped early. A line that standard output does not take is lost.
#![tactic(auto)]

ghost use Rattle.std.specs.Prelude.{◌≤◌, length};

use script::kinds::{Body, Kind};
use script::records;
use std::fmt;
use std::io::Read;

// The most bytes of a script, and of its rows: 4,681 of them.
const MOST: usize = 262_144;

// Bytes of a row.
const ROW: usize = 56;

// A row as decimal numbers.
#[derive(Clone, Copy)]
struct Row<'a>(&'a [u8]);

impl<'a> fmt::Display for Row<'a> {
    fn fmt<W: fmt::Write>(&self, f: &mut fmt::Formatter<W>) -> fmt::Result {
        let (numbers, _) = self.0.as_chunks();
        f.write_joined(
            numbers.iter().map(|number| u32::from_le_bytes(*number)),
            " ",
        )
    }
}

// ---- where it stopped

// How many bytes are left, none of them used.
#[derive(Clone, Copy)]
struct Left(usize);

impl fmt::Display for Left {
    fn fmt<W: fmt::Write>(&self, f: &mut fmt::Formatter<W>) -> fmt::Result {
        match self.0 {
            1 => f.write_str("1 is left"),
            n => write!(f, "{n} are left"),
        }
    }
}

// Why no record of the format begins the rest: it is no whole record, or one that the format does not have; else its row did not fit.
#[derive(Clone, Copy)]
struct Why<'a>(&'a [u8]);

impl<'a> fmt::Display for Why<'a> {
    fn fmt<W: fmt::Write>(&self, f: &mut fmt::Formatter<W>) -> fmt::Result {
        let rest = self.0;
        let left = Left(rest.len());
        if rest.len() < records::HEADER {
            return write!(f, "a record header of 3 bytes where {left}");
        }
        let length = wire::read_u16(rest, 1) as usize;
        let whole = records::HEADER + length;
        if rest.len() < whole {
            return write!(f, "a record of {whole} bytes where {left}");
        }
        match records::first_record(rest) {
            None => write!(f, "{}", Wanted(rest[0], length)),
            Some(_) => f.write_str("the output is full"),
        }
    }
}

// A kind, and the length of a body that it does not have.
#[derive(Clone, Copy)]
struct Wanted(u8, usize);

impl fmt::Display for Wanted {
    fn fmt<W: fmt::Write>(&self, f: &mut fmt::Formatter<W>) -> fmt::Result {
        let Wanted(kind, length) = *self;
        match Kind::of(kind).map(|kind| kind.body()) {
            Some(Body::Exactly(n)) => write!(f, "body of {length} bytes where {n} are wanted"),
            Some(Body::AtLeast(n)) => {
                write!(f, "body of {length} bytes where {n} or more are wanted")
            }
            _ => write!(f, "unknown kind {kind}"),
        }
    }
}

// What is behind the opening and the records that gave rows.
fn behind(script: &[u8], rows: usize) -> &[u8]
    ensures { length result.now ≤ length script.now }
{
    let mut rest = &script[records::OPENING.min(script.len())..];
    for _ in 1..rows {
        let Some(next) = records::first_record(rest) else {
            break;
        };
        let whole = records::HEADER.saturating_add(next.length);
        rest = &rest[whole.min(rest.len())..];
    }
    rest
}

// Says where and why the script stopped, unless it ran to its end.
fn print_stop(rt: &impl Print, script: &[u8], rows: usize) {
    if rows == 0 {
        println!(rt;
            "stops at byte 0: an opening of 22 bytes where {}",
            Left(script.len())
        )
        .ok();
        return;
    }
    let rest = behind(script, rows);
    if !rest.is_empty() {
        let at = script.len() - rest.len();
        println!(rt; "stops at byte {at}: {}", Why(rest)).ok();
    }
}

// Reads until the script is full, or the input ends or fails, and answers how many bytes it has. No memory is asked for, so none can be
// missing.
fn read_script(input: &mut impl Read, script: &mut [u8]) -> usize
    ensures { result ≤ length script.new }
{
    let mut length = 0;
    while length < script.len() {
        match input.read(&mut script[length..]) {
            Ok(0) | Err(_) => break,
            Ok(n) => length += n,
        }
    }
    length
}

fn main(rt: HostRuntime) {
    let mut script = [0; MOST];
    let length = read_script(&mut rt.reader(), &mut script);
    let script = &script[..length];
    let mut tx = [0; 16384];
    let mut rx = [0; 16384];
    let mut buffer = [0; 65536];
    let mut rows = [0; MOST];
    let written = script::run(script, &mut tx, &mut rx, &mut buffer, &mut rows);
    for row in rows[..written].chunks_exact(ROW) {
        println!(rt; "{}", Row(row)).ok();
    }
    print_stop(&rt, script, written / ROW);
}

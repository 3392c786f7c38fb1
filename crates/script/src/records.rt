// The opening and the records of a script.
ghost use Rattle.std.specs.Prelude.{◌≡◌, length};
ghost use Rattle.script.specs.Records.{begun, bytes_of, first_record};

use crate::kinds::Kind;
use icbmsg::{Bounds, Opening};

// Bytes of an opening, and of a record before its body: its kind, and the length of its body.
pub const OPENING: usize = 22;

pub const HEADER: usize = 3;

// A record: its kind, and the length of its body.
#[derive(Clone, Copy)]
pub struct Record {
    pub kind: Kind,
    pub length: usize,
}

// What a script opens, if it has an opening.
pub fn opening(script: &[u8]) -> Option<Opening>
    ensures { result ≡ begun script.now }
{
    if script.len() < OPENING {
        return None;
    }
    let tx = Bounds {
        begin: wire::read_u32(script, 0),
        end: wire::read_u32(script, 4),
        block_count: wire::read_u16(script, 16),
    };
    let rx = Bounds {
        begin: wire::read_u32(script, 8),
        end: wire::read_u32(script, 12),
        block_count: wire::read_u16(script, 18),
    };
    Some(Opening {
        alignment: wire::read_u16(script, 20),
        tx,
        rx,
    })
}

// Bytes of a region; none where its end is not above its begin.
pub fn bytes(b: Bounds) -> usize
    ensures { result ≡ bytes_of b }
{
    b.end.saturating_sub(b.begin) as usize
}

// The record that the rest of a script begins with. None where the script ends, or what follows is no record of the format.
pub fn first_record(rest: &[u8]) -> Option<Record>
    ensures { result ≡ first_record rest.now }
{
    if rest.len() < HEADER {
        return None;
    }
    let length = wire::read_u16(rest, 1) as usize;
    if rest.len() - HEADER < length {
        return None;
    }
    let kind = Kind::of(rest[0])?;
    if kind.body().admits(length) {
        Some(Record { kind, length })
    } else {
        None
    }
}

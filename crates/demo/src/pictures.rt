// The picture of one direction: a letter for each block, in the sender's table and in the receiver's.
use crate::texts;
use blocks::Use;
use icbmsg::Region;
use link::End;
use std::fmt;
use tables::Base;

// A picture is no call, and stands back.
pub fn show(rt: &impl Print, from: &End, to: &End) {
    let sent = Picture {
        end: from,
        base: tables::SENT,
        region: from.numbers.tx,
    };
    let held = Picture {
        end: to,
        base: tables::HELD,
        region: to.numbers.rx,
    };
    println!(rt; "       {sent}  {held}").ok();
}

// An end's name, and a letter for each block that it sends in, or of each that it receives in.
#[derive(Clone, Copy)]
struct Picture<'a> {
    end: &'a End,
    base: Base,
    region: Region,
}

impl<'a> fmt::Display for Picture<'a> {
    fn fmt<W: fmt::Write>(&self, f: &mut fmt::Formatter<W>) -> fmt::Result {
        let Picture { end, base, region } = *self;
        write!(f, "{} [", texts::name(end))?;
        for i in 0..End::BLOCKS.min(usize::from(region.block_count)) {
            let entry = tables::entry_at(&end.tables, base, i);
            f.write_char(letter(entry.usage))?;
        }
        f.write_str("]")
    }
}

fn letter(u: Use) -> char {
    match u {
        Use::Free => '.',
        Use::Inside => '-',
        Use::Reserved => 'R',
        Use::SentData => 'S',
        Use::SentBinding => 'B',
        Use::ReceivedData => 'D',
        Use::StoredBinding => 'b',
    }
}

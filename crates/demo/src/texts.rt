// How a call is written as a line: who calls, what, the number, the values.
use endpoints::Stage;
use icbmsg::Region;
use lines::{Counted, Hex};
use link::{Answer, End, PacketError};
use refusal::Refusal;
use std::fmt;
use std::fmt::{Display, InlineText};

// The most bytes of a call's text. No text here is near the limit.
const CALL: usize = 64;

// Writes the line of an end's call.
pub fn print(rt: &impl Print, end: &End, call: impl Display + Drop, answer: impl Display + Drop) {
    let call = InlineText::<CALL>::of(call);
    println!(rt; "{:<7}{:<31}{answer}", name(end), call.as_str()).ok();
}

// The pump core's end receives below where it sends: it is the initiator.
pub fn name(end: &End) -> &'static str {
    if end.numbers.initiator {
        "pump"
    } else {
        "panel"
    }
}

// A length as lines and calls take it. No text here is near the limit.
pub fn short(n: usize) -> u32 {
    n.min(65535) as u32
}

// ---- answers

// A call's number, and its values.
#[derive(Clone, Copy)]
pub struct Answered(pub Result<Answer, Refusal>);

impl Display for Answered {
    fn fmt<W: fmt::Write>(&self, f: &mut fmt::Formatter<W>) -> fmt::Result {
        match self.0 {
            Err(x) => write!(f, "{}", Refused(x)),
            Ok(Answer::Accepted) => f.write_str(" 0"),
            Ok(Answer::Run { start, count }) => write!(
                f,
                " 0  start {start}, {}",
                Counted(count, "block")
            ),
            Ok(
                Answer::Control {
                    kind,
                    address,
                    block,
                },
            ) => write!(f, " 0  to push:{}", Hex(&[kind, address, block])),
            Ok(
                Answer::Delivered {
                    address,
                    block,
                    length,
                },
            ) => write!(
                f,
                " 0  address {address}, block {block}, {}",
                Counted(length, "byte")
            ),
        }
    }
}

// Of a call that pushes its control message.
#[derive(Clone, Copy)]
pub struct Pushed(pub Result<Answer, Refusal>);

impl Display for Pushed {
    fn fmt<W: fmt::Write>(&self, f: &mut fmt::Formatter<W>) -> fmt::Result {
        match self.0 {
            Ok(
                Answer::Control {
                    kind,
                    address,
                    block,
                },
            ) => write!(f, " 0  pushed:{}", Hex(&[kind, address, block])),
            answer => write!(f, "{}", Answered(answer)),
        }
    }
}

// A ring call's number and length, or what was dropped, and the own index that the end keeps.
#[derive(Clone, Copy)]
pub struct RingAnswered {
    pub answer: Result<u32, PacketError>,
    pub index: u32,
}

impl Display for RingAnswered {
    fn fmt<W: fmt::Write>(&self, f: &mut fmt::Formatter<W>) -> fmt::Result {
        let index = self.index;
        match self.answer {
            Err(PacketError::Refused(x)) => write!(f, "{}", Refused(x)),
            Err(PacketError::Dropped(n)) => {
                let broken = Refused(Refusal::BrokenPacket);
                write!(
                    f,
                    "{broken}: {} dropped, own index {index}",
                    Counted(n, "byte")
                )
            }
            Ok(k) => write!(f, " 0  {}, own index {index}", Counted(k, "byte")),
        }
    }
}

#[derive(Clone, Copy)]
struct Refused(Refusal);

impl Display for Refused {
    fn fmt<W: fmt::Write>(&self, f: &mut fmt::Formatter<W>) -> fmt::Result {
        let x = self.0;
        write!(f, "{:>2}  {x}", x.number())
    }
}

// ---- opening

// What an opening made of an end.
#[derive(Clone, Copy)]
pub struct Opened<'a>(pub &'a End);

impl<'a> Display for Opened<'a> {
    fn fmt<W: fmt::Write>(&self, f: &mut fmt::Formatter<W>) -> fmt::Result {
        let n = &self.0.numbers;
        let role = if n.initiator { "initiator" } else { "follower" };
        write!(
            f,
            "  {role}, sends {}, receives {}",
            Blocks(n.tx),
            Blocks(n.rx)
        )
    }
}

// The number of a region's blocks, and their size.
#[derive(Clone, Copy)]
struct Blocks(Region);

impl Display for Blocks {
    fn fmt<W: fmt::Write>(&self, f: &mut fmt::Formatter<W>) -> fmt::Result {
        let g = self.0;
        write!(f, "{} blocks of {} bytes", g.block_count, g.block_size)
    }
}

// ---- what rings, rooms and views hold

// The pulled bytes, or what they are.
#[derive(Clone, Copy)]
pub struct Content<'a>(pub &'a [u8]);

impl<'a> Display for Content<'a> {
    fn fmt<W: fmt::Write>(&self, f: &mut fmt::Formatter<W>) -> fmt::Result {
        let bytes = self.0;
        if bytes.is_empty() {
            Ok(())
        } else if icmsg::is_start(bytes) {
            f.write_str(": the start content")
        } else {
            write!(f, ":{}", Hex(bytes))
        }
    }
}

// The bytes of a room, and how many of them are filled. A refused room has none.
#[derive(Clone, Copy)]
pub struct Room {
    pub size: u32,
    pub filled: u32,
}

impl Display for Room {
    fn fmt<W: fmt::Write>(&self, f: &mut fmt::Formatter<W>) -> fmt::Result {
        let Room { size, filled } = *self;
        if size == 0 {
            return Ok(());
        }
        write!(f, "  {}, {filled} filled", Counted(size, "byte"))
    }
}

// The bytes that are viewed. A refused view has none.
#[derive(Clone, Copy)]
pub struct Viewed<'a>(pub &'a [u8]);

impl<'a> Display for Viewed<'a> {
    fn fmt<W: fmt::Write>(&self, f: &mut fmt::Formatter<W>) -> fmt::Result {
        let text = self.0;
        if text.is_empty() {
            return Ok(());
        }
        write!(
            f,
            "  {} \"{}\"",
            Counted(short(text.len()), "byte"),
            text.escape_ascii()
        )
    }
}

// ---- endpoints

// Writes the line of an end's first endpoint as it stands: its name ends at the first zero.
pub fn print_endpoint(rt: &impl Print, end: &End) {
    let p = &end.endpoints[0];
    let bytes = &p.name;
    let length = bytes.iter().position(|b| *b == 0).unwrap_or(bytes.len());
    let text = InlineText::<CALL>::of(format_args!("endpoint {}", bytes[..length].escape_ascii()));
    println!(rt;
        "{:<7}{:<35}{}, address {}",
        name(end),
        text.as_str(),
        stage(p.stage),
        p.address
    )
    .ok();
}

fn stage(s: Stage) -> &'static str {
    match s {
        Stage::Unused => "unused",
        Stage::Waiting => "waiting",
        Stage::Bound => "bound",
    }
}

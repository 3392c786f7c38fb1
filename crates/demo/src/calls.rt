// The calls of an end, each written as a line.
use crate::texts;
use crate::texts::{Answered, Content, Opened, RingAnswered, Room, Viewed};
use icbmsg::Opening;
use lines::{Counted, Hex};
use link::{Answer, End};
use refusal::Refusal;

// A region of shared memory.
pub type Memory = [u8; 2048];

pub fn open(rt: &impl Print, o: Opening) -> End {
    let opened = End::open(o);
    let end = opened.end;
    let call = format_args!("open, sends at 0x{:08x}", o.tx.begin);
    let answered = Answered(opened.answer);
    match opened.answer {
        Ok(_) => texts::print(rt, &end, call, format_args!("{answered}{}", Opened(&end))),
        Err(_) => texts::print(rt, &end, call, answered),
    }
    end
}

// ---- rings

pub fn start(rt: &impl Print, end: &mut End, tx: &mut Memory) {
    let answer = end.start(tx);
    let index = end.numbers.write;
    texts::print(rt, end, "start", RingAnswered { answer, index });
}

pub fn push(rt: &impl Print, end: &mut End, tx: &mut Memory, content: &[u8]) {
    let answer = end.push(tx, content);
    let index = end.numbers.write;
    let call = format_args!("push{}", Hex(content));
    texts::print(rt, end, call, RingAnswered { answer, index });
}

// Pushes packets of an unknown kind, more than the ring takes, and writes one line for them, then the push that finds it full.
pub fn fill_ring(rt: &impl Print, end: &mut End, tx: &mut Memory) {
    let content = [0xFFu8; 3];
    for _ in 0..64u32 {
        end.push(tx, &content).ok();
    }
    println!(rt; "{:<7}push ff ff ff, 64 times", texts::name(end)).ok();
    push(rt, end, tx, &content);
}

// Takes what is on the ring off, each packet to its arrival, and writes one line for them, then the pull that finds it empty.
pub fn empty_ring(rt: &impl Print, end: &mut End, rx: &mut Memory) {
    let mut packet = [0u8; 3];
    for _ in 0..64u32 {
        if end.pull(rx, &mut packet).is_ok() {
            end.arrival(rx, &packet).ok();
        }
    }
    println!(rt; "{:<7}pull and arrival, 64 times", texts::name(end)).ok();
    let mut buffer = [0u8; 16];
    pull(rt, end, rx, &mut buffer);
}

// Answers what was pulled: the first bytes of the buffer.
pub fn pull<'a>(
    rt: &impl Print,
    end: &mut End,
    rx: &mut Memory,
    buffer: &'a mut [u8; 16],
) -> &'a [u8] {
    let answer = end.pull(rx, buffer);
    let index = end.numbers.read;
    let length = answer.unwrap_or(0) as usize;
    let content = &buffer[..length.min(buffer.len())];
    let answered = RingAnswered { answer, index };
    texts::print(
        rt,
        end,
        "pull",
        format_args!("{answered}{}", Content(content)),
    );
    content
}

// ---- arrivals and registrations

pub fn arrival(
    rt: &impl Print,
    end: &mut End,
    rx: &Memory,
    message: &[u8],
) -> Result<Answer, Refusal> {
    let answer = end.arrival(rx, message);
    let call = format_args!("arrival{}", Hex(message));
    texts::print(rt, end, call, Answered(answer));
    answer
}

pub fn register(
    rt: &impl Print,
    end: &mut End,
    tx: &mut Memory,
    name: &[u8],
) -> Result<Answer, Refusal> {
    let answer = end.register(tx, name);
    let call = format_args!("register {}", name.escape_ascii());
    texts::print(rt, end, call, texts::Pushed(answer));
    answer
}

// ---- messages

pub fn reserve(rt: &impl Print, end: &mut End, k: u32) -> Result<Answer, Refusal> {
    let answer = end.reserve(k);
    let call = format_args!("reserve {}", Counted(k, "byte"));
    texts::print(rt, end, call, Answered(answer));
    answer
}

// Asks for the room of a reservation, and puts the first bytes of the text that fit into it.
pub fn fill(rt: &impl Print, end: &End, tx: &mut Memory, start: u32, text: &[u8]) {
    let answered = Answered(end.ask_room(start, tx.len()));
    let room = end.room(tx, start);
    let n = room.len().min(text.len());
    room[..n].copy_from_slice(&text[..n]);
    let filled = Room {
        size: texts::short(room.len()),
        filled: texts::short(n),
    };
    let call = format_args!("room of {start}");
    texts::print(rt, end, call, format_args!("{answered}{filled}"));
}

pub fn send(
    rt: &impl Print,
    end: &mut End,
    tx: &mut Memory,
    start: u32,
    address: u32,
    k: u32,
) -> Result<Answer, Refusal> {
    let answer = end.send(tx, start, address, k);
    let bytes = Counted(k, "byte");
    let call = format_args!("send {start} to address {address}, {bytes}");
    texts::print(rt, end, call, texts::Pushed(answer));
    answer
}

pub fn view(rt: &impl Print, end: &End, rx: &Memory, start: u32) {
    let answered = Answered(end.ask_view(start, rx.len()));
    let viewed = Viewed(end.view(rx, start));
    let call = format_args!("view of {start}");
    texts::print(rt, end, call, format_args!("{answered}{viewed}"));
}

pub fn done(
    rt: &impl Print,
    end: &mut End,
    tx: &mut Memory,
    start: u32,
) -> Result<Answer, Refusal> {
    let answer = end.done(tx, start);
    let call = format_args!("done {start}");
    texts::print(rt, end, call, texts::Pushed(answer));
    answer
}

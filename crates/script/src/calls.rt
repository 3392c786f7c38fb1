// What a record does: a call on the end, or a write to the memory around it.
ghost use Rattle.std.specs.Prelude.{◌≡◌, true, ◌≤◌, length, take};
ghost use Rattle.wire.specs.Bytes.{wrote};
ghost use Rattle.icbmsg.specs.Messages.{room_of, view_of};
ghost use Rattle.icbmsg.specs.Calls.{step as stepRule, pull as pull_call};
ghost use Rattle.link.specs.Answers.{end_of};
ghost use Rattle.script.specs.Rows.{reply_of};
ghost use Rattle.script.specs.Records.{has};
ghost use Rattle.script.specs.Calls.{RanAs, Wrote, call_outcome, overwritten, Leaves, record_step, step_of};
ghost use Rattle.script.specs.declared.kinds.Kind.{Kind};

use crate::kinds::{CallKind, Kind};
use crate::rows;
use link::End;
use wire::read_u32;

// How many bytes of each region calls are lent, if the memory has as many.
#[derive(Clone, Copy)]
pub struct Lent {
    pub tx: usize,
    pub rx: usize,
}

// The room of a reservation: its place, and the bytes of the part that is lent.
fn room(end: &End, tx: &mut [u8], start: u32) -> [u32; 9]
    ensures { result ≡ reply_of (room_of (end_of end.now) (length tx.old) start) }
{
    let place = end.room_place(start, tx.len());
    let size = end.room(tx, start).len();
    rows::placed(place, size)
}

// The view of a received message.
fn view(end: &End, rx: &[u8], start: u32) -> [u32; 9]
    ensures { result ≡ reply_of (view_of (end_of end.now) (length rx.now) start) }
{
    let place = end.view_place(start, rx.len());
    let size = end.view(rx, start).len();
    rows::placed(place, size)
}

// Takes a packet off the receive ring, into the first n bytes of the buffer.
fn pull(end: &mut End, rx: &mut [u8], buffer: &mut [u8], n: u32) -> [u32; 9]
    ensures answer { RanAs result end.new (stepRule (end_of end.old) (pull_call rx.old (take n buffer.old))) }
    ensures rx { rx.new ≡ wrote rx.old (stepRule (end_of end.old) (pull_call rx.old (take n buffer.old))).rx }
    ensures buffer { buffer.new ≡ wrote buffer.old (stepRule (end_of end.old) (pull_call rx.old (take n buffer.old))).buffer }
{
    let lent = (n as usize).min(buffer.len());
    rows::ring_answered(end.pull(rx, &mut buffer[..lent]))
}

// The call of a record, with what it is lent.
fn call(
    end: &mut End,
    kind: CallKind,
    body: &[u8],
    tx: &mut [u8],
    rx: &mut [u8],
    buffer: &mut [u8],
) -> [u32; 9]
    requires { has (Kind.Call kind) (length body.now) ≡ true }
    ensures answer { RanAs result end.new (call_outcome (end_of end.old) kind body.now tx.old rx.old buffer.old) }
    ensures memory { Wrote kind (call_outcome (end_of end.old) kind body.now tx.old rx.old buffer.old) tx.old rx.old buffer.old tx.new rx.new buffer.new }
{
    match kind {
        CallKind::Arrival => rows::answered(end.arrival(rx, body)),
        CallKind::Register => rows::answered(end.register(tx, body)),
        CallKind::Reserve => rows::answered(end.reserve(read_u32(body, 0))),
        CallKind::Send => {
            let start = read_u32(body, 0);
            let to = read_u32(body, 4);
            let k = read_u32(body, 8);
            rows::answered(end.send(tx, start, to, k))
        }
        CallKind::Drop => rows::answered(end.drop(read_u32(body, 0))),
        CallKind::Done => rows::answered(end.done(tx, read_u32(body, 0))),
        CallKind::Push => rows::ring_answered(end.push(tx, body)),
        CallKind::Start => rows::ring_answered(end.start(tx)),
        CallKind::Pull => pull(end, rx, buffer, wire::read_u16(body, 0)),
        CallKind::Room => room(end, tx, read_u32(body, 0)),
        CallKind::View => view(end, rx, read_u32(body, 0)),
        CallKind::RoomQuestion => {
            let lent = read_u32(body, 4) as usize;
            rows::answered(end.ask_room(read_u32(body, 0), lent))
        }
        CallKind::ViewQuestion => {
            let lent = read_u32(body, 4) as usize;
            rows::answered(end.ask_view(read_u32(body, 0), lent))
        }
    }
}

// Puts the bytes behind the offset in a record's body into the memory, as many as it has.
fn overwrite(memory: &mut [u8], body: &[u8])
    requires { 4 ≤ length body.now }
    ensures { memory.new ≡ overwritten memory.old body.now }
{
    let p = read_u32(body, 0) as usize;
    if p < memory.len() {
        let n = (body.len() - 4).min(memory.len() - p);
        wire::copy(memory, p, body, 4, n);
    }
}

// Runs a record on the end, and answers what its row tells of it.
pub(super) fn step(
    end: &mut End,
    lent: &mut Lent,
    kind: Kind,
    body: &[u8],
    tx: &mut [u8],
    rx: &mut [u8],
    buffer: &mut [u8],
) -> [u32; 9]
    requires { has kind (length body.now) ≡ true }
    ensures answer { step_of result end.new lent.new ≡ record_step kind body.now (end_of end.old) lent.old.tx lent.old.rx tx.old rx.old buffer.old }
    ensures memory { Leaves kind body.now (end_of end.old) lent.old.tx lent.old.rx tx.old rx.old buffer.old tx.new rx.new buffer.new }
{
    match kind {
        Kind::WriteRx => {
            overwrite(rx, body);
            [0; 9]
        }
        Kind::WriteTx => {
            overwrite(tx, body);
            [0; 9]
        }
        Kind::Lend => {
            lent.tx = read_u32(body, 0) as usize;
            lent.rx = read_u32(body, 4) as usize;
            [0; 9]
        }
        Kind::Call(asked) => {
            let n = lent.tx.min(tx.len());
            let m = lent.rx.min(rx.len());
            call(end, asked, body, &mut tx[..n], &mut rx[..m], buffer)
        }
    }
}

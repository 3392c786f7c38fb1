// The interface for C: layout, start, push and pull, those of plain units, and the pick of sheets, on numbers and slices. include/petrelknob.h
// and include/petrelknob_sheet.h declare it.
#![tactic(auto)]

ghost use Rattle.std.specs.Prelude.{◌≡◌, ◌+◌, ◌≤◌, length, set};
ghost use Rattle.wire.specs.Bytes.{wrote, same};
ghost use Rattle.wire.specs.Reads.{answer as read};
ghost use Rattle.region.specs.Layout.{layout, plain, outcome_of as layout_of};
ghost use Rattle.icmsg.specs.Ring.{start_content};
ghost use Rattle.icmsg.specs.Rules.{answer_of, answer_number, start_rule, push_rule, pull_rule, receive_rule};
ghost use Rattle.sheet.specs.Picks.{pick_of, outcome_of};
ghost use Rattle.panel.specs.Answers.{answered, layout_numbers, ring_numbers, pick_numbers, yes_number};
ghost use Rattle.panel.specs.Calls.{open_number, ring_in, start_call, push_call, pull_call, receive_call, LiesIn, opened_number, OpensRing, on_ring};
ghost use Rattle.unit.specs.Opening.{opening};

use icmsg::{Packet, Ring, RingError};
use refusal::Refusal;
use region::RegionLayout;
use sheet::Picked;
use unit::{Bounds, Opening, Unit};

// Puts v at position i of the caller's answer, where it has one.
fn put_at(answer: &mut [u32], i: usize, v: u32)
    ensures { answer.new ≡ set answer.old i v }
{
    if i < answer.len() {
        answer[i] = v;
    }
}

// Puts as many of the numbers as fit into the caller's answer. How many there are is known to the compiler, and it makes a store of each
// turn; how many fit is not, and a loop over those, as over a zip of the two, would be a call of memcpy.
fn put_numbers(answer: &mut [u32], numbers: &[u32])
    ensures { answer.new ≡ answered answer.old numbers.now }
{
    for (i, number) in numbers.iter().enumerate() {
        put_at(answer, i, *number);
    }
}

// The number of the layout, and its five values.
#[unsafe(no_mangle)]
pub extern "C" fn petrelknob_layout(
    begin: u32,
    end: u32,
    local: u32,
    remote: u32,
    alignment: u32,
    answer: &mut [u32],
) -> u32
    ensures number { result ≡ (layout begin end local remote alignment).number }
    ensures values { answer.new ≡ answered answer.old (layout_numbers (layout begin end local remote alignment)) }
{
    match region::layout(begin, end, local, remote, alignment) {
        Ok(y) => {
            let numbers = [y.begin, y.data_length, y.blocks_begin, y.block_size, y.end];
            put_numbers(answer, &numbers);
            0
        }
        Err(x) => {
            let numbers = [0u32; 5];
            put_numbers(answer, &numbers);
            x.number()
        }
    }
}

// The ring in a slice of n bytes that is lent for the region, which is laid out so.
fn open_ring(
    layout: Result<RegionLayout, Refusal>,
    begin: u32,
    end: u32,
    alignment: u32,
    n: usize,
) -> Result<Ring, Refusal>
    requires { LiesIn begin end (layout_of layout) }
    ensures number { opened_number result ≡ open_number (layout_of layout) begin end n }
    ensures ring { OpensRing result (ring_in (layout_of layout) begin alignment) }
{
    let y = layout?;
    if n != (end - begin) as usize {
        return Err(Refusal::WrongRegion);
    }
    Ok(Ring {
        offset: y.begin - begin,
        alignment,
        data_length: y.data_length,
    })
}

// Puts a ring call's length, own index and dropped bytes into the caller's answer, and gives its number. Each case stores its own numbers:
// where the cases join first, the compiler tests them again behind that, and a call takes some 20 instructions more.
fn give(answer: &mut [u32], own: u32, a: Result<Packet, RingError>) -> u32
    ensures number { result ≡ answer_number (answer_of a) }
    ensures numbers { answer.new ≡ answered answer.old (ring_numbers own (answer_of a)) }
{
    match a {
        Ok(packet) => {
            put_numbers(answer, &[packet.length, packet.index, 0]);
            0
        }
        Err(RingError::Dropped { bytes, index }) => {
            put_numbers(answer, &[0, index, bytes]);
            Refusal::BrokenPacket.number()
        }
        Err(RingError::Refused(x)) => {
            put_numbers(answer, &[0, own, 0]);
            x.number()
        }
    }
}

// There is no own index before a start.
const NO_INDEX: u32 = 0;

// So many bytes of a content tell that it is too long. A push looks at no more of them, for the sake of speed: else the compiler copies
// pointer and length, which a caller in C has just put on the stack one by one, as one value, and the processor waits for both.
const ENOUGH: usize = 65_536;

// ---- calls on the ring that was opened

// Four functions with bodies of two lines: one for all would take the call as a parameter, and require of it all that the call ensures.

fn start_on(opened: Result<Ring, Refusal>, region: &mut [u8]) -> Result<Packet, RingError>
    ensures answer { answer_of result ≡ (on_ring opened (λ g. start_rule (length region.old) g)).answer }
    ensures region { region.new ≡ wrote region.old (on_ring opened (λ g. start_rule (length region.old) g)).region }
{
    let ring = opened?;
    icmsg::start(region, ring)
}

fn push_on(
    opened: Result<Ring, Refusal>,
    own: u32,
    region: &mut [u8],
    content: &[u8],
) -> Result<Packet, RingError>
    ensures answer { answer_of result ≡ (on_ring opened (λ g. push_rule region.old g own content.now)).answer }
    ensures region { region.new ≡ wrote region.old (on_ring opened (λ g. push_rule region.old g own content.now)).region }
{
    let ring = opened?;
    icmsg::push(region, ring, own, content)
}

fn pull_on(
    opened: Result<Ring, Refusal>,
    own: u32,
    region: &mut [u8],
    buffer: &mut [u8],
) -> Result<Packet, RingError>
    ensures answer { answer_of result ≡ (on_ring opened (λ g. read (pull_rule (length region.old) g own (length buffer.old)) region.old)).answer }
    ensures region { region.new ≡ wrote region.old (on_ring opened (λ g. read (pull_rule (length region.old) g own (length buffer.old)) region.old)).region }
    ensures buffer { buffer.new ≡ wrote buffer.old (on_ring opened (λ g. read (pull_rule (length region.old) g own (length buffer.old)) region.old)).buffer }
{
    let ring = opened?;
    icmsg::pull(region, ring, own, buffer)
}

fn receive_on(
    opened: Result<Ring, Refusal>,
    own: u32,
    region: &mut [u8],
    buffer: &mut [u8],
) -> Result<Packet, RingError>
    ensures answer { answer_of result ≡ (on_ring opened (λ g. read (receive_rule (length region.old) g own (length buffer.old)) region.old)).answer }
    ensures region { region.new ≡ wrote region.old (on_ring opened (λ g. read (receive_rule (length region.old) g own (length buffer.old)) region.old)).region }
    ensures buffer { buffer.new ≡ wrote buffer.old (on_ring opened (λ g. read (receive_rule (length region.old) g own (length buffer.old)) region.old)).buffer }
{
    let ring = opened?;
    icmsg::receive(region, ring, own, buffer)
}

// ---- of an end's region

// Starts the region's ring: both indexes zero, then the packet with the start content. There is no own index before it.
#[unsafe(no_mangle)]
pub extern "C" fn petrelknob_start(
    begin: u32,
    end: u32,
    local: u32,
    remote: u32,
    alignment: u32,
    region: &mut [u8],
    answer: &mut [u32],
) -> u32
    ensures number { result ≡ answer_number (start_call (layout begin end local remote alignment) begin end alignment (length region.old)).answer }
    ensures region { region.new ≡ wrote region.old (start_call (layout begin end local remote alignment) begin end alignment (length region.old)).region }
    ensures numbers { answer.new ≡ answered answer.old (ring_numbers 0 (start_call (layout begin end local remote alignment) begin end alignment (length region.old)).answer) }
{
    let y = region::layout(begin, end, local, remote, alignment);
    let opened = open_ring(y, begin, end, alignment, region.len());
    let a = start_on(opened, region);
    give(answer, NO_INDEX, a)
}

// 1 where content is exactly the start content, else 0.
#[unsafe(no_mangle)]
pub extern "C" fn petrelknob_is_start(content: &[u8]) -> u32
    ensures { result ≡ yes_number (same content.now start_content) }
{
    if icmsg::is_start(content) { 1 } else { 0 }
}

// Puts a packet with the content on the region's ring, at the own write index.
#[unsafe(no_mangle)]
pub extern "C" fn petrelknob_push(
    begin: u32,
    end: u32,
    local: u32,
    remote: u32,
    alignment: u32,
    own: u32,
    region: &mut [u8],
    content: &[u8],
    answer: &mut [u32],
) -> u32
    ensures number { result ≡ answer_number (push_call (layout begin end local remote alignment) begin end alignment own region.old content.now).answer }
    ensures region { region.new ≡ wrote region.old (push_call (layout begin end local remote alignment) begin end alignment own region.old content.now).region }
    ensures numbers { answer.new ≡ answered answer.old (ring_numbers own (push_call (layout begin end local remote alignment) begin end alignment own region.old content.now).answer) }
{
    let y = region::layout(begin, end, local, remote, alignment);
    let opened = open_ring(y, begin, end, alignment, region.len());
    let k = content.len().min(ENOUGH);
    let a = push_on(opened, own, region, &content[..k]);
    give(answer, own, a)
}

// Takes the next packet off the region's ring, at the own read index.
#[unsafe(no_mangle)]
pub extern "C" fn petrelknob_pull(
    begin: u32,
    end: u32,
    local: u32,
    remote: u32,
    alignment: u32,
    own: u32,
    region: &mut [u8],
    buffer: &mut [u8],
    answer: &mut [u32],
) -> u32
    ensures number { result ≡ answer_number (pull_call (layout begin end local remote alignment) begin end alignment own region.old (length buffer.old)).answer }
    ensures region { region.new ≡ wrote region.old (pull_call (layout begin end local remote alignment) begin end alignment own region.old (length buffer.old)).region }
    ensures buffer { buffer.new ≡ wrote buffer.old (pull_call (layout begin end local remote alignment) begin end alignment own region.old (length buffer.old)).buffer }
    ensures numbers { answer.new ≡ answered answer.old (ring_numbers own (pull_call (layout begin end local remote alignment) begin end alignment own region.old (length buffer.old)).answer) }
{
    let y = region::layout(begin, end, local, remote, alignment);
    let opened = open_ring(y, begin, end, alignment, region.len());
    let a = pull_on(opened, own, region, buffer);
    give(answer, own, a)
}

// ---- of a plain unit

// The number of an opening.
#[unsafe(no_mangle)]
pub extern "C" fn petrelknob_unit_open(
    tx_begin: u32,
    tx_end: u32,
    rx_begin: u32,
    rx_end: u32,
    alignment: u32,
) -> u32
    ensures { result ≡ (opening (record { alignment = alignment; tx = record { begin = tx_begin; end = tx_end }; rx = record { begin = rx_begin; end = rx_end } })).number }
{
    let opened = Unit::open(Opening {
        alignment,
        tx: Bounds {
            begin: tx_begin,
            end: tx_end,
        },
        rx: Bounds {
            begin: rx_begin,
            end: rx_end,
        },
    });
    let answer = opened.answer;
    match answer {
        Ok(()) => 0,
        Err(x) => x.number(),
    }
}

// Starts the region's ring.
#[unsafe(no_mangle)]
pub extern "C" fn petrelknob_unit_start(
    begin: u32,
    end: u32,
    alignment: u32,
    region: &mut [u8],
    answer: &mut [u32],
) -> u32
    ensures number { result ≡ answer_number (start_call (plain begin end alignment) begin end alignment (length region.old)).answer }
    ensures region { region.new ≡ wrote region.old (start_call (plain begin end alignment) begin end alignment (length region.old)).region }
    ensures numbers { answer.new ≡ answered answer.old (ring_numbers 0 (start_call (plain begin end alignment) begin end alignment (length region.old)).answer) }
{
    let y = region::plain(begin, end, alignment);
    let opened = open_ring(y, begin, end, alignment, region.len());
    let a = start_on(opened, region);
    give(answer, NO_INDEX, a)
}

// Puts a packet with the content on the region's ring, at the own write index.
#[unsafe(no_mangle)]
pub extern "C" fn petrelknob_unit_push(
    begin: u32,
    end: u32,
    alignment: u32,
    own: u32,
    region: &mut [u8],
    content: &[u8],
    answer: &mut [u32],
) -> u32
    ensures number { result ≡ answer_number (push_call (plain begin end alignment) begin end alignment own region.old content.now).answer }
    ensures region { region.new ≡ wrote region.old (push_call (plain begin end alignment) begin end alignment own region.old content.now).region }
    ensures numbers { answer.new ≡ answered answer.old (ring_numbers own (push_call (plain begin end alignment) begin end alignment own region.old content.now).answer) }
{
    let y = region::plain(begin, end, alignment);
    let opened = open_ring(y, begin, end, alignment, region.len());
    let k = content.len().min(ENOUGH);
    let a = push_on(opened, own, region, &content[..k]);
    give(answer, own, a)
}

// Takes the next packet off the region's ring with all of its content, or leaves it where the buffer is shorter.
#[unsafe(no_mangle)]
pub extern "C" fn petrelknob_unit_receive(
    begin: u32,
    end: u32,
    alignment: u32,
    own: u32,
    region: &mut [u8],
    buffer: &mut [u8],
    answer: &mut [u32],
) -> u32
    ensures number { result ≡ answer_number (receive_call (plain begin end alignment) begin end alignment own region.old (length buffer.old)).answer }
    ensures region { region.new ≡ wrote region.old (receive_call (plain begin end alignment) begin end alignment own region.old (length buffer.old)).region }
    ensures buffer { buffer.new ≡ wrote buffer.old (receive_call (plain begin end alignment) begin end alignment own region.old (length buffer.old)).buffer }
    ensures numbers { answer.new ≡ answered answer.old (ring_numbers own (receive_call (plain begin end alignment) begin end alignment own region.old (length buffer.old)).answer) }
{
    let y = region::plain(begin, end, alignment);
    let opened = open_ring(y, begin, end, alignment, region.len());
    let a = receive_on(opened, own, region, buffer);
    give(answer, own, a)
}

// ---- of sheets

// The place of what it gives: which sheet, the begin in it, and the size.
fn pick_numbers(x: Result<Picked, Refusal>) -> [u32; 3]
    requires { (outcome_of x).begin + (outcome_of x).size ≤ 4096 }
    ensures { result ≡ pick_numbers (outcome_of x) }
{
    match x {
        Ok(Picked::InHand { begin, size }) => [0, begin as u32, size as u32],
        Ok(Picked::InIncoming { begin, size }) => [1, begin as u32, size as u32],
        Err(_) => [0, 0, 0],
    }
}

// The number of a pick, and the place of what it gives.
#[unsafe(no_mangle)]
pub extern "C" fn petrelknob_pick(
    hand: &[u8],
    incoming: &[u8],
    path: &[u8],
    answer: &mut [u32],
) -> u32
    ensures number { result ≡ (pick_of hand.now incoming.now path.now).number }
    ensures values { answer.new ≡ answered answer.old (pick_numbers (pick_of hand.now incoming.now path.now)) }
{
    let picked = sheet::ask_pick(hand, incoming, path);
    let numbers = pick_numbers(picked);
    put_numbers(answer, &numbers);
    Picked::number(picked)
}

// Sheets (docs/RULES.md, H): lists of fields, each a tag byte, a length byte and a value. A sheet that was set by hand comes before an incoming
// one. Nothing is required of a caller: sheets and path may be any bytes.
#![tactic(auto)]

ghost use Rattle.std.specs.Prelude.{◌≡◌, ◌-◌, ◌≤◌, ◌<◌, length};
ghost use Rattle.std.proofs.Math.Seq.{slice};
ghost use Rattle.sheet.specs.Tags.{has_bit, with_bit};
ghost use Rattle.sheet.specs.Sheets.{is_field, is_list, is_sheet, is_path, find as findRule, place_of};
ghost use Rattle.sheet.specs.Picks.{chosen, part_of, begin_of, pick_of, place_in, outcome_of};
ghost use Rattle.sheet.specs.Promises.{Promises};

use refusal::Refusal;

const MOST_BYTES: usize = 4096;

// Lists inside each other: the sheet's own, and four below it.
const MOST_LISTS: u8 = 5;

const MOST_TAGS: usize = 5;

// Tags from here on are groups.
const FIRST_GROUP: usize = 128;

// What a pick finds, and in which sheet.
#[derive(Clone, Copy)]
pub enum Picked {
    InHand { begin: usize, size: usize },
    InIncoming { begin: usize, size: usize },
}

impl Picked {
    // The number of a pick: 0 where the path is found, else the refusal's.
    pub fn number(answer: Result<Picked, Refusal>) -> u32
        ensures { result ≡ (outcome_of answer).number }
    {
        match answer {
            Ok(Picked::InHand { .. }) => 0,
            Ok(Picked::InIncoming { .. }) => 0,
            Err(x) => x.number(),
        }
    }
}

// Where a value lies in a sheet.
#[derive(Clone, Copy)]
struct Span {
    begin: usize,
    size: usize,
}

fn has_bit(word: u64, k: usize) -> bool
    requires { k < 64 }
    ensures { result ≡ has_bit word k }
{
    (word >> k) % 2 == 1
}

fn with_bit(word: u64, k: usize) -> u64
    requires { k < 64 }
    ensures { result ≡ with_bit word k }
{
    word | (1 << k)
}

// Whether the bytes from `from` to e are a list of fields, with at most so many lists inside each other. It is walked once, a `while`, since
// each field says where the next begins; a bit for each tag says whether it was seen. The bits are words by hand: a set would take the heap.
#[cycle(is_field_is_list)]
fn is_list(s: &[u8], from: usize, e: usize, lists: u8) -> bool
    requires { (from ≤ e) × (e ≤ length s.now) }
    ensures { result ≡ is_list lists (slice from e s.now) }
{
    if lists == 0 {
        return false;
    }
    let mut seen = [0u64; 4];
    let mut p = from;
    while p < e {
        if e - p < 2 {
            return false;
        }
        let tag = usize::from(s[p]);
        let size = usize::from(s[p + 1]);
        let i = tag / 64;
        let word = seen[i];
        if has_bit(word, tag % 64) {
            return false;
        }
        let more = with_bit(word, tag % 64);
        seen[i] = more;
        if !is_field(s, tag, p + 2, size, e, lists) {
            return false;
        }
        p = p + 2 + size;
    }
    true
}

// Whether a field of that tag, whose value is to take `size` bytes from `begin` on, ends by e and, where it is a group, holds a list.
#[cycle(is_field_is_list)]
fn is_field(s: &[u8], tag: usize, begin: usize, size: usize, e: usize, lists: u8) -> bool
    requires { (1 ≤ lists) × ((begin ≤ e) × (e ≤ length s.now)) }
    ensures { result ≡ is_field (is_list (lists - 1)) tag size (slice begin e s.now) }
{
    if e - begin < size {
        return false;
    }
    if tag < FIRST_GROUP {
        return true;
    }
    is_list(s, begin, begin + size, lists - 1)
}

// Whether a sheet is well formed.
pub fn is_sheet(s: &[u8]) -> bool
    ensures { result ≡ is_sheet s.now }
{
    if MOST_BYTES < s.len() {
        return false;
    }
    is_list(s, 0, s.len(), MOST_LISTS)
}

// The value of the first field from `from` to e that has the tag. A `while`, since each field says where the next begins.
fn find(s: &[u8], tag: u8, from: usize, e: usize) -> Option<Span>
    requires { (from ≤ e) × (e ≤ length s.now) }
    ensures { result ≡ place_in (findRule tag from 0 (slice from e s.now)) }
{
    let mut p = from;
    while 2 <= e - p {
        let begin = p + 2;
        let size = usize::from(s[p + 1]);
        if e - begin < size {
            return None;
        }
        if s[p] == tag {
            return Some(Span { begin, size });
        }
        p = begin + size;
    }
    None
}

// Where a path leads in a sheet.
fn lookup(s: &[u8], path: &[u8]) -> Option<Span>
    ensures { result ≡ place_in (place_of s.now path.now) }
{
    let mut at = Span {
        begin: 0,
        size: s.len(),
    };
    for &tag in path {
        at = find(s, tag, at.begin, at.begin + at.size)?;
    }
    Some(at)
}

// Whether a path has one to five tags, all groups but the last.
fn is_path(path: &[u8]) -> bool
    ensures { result ≡ is_path path.now }
{
    let n = path.len();
    if n == 0 || MOST_TAGS < n {
        return false;
    }
    path[..n - 1]
        .iter()
        .all(|&tag| FIRST_GROUP <= usize::from(tag))
}

// Where the path's value lies: in the hand-set sheet if the path is there, else in the incoming one. Both are judged before.
pub fn ask_pick(hand: &[u8], incoming: &[u8], path: &[u8]) -> Result<Picked, Refusal>
    ensures { outcome_of result ≡ pick_of hand.now incoming.now path.now }
{
    if !is_path(path) {
        return Err(Refusal::BadPath);
    }
    if !is_sheet(hand) {
        return Err(Refusal::BadHandSheet);
    }
    if !is_sheet(incoming) {
        return Err(Refusal::BadIncomingSheet);
    }
    if let Some(Span { begin, size }) = lookup(hand, path) {
        return Ok(Picked::InHand { begin, size });
    }
    match lookup(incoming, path) {
        Some(Span { begin, size }) => Ok(Picked::InIncoming { begin, size }),
        None => Err(Refusal::NotFound),
    }
}

// The path's value, as part of the sheet in which it lies. On a refusal, whose number `ask_pick` has, the empty part of the hand-set sheet.
pub fn pick<'a>(hand: &'a [u8], incoming: &'a [u8], path: &[u8]) -> &'a [u8]
    ensures bytes { result.now ≡ part_of (pick_of hand.now incoming.now path.now) hand.now incoming.now }
    ensures memory { result.ref_ptr.0 ≡ chosen (pick_of hand.now incoming.now path.now) hand.entry.ref_ptr.0 incoming.entry.ref_ptr.0 }
    ensures begin { result.ref_ptr.1 ≡ begin_of (pick_of hand.now incoming.now path.now) hand.entry.ref_ptr.1 incoming.entry.ref_ptr.1 }
    ensures promises { Promises }
{
    match ask_pick(hand, incoming, path) {
        Err(_) => &hand[0..0],
        Ok(Picked::InHand { begin, size }) => {
            let end = begin + size;
            &hand[begin..end]
        }
        Ok(Picked::InIncoming { begin, size }) => {
            let end = begin + size;
            &incoming[begin..end]
        }
    }
}

// Two tables of blocks, one behind the other in one array of bytes, so that a call can be lent both at once. A table, the bytes from its base
// on, is a bit for each of at most 256 blocks, and six bytes for each block that count only where a run starts. It is changed in place, and it
// is the same for both directions.
#![tactic(auto)]

ghost use Rattle.std.specs.Prelude.{◌≡◌, ◌+◌, ◌≤◌, ◌<◌, ◌^◌, length, replicate};
ghost use Rattle.blocks.specs.Tables.{free_entry, starts as startsRule, starts_data, holds_length, IsRun, all_free, free_blocks, freed, taken, free_run, search_of, FoundBelow};
ghost use Rattle.blocks.specs.OnePass.{OnePass};
ghost use Rattle.blocks.specs.WellFormed.{block_kind, leading};
ghost use Rattle.tables.specs.Compact.{bits_at, Kept, held_at, entry_at, use_of, state_of, table_of, IsMask, IsPut, Marked, Cleared, Changed};

use blocks::{Entry, Use};

// The blocks of a table: as many as a region has at most.
const ENTRIES: usize = blocks::BLOCKS;

// Where the six bytes of the blocks begin, behind the bits: the state, 0 for none; the address; the count less one; the length, its lowest
// byte first.
const STATE: usize = ENTRIES / 8;

const ADDRESS: usize = STATE + ENTRIES;

const COUNT: usize = ADDRESS + ENTRIES;

const LOW: usize = COUNT + ENTRIES;

const MIDDLE: usize = LOW + ENTRIES;

const HIGH: usize = MIDDLE + ENTRIES;

// The bytes of a table.
const TABLE: usize = HIGH + ENTRIES;

// The bytes of both tables.
pub const BYTES: usize = 2 * TABLE;

// Where a table begins in the bytes of both.
#[derive(Clone, Copy)]
pub struct Base {
    pub at: usize,
    ghost inside: { at ≤ 1568 },
}

// The table of the blocks that are sent, and that of those that are received.
pub const SENT: Base = Base { at: 0 };

pub const HELD: Base = Base { at: TABLE };

// Both tables with every block free. They are to take 3,200 bytes at most.
pub fn fresh() -> [u8; BYTES]
    ensures size { length result ≤ 3200 }
    ensures sent { table_of result 0 ≡ replicate 256 free_entry }
    ensures held { table_of result 1568 ≡ replicate 256 free_entry }
{
    [0; BYTES]
}

// The state byte of a run in use u: the numbers are those of the bytes that tables are kept in (specs/Compact).
fn state_of(u: Use) -> u8
    ensures { result ≡ state_of u }
{
    match u {
        Use::Free => 0,
        Use::Inside => 0,
        Use::Reserved => 1,
        Use::SentData => 2,
        Use::SentBinding => 3,
        Use::ReceivedData => 4,
        Use::StoredBinding => 5,
    }
}

// The use that a run's state byte says.
fn use_of(state: u8) -> Use
    ensures { result ≡ use_of state }
{
    match state {
        1 => Use::Reserved,
        2 => Use::SentData,
        3 => Use::SentBinding,
        4 => Use::ReceivedData,
        _ => Use::StoredBinding,
    }
}

// The bits of block i's byte from its own on, which is the lowest. An empty run may begin behind the last block.
fn bits_at(t: &[u8; BYTES], base: Base, i: usize) -> u8
    requires { i ≤ 256 }
    ensures { result ≡ bits_at t.now base.at i }
{
    t[base.at + i / 8] >> (i % 8)
}

// The same for a search from block to block, which keeps what it has not looked at of a byte: each byte is read once for its eight blocks.
fn next_bits(t: &[u8; BYTES], base: Base, i: usize, kept: u8) -> u8
    requires { (i < 256) × Kept t.now base.at i kept }
    ensures { result ≡ bits_at t.now base.at i }
{
    if i % 8 == 0 { t[base.at + i / 8] } else { kept }
}

// Whether block i is held.
fn is_held(t: &[u8; BYTES], base: Base, i: usize) -> bool
    requires { i < 256 }
    ensures { result ≡ held_at t.now base.at i }
{
    bits_at(t, base, i) % 2 == 1
}

// The entry of block i.
pub fn entry_at(t: &[u8; BYTES], base: Base, i: usize) -> Entry
    requires { i < 256 }
    ensures { result ≡ entry_at t.now base.at i }
{
    if !is_held(t, base, i) {
        return blocks::FREE;
    }
    let base = base.at;
    let state = t[base + STATE + i];
    if state == 0 {
        return blocks::INSIDE;
    }
    let usage = use_of(state);
    let address = t[base + ADDRESS + i];
    let count = u16::from(t[base + COUNT + i]) + 1;
    let length = u32::from(t[base + LOW + i])
        + 256 * u32::from(t[base + MIDDLE + i])
        + 65536 * u32::from(t[base + HIGH + i]);
    Entry {
        usage,
        address,
        count,
        length,
    }
}

// The live run in use u that starts at s.
pub fn run_at(t: &[u8; BYTES], base: Base, u: Use, block_count: u16, s: u32) -> Option<Entry>
    ensures { IsRun result (table_of t.now base.at) s (startsRule u block_count (table_of t.now base.at) s) }
{
    if region::MAX_BLOCKS <= s {
        return None;
    }
    let x = entry_at(t, base, s as usize);
    blocks::starts(u, block_count, x, s).then_some(x)
}

// Whether the run's blocks, of `block_size` bytes each, hold its header and its length.
fn holds_length(block_size: u32, x: Entry) -> bool
    ensures { result ≡ holds_length block_size x }
{
    u64::from(x.length) + 4 <= u64::from(x.count) * u64::from(block_size)
}

// The received data that starts at s, in blocks of `block_size` bytes. What its run does not hold is none.
pub fn data_at(
    t: &[u8; BYTES],
    base: Base,
    block_count: u16,
    block_size: u32,
    s: u32,
) -> Option<Entry>
    ensures { IsRun result (table_of t.now base.at) s (starts_data block_count block_size (table_of t.now base.at) s) }
{
    let x = run_at(t, base, Use::ReceivedData, block_count, s)?;
    holds_length(block_size, x).then_some(x)
}

// What a search found, and in how many turns: each turn looks at one block.
#[derive(Clone, Copy)]
pub struct Searched {
    pub found: Option<usize>,
    pub turns: usize,
}

// The search for the lowest run of n free blocks among the first `block_count`, in one pass. `run` free ones lie before block i, whose bit is
// that of m. At a held block it goes on just behind it. The bit is rotated from block to block, which is quicker than moving the byte. It
// counts its blocks by hand, since wrong programs of must-fail (search_goes_back_.., search_looks_at_a_held_block_twice) set i back.
pub fn search(t: &[u8; BYTES], base: Base, block_count: u16, n: usize) -> Searched
    requires { (block_count ≤ 256) × (1 ≤ n) }
    ensures { OnePass block_count (table_of t.now base.at) n (search_of result.found) result.turns }
{
    let base = base.at;
    let all = usize::from(block_count);
    let mut m: u8 = 1;
    let mut run: usize = 0;
    let mut turns: usize = 0;
    let mut i: usize = 0;
    while i < all {
        let held = t[base + i / 8] & m;
        turns += 1;
        i += 1;
        if held == 0 {
            run += 1;
            if run == n {
                let start = i - n;
                return Searched {
                    found: Some(start),
                    turns,
                };
            }
        } else {
            run = 0;
        }
        m = m.rotate_left(1);
    }
    Searched { found: None, turns }
}

// The run alone: a reserve has no use for the turns, and the compiler drops their count.
pub fn lowest_run(t: &[u8; BYTES], base: Base, block_count: u16, n: usize) -> Option<usize>
    requires { (block_count ≤ 256) × (1 ≤ n) }
    ensures { (search_of result ≡ free_run block_count (table_of t.now base.at) n) × FoundBelow result n block_count }
{
    search(t, base, block_count, n).found
}

// Whether n blocks from s on are free.
pub fn all_free(t: &[u8; BYTES], base: Base, s: usize, n: usize) -> bool
    requires { s + n ≤ 256 }
    ensures { result ≡ all_free (table_of t.now base.at) s n }
{
    let mut bits = bits_at(t, base, s);
    for i in s..s + n {
        bits = next_bits(t, base, i, bits);
        if bits % 2 == 1 {
            return false;
        }
        bits /= 2;
    }
    true
}

// How many of the first `block_count` blocks are free.
pub fn free_blocks(t: &[u8; BYTES], base: Base, block_count: u16) -> u32
    ensures { result ≡ free_blocks block_count (table_of t.now base.at) }
{
    let end = usize::from(block_count).min(ENTRIES);
    let mut bits: u8 = 0;
    let mut free: u32 = 0;
    for i in 0..end {
        bits = next_bits(t, base, i, bits);
        if bits % 2 == 0 {
            free += 1;
        }
        bits /= 2;
    }
    free
}

// The byte whose bits from `low` on, as far as `high`, are set.
fn mask(low: usize, high: usize) -> u8
    requires { (low ≤ high) × (high ≤ 8) }
    ensures { IsMask low high result }
{
    ((1u32 << high) - (1u32 << low)) as u8
}

// The byte b with the bits of m made 1, or 0.
fn put(b: u8, m: u8, held: bool) -> u8
    ensures { IsPut b m held result }
{
    if held { b | m } else { (b | m) ^ m }
}

// Makes the bits of n blocks from s on 1, or 0, a byte at a time: no count by one, so a `while`.
fn mark(t: &mut [u8; BYTES], base: Base, s: usize, n: usize, held: bool)
    requires { s + n ≤ 256 }
    ensures { Marked held base.at s (s + n) t.old t.new }
{
    let base = base.at;
    let end = s + n;
    let mut i = s;
    while i < end {
        let j = i / 8;
        let high = (end - 8 * j).min(8);
        let m = mask(i % 8, high);
        let b = t[base + j];
        t[base + j] = put(b, m, held);
        i = 8 * j + high;
    }
}

// Frees n blocks from s on.
pub fn free_run(t: &mut [u8; BYTES], base: Base, s: usize, n: usize)
    requires { s + n ≤ 256 }
    ensures { Changed t.old t.new base.at (freed (table_of t.old base.at) s n) }
{
    mark(t, base, s, n, false);
}

// Makes n blocks from s on a run in use u. The start's state is stored, so only those behind it are cleared: none for one block.
pub fn take_run(t: &mut [u8; BYTES], base: Base, u: Use, s: usize, n: usize, address: u8, k: u32)
    requires { (1 ≤ n) × (s + n ≤ 256) × (k < 2 ^ 24) × (block_kind u ≡ leading) }
    ensures { Changed t.old t.new base.at (taken (table_of t.old base.at) u s n address k) }
{
    mark(t, base, s, n, true);
    let base = base.at;
    let [low, middle, high, _] = k.to_le_bytes();
    t[base + STATE + s + 1..base + STATE + s + n].fill(0);
    t[base + STATE + s] = state_of(u);
    t[base + ADDRESS + s] = address;
    t[base + COUNT + s] = (n - 1) as u8;
    t[base + LOW + s] = low;
    t[base + MIDDLE + s] = middle;
    t[base + HIGH + s] = high;
}

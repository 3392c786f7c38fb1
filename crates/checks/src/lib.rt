// What a call decides before it changes anything: each function here looks at an end's parts, and answers the refusal, or what the call
// needs to go on. Nothing is read twice.
#![tactic(auto)]

pub mod arrivals;
pub mod registrations;

ghost use Rattle.std.specs.Prelude.{◌&&◌, ◌≡◌, ◌≤◌, eqb};
ghost use Rattle.refusal.specs.Numbers.{number_of};
ghost use Rattle.blocks.specs.Search.{all};
ghost use Rattle.blocks.specs.Tables.{entry, starts, starts_data};
ghost use Rattle.tables.specs.Compact.{table_of};
ghost use Rattle.icbmsg.specs.Ends.{sound_region, open_numbers};
ghost use Rattle.checks.specs.Decisions.{RunAs, FitAs, ReservesAs, Sends};

use blocks::{Entry, Use};
use endpoints::Endpoint;
use icbmsg::{Numbers, Region};
use refusal::Refusal;
use tables::Base;

// The limits of an end's regions.
const MAX_ALIGNMENT: u16 = region::MAX_ALIGNMENT as u16;

const MAX_BYTES: usize = region::MAX_BYTES as usize;

const MAX_BLOCKS: usize = region::MAX_BLOCKS as usize;

// Where the blocks of a message lie that is to be written, and how many they are.
#[derive(Clone, Copy)]
pub struct Blocks {
    pub start: usize,
    pub count: usize,
}

// A send: the address as a byte, how many blocks the reservation has, and how many the message needs.
#[derive(Clone, Copy)]
pub struct Sending {
    pub address: u8,
    pub held: usize,
    pub count: usize,
}

// ---- an end's numbers

// Whether header, ring data and blocks of a region at alignment a lie one behind the other inside the region's bytes.
fn is_sound(a: u16, g: Region) -> bool
    ensures { result ≡ all (sound_region a g) }
{
    let alignment = a as usize;
    let ring_offset = g.ring_offset as usize;
    let data_length = g.data_length as usize;
    let blocks_offset = g.blocks_offset as usize;
    let length = g.length as usize;
    let block_size = g.block_size as usize;
    let block_count = g.block_count as usize;
    (32 <= data_length)
        & ((data_length % 4 == 0)
            & ((ring_offset + (alignment + 4) + data_length <= blocks_offset)
                & ((blocks_offset + block_count * block_size <= length)
                    & ((length <= MAX_BYTES)
                        & ((1 <= block_count)
                            & ((block_count <= MAX_BLOCKS) & (4 <= block_size)))))))
}

// Whether the numbers are those of an open end.
pub fn is_open(n: Numbers) -> bool
    ensures { result ≡ open_numbers n.alignment n.tx n.rx n.write n.read }
{
    let a = n.alignment;
    (4 <= a)
        & ((a <= MAX_ALIGNMENT)
            & ((a % 4 == 0)
                & (icmsg::in_rule(n.tx.data_length, n.write)
                    & (icmsg::in_rule(n.rx.data_length, n.read)
                        & (is_sound(a, n.tx) & is_sound(a, n.rx))))))
}

// Whether they are, and the region g is lent whole.
pub fn is_whole(n: Numbers, g: Region, lent: usize) -> bool
    ensures { result ≡ (open_numbers n.alignment n.tx n.rx n.write n.read && eqb lent g.length) }
{
    is_open(n) & (lent == g.length as usize)
}

// ---- runs

// The first entry of the live run in use u that starts at s, behind a check that has passed, or not. The check comes in as a flag, so that its
// refusal and 25 are one function with one proof for the five calls that have both.
pub fn live(
    passed: bool,
    otherwise: Refusal,
    t: &[u8; tables::BYTES],
    base: Base,
    u: Use,
    block_count: u16,
    s: u32,
) -> Result<Entry, Refusal>
    ensures { RunAs result (number_of otherwise) passed (starts u block_count (table_of t.now base.at) s) (entry (table_of t.now base.at) s) }
{
    if !passed {
        return Err(otherwise);
    }
    tables::run_at(t, base, u, block_count, s).ok_or(Refusal::NoMessage)
}

// The received data that starts at s, behind such a check.
pub fn received(passed: bool, t: &[u8; tables::BYTES], g: Region, s: u32) -> Result<Entry, Refusal>
    ensures { RunAs result 6 passed (starts_data g.block_count g.block_size (table_of t.now 1568) s) (entry (table_of t.now 1568) s) }
{
    if !passed {
        return Err(Refusal::WrongRegion);
    }
    tables::data_at(t, tables::HELD, g.block_count, g.block_size, s).ok_or(Refusal::NoMessage)
}

// ---- messages that are written

// The lowest blocks of the region g that hold k bytes: checks 23 and 24.
pub fn fit(g: Region, t: &[u8; tables::BYTES], k: u32) -> Result<Blocks, Refusal>
    requires { (1 ≤ g.block_size) × (g.block_count ≤ 256) }
    ensures { FitAs result g (table_of t.now 0) k }
{
    let count = blocks::least_blocks(g.block_size, k);
    if (g.block_count as usize) < count {
        return Err(Refusal::CannotFit);
    }
    let start = tables::lowest_run(t, tables::SENT, g.block_count, count).ok_or(Refusal::NoRoom)?;
    Ok(Blocks { start, count })
}

// The blocks of a reservation of k bytes.
pub fn reservation(n: Numbers, t: &[u8; tables::BYTES], k: u32) -> Result<Blocks, Refusal>
    ensures { ReservesAs result n t.now k }
{
    if !is_open(n) {
        return Err(Refusal::WrongRegion);
    }
    fit(n.tx, t, k)
}

// What a send of k bytes of the reservation at s needs: checks 6, 25, 15 and 23.
pub fn send(
    n: Numbers,
    t: &[u8; tables::BYTES],
    endpoints: &[Endpoint; endpoints::PLACES],
    lent: usize,
    s: u32,
    address: u32,
    k: u32,
) -> Result<Sending, Refusal>
    ensures { Sends result n t.now endpoints.now lent s address k }
{
    let whole = is_whole(n, n.tx, lent);
    let reserved = live(
        whole,
        Refusal::WrongRegion,
        t,
        tables::SENT,
        Use::Reserved,
        n.tx.block_count,
        s,
    )?;
    let address = endpoints::find_addressee(endpoints, address).ok_or(Refusal::NotBound)?;
    let held = reserved.count as usize;
    if held * (n.tx.block_size as usize) < k as usize + 4 {
        return Err(Refusal::CannotFit);
    }
    let count = blocks::least_blocks(n.tx.block_size, k);
    Ok(Sending {
        address,
        held,
        count,
    })
}

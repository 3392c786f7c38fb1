// What an arriving control message is, and what its call needs to go on.
ghost use Rattle.std.specs.Prelude.{true, ◌≡◌, ltb, length};
ghost use Rattle.blocks.specs.Tables.{entry, starts};
ghost use Rattle.blocks.specs.declared.Use.TheVariants.{SentData};
ghost use Rattle.tables.specs.Compact.{table_of};
ghost use Rattle.icbmsg.specs.Ends.{open_numbers};
ghost use Rattle.icbmsg.specs.Arrivals.{decode as decodeRule, size_at};
ghost use Rattle.checks.specs.Parts.{joined};
ghost use Rattle.checks.specs.Measuring.{are_lent, place_number, measured_number, MeasuredAs};
ghost use Rattle.checks.specs.Decisions.{RunAs, Delivers, Releases, BindsAs, PlacedIn, NamedAs};

use crate::{MAX_BLOCKS, MAX_BYTES};
use blocks::{Entry, Use};
use endpoints::{Binding, Endpoint, PLACES};
use icbmsg::{Control, Numbers, Region};
use refusal::Refusal;

const LAST_ADDRESS: u8 = 0xFD;

// Where the zero behind a name stands at the latest.
const NAME_AND_ZERO: usize = endpoints::LONGEST_NAME + 1;

// An arriving message, measured: its length and how many blocks it takes.
#[derive(Clone, Copy)]
pub struct Measured {
    pub length: u32,
    pub count: usize,
}

// A data message that has arrived: the place of the endpoint that it reaches, its length and how many blocks it takes.
#[derive(Clone, Copy)]
pub struct Delivery {
    pub place: usize,
    pub length: u32,
    pub count: usize,
}

// What becomes of an arriving binding: a waiting endpoint is bound, or it is stored, each at its place.
#[derive(Clone, Copy)]
pub enum Binds {
    Waiting(usize),
    Stored(usize),
}

// An arriving binding: what becomes of it, how many blocks it takes, and its name as it is kept.
#[derive(Clone, Copy)]
pub struct Named {
    pub binds: Binds,
    pub count: usize,
    pub name: [u8; 32],
}

// Takes a control message apart. One that is too short or of an unknown kind is a Control too and no Err, since the rules speak of both
// (`arrival_reads`, `arrival_change` and `completes` of icbmsg/specs).
pub fn decode(message: &[u8]) -> Control
    ensures { result ≡ decodeRule message.now }
{
    if message.len() == 0 {
        return Control::TooShort;
    }
    let kind = message[0];
    if 3 < kind {
        return Control::UnknownKind;
    }
    if message.len() < 3 {
        return Control::TooShort;
    }
    let address = message[1];
    let block = message[2];
    match kind {
        0 => Control::DataSent { address, block },
        1 => Control::DataReleased(block),
        2 => Control::BindingSent { address, block },
        _ => Control::BindingReleased { address, block },
    }
}

// Whether the region's blocks, at most 256 and of 4 bytes at least, lie in n bytes.
fn are_lent(n: usize, g: Region) -> bool
    ensures { result ≡ are_lent n g }
{
    let block_size = g.block_size as usize;
    let block_count = g.block_count as usize;
    let blocks_offset = g.blocks_offset as usize;
    (4 <= block_size)
        & ((block_count <= MAX_BLOCKS)
            & ((blocks_offset + block_count * block_size <= n) & (n <= MAX_BYTES)))
}

// Measures the message in receive block b: checks 6, 16, 17 and 18. Its size is read here, and nowhere again.
fn measure(rx: &[u8], g: Region, t: &[u8; tables::BYTES], b: u8) -> Result<Measured, Refusal>
    ensures number { measured_number result ≡ place_number (length rx.now) g (table_of t.now 1568) b (size_at g b rx.now) }
    ensures size { MeasuredAs result g b (size_at g b rx.now) }
{
    if !are_lent(rx.len(), g) {
        return Err(Refusal::WrongRegion);
    }
    let s = b as usize;
    let block_count = g.block_count as usize;
    let block_size = g.block_size as usize;
    if block_count <= s {
        return Err(Refusal::BadBlock);
    }
    let k = wire::read_u32(rx, g.blocks_offset as usize + s * block_size);
    if (block_count - s) * block_size < k as usize + 4 {
        return Err(Refusal::PastTheLastBlock);
    }
    let n = blocks::least_blocks(g.block_size, k);
    if !tables::all_free(t, tables::HELD, s, n) {
        return Err(Refusal::BlockHeld);
    }
    Ok(Measured {
        length: k,
        count: n,
    })
}

// Kind 0, a data message: checks 14 to 18.
pub fn data_sent(
    n: Numbers,
    t: &[u8; tables::BYTES],
    endpoints: &[Endpoint; PLACES],
    rx: &[u8],
    address: u8,
    block: u8,
) -> Result<Delivery, Refusal>
    requires { (open_numbers n.alignment n.tx n.rx n.write n.read ≡ true) × (length rx.now ≡ n.rx.length) }
    ensures { Delivers result n t.now endpoints.now address block rx.now }
{
    if LAST_ADDRESS < address {
        return Err(Refusal::BadAddress);
    }
    let place = endpoints::find_receiver(endpoints, n.initiator, address).ok_or(Refusal::NotBound)?;
    let Measured { length, count } = measure(rx, n.rx, t, block)?;
    Ok(Delivery {
        place,
        length,
        count,
    })
}

// Kind 1, the release of a data message: checks 16 and 25.
pub fn data_released(n: Numbers, t: &[u8; tables::BYTES], block: u8) -> Result<Entry, Refusal>
    ensures { RunAs result 16 (ltb block n.tx.block_count) (starts SentData n.tx.block_count (table_of t.now 0) block) (entry (table_of t.now 0) block) }
{
    crate::live(
        (block as u16) < n.tx.block_count,
        Refusal::BadBlock,
        t,
        tables::SENT,
        Use::SentData,
        n.tx.block_count,
        block as u32,
    )
}

// Kind 3, the release of a binding: checks 14, 16 and 25.
pub fn binding_released(
    n: Numbers,
    t: &[u8; tables::BYTES],
    address: u8,
    block: u8,
) -> Result<Entry, Refusal>
    ensures { Releases result n t.now address block }
{
    if LAST_ADDRESS < address {
        return Err(Refusal::BadAddress);
    }
    let x = crate::live(
        (block as u16) < n.tx.block_count,
        Refusal::BadBlock,
        t,
        tables::SENT,
        Use::SentBinding,
        n.tx.block_count,
        block as u32,
    )?;
    if x.address != address {
        return Err(Refusal::NoMessage);
    }
    Ok(x)
}

// What becomes of a binding of this padded name, which has n bytes: checks 20, 21 and 22.
fn settle(
    endpoints: &[Endpoint; PLACES],
    bindings: &[Binding; PLACES],
    name: &[u8],
    n: usize,
    address: u8,
) -> Result<Binds, Refusal>
    ensures rule { BindsAs result endpoints.now bindings.now name.now n address }
    ensures placed { PlacedIn result }
{
    if n < 1 {
        return Err(Refusal::BadName);
    }
    let bound = endpoints::clashes(endpoints, address as u32, name);
    let stored = endpoints::stored_clashes(bindings, address, name);
    if bound | stored {
        return Err(Refusal::NameTaken);
    }
    if let Some(i) = endpoints::find_waiting(endpoints, name) {
        return Ok(Binds::Waiting(i));
    }
    let j = endpoints::find_free(bindings).ok_or(Refusal::NoPlace)?;
    Ok(Binds::Stored(j))
}

// Kind 2, a binding: checks 19, 14, 16 to 18, 20 to 22.
pub fn binding_sent(
    n: Numbers,
    t: &[u8; tables::BYTES],
    endpoints: &[Endpoint; PLACES],
    bindings: &[Binding; PLACES],
    rx: &[u8],
    address: u8,
    block: u8,
) -> Result<Named, Refusal>
    requires { (open_numbers n.alignment n.tx n.rx n.write n.read ≡ true) × (length rx.now ≡ n.rx.length) }
    ensures { NamedAs result (joined n t.now endpoints.now bindings.now) address block rx.now }
{
    if n.initiator {
        return Err(Refusal::NotFollower);
    }
    if LAST_ADDRESS < address {
        return Err(Refusal::BadAddress);
    }
    let Measured { length, count } = measure(rx, n.rx, t, block)?;
    let p = n.rx.blocks_offset as usize + block as usize * n.rx.block_size as usize + 4;
    let most = (length as usize).min(NAME_AND_ZERO);
    let m = blocks::framing::name_length(rx, p, most).ok_or(Refusal::BadName)?;
    let name = blocks::framing::padded(rx, p, m);
    let binds = settle(endpoints, bindings, &name, m, address)?;
    Ok(Named { binds, count, name })
}

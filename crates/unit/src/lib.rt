// A plain ICMsg unit (docs/RULES.md, U): both regions are all ring, and packets hold the data itself. Nothing is required of a caller, and a
// unit may be any value: one that no opening gave is refused where its ring does not lie in the slice.
#![tactic(auto)]

ghost use Rattle.std.specs.Prelude.{◌≡◌, length};
ghost use Rattle.wire.specs.Bytes.{wrote};
ghost use Rattle.region.specs.Layout.{plain};
ghost use Rattle.icmsg.specs.Rules.{answer_of};
ghost use Rattle.unit.specs.Opening.{region as regionRule, opening};
ghost use Rattle.unit.specs.Answers.{placed_number, PlacedAs, made_of, opened_of};
ghost use Rattle.unit.specs.Rules.{ring_of, start_of, push_of, receive_of, with_write, with_read};
ghost use Rattle.unit.specs.Promises.{Promises};

use icmsg::{Packet, Ring, RingError};
use refusal::Refusal;

// A region as an opening is given it: its first address, and the address behind its last byte.
#[derive(Clone, Copy)]
pub struct Bounds {
    pub begin: u32,
    pub end: u32,
}

// What an opening is given: the alignment, the region that this unit sends in, and the one that it receives in.
#[derive(Clone, Copy)]
pub struct Opening {
    pub alignment: u32,
    pub tx: Bounds,
    pub rx: Bounds,
}

// A region's numbers: its length in raw bytes, the offset of its ring in them, and the ring's data length.
#[derive(Clone, Copy)]
pub struct Region {
    pub length: u32,
    pub ring_offset: u32,
    pub data_length: u32,
}

// A unit: its alignment, its regions, and its own index in each.
#[derive(Clone, Copy)]
pub struct Unit {
    pub alignment: u32,
    pub tx: Region,
    pub rx: Region,
    pub write: u32,
    pub read: u32,
}

// What an opening answers, and the unit that it makes. It is no Result of a unit: a refused opening gives the closed unit, as the clause
// `answer` of `Unit::open` promises.
#[derive(Clone, Copy)]
pub struct Opened {
    pub answer: Result<(), Refusal>,
    pub unit: Unit,
}

const NO_REGION: Region = Region {
    length: 0,
    ring_offset: 0,
    data_length: 0,
};

// The region's numbers. Its first byte, at the raw begin, is position 0.
fn place(b: Bounds, alignment: u32) -> Result<Region, Refusal>
    ensures number { placed_number result ≡ (plain b.begin b.end alignment).number }
    ensures region { PlacedAs result (regionRule b alignment) }
{
    let y = region::plain(b.begin, b.end, alignment)?;
    Ok(Region {
        length: b.end - b.begin,
        ring_offset: y.begin - b.begin,
        data_length: y.data_length,
    })
}

// The unit of an opening: its transmit region is checked, then its receive region, then that they share no byte.
fn made(o: Opening) -> Result<Unit, Refusal>
    ensures { made_of result ≡ opening o }
{
    let tx = place(o.tx, o.alignment)?;
    let rx = place(o.rx, o.alignment)?;
    let apart = (o.tx.end <= o.rx.begin) | (o.rx.end <= o.tx.begin);
    if !apart {
        return Err(Refusal::Overlap);
    }
    Ok(Unit {
        alignment: o.alignment,
        tx,
        rx,
        write: 0,
        read: 0,
    })
}

fn ring_of(alignment: u32, g: Region) -> Ring
    ensures { result ≡ ring_of alignment g }
{
    Ring {
        offset: g.ring_offset,
        alignment: alignment,
        data_length: g.data_length,
    }
}

impl Unit {
    // What a refused opening gives: it answers 6 to every call.
    const CLOSED: Unit = Unit {
        alignment: 0,
        tx: NO_REGION,
        rx: NO_REGION,
        write: 0,
        read: 0,
    };

    // Opens a unit. What the rules promise for every list of calls from here on is ensured with it.
    pub fn open(o: Opening) -> Opened
        ensures answer { opened_of result ≡ opening o }
        ensures promises { Promises }
    {
        match made(o) {
            Ok(unit) => Opened {
                answer: Ok(()),
                unit,
            },
            Err(x) => Opened {
                answer: Err(x),
                unit: Unit::CLOSED,
            },
        }
    }

    // Writes both indexes of the transmit ring as zero, and puts the start content on it.
    pub fn start(&mut self, tx: &mut [u8]) -> Result<Packet, RingError>
        ensures answer { answer_of result ≡ (start_of self.old (length tx.old)).answer }
        ensures unit { self.new ≡ with_write self.old (start_of self.old (length tx.old)).answer }
        ensures tx { tx.new ≡ wrote tx.old (start_of self.old (length tx.old)).region }
    {
        if tx.len() != self.tx.length as usize {
            return Err(RingError::Refused(Refusal::WrongRegion));
        }
        let answer = icmsg::start(tx, ring_of(self.alignment, self.tx));
        self.write = icmsg::index_after(answer, self.write);
        answer
    }

    // Sends the content, as a packet on the transmit ring.
    pub fn push(&mut self, tx: &mut [u8], content: &[u8]) -> Result<Packet, RingError>
        ensures answer { answer_of result ≡ (push_of self.old tx.old content.now).answer }
        ensures unit { self.new ≡ with_write self.old (push_of self.old tx.old content.now).answer }
        ensures tx { tx.new ≡ wrote tx.old (push_of self.old tx.old content.now).region }
    {
        if tx.len() != self.tx.length as usize {
            return Err(RingError::Refused(Refusal::WrongRegion));
        }
        let answer = icmsg::push(tx, ring_of(self.alignment, self.tx), self.write, content);
        self.write = icmsg::index_after(answer, self.write);
        answer
    }

    // Takes the next packet off the receive ring with all of its content, or leaves it where the buffer is shorter.
    pub fn receive(&mut self, rx: &mut [u8], buffer: &mut [u8]) -> Result<Packet, RingError>
        ensures answer { answer_of result ≡ (receive_of self.old rx.old (length buffer.old)).answer }
        ensures unit { self.new ≡ with_read self.old (receive_of self.old rx.old (length buffer.old)).answer }
        ensures rx { rx.new ≡ wrote rx.old (receive_of self.old rx.old (length buffer.old)).region }
        ensures buffer { buffer.new ≡ wrote buffer.old (receive_of self.old rx.old (length buffer.old)).buffer }
    {
        if rx.len() != self.rx.length as usize {
            return Err(RingError::Refused(Refusal::WrongRegion));
        }
        let answer = icmsg::receive(rx, ring_of(self.alignment, self.rx), self.read, buffer);
        self.read = icmsg::index_after(answer, self.read);
        answer
    }
}

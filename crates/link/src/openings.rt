// Opening an end (docs/RULES.md, O).
ghost use Rattle.std.specs.Prelude.{Ok, ◌≡◌, ◌≤◌, ◌<◌};
ghost use Rattle.refusal.specs.Numbers.{number_of};
ghost use Rattle.region.specs.Layout.{outcome_of as layout_of};
ghost use Rattle.link.specs.Answers.{end_of, outcome_of, opened_as};
ghost use Rattle.link.specs.SameEnds.{SameEnds};
ghost use Rattle.icbmsg.specs.Promises.{Promises};
ghost use Rattle.icbmsg.specs.Opening.{opening, region as regionRule, fresh as freshRule, closed_with};

use crate::{Answer, End, Opened};
use icbmsg::{Bounds, Numbers, Opening, Region};
use refusal::Refusal;
use region::RegionLayout;

const NO_REGION: Region = Region {
    length: 0,
    ring_offset: 0,
    data_length: 0,
    blocks_offset: 0,
    block_count: 0,
    block_size: 0,
};

// The numbers of a region that is laid out so. Its first byte, at the raw begin, is position 0.
fn placed_region(b: Bounds, y: RegionLayout) -> Region
    requires { (b.begin ≤ b.end) × (b.begin ≤ y.begin) × (b.begin ≤ y.blocks_begin) × (b.block_count < 65536) }
    ensures { result ≡ regionRule b (layout_of (Ok y)) }
{
    Region {
        length: b.end - b.begin,
        ring_offset: y.begin - b.begin,
        data_length: y.data_length,
        blocks_offset: y.blocks_begin - b.begin,
        block_count: b.block_count as u16,
        block_size: y.block_size,
    }
}

// The checks of an opening: the transmit region, then the receive region, then that they share no byte.
fn accepted(o: Opening) -> Result<End, Refusal>
    ensures { opened_as result ≡ opening o }
{
    let tx = o.tx;
    let rx = o.rx;
    let t = region::layout(
        tx.begin,
        tx.end,
        tx.block_count,
        rx.block_count,
        o.alignment,
    )?;
    let r = region::layout(
        rx.begin,
        rx.end,
        rx.block_count,
        tx.block_count,
        o.alignment,
    )?;
    let apart = (tx.end <= rx.begin) | (rx.end <= tx.begin);
    if !apart {
        return Err(Refusal::Overlap);
    }
    let initiator = rx.begin < tx.begin;
    Ok(End::fresh(
        initiator,
        o.alignment as u16,
        placed_region(tx, t),
        placed_region(rx, r),
    ))
}

impl End {
    // An end on which nothing has happened yet.
    fn fresh(initiator: bool, alignment: u16, tx: Region, rx: Region) -> End
        ensures { end_of result ≡ freshRule initiator alignment tx rx }
    {
        End {
            numbers: Numbers {
                initiator,
                alignment,
                tx,
                rx,
                write: 0,
                read: 0,
            },
            tables: tables::fresh(),
            endpoints: [endpoints::NO_ENDPOINT; End::ENDPOINTS],
            bindings: [endpoints::NO_BINDING; End::BINDINGS],
        }
    }

    // Opens an end. A refused opening gives a closed end, which answers 6 to every call. What the rules promise for every list of calls from here
    // on is ensured with it, and that the tables' bytes serve such a list as the rules' entries do.
    pub fn open(o: Opening) -> Opened
        ensures answer { outcome_of result ≡ opening o }
        ensures promises { Promises }
        ensures tables { SameEnds }
    {
        match accepted(o) {
            Ok(end) => Opened {
                answer: Ok(Answer::Accepted),
                end,
            },
            Err(x) => Opened {
                answer: Err(x),
                end: End::fresh(false, 0, NO_REGION, NO_REGION),
            },
        }
    }
}

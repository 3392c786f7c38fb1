// Control messages on the transmit ring (docs/RULES.md, P): all or nothing. A message that one announces is written just before it, once the
// ring has been tested. Each answers the own write index behind the packet.
ghost use Rattle.std.specs.Prelude.{◌+◌, ◌≤◌, [], ◌∷◌, ◌++◌, length};
ghost use Rattle.wire.specs.Bytes.{little_endian, straight, writes};
ghost use Rattle.icmsg.specs.Rules.{answer_of};
ghost use Rattle.link.specs.Parts.{HandedAs, HandsOn};

use crate::rings::ring_of;
use icbmsg::Numbers;
use icmsg::{Packet, RingError};
use refusal::Refusal;

// The bytes of a binding's message at most: the header, a name, and its zero.
const LONGEST_BINDING: usize = 36;

// What a push says of a control message. A push drops nothing.
fn of_push(a: Result<Packet, RingError>) -> Result<u32, Refusal>
    ensures { HandedAs result (answer_of a) }
{
    match a {
        Ok(packet) => Ok(packet.index),
        Err(RingError::Refused(x)) => Err(x),
        Err(RingError::Dropped { bytes: _, index: _ }) => Err(Refusal::BrokenPacket),
    }
}

// Pushes a control message alone.
pub fn push_control(n: Numbers, tx: &mut [u8], control: [u8; 3]) -> Result<u32, Refusal>
    ensures { HandsOn result n tx.old [] control tx.new }
{
    let answer = icmsg::push(tx, ring_of(n.alignment, n.tx), n.write, &control);
    of_push(answer)
}

// Writes a message at `at`, and pushes the control message that announces it.
fn announce(
    n: Numbers,
    tx: &mut [u8],
    at: usize,
    message: &[u8],
    control: [u8; 3],
) -> Result<u32, Refusal>
    requires { at + length message.now ≤ length tx.old }
    ensures { HandsOn result n tx.old (writes (straight at) message.now) control tx.new }
{
    let ring = ring_of(n.alignment, n.tx);
    let answer = icmsg::announce(tx, ring, n.write, at, message, &control);
    of_push(answer)
}

// Announces data in the blocks at `at`: its header says k.
pub fn announce_data(
    n: Numbers,
    tx: &mut [u8],
    at: usize,
    k: u32,
    control: [u8; 3],
) -> Result<u32, Refusal>
    requires { at + 4 ≤ length tx.old }
    ensures { HandsOn result n tx.old (writes (straight at) (little_endian 4 k)) control tx.new }
{
    let mut header = [0u8; 4];
    wire::write_u32(&mut header, 0, k);
    announce(n, tx, at, &header, control)
}

// Announces a binding in the blocks at `at`: the header, the name and its zero.
pub fn announce_binding(
    n: Numbers,
    tx: &mut [u8],
    at: usize,
    name: &[u8],
    control: [u8; 3],
) -> Result<u32, Refusal>
    requires { (length name.now ≤ 31) × (at + length name.now + 5 ≤ length tx.old) }
    ensures { HandsOn result n tx.old (writes (straight at) (little_endian 4 (length name.now + 1) ++ name.now ++ (0 ∷ []))) control tx.new }
{
    let mut message = [0u8; LONGEST_BINDING];
    blocks::framing::write_binding(&mut message, 0, name);
    announce(n, tx, at, &message[..name.len() + 5], control)
}

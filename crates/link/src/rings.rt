// The calls on the rings: start, push and pull (docs/RULES.md, R).
ghost use Rattle.std.specs.Prelude.{◌≡◌, length};
ghost use Rattle.wire.specs.Reads.{answer};
ghost use Rattle.icmsg.specs.Rules.{answer_of, answer_number};
ghost use Rattle.icbmsg.specs.Outcome.{without_writes};
ghost use Rattle.link.specs.Answers.{with_numbers, packet_number, packet_given, given_in};
ghost use Rattle.link.specs.Parts.{OnNumbers, Writes};
ghost use Rattle.icbmsg.specs.Rings.{ring_of, start_of, push_rule, pull_rule};

use crate::{End, PacketError};
use icbmsg::Region;
use icmsg::{Packet, Ring, RingError};
use refusal::Refusal;

// The ring of a region.
pub fn ring_of(a: u16, g: Region) -> Ring
    ensures { result ≡ ring_of a g }
{
    Ring {
        offset: g.ring_offset,
        alignment: a as u32,
        data_length: g.data_length,
    }
}

// What a ring's answer tells the caller. The own index is among the numbers.
fn told(a: Result<Packet, RingError>) -> Result<u32, PacketError>
    ensures number { packet_number result ≡ answer_number (answer_of a) }
    ensures given { packet_given result ≡ given_in (answer_of a) }
{
    match a {
        Ok(packet) => Ok(packet.length),
        Err(RingError::Refused(x)) => Err(PacketError::Refused(x)),
        Err(RingError::Dropped { bytes, index: _ }) => Err(PacketError::Dropped(bytes)),
    }
}

impl End {
    // Writes both indexes of the transmit ring as zero, and puts the start content on it.
    pub fn start(&mut self, tx: &mut [u8]) -> Result<u32, PacketError>
        ensures answer { OnNumbers (λ e. without_writes (start_of e (length tx.old))) self.old.numbers result self.new.numbers }
        ensures tx { Writes (λ o. o.tx) (λ e. start_of e (length tx.old)) self.old.numbers tx.old tx.new }
        ensures others { self.new ≡ with_numbers self.old self.new.numbers }
    {
        let n = self.numbers;
        if !checks::is_whole(n, n.tx, tx.len()) {
            return Err(PacketError::Refused(Refusal::WrongRegion));
        }
        let answer = icmsg::start(tx, ring_of(n.alignment, n.tx));
        self.numbers.write = icmsg::index_after(answer, n.write);
        told(answer)
    }

    // Puts a packet with the content on the transmit ring.
    pub fn push(&mut self, tx: &mut [u8], content: &[u8]) -> Result<u32, PacketError>
        ensures answer { OnNumbers (λ e. without_writes (answer (push_rule e (length tx.old) content.now) tx.old)) self.old.numbers result self.new.numbers }
        ensures tx { Writes (λ o. o.tx) (λ e. answer (push_rule e (length tx.old) content.now) tx.old) self.old.numbers tx.old tx.new }
        ensures others { self.new ≡ with_numbers self.old self.new.numbers }
    {
        let n = self.numbers;
        if !checks::is_whole(n, n.tx, tx.len()) {
            return Err(PacketError::Refused(Refusal::WrongRegion));
        }
        let answer = icmsg::push(tx, ring_of(n.alignment, n.tx), n.write, content);
        self.numbers.write = icmsg::index_after(answer, n.write);
        told(answer)
    }

    // Takes the next packet off the receive ring, and copies what fits of its content to the buffer. At a broken packet all that is unread is
    // dropped.
    pub fn pull(&mut self, rx: &mut [u8], buffer: &mut [u8]) -> Result<u32, PacketError>
        ensures answer { OnNumbers (λ e. without_writes (answer (pull_rule e (length rx.old) (length buffer.old)) rx.old)) self.old.numbers result self.new.numbers }
        ensures rx { Writes (λ o. o.rx) (λ e. answer (pull_rule e (length rx.old) (length buffer.old)) rx.old) self.old.numbers rx.old rx.new }
        ensures buffer { Writes (λ o. o.buffer) (λ e. answer (pull_rule e (length rx.old) (length buffer.old)) rx.old) self.old.numbers buffer.old buffer.new }
        ensures others { self.new ≡ with_numbers self.old self.new.numbers }
    {
        let n = self.numbers;
        if !checks::is_whole(n, n.rx, rx.len()) {
            return Err(PacketError::Refused(Refusal::WrongRegion));
        }
        let answer = icmsg::pull(rx, ring_of(n.alignment, n.rx), n.read, buffer);
        self.numbers.read = icmsg::index_after(answer, n.read);
        told(answer)
    }
}

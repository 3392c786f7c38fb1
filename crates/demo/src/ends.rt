// The link at work: what one end answers is carried to the other.
use crate::calls::Memory;
use crate::{calls, pictures, texts};
use link::{Answer, End};
use refusal::Refusal;
use std::mem;

// The two ends, seen from the one that sends: what the last call answered, and the two regions of shared memory, the one that it sends in
// and the one that comes back.
#[derive(Drop)]
pub struct Ends {
    pub answer: Result<Answer, Refusal>,
    pub from: End,
    pub to: End,
    pub region: Memory,
    pub back: Memory,
}

impl Ends {
    pub fn new(from: End, to: End) -> Ends {
        Ends {
            answer: Ok(Answer::Accepted),
            from,
            to,
            region: [0; 2048],
            back: [0; 2048],
        }
    }

    // The blocks of the direction, as the sender's table has them and as the receiver's has them.
    pub fn show(&self, rt: &impl Print) {
        pictures::show(rt, &self.from, &self.to);
    }

    // The direction in which a binding lies: its block is one of the initiator's.
    pub fn show_binding(&self, rt: &impl Print) {
        if self.from.numbers.initiator {
            pictures::show(rt, &self.from, &self.to);
        } else {
            pictures::show(rt, &self.to, &self.from);
        }
    }

    // The other direction: the end that received sends.
    pub fn turn(&mut self) {
        mem::swap(&mut self.from, &mut self.to);
        mem::swap(&mut self.region, &mut self.back);
    }

    // The sender starts its ring, and the receiver pulls the start content.
    pub fn start(&mut self, rt: &impl Print) {
        calls::start(rt, &mut self.from, &mut self.region);
        self.pull(rt);
    }

    // The sender registers an endpoint.
    pub fn register(&mut self, rt: &impl Print, name: &[u8]) {
        self.answer = calls::register(rt, &mut self.from, &mut self.region, name);
        self.show_binding(rt);
    }

    // The sender fills its ring, and the receiver takes off what is on it.
    pub fn fill_ring(&mut self, rt: &impl Print) {
        calls::fill_ring(rt, &mut self.from, &mut self.region);
    }

    pub fn empty_ring(&mut self, rt: &impl Print) {
        calls::empty_ring(rt, &mut self.to, &mut self.region);
    }

    // The sender pushes the answered control message.
    pub fn push(&mut self, rt: &impl Print) {
        if let Ok(
            Answer::Control {
                kind,
                address,
                block,
            },
        ) = self.answer
        {
            let message = [kind, address, block];
            calls::push(rt, &mut self.from, &mut self.region, &message);
        }
    }

    // The receiver pulls, and nothing arrives.
    pub fn pull(&mut self, rt: &impl Print) {
        let mut buffer = [0u8; 16];
        calls::pull(rt, &mut self.to, &mut self.region, &mut buffer);
    }

    // The receiver pulls what was pushed, and it arrives.
    pub fn arrive(&mut self, rt: &impl Print) {
        let mut buffer = [0u8; 16];
        let message = calls::pull(rt, &mut self.to, &mut self.region, &mut buffer);
        self.answer = calls::arrival(rt, &mut self.to, &self.region, message);
    }

    // Reserves the blocks of k bytes.
    pub fn reserve(&mut self, rt: &impl Print, k: u32) {
        self.answer = calls::reserve(rt, &mut self.from, k);
        self.show(rt);
    }

    // Reserves the blocks of k bytes, fills their room with the text, and sends it.
    pub fn send(&mut self, rt: &impl Print, k: u32, text: &[u8]) {
        self.reserve(rt, k);
        if let Ok(Answer::Run { start, .. }) = self.answer {
            self.send_from(rt, start, text);
        }
    }

    // Fills the room of the reservation that starts there, and sends it to the first endpoint.
    pub fn send_from(&mut self, rt: &impl Print, start: u32, text: &[u8]) {
        calls::fill(rt, &self.from, &mut self.region, start, text);
        let k = texts::short(text.len());
        let address = u32::from(self.from.endpoints[0].address);
        self.answer = calls::send(rt, &mut self.from, &mut self.region, start, address, k);
        self.show(rt);
    }

    // The receiver's look at the message that was delivered.
    pub fn view(&self, rt: &impl Print) {
        if let Ok(Answer::Delivered { block, .. }) = self.answer {
            calls::view(rt, &self.to, &self.region, u32::from(block));
        }
    }

    // The receiver takes the announcement off the ring, which shows what became of the blocks, and looks at what was delivered.
    pub fn announce(&mut self, rt: &impl Print) {
        self.arrive(rt);
        self.show(rt);
        self.view(rt);
    }

    // The receiver is done with the message that was delivered, and its release goes back in the receiver's own region.
    pub fn finish(&mut self, rt: &impl Print) {
        let Ok(Answer::Delivered { block, .. }) = self.answer else {
            return;
        };
        self.answer = calls::done(rt, &mut self.to, &mut self.back, u32::from(block));
        self.show(rt);
        self.turn();
        self.arrive(rt);
        self.turn();
        self.show(rt);
    }

    // A message that comes and goes.
    pub fn pass(&mut self, rt: &impl Print, k: u32, text: &[u8]) {
        self.send(rt, k, text);
        self.announce(rt);
        self.finish(rt);
    }
}

// Arriving control messages (docs/RULES.md, A and E).
ghost use Rattle.std.specs.Prelude.{◌≡◌, length};
ghost use Rattle.wire.specs.Reads.{answer as answerTo};
ghost use Rattle.link.specs.Answers.{end_of, answered, IsOpen};
ghost use Rattle.icbmsg.specs.Arrivals.{data_rule, release_of, released_bound_of, bound_rule, arrival_rule};

use crate::{Answer, End};
use blocks::Use;
use checks::arrivals::Binds;
use endpoints::{Binding, Endpoint, Stage};
use icbmsg::Control;
use refusal::Refusal;

impl End {
    // Kind 0: a data message has arrived. The endpoint that it reaches is bound with it, if it was waiting.
    fn data_sent(&mut self, rx: &[u8], address: u8, block: u8) -> Result<Answer, Refusal>
        requires { IsOpen self.old × (length rx.now ≡ self.old.numbers.rx.length) }
        ensures { answered result (end_of self.new) ≡ answerTo (data_rule (end_of self.old) address block) rx.now }
    {
        let delivery = checks::arrivals::data_sent(
            self.numbers,
            &self.tables,
            &self.endpoints,
            rx,
            address,
            block,
        )?;
        let length = delivery.length;
        tables::take_run(
            &mut self.tables,
            tables::HELD,
            Use::ReceivedData,
            block as usize,
            delivery.count,
            address,
            length,
        );
        let place = delivery.place;
        if !self.endpoints[place].is_bound_to(address) {
            endpoints::bind(&mut self.endpoints, place, address);
        }
        Ok(Answer::Delivered {
            address,
            block,
            length,
        })
    }

    // Kind 1: the partner is done with a data message. As many blocks are freed as were recorded when it was sent.
    fn data_released(&mut self, block: u8) -> Result<Answer, Refusal>
        requires { IsOpen self.old }
        ensures { answered result (end_of self.new) ≡ release_of (end_of self.old) block }
    {
        let sent = checks::arrivals::data_released(self.numbers, &self.tables, block)?;
        tables::free_run(
            &mut self.tables,
            tables::SENT,
            block as usize,
            sent.count as usize,
        );
        Ok(Answer::Accepted)
    }

    // Kind 2: the partner has bound an endpoint.
    fn binding_sent(&mut self, rx: &[u8], address: u8, block: u8) -> Result<Answer, Refusal>
        requires { IsOpen self.old × (length rx.now ≡ self.old.numbers.rx.length) }
        ensures { answered result (end_of self.new) ≡ answerTo (bound_rule (end_of self.old) address block) rx.now }
    {
        let named = checks::arrivals::binding_sent(
            self.numbers,
            &self.tables,
            &self.endpoints,
            &self.bindings,
            rx,
            address,
            block,
        )?;
        let name = named.name;
        match named.binds {
            Binds::Waiting(i) => {
                self.endpoints[i] = Endpoint {
                    stage: Stage::Bound,
                    address,
                    name,
                };
                Ok(Answer::Control {
                    kind: 3,
                    address,
                    block,
                })
            }
            Binds::Stored(j) => {
                let count = named.count;
                tables::take_run(
                    &mut self.tables,
                    tables::HELD,
                    Use::StoredBinding,
                    block as usize,
                    count,
                    address,
                    0,
                );
                self.bindings[j] = Binding {
                    stored: true,
                    address,
                    start: block as u16,
                    count: count as u16,
                    name,
                };
                Ok(Answer::Accepted)
            }
        }
    }

    // Kind 3: the partner is done with a binding, and its endpoint is bound, if data has not bound it before.
    fn binding_released(&mut self, address: u8, block: u8) -> Result<Answer, Refusal>
        requires { IsOpen self.old }
        ensures { answered result (end_of self.new) ≡ released_bound_of (end_of self.old) address block }
    {
        let sent = checks::arrivals::binding_released(self.numbers, &self.tables, address, block)?;
        tables::free_run(
            &mut self.tables,
            tables::SENT,
            block as usize,
            sent.count as usize,
        );
        endpoints::bind_waiting(&mut self.endpoints, address);
        Ok(Answer::Accepted)
    }

    // A control message has arrived. Every arrival is lent the whole receive region; only kinds 0 and 2 read in it.
    pub fn arrival(&mut self, rx: &[u8], message: &[u8]) -> Result<Answer, Refusal>
        ensures { answered result (end_of self.new) ≡ answerTo (arrival_rule (end_of self.old) (length rx.now) message.now) rx.now }
    {
        if !checks::is_whole(self.numbers, self.numbers.rx, rx.len()) {
            return Err(Refusal::WrongRegion);
        }
        match checks::arrivals::decode(message) {
            Control::TooShort => Err(Refusal::TooShort),
            Control::UnknownKind => Err(Refusal::UnknownKind),
            Control::DataSent { address, block } => self.data_sent(rx, address, block),
            Control::DataReleased(block) => self.data_released(block),
            Control::BindingSent { address, block } => self.binding_sent(rx, address, block),
            Control::BindingReleased { address, block } => self.binding_released(address, block),
        }
    }
}

// Registering an endpoint (docs/RULES.md, E).
ghost use Rattle.std.specs.Prelude.{true, ◌≡◌, ◌+◌, ◌≤◌, ◌<◌, get_or, length};
ghost use Rattle.wire.specs.Bytes.{wrote};
ghost use Rattle.wire.specs.Reads.{answer};
ghost use Rattle.blocks.specs.Names.{padded_name};
ghost use Rattle.endpoints.specs.Endpoints.{holds, binding_at, no_binding, good_name};
ghost use Rattle.icbmsg.specs.Regions.{block_count};
ghost use Rattle.icbmsg.specs.Outcome.{without_writes};
ghost use Rattle.icbmsg.specs.Registering.{initiates, bound_to_stored, followed, register_rule};
ghost use Rattle.link.specs.Answers.{end_of, answered, IsOpen};
ghost use Rattle.link.specs.Parts.{behind_ring};

use crate::announcements::{announce_binding, push_control};
use crate::{Answer, End};
use blocks::Use;
use endpoints::{Endpoint, Stage};
use refusal::Refusal;

impl End {
    // Sends a binding for the endpoint at place i, kept under this name, which then waits.
    fn initiate(
        &mut self,
        tx: &mut [u8],
        name: &[u8],
        kept: [u8; 32],
        i: usize,
    ) -> Result<Answer, Refusal>
        requires { IsOpen self.old × (length tx.old ≡ self.old.numbers.tx.length) × (good_name 31 name.now ≡ true) × (kept ≡ padded_name name.now) × (i < 8) }
        ensures answer { answered result (end_of self.new) ≡ without_writes (behind_ring (end_of self.old) tx.old (initiates (end_of self.old) name.now i)) }
        ensures tx { tx.new ≡ wrote tx.old (behind_ring (end_of self.old) tx.old (initiates (end_of self.old) name.now i)).tx }
    {
        let n = self.numbers;
        let k = name.len() as u32 + 1;
        let space = checks::fit(n.tx, &self.tables, k)?;
        let start = space.start;
        let address = endpoints::unused_address(&self.endpoints);
        let at = n.tx.blocks_offset as usize + start * n.tx.block_size as usize;
        let block = start as u8;
        self.numbers.write = announce_binding(n, tx, at, name, [2, address, block])?;
        tables::take_run(
            &mut self.tables,
            tables::SENT,
            Use::SentBinding,
            start,
            space.count,
            address,
            k,
        );
        self.endpoints[i] = Endpoint {
            stage: Stage::Waiting,
            address,
            name: kept,
        };
        Ok(Answer::Control {
            kind: 2,
            address,
            block,
        })
    }

    // Binds the endpoint at place i to a stored binding of its name, if there is one; else it waits, and does not look at the ring.
    fn follow(
        &mut self,
        tx: &mut [u8],
        name: &[u8],
        kept: [u8; 32],
        i: usize,
    ) -> Result<Answer, Refusal>
        requires { IsOpen self.old × (kept ≡ padded_name name.now) × (i < 8) }
        ensures answer { answered result (end_of self.new) ≡ without_writes (behind_ring (end_of self.old) tx.old (followed (end_of self.old) name.now i (binding_at (holds (block_count self.old.numbers.rx) name.now) self.old.bindings))) }
        ensures tx { tx.new ≡ wrote tx.old (behind_ring (end_of self.old) tx.old (followed (end_of self.old) name.now i (binding_at (holds (block_count self.old.numbers.rx) name.now) self.old.bindings))).tx }
    {
        match endpoints::find_stored(&self.bindings, self.numbers.rx.block_count, &kept) {
            None => {
                self.endpoints[i] = Endpoint {
                    stage: Stage::Waiting,
                    address: 0,
                    name: kept,
                };
                Ok(Answer::Accepted)
            }
            Some(j) => self.bind_stored(tx, name, kept, i, j),
        }
    }

    // Binds the endpoint at place i to the binding that is stored at place j, which is forgotten.
    fn bind_stored(
        &mut self,
        tx: &mut [u8],
        name: &[u8],
        kept: [u8; 32],
        i: usize,
        j: usize,
    ) -> Result<Answer, Refusal>
        requires { (kept ≡ padded_name name.now) × (i < 8) × (j < 8) × ((get_or self.old.bindings j no_binding).start < 256) × ((get_or self.old.bindings j no_binding).start + (get_or self.old.bindings j no_binding).count ≤ 256) }
        ensures answer { answered result (end_of self.new) ≡ without_writes (behind_ring (end_of self.old) tx.old (bound_to_stored (end_of self.old) name.now i j (get_or self.old.bindings j no_binding))) }
        ensures tx { tx.new ≡ wrote tx.old (behind_ring (end_of self.old) tx.old (bound_to_stored (end_of self.old) name.now i j (get_or self.old.bindings j no_binding))).tx }
    {
        let b = self.bindings[j];
        let address = b.address;
        let start = b.start;
        let block = start as u8;
        self.numbers.write = push_control(self.numbers, tx, [3, address, block])?;
        tables::free_run(
            &mut self.tables,
            tables::HELD,
            start as usize,
            b.count as usize,
        );
        self.endpoints[i] = Endpoint {
            stage: Stage::Bound,
            address,
            name: kept,
        };
        self.bindings[j] = endpoints::NO_BINDING;
        Ok(Answer::Control {
            kind: 3,
            address,
            block,
        })
    }

    // Registers an endpoint by its name, and pushes its binding, or the release of a stored one.
    pub fn register(&mut self, tx: &mut [u8], name: &[u8]) -> Result<Answer, Refusal>
        ensures answer { answered result (end_of self.new) ≡ without_writes (answer (register_rule (end_of self.old) (length tx.old) name.now) tx.old) }
        ensures tx { tx.new ≡ wrote tx.old (answer (register_rule (end_of self.old) (length tx.old) name.now) tx.old).tx }
    {
        let registering = checks::registrations::register(
            self.numbers,
            &self.endpoints,
            tx.len(),
            name,
        )?;
        let kept = registering.name;
        let i = registering.place;
        if self.numbers.initiator {
            self.initiate(tx, name, kept, i)
        } else {
            self.follow(tx, name, kept, i)
        }
    }
}

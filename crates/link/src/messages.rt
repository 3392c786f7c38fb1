// The calls on messages: reserve, room, send, drop, view, done, and the two questions (docs/RULES.md, B and V).
ghost use Rattle.std.specs.Prelude.{◌≡◌, length};
ghost use Rattle.wire.specs.Reads.{answer};
ghost use Rattle.icbmsg.specs.Outcome.{without_writes};
ghost use Rattle.link.specs.Answers.{with_tables, with_push};
ghost use Rattle.link.specs.Parts.{OnTables, PushedOn, WritesTx, PushedOnTables, WritesTxOnTables, AtPlace, PartOf, BeginsAt};
ghost use Rattle.icbmsg.specs.Messages.{reserve_of, room_of, send_rule, drop_of, view_of, done_rule, room_question, view_question};

use crate::announcements::{announce_data, push_control};
use crate::{Answer, End, Place};
use blocks::Use;
use refusal::Refusal;

// Where the room or view of a refusal lies.
const NOWHERE: Place = Place { begin: 0, size: 0 };

impl End {
    // Reserves the blocks of a message of k bytes.
    pub fn reserve(&mut self, k: u32) -> Result<Answer, Refusal>
        ensures answer { OnTables (λ e. reserve_of e k) self.old.numbers self.old.tables result self.new.tables }
        ensures others { self.new ≡ with_tables self.old self.new.tables }
    {
        let space = checks::reservation(self.numbers, &self.tables, k)?;
        tables::take_run(
            &mut self.tables,
            tables::SENT,
            Use::Reserved,
            space.start,
            space.count,
            0,
            0,
        );
        Ok(Answer::Run {
            start: space.start as u32,
            count: space.count as u32,
        })
    }

    // Where the room of a reservation lies, with `lent` bytes lent: after its header, to the end of its last block.
    pub fn room_place(&self, start: u32, lent: usize) -> Result<Place, Refusal>
        ensures { AtPlace (λ e. room_of e lent start) self.now.numbers self.now.tables result }
    {
        let n = self.numbers;
        let whole = checks::is_whole(n, n.tx, lent);
        let reserved = checks::live(
            whole,
            Refusal::WrongRegion,
            &self.tables,
            tables::SENT,
            Use::Reserved,
            n.tx.block_count,
            start,
        )?;
        Ok(Place {
            begin: n.tx.blocks_offset + start * n.tx.block_size + 4,
            size: reserved.count as u32 * n.tx.block_size - 4,
        })
    }

    // The writable part of a reservation, where `room_place` says. Empty on a refusal.
    pub fn room<'a>(&self, tx: &'a mut [u8], start: u32) -> &'a mut [u8]
        ensures bytes { PartOf (λ e. room_of e (length tx.old) start) self.now.numbers self.now.tables tx.old result.now }
        ensures place { (result.ref_ptr.0 ≡ tx.entry.ref_ptr.0) × BeginsAt (λ e. room_of e (length tx.old) start) self.now.numbers self.now.tables tx.entry.ref_ptr.1 result.ref_ptr.1 }
    {
        let place = self.room_place(start, tx.len()).unwrap_or(NOWHERE);
        let begin = place.begin as usize;
        let end = begin + place.size as usize;
        &mut tx[begin..end]
    }

    // Whether `room` would give a room, with `lent` bytes lent.
    pub fn ask_room(&self, start: u32, lent: usize) -> Result<Answer, Refusal>
        ensures { OnTables (λ e. room_question e start lent) self.now.numbers self.now.tables result self.now.tables }
    {
        self.room_place(start, lent)?;
        Ok(Answer::Accepted)
    }

    // Sends the first k bytes of a reservation's room: writes the header, frees the blocks beyond the need, and pushes the announcement.
    pub fn send(
        &mut self,
        tx: &mut [u8],
        start: u32,
        address: u32,
        k: u32,
    ) -> Result<Answer, Refusal>
        ensures answer { PushedOn (λ e. without_writes (answer (send_rule e (length tx.old) start address k) tx.old)) self.old.numbers self.old.tables self.old.endpoints result self.new.numbers.write self.new.tables }
        ensures tx { WritesTx (λ e. answer (send_rule e (length tx.old) start address k) tx.old) self.old.numbers self.old.tables self.old.endpoints tx.old tx.new }
        ensures others { self.new ≡ with_push self.old self.new.numbers.write self.new.tables }
    {
        let n = self.numbers;
        let sending = checks::send(
            n,
            &self.tables,
            &self.endpoints,
            tx.len(),
            start,
            address,
            k,
        )?;
        let address = sending.address;
        let s = start as usize;
        let block = start as u8;
        let at = n.tx.blocks_offset as usize + s * n.tx.block_size as usize;
        self.numbers.write = announce_data(n, tx, at, k, [0, address, block])?;
        tables::free_run(&mut self.tables, tables::SENT, s, sending.held);
        tables::take_run(
            &mut self.tables,
            tables::SENT,
            Use::SentData,
            s,
            sending.count,
            address,
            k,
        );
        Ok(Answer::Control {
            kind: 0,
            address,
            block,
        })
    }

    // Drops a reservation that is not sent.
    pub fn drop(&mut self, start: u32) -> Result<Answer, Refusal>
        ensures answer { OnTables (λ e. drop_of e start) self.old.numbers self.old.tables result self.new.tables }
        ensures others { self.new ≡ with_tables self.old self.new.tables }
    {
        let n = self.numbers;
        let open = checks::is_open(n);
        let reserved = checks::live(
            open,
            Refusal::WrongRegion,
            &self.tables,
            tables::SENT,
            Use::Reserved,
            n.tx.block_count,
            start,
        )?;
        tables::free_run(
            &mut self.tables,
            tables::SENT,
            start as usize,
            reserved.count as usize,
        );
        Ok(Answer::Accepted)
    }

    // Where the bytes of a received data message lie, with `lent` bytes lent: after its header, of the length recorded at its arrival.
    pub fn view_place(&self, start: u32, lent: usize) -> Result<Place, Refusal>
        ensures { AtPlace (λ e. view_of e lent start) self.now.numbers self.now.tables result }
    {
        let n = self.numbers;
        let whole = checks::is_whole(n, n.rx, lent);
        let message = checks::received(whole, &self.tables, n.rx, start)?;
        Ok(Place {
            begin: n.rx.blocks_offset + start * n.rx.block_size + 4,
            size: message.length,
        })
    }

    // The bytes of a received data message, where `view_place` says. Empty on a refusal.
    pub fn view<'a>(&self, rx: &'a [u8], start: u32) -> &'a [u8]
        ensures bytes { PartOf (λ e. view_of e (length rx.now) start) self.now.numbers self.now.tables rx.now result.now }
        ensures place { (result.ref_ptr.0 ≡ rx.entry.ref_ptr.0) × BeginsAt (λ e. view_of e (length rx.now) start) self.now.numbers self.now.tables rx.entry.ref_ptr.1 result.ref_ptr.1 }
    {
        let place = self.view_place(start, rx.len()).unwrap_or(NOWHERE);
        let begin = place.begin as usize;
        let end = begin + place.size as usize;
        &rx[begin..end]
    }

    // Whether `view` would give a message's bytes, with `lent` bytes lent.
    pub fn ask_view(&self, start: u32, lent: usize) -> Result<Answer, Refusal>
        ensures { OnTables (λ e. view_question e start lent) self.now.numbers self.now.tables result self.now.tables }
    {
        self.view_place(start, lent)?;
        Ok(Answer::Accepted)
    }

    // Ends the reading of a received data message: its blocks are free again, and its release is pushed.
    pub fn done(&mut self, tx: &mut [u8], start: u32) -> Result<Answer, Refusal>
        ensures answer { PushedOnTables (λ e. without_writes (answer (done_rule e (length tx.old) start) tx.old)) self.old.numbers self.old.tables result self.new.numbers.write self.new.tables }
        ensures tx { WritesTxOnTables (λ e. answer (done_rule e (length tx.old) start) tx.old) self.old.numbers self.old.tables tx.old tx.new }
        ensures others { self.new ≡ with_push self.old self.new.numbers.write self.new.tables }
    {
        let n = self.numbers;
        let whole = checks::is_whole(n, n.tx, tx.len());
        let message = checks::received(whole, &self.tables, n.rx, start)?;
        let block = start as u8;
        self.numbers.write = push_control(n, tx, [1, 0, block])?;
        tables::free_run(
            &mut self.tables,
            tables::HELD,
            start as usize,
            message.count as usize,
        );
        Ok(Answer::Control {
            kind: 1,
            address: 0,
            block,
        })
    }
}

// The calls on items: put, get, consume, consume until.
ghost use Rattle.std.specs.Prelude.{◌≡◌};
ghost use Rattle.calls.specs.Calls.{put, get, consume, consume_until};
ghost use Rattle.desk.specs.Calls.{came_to, step};

use crate::checks::{owned_by, timestamp_given, which_given};
use crate::{Desk, Next};
use calls::Which;
use rows::refusals::needs;
use rows::{Answer, Refusal, Told};
use tables::columns::{at, hold};
use tables::search::{place_of, seek};

impl Desk {
    pub fn put(mut self, thread: u32, connection: u32, timestamp: u32, ticket: u64) -> Next
        ensures { result ≡ step self (put thread connection timestamp ticket) }
    {
        let answer = Answer::from(self.try_put(thread, connection, timestamp, ticket));
        Next { answer, desk: self }
    }

    pub fn get(mut self, thread: u32, connection: u32, which: Which) -> Next
        ensures { result ≡ step self (get thread connection which) }
    {
        let answer = Answer::from(self.try_get(thread, connection, which));
        Next { answer, desk: self }
    }

    pub fn consume(mut self, thread: u32, connection: u32, timestamp: u32) -> Next
        ensures { result ≡ step self (consume thread connection timestamp) }
    {
        let answer = Answer::from(self.try_consume(thread, connection, timestamp));
        Next { answer, desk: self }
    }

    pub fn consume_until(mut self, thread: u32, connection: u32, timestamp: u32) -> Next
        ensures { result ≡ step self (consume_until thread connection timestamp) }
    {
        let answer = Answer::from(self.try_consume_until(thread, connection, timestamp));
        Next { answer, desk: self }
    }

    fn try_put(
        &mut self,
        thread: u32,
        connection: u32,
        timestamp: u32,
        ticket: u64,
    ) -> Result<Told, Refusal>
        ensures { came_to result self.new ≡ step self.old (put thread connection timestamp ticket) }
    {
        self.thread_lives(thread)?;
        self.connection_owned(thread, connection)?;
        self.connection_writes(connection)?;
        timestamp_given(timestamp)?;
        self.time_visible(thread, timestamp)?;
        self.timestamp_absent(connection, timestamp)?;
        self.item_fits()?;
        let channel = at(&self.leads, connection);
        let place = words::lowest_free(self.present);
        self.present = words::with(self.present, place);
        hold(&mut self.held, channel, place);
        self.timestamps[place as usize] = timestamp;
        self.tickets[place as usize] = ticket;
        Ok(Told { value: 0, time: 0 })
    }

    fn try_get(&mut self, thread: u32, connection: u32, which: Which) -> Result<Told, Refusal>
        ensures { came_to result self.new ≡ step self.old (get thread connection which) }
    {
        self.thread_lives(thread)?;
        self.connection_owned(thread, connection)?;
        self.connection_reads(connection)?;
        which_given(which)?;
        let row = self.seen().connection(connection);
        // 10
        let Some(found) = seek(&self.timestamps, row, which) else {
            return Err(Refusal::NothingUnseen);
        };
        self.opened[connection as usize] = words::with(row.opened, found.place);
        Ok(Told {
            value: at(&self.tickets, found.place),
            time: found.timestamp,
        })
    }

    fn try_consume(&mut self, thread: u32, connection: u32, timestamp: u32) -> Result<Told, Refusal>
        ensures { came_to result self.new ≡ step self.old (consume thread connection timestamp) }
    {
        self.thread_lives(thread)?;
        self.connection_owned(thread, connection)?;
        self.connection_reads(connection)?;
        timestamp_given(timestamp)?;
        let row = self.seen().connection(connection);
        // 11
        let Some(place) = place_of(&self.timestamps, row.items, timestamp) else {
            return Err(Refusal::NotOpen);
        };
        needs(
            row.state_of(timestamp, Some(place)).is_open(),
            Refusal::NotOpen,
        )?;
        self.opened[connection as usize] = words::without(row.opened, place);
        self.consumed[connection as usize] = words::with(row.consumed, place);
        Ok(Told { value: 0, time: 0 })
    }

    fn try_consume_until(
        &mut self,
        thread: u32,
        connection: u32,
        timestamp: u32,
    ) -> Result<Told, Refusal>
        ensures { came_to result self.new ≡ step self.old (consume_until thread connection timestamp) }
    {
        // Columns taken out are asked, and one of them stored whole: why, stands at `Next`.
        let owned = self.owned;
        let mut marks = self.marks;
        self.thread_lives(thread)?;
        owned_by(&owned, thread, connection)?;
        self.connection_reads(connection)?;
        timestamp_given(timestamp)?;
        let mark = at(&marks, connection);
        marks[connection as usize] = mark.max(timestamp + 1);
        self.marks = marks;
        Ok(Told { value: 0, time: 0 })
    }
}

// The calls on connections: attach input, attach output, detach.
ghost use Rattle.std.specs.Prelude.{◌≡◌, is_some};
ghost use Rattle.std.specs.Option.{unwrap_or};
ghost use Rattle.calls.specs.Calls.{attach_input, attach_output, detach};
ghost use Rattle.rows.specs.Answers.{tells};
ghost use Rattle.desk.specs.Calls.{attached_to, came_to, checks, free_connection, outcome, step, unattached};

use crate::checks::place_free;
use crate::{Desk, Next};
use leaving::freed::clear;
use rows::{Answer, Refusal, Told};
use tables::columns::at;

impl Desk {
    pub fn attach_input(mut self, thread: u32, channel: u32) -> Next
        ensures { result ≡ step self (attach_input thread channel) }
    {
        let mark = self.visible(thread);
        let answer = Answer::from(self.try_attach(thread, channel, Some(mark)));
        Next { answer, desk: self }
    }

    pub fn attach_output(mut self, thread: u32, channel: u32) -> Next
        ensures { result ≡ step self (attach_output thread channel) }
    {
        let answer = Answer::from(self.try_attach(thread, channel, None));
        Next { answer, desk: self }
    }

    pub fn detach(mut self, thread: u32, connection: u32) -> Next
        ensures { result ≡ step self (detach thread connection) }
    {
        let answer = Answer::from(self.try_detach(thread, connection));
        Next { answer, desk: self }
    }

    // A new connection in the lowest free place: an input with this mark, or, where none is given, an output.
    fn try_attach(&mut self, thread: u32, channel: u32, mark: Option<u32>) -> Result<Told, Refusal>
        ensures { let given = unwrap_or mark 0 in
            came_to result self.new ≡ outcome self.old (checks self.old (attach_output thread channel)) (tells (free_connection self.old) given) (attached_to self.old (is_some mark) thread channel given) }
    {
        self.thread_lives(thread)?;
        self.channel_exists(channel)?;
        let place = words::lowest_free(words::either(self.inputs, self.outputs));
        place_free(place, Desk::CONNECTIONS)?;
        let own = at(&self.owned, thread);
        self.owned[thread as usize] = words::with(own, place);
        self.leads[place as usize] = channel;
        let time = mark.unwrap_or(0);
        self.marks[place as usize] = time;
        self.inputs = words::with_if(mark.is_some(), self.inputs, place);
        self.outputs = words::with_if(mark.is_none(), self.outputs, place);
        Ok(Told {
            value: place as u64,
            time,
        })
    }

    fn try_detach(&mut self, thread: u32, connection: u32) -> Result<Told, Refusal>
        ensures { came_to result self.new ≡ step self.old (detach thread connection) }
    {
        self.thread_lives(thread)?;
        self.connection_owned(thread, connection)?;
        let own = at(&self.owned, thread);
        let gone = words::with(0, connection);
        self.owned[thread as usize] = words::except(own, gone);
        self.free_connections(gone);
        Ok(Told { value: 0, time: 0 })
    }

    // The places of some connections are free, whose ever they were.
    pub(crate) fn free_connections(&mut self, gone: u64)
        ensures { self.new ≡ unattached self.old gone }
    {
        self.outputs = words::except(self.outputs, gone);
        clear(&mut self.leads, gone);
        self.inputs = words::except(self.inputs, gone);
        clear(&mut self.marks, gone);
        clear(&mut self.opened, gone);
        clear(&mut self.consumed, gone);
    }
}

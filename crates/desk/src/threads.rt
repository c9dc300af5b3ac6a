// The calls on channels and threads: channel, new thread, end, set.
ghost use Rattle.std.specs.Prelude.{◌≡◌};
ghost use Rattle.calls.specs.Calls.{new_channel, new_thread, end, set_time};
ghost use Rattle.desk.specs.Calls.{came_to, step};

use crate::checks::place_free;
use crate::{Desk, Next};
use rows::{Answer, Refusal, Told};
use tables::columns::at;

impl Desk {
    pub fn channel(mut self, thread: u32) -> Next
        ensures { result ≡ step self (new_channel thread) }
    {
        let answer = Answer::from(self.try_channel(thread));
        Next { answer, desk: self }
    }

    pub fn new_thread(mut self, thread: u32, time: u32) -> Next
        ensures { result ≡ step self (new_thread thread time) }
    {
        let answer = Answer::from(self.try_new_thread(thread, time));
        Next { answer, desk: self }
    }

    pub fn end(mut self, thread: u32) -> Next
        ensures { result ≡ step self (end thread) }
    {
        let answer = Answer::from(self.try_end(thread));
        Next { answer, desk: self }
    }

    pub fn set(mut self, thread: u32, time: u32) -> Next
        ensures { result ≡ step self (set_time thread time) }
    {
        let answer = Answer::from(self.try_set(thread, time));
        Next { answer, desk: self }
    }

    fn try_channel(&mut self, thread: u32) -> Result<Told, Refusal>
        ensures { came_to result self.new ≡ step self.old (new_channel thread) }
    {
        self.thread_lives(thread)?;
        let place = words::lowest_free(self.channels);
        place_free(place, Desk::CHANNELS)?;
        self.channels = words::with(self.channels, place);
        Ok(Told {
            value: place as u64,
            time: 0,
        })
    }

    fn try_new_thread(&mut self, thread: u32, time: u32) -> Result<Told, Refusal>
        ensures { came_to result self.new ≡ step self.old (new_thread thread time) }
    {
        // A copy is asked, and one column stored whole: why, stands at `Next`.
        let before = *self;
        self.thread_lives(thread)?;
        before.time_visible(thread, time)?;
        let place = words::lowest_free(self.living);
        place_free(place, Desk::THREADS)?;
        let mut times = self.times;
        times[place as usize] = time;
        self.times = times;
        self.living = words::with(self.living, place);
        Ok(Told {
            value: place as u64,
            time: 0,
        })
    }

    fn try_end(&mut self, thread: u32) -> Result<Told, Refusal>
        ensures { came_to result self.new ≡ step self.old (end thread) }
    {
        self.thread_lives(thread)?;
        let gone = at(&self.owned, thread);
        self.free_connections(gone);
        self.owned[thread as usize] = 0;
        self.times[thread as usize] = 0;
        self.living = words::without(self.living, thread);
        Ok(Told { value: 0, time: 0 })
    }

    fn try_set(&mut self, thread: u32, time: u32) -> Result<Told, Refusal>
        ensures { came_to result self.new ≡ step self.old (set_time thread time) }
    {
        // A copy is asked, and one column stored whole: why, stands at `Next`.
        let before = *self;
        self.thread_lives(thread)?;
        before.time_visible(thread, time)?;
        let mut times = self.times;
        times[thread as usize] = time;
        self.times = times;
        Ok(Told { value: 0, time: 0 })
    }
}

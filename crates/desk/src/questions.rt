// Questions without effect.
ghost use Rattle.std.specs.Prelude.{◌≡◌};
ghost use Rattle.calls.specs.Questions.{ask_visible_time, ask_weak_bound, ask_strong_bound, ask_state_of, ask_items_present};
ghost use Rattle.rows.specs.Answers.{answered};
ghost use Rattle.desk.specs.Questions.{reply};

use crate::Desk;
use crate::checks::timestamp_given;
use calls::Bound;
use rows::{Answer, Refusal, Told};
use tables::search::place_of;

impl Desk {
    pub fn visible_time(&self, thread: u32) -> Answer
        ensures { result ≡ reply self.now (ask_visible_time thread) }
    {
        Answer::from(self.try_visible_time(thread))
    }

    pub fn weak_bound(&self) -> Answer
        ensures { result ≡ reply self.now ask_weak_bound }
    {
        Answer::from(Ok(Told {
            value: 0,
            time: self.bound(Bound::Weak),
        }))
    }

    pub fn strong_bound(&self) -> Answer
        ensures { result ≡ reply self.now ask_strong_bound }
    {
        Answer::from(Ok(Told {
            value: 0,
            time: self.bound(Bound::Strong),
        }))
    }

    pub fn state(&self, connection: u32, timestamp: u32) -> Answer
        ensures { result ≡ reply self.now (ask_state_of connection timestamp) }
    {
        Answer::from(self.try_state(connection, timestamp))
    }

    pub fn items_present(&self) -> Answer
        ensures { result ≡ reply self.now ask_items_present }
    {
        Answer::from(Ok(Told {
            value: words::count(self.present) as u64,
            time: 0,
        }))
    }

    fn try_visible_time(&self, thread: u32) -> Result<Told, Refusal>
        ensures { answered result ≡ reply self.now (ask_visible_time thread) }
    {
        self.thread_lives(thread)?;
        Ok(Told {
            value: 0,
            time: self.visible(thread),
        })
    }

    fn try_state(&self, connection: u32, timestamp: u32) -> Result<Told, Refusal>
        ensures { answered result ≡ reply self.now (ask_state_of connection timestamp) }
    {
        self.connection_exists(connection)?;
        self.connection_reads(connection)?;
        timestamp_given(timestamp)?;
        let row = self.seen().connection(connection);
        let place = place_of(&self.timestamps, row.items, timestamp);
        Ok(Told {
            value: u64::from(row.state_of(timestamp, place)),
            time: 0,
        })
    }
}

// The checks, by their codes. Each call asks for its own in the order of document 01, and the first that fails refuses it.
ghost use Rattle.std.specs.Prelude.{◌≡◌};
ghost use Rattle.rows.specs.Checks.{Checked};
ghost use Rattle.desk.specs.declared.Desk.{Desk};
ghost use Rattle.desk.specs.Calls.{channel_exists, connection_owned, connection_reads, connection_writes, item_fits, place_free, thread_lives, time_visible, timestamp_absent, timestamp_given, which_given};
ghost use Rattle.desk.specs.Questions.{connection_exists};

use crate::Desk;
use calls::Which;
use rows::Refusal;
use rows::refusals::needs;
use tables::columns::{Owned, at};
use tables::places::in_use;
use tables::search::place_of;

impl Desk {
    // 1
    pub(crate) fn thread_lives(&self, thread: u32) -> Result<(), Refusal>
        ensures { Checked (thread_lives self.now thread) result }
    {
        needs(
            in_use(self.living, thread, Desk::THREADS),
            Refusal::NoThread,
        )
    }

    // 2
    pub(crate) fn channel_exists(&self, channel: u32) -> Result<(), Refusal>
        ensures { Checked (channel_exists self.now channel) result }
    {
        needs(
            in_use(self.channels, channel, Desk::CHANNELS),
            Refusal::NoChannel,
        )
    }

    // 3
    pub(crate) fn connection_owned(&self, thread: u32, connection: u32) -> Result<(), Refusal>
        ensures { Checked (connection_owned self.now thread connection) result }
    {
        owned_by(&self.owned, thread, connection)
    }

    // 3, of a question, which names no thread
    pub(crate) fn connection_exists(&self, connection: u32) -> Result<(), Refusal>
        ensures { Checked (connection_exists self.now connection) result }
    {
        let attached = words::either(self.inputs, self.outputs);
        needs(
            in_use(attached, connection, Desk::CONNECTIONS),
            Refusal::NoConnection,
        )
    }

    // 4, one check for each direction, so that a call says which one it needs
    pub(crate) fn connection_reads(&self, connection: u32) -> Result<(), Refusal>
        ensures { Checked (connection_reads self.now connection) result }
    {
        needs(
            in_use(self.inputs, connection, Desk::CONNECTIONS),
            Refusal::OtherDirection,
        )
    }

    pub(crate) fn connection_writes(&self, connection: u32) -> Result<(), Refusal>
        ensures { Checked (connection_writes self.now connection) result }
    {
        needs(
            in_use(self.outputs, connection, Desk::CONNECTIONS),
            Refusal::OtherDirection,
        )
    }

    // 6
    pub(crate) fn time_visible(&self, thread: u32, time: u32) -> Result<(), Refusal>
        ensures { Checked (time_visible self.now thread time) result }
    {
        needs(self.visible(thread) <= time, Refusal::BelowVisibleTime)
    }

    // 7
    pub(crate) fn timestamp_absent(&self, connection: u32, timestamp: u32) -> Result<(), Refusal>
        ensures { Checked (timestamp_absent self.now connection timestamp) result }
    {
        let items = at(&self.held, at(&self.leads, connection));
        let same = place_of(&self.timestamps, items, timestamp);
        needs(same.is_none(), Refusal::AlreadyPresent)
    }

    // 8
    pub(crate) fn item_fits(&self) -> Result<(), Refusal>
        ensures { Checked (item_fits self.now) result }
    {
        needs(words::count(self.present) < Desk::ITEMS, Refusal::ItemsFull)
    }
}

// 3, of the column alone, for a call that takes it out of the desk
pub(crate) fn owned_by(owned: &Owned, thread: u32, connection: u32) -> Result<(), Refusal>
    ensures { (d : Desk) → d.owned ≡ owned.now → Checked (connection_owned d thread connection) result }
{
    let own = at(owned, thread);
    needs(
        in_use(own, connection, Desk::CONNECTIONS),
        Refusal::NoConnection,
    )
}

// 5
pub(crate) fn timestamp_given(timestamp: u32) -> Result<(), Refusal>
    ensures { Checked (timestamp_given timestamp) result }
{
    needs(timestamp < Desk::NEVER, Refusal::NoTimestamp)
}

// 5, of a get: only a named timestamp can be never
pub(crate) fn which_given(which: Which) -> Result<(), Refusal>
    ensures { Checked (which_given which) result }
{
    match which {
        Which::Earliest | Which::Latest => Ok(()),
        Which::Named(timestamp) => timestamp_given(timestamp),
    }
}

// 9
pub(crate) fn place_free(place: u32, places: u32) -> Result<(), Refusal>
    ensures { Checked (place_free place places) result }
{
    needs(place < places, Refusal::TableFull)
}

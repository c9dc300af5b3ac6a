// The desk by value: threads, channels, connections and items as columns of numbers and words of places, and every call on them.
#![tactic(auto)]

ghost use Rattle.std.specs.Prelude.{◌≡◌};
ghost use Rattle.desk.specs.Desk.{SeenOf, fresh};
ghost use Rattle.desk.specs.Calls.{bound_of};
ghost use Rattle.desk.specs.Times.{visible_time};

use calls::Bound;
use rows::Answer;
use tables::columns::{Held, Numbers, Owned, Seen, Tickets, Times, Timestamps, Words, at};
use tables::times::least_time;

mod checks;
mod connections;
mod items;
mod questions;
mod sweeps;
mod threads;

// Each fact stands once. Of threads: virtual times, who is living, whose connections are whose. Of connections: which write, the channel that
// each leads to, which read, their marks and the two facts. Which channels exist. Of items: in which places one lies, which of these each
// channel holds, timestamps and tickets. A host in C sees the columns in this order.
#[repr(C)]
#[derive(Clone, Copy)]
pub struct Desk {
    pub times: Times,
    pub living: u64,
    pub owned: Owned,
    pub outputs: u64,
    pub leads: Numbers,
    pub inputs: u64,
    pub marks: Numbers,
    pub opened: Words,
    pub consumed: Words,
    pub channels: u64,
    pub present: u64,
    pub held: Held,
    pub timestamps: Timestamps,
    pub tickets: Tickets,
}

// The answer to a call, and the desk after it. Each by-value call takes `mut self` and makes it around the call in place: the form that document 01
// names for them. A column that is read or stored to at a place, in place, has the compiler copy the whole desk in and out. So set, new thread
// and consume until take the one column that they change out and put it back whole, and ask a copy, or columns taken out, before.
#[repr(C)]
#[derive(Clone, Copy)]
pub struct Next {
    pub answer: Answer,
    pub desk: Desk,
}

impl Desk {
    pub const NEVER: u32 = rows::times::NEVER;

    pub const LARGEST_TIMESTAMP: u32 = 4294967294;

    pub const THREADS: u32 = rows::sizes::THREADS;

    pub const CHANNELS: u32 = rows::sizes::CHANNELS;

    pub const CONNECTIONS: u32 = rows::sizes::CONNECTIONS;

    pub const ITEMS: u32 = rows::sizes::ITEMS;

    // A fresh desk has thread 0 with virtual time 0 and nothing else.
    pub fn fresh() -> Desk
        ensures { result ≡ fresh }
    {
        Desk {
            times: [0; Desk::THREADS as usize],
            living: 1,
            owned: [0; Desk::THREADS as usize],
            outputs: 0,
            leads: [0; Desk::CONNECTIONS as usize],
            inputs: 0,
            marks: [0; Desk::CONNECTIONS as usize],
            opened: [0; Desk::CONNECTIONS as usize],
            consumed: [0; Desk::CONNECTIONS as usize],
            channels: 0,
            present: 0,
            held: [0; Desk::CHANNELS as usize],
            timestamps: [0; Desk::ITEMS as usize],
            tickets: [0; Desk::ITEMS as usize],
        }
    }

    // The columns that tell what the connections have seen.
    fn seen(&self) -> Seen<'_>
        ensures { SeenOf self.now result }
    {
        Seen {
            leads: &self.leads,
            held: &self.held,
            marks: &self.marks,
            opened: &self.opened,
            consumed: &self.consumed,
            timestamps: &self.timestamps,
        }
    }

    // The smallest of the thread's virtual time and of all timestamps OPEN on its input connections.
    fn visible(&self, thread: u32) -> u32
        ensures { result ≡ visible_time self.now thread }
    {
        let readers = words::both(self.inputs, at(&self.owned, thread));
        let time = at(&self.times, thread);
        self.seen().least_open(readers, time)
    }

    // The bound that a sweep takes.
    fn bound(&self, which: Bound) -> u32
        ensures { result ≡ bound_of self.now which }
    {
        let time = least_time(self.living, &self.times);
        self.seen().least_for(which, self.inputs, time)
    }
}

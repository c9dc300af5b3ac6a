// The parts of visible time and of the two bounds. Each loop goes over the places of a word, lowest first.
ghost use Rattle.std.specs.Prelude.{◌≡◌, List, min, ℕ};
ghost use Rattle.tables.specs.Columns.{at, connection_in, connection_of, connection_places};
ghost use Rattle.words.specs.Words.{word_places};
ghost use Rattle.tables.specs.Times.{least_among, least_awaited, least_for, least_from, least_keep, least_open, least_time};

use crate::columns::{Numbers, Seen, Times, Timestamps, at};
use calls::Bound;
use rows::sizes::{CONNECTIONS, ITEMS};
use rows::times::NEVER;

// The smallest virtual time of the living threads.
pub fn least_time(living: u64, times: &Times) -> u32
    ensures { result ≡ least_time living times.now }
{
    least_among(living, times, NEVER)
}

// The smaller of a time and of the keep times of the input connections.
pub fn least_keep(inputs: u64, time: u32, marks: &Numbers) -> u32
    ensures { result ≡ min time (least_keep inputs (at connection_places marks.now)) }
{
    least_among(inputs, marks, time)
}

// The smaller of a time and of those that a column has in the places of the word.
fn least_among<const N: usize>(word: u64, column: &[u32; N], time: u32) -> u32
    ensures { result ≡ min time (least_among (min N word_places) word (at N column.now)) }
{
    let mut least = time;
    for place in words::places(word, N) {
        least = least.min(at(column, place));
    }
    least
}

// The smaller of a time and of the timestamps in the places that are not below the mark.
fn least_from(timestamps: &Timestamps, places: u64, mark: u32, time: u32) -> u32
    ensures { result ≡ min time (least_from timestamps.now places mark) }
{
    let mut least = time;
    for place in words::places(places, ITEMS as usize) {
        let timestamp = at(timestamps, place);
        if mark <= timestamp {
            least = least.min(timestamp);
        }
    }
    least
}

impl Seen<'_> {
    // The smaller of a time and of the timestamps OPEN on these connections, whatever was consumed by name.
    pub fn least_open(self, readers: u64, time: u32) -> u32
        ensures { let seen = self.entry in (consumed : List ℕ) → result ≡ min time (least_open readers (connection_in seen.leads.now seen.held.now seen.marks.now seen.opened.now consumed) seen.timestamps.now) }
    {
        let mut least = time;
        for connection in words::places(readers, CONNECTIONS as usize) {
            let row = self.connection(connection);
            let open = words::both(row.items, row.opened);
            least = least_from(self.timestamps, open, row.mark, least);
        }
        least
    }

    // The smaller of a time and of the timestamps UNSEEN or OPEN on some input connection. A connection whose mark is not below what was found is
    // passed over.
    pub fn least_awaited(self, inputs: u64, time: u32) -> u32
        ensures { result ≡ min time (least_awaited inputs (connection_of self.entry) self.entry.timestamps.now) }
    {
        let mut least = time;
        for connection in words::places(inputs, CONNECTIONS as usize) {
            let row = self.connection(connection);
            if row.mark < least {
                let awaited = words::except(row.items, words::except(row.consumed, row.opened));
                least = least_from(self.timestamps, awaited, row.mark, least);
            }
        }
        least
    }

    // The smaller of a time and of what the bound is taken over beside the virtual times.
    pub fn least_for(self, which: Bound, inputs: u64, time: u32) -> u32
        ensures { result ≡ min time (least_for which inputs (connection_of self.entry) self.entry.timestamps.now) }
    {
        match which {
            Bound::Weak => least_keep(inputs, time, self.marks),
            Bound::Strong => self.least_awaited(inputs, time),
        }
    }
}

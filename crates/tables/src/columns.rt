// The desk's columns: one number for each place of a table. What stands in a place is read through a reference, so that no column is copied;
// a number past the table reads 0.
ghost use Rattle.std.specs.Prelude.{◌≡◌};
ghost use Rattle.tables.specs.Columns.{at, channel_places, connection_of, reads, set_at};
ghost use Rattle.words.specs.Words.{with};

use rows::Connection;
use rows::sizes::CHANNELS;

// Of threads: the virtual time, and the word of the connections.
pub type Times = [u32; rows::sizes::THREADS as usize];

pub type Owned = [u64; rows::sizes::THREADS as usize];

// Of channels: the word of the places of the items.
pub type Held = [u64; rows::sizes::CHANNELS as usize];

// Of connections: the channel and the mark are numbers, the facts opened and consumed are words.
pub type Numbers = [u32; rows::sizes::CONNECTIONS as usize];

pub type Words = [u64; rows::sizes::CONNECTIONS as usize];

// Of item places: the timestamp and the ticket.
pub type Timestamps = [u32; rows::sizes::ITEMS as usize];

pub type Tickets = [u64; rows::sizes::ITEMS as usize];

// What a column has in its places: numbers, or words. A free place holds zeros only. The library's Default does not say which value it gives, so that no
// clause could name it.
pub trait Zeroed: Copy {
    ghost zero: { Self };

    fn zero() -> Self
        ensures { result ≡ zero };
}

impl Zeroed for u32 {
    ghost zero = { 0 };

    fn zero() -> u32 {
        0
    }
}

impl Zeroed for u64 {
    ghost zero = { 0 };

    fn zero() -> u64 {
        0
    }
}

// What stands in a place of a column.
pub fn at<T: Zeroed + Drop, const N: usize>(column: &[T; N], place: u32) -> T
    ensures { result ≡ reads T.zero N column.now place }
{
    if (place as usize) < N {
        column[place as usize]
    } else {
        T::zero()
    }
}

// The place joins those of the channel; a number past the table names no channel.
pub fn hold(held: &mut Held, channel: u32, place: u32)
    ensures { held.new ≡ set_at channel_places held.old channel (with (at channel_places held.old channel) place) }
{
    if channel < CHANNELS {
        held[channel as usize] = words::with(held[channel as usize], place);
    }
}

// The columns that tell what connections have seen, lent together.
#[derive(Clone, Copy)]
pub struct Seen<'a> {
    pub leads: &'a Numbers,
    pub held: &'a Held,
    pub marks: &'a Numbers,
    pub opened: &'a Words,
    pub consumed: &'a Words,
    pub timestamps: &'a Timestamps,
}

impl Seen<'_> {
    // A connection, read across its columns.
    pub fn connection(self, connection: u32) -> Connection
        ensures { result ≡ connection_of self.entry connection }
    {
        Connection {
            items: at(self.held, at(self.leads, connection)),
            mark: at(self.marks, connection),
            opened: at(self.opened, connection),
            consumed: at(self.consumed, connection),
        }
    }
}

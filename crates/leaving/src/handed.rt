// The tickets that a sweep hands back.
ghost use Rattle.std.specs.Prelude.{◌≡◌};
ghost use Rattle.leaving.specs.Leaving.{first_channel, first_place, handed_back};

use calls::Which;
use rows::sizes::{CHANNELS, ITEMS};
use tables::columns::{Held, Tickets, Timestamps, at};
use tables::search::choose;

// The lowest channel that holds an item in one of the places; the number of channels where none does. An Option would want a branch here and in
// the two below that no call takes, since a ticket is looked for only while items are left.
fn first_channel(held: &Held, places: u64) -> u32
    ensures { result ≡ first_channel held.now places }
{
    for channel in 0..CHANNELS {
        if words::both(at(held, channel), places) != 0 {
            return channel;
        }
    }
    CHANNELS
}

// The place of the first of the items in the places, by channel number, then timestamp; the number of places where there is none.
fn first_place(timestamps: &Timestamps, held: &Held, places: u64) -> u32
    ensures { result ≡ first_place timestamps.now held.now places }
{
    let items = at(held, first_channel(held, places));
    let Some(found) = choose(timestamps, words::both(items, places), 0, Which::Earliest) else {
        return ITEMS;
    };
    found.place
}

// Writes the tickets of the items in the places to the front of the slice, by channel number, then timestamp.
// A slice shorter than their number is left as it was.
pub fn hand_back(
    timestamps: &Timestamps,
    tickets: &Tickets,
    held: &Held,
    gone: u64,
    slice: &mut [u64],
)
    ensures { slice.new ≡ handed_back timestamps.now tickets.now held.now gone slice.old }
{
    let n = words::count(gone) as usize;
    if n > slice.len() {
        return;
    }
    let mut places = gone;
    for i in 0..n {
        let place = first_place(timestamps, held, places);
        slice[i] = at(tickets, place);
        places = words::without(places, place);
    }
}

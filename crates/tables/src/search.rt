// Searches through the items in the places of a word.
ghost use Rattle.std.specs.Prelude.{◌≡◌};
ghost use Rattle.tables.specs.Seen.{place_if_any, place_of};
ghost use Rattle.tables.specs.Search.{chosen_from, is_wanted, sought};

use crate::columns::{Timestamps, at};
use calls::Which;
use rows::choices::or_taken;
use rows::sizes::ITEMS;
use rows::{Connection, Found};

// Where among the places the item with the timestamp lies, if one does.
pub fn place_of(timestamps: &Timestamps, places: u64, timestamp: u32) -> Option<u32>
    ensures { result ≡ place_if_any (place_of timestamps.now places timestamp) }
{
    for place in words::places(places, ITEMS as usize) {
        if at(timestamps, place) == timestamp {
            return Some(place);
        }
    }
    None
}

// Whether the timestamp is the named one, where one is named.
fn is_wanted(which: Which, timestamp: u32) -> bool
    ensures { result ≡ is_wanted which timestamp }
{
    match which {
        Which::Earliest | Which::Latest => true,
        Which::Named(named) => timestamp == named,
    }
}

// What a search that asks so takes among the places, of the timestamps not below the mark.
pub fn choose(timestamps: &Timestamps, places: u64, mark: u32, which: Which) -> Option<Found>
    ensures { result ≡ chosen_from timestamps.now places mark which }
{
    let mut found = None;
    for place in words::places(places, ITEMS as usize) {
        let timestamp = at(timestamps, place);
        if mark <= timestamp && is_wanted(which, timestamp) {
            found = or_taken(found, which, Found { place, timestamp });
        }
    }
    found
}

// What a get through the connection finds among the items UNSEEN on it.
pub fn seek(timestamps: &Timestamps, connection: Connection, which: Which) -> Option<Found>
    ensures { result ≡ sought timestamps.now connection which }
{
    choose(
        timestamps,
        connection.unseen_places(),
        connection.mark,
        which,
    )
}

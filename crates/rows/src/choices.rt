// How a search through the items chooses between two of them.
ghost use Rattle.std.specs.Prelude.{◌≡◌};
ghost use Rattle.rows.specs.Choices.{place_found, preferred, taken_before, timestamp_found};

use crate::Found;
use calls::Which;

// Whether a get that asks so takes the timestamp rather than the other one.
pub fn is_taken_before(which: Which, timestamp: u32, other: u32) -> bool
    ensures { result ≡ taken_before which timestamp other }
{
    match which {
        Which::Earliest => timestamp < other,
        Which::Latest => other < timestamp,
        Which::Named(_) => false,
    }
}

// What was found, or the other place with its timestamp where a get that asks so takes that one.
pub fn or_taken(found: Option<Found>, which: Which, other: Found) -> Option<Found>
    ensures { result ≡ preferred (taken_before which) found other.place other.timestamp }
{
    match found {
        Some(before) if !is_taken_before(which, other.timestamp, before.timestamp) => found,
        _ => Some(other),
    }
}

impl Found {
    // The place of what was found; for nothing the number of places, which is none.
    pub fn place(found: Option<Found>) -> u32
        ensures { result ≡ place_found found }
    {
        let Some(found) = found else {
            return crate::sizes::ITEMS;
        };
        found.place
    }

    // The timestamp of what was found; 0 for nothing.
    pub fn timestamp(found: Option<Found>) -> u32
        ensures { result ≡ timestamp_found found }
    {
        let Some(found) = found else {
            return 0;
        };
        found.timestamp
    }
}

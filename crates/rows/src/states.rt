// The four states of a timestamp on an input connection.
ghost use Rattle.std.specs.Prelude.{◌≡◌};
ghost use Rattle.words.specs.Words.{both, except};
ghost use Rattle.rows.specs.States.{place_or_none, state_of};

use crate::Connection;
use crate::sizes::ITEMS;
use calls::State;

impl Connection {
    // The state of a timestamp whose item lies in the place, where the channel has one.
    pub fn state_of(self, timestamp: u32, place: Option<u32>) -> State
        ensures { result ≡ state_of self timestamp (place_or_none place) }
    {
        if timestamp < self.mark {
            return State::Consumed;
        }
        let Some(place) = place else {
            return State::Absent;
        };
        // no item lies past the last place
        if place >= ITEMS {
            return State::Absent;
        }
        if words::has(self.opened, place) {
            return State::Open;
        }
        if words::has(self.consumed, place) {
            return State::Consumed;
        }
        State::Unseen
    }

    // The places whose items are UNSEEN where they are not below the mark.
    pub fn unseen_places(self) -> u64
        ensures { result ≡ except (except self.items self.opened) self.consumed }
    {
        words::except(words::except(self.items, self.opened), self.consumed)
    }
}

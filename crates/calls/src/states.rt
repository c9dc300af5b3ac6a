// The four states: what is asked of one, and the number by which it is answered.
ghost use Rattle.std.specs.Prelude.{◌≡◌};
ghost use Rattle.calls.specs.States.{is_open, is_pending, state_number};

use crate::State;

// The number by which document 01 answers the state.
impl From<State> for u64 {
    ghost from_gives = { λ state number. number ≡ state_number state };

    fn from(state: State) -> u64 {
        match state {
            State::Absent => 0,
            State::Unseen => 1,
            State::Open => 2,
            State::Consumed => 3,
        }
    }
}

impl State {
    pub fn is_open(self) -> bool
        ensures { result ≡ is_open self }
    {
        matches!(self, State::Open)
    }

    pub fn is_pending(self) -> bool
        ensures { result ≡ is_pending self }
    {
        matches!(self, State::Unseen | State::Open)
    }
}

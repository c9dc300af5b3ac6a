// The host's layer: one desk for the whole day, lent to each call. Each function makes the by-value call on the
// desk behind the reference and stores the next desk back. lent_c exports these functions to a host in C, Rust or Python.
#![tactic(auto)]

ghost use Rattle.std.specs.Prelude.{◌≡◌};
ghost use Rattle.desk.specs.Desk.{fresh};
ghost use Rattle.lent.specs.Lent.{lent_back};

use desk::{Desk, Next};
use rows::Answer;

pub mod connections;
pub mod items;
pub mod questions;
pub mod sweeps;
pub mod threads;

// A fresh desk, handed to the host.
#[unsafe(no_mangle)]
pub extern "C" fn desk_fresh() -> Desk
    ensures { result ≡ fresh }
{
    Desk::fresh()
}

// What each lent call ends with: the desk that the by-value call hands back is stored where the host keeps it, and its answer is handed on.
fn stored(desk: &mut Desk, next: Next) -> Answer
    ensures { lent_back result desk.new ≡ next }
{
    *desk = next.desk;
    next.answer
}

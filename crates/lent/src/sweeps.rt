// The lent desk: the two sweeps, each with a lent slice for the tickets.
ghost use Rattle.std.specs.Prelude.{◌≡◌};
ghost use Rattle.calls.specs.Calls.{strong_sweep, sweep, weak_sweep};
ghost use Rattle.desk.specs.Calls.{slice_after, step};
ghost use Rattle.lent.specs.Lent.{lent_back};

use crate::stored;
use calls::Bound;
use desk::Desk;
use rows::Answer;

// The two sweeps are this one, so that the by-value sweep has one caller and is compiled into it.
fn sweep(desk: &mut Desk, slice: &mut [u64], bound: Bound) -> Answer
    ensures { (lent_back result desk.new ≡ step desk.old (sweep bound slice.old)) × (slice.new ≡ slice_after desk.old (sweep bound slice.old)) }
{
    let next = desk.sweep(bound, slice);
    stored(desk, next)
}

#[unsafe(no_mangle)]
pub extern "C" fn desk_weak_sweep(desk: &mut Desk, slice: &mut [u64]) -> Answer
    ensures { (lent_back result desk.new ≡ step desk.old (weak_sweep slice.old)) × (slice.new ≡ slice_after desk.old (weak_sweep slice.old)) }
{
    sweep(desk, slice, Bound::Weak)
}

#[unsafe(no_mangle)]
pub extern "C" fn desk_strong_sweep(desk: &mut Desk, slice: &mut [u64]) -> Answer
    ensures { (lent_back result desk.new ≡ step desk.old (strong_sweep slice.old)) × (slice.new ≡ slice_after desk.old (strong_sweep slice.old)) }
{
    sweep(desk, slice, Bound::Strong)
}

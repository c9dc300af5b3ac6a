// The two sweeps.
ghost use Rattle.std.specs.Prelude.{◌≡◌};
ghost use Rattle.calls.specs.Calls.{sweep};
ghost use Rattle.desk.specs.Calls.{came_to, left, slice_after, step};

use crate::{Desk, Next};
use calls::Bound;
use leaving::freed::clear;
use leaving::handed::hand_back;
use leaving::swept::{items_below, lessen, raise_marks};
use rows::refusals::needs;
use rows::{Answer, Refusal, Told};

impl Desk {
    // The items below the bound leave, and with them their facts on every connection; then the marks are raised.
    pub fn sweep(mut self, which: Bound, slice: &mut [u64]) -> Next
        ensures { (result ≡ step self (sweep which slice.old)) × (slice.new ≡ slice_after self (sweep which slice.old)) }
    {
        let answer = Answer::from(self.try_sweep(which, slice));
        Next { answer, desk: self }
    }

    fn try_sweep(&mut self, which: Bound, slice: &mut [u64]) -> Result<Told, Refusal>
        ensures { (came_to result self.new ≡ step self.old (sweep which slice.old)) × (slice.new ≡ slice_after self.old (sweep which slice.old)) }
    {
        let bound = self.bound(which);
        let gone = items_below(&self.timestamps, self.present, bound);
        let number = words::count(gone);
        // 12
        needs(
            number as usize <= slice.len(),
            Refusal::SliceTooShort(number),
        )?;
        hand_back(&self.timestamps, &self.tickets, &self.held, gone, slice);
        self.let_leave(gone);
        raise_marks(&mut self.marks, self.inputs, bound);
        Ok(Told {
            value: number as u64,
            time: bound,
        })
    }

    // The items in some places leave, and their facts on every connection.
    fn let_leave(&mut self, gone: u64)
        ensures { self.new ≡ left self.old gone }
    {
        lessen(&mut self.opened, gone);
        lessen(&mut self.consumed, gone);
        self.present = words::except(self.present, gone);
        lessen(&mut self.held, gone);
        clear(&mut self.timestamps, gone);
        clear(&mut self.tickets, gone);
    }
}

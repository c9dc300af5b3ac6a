// What a session can tell at its end of the lines that were answered 99.
ghost use Rattle.std.specs.Prelude.{◌≡◌};
ghost use Rattle.session.specs.Notes.{counted_to, noted_by};

use crate::{FirstUnreadable, Notes};
use calls::Call;

// A count with some more. It stays at the largest number: no session comes there, and none is stopped by it.
pub fn counted(count: u64, more: usize) -> u64
    ensures { result ≡ counted_to count more }
{
    count.saturating_add(more as u64)
}

impl Notes {
    // The notes with one line more, of which is known what it says.
    pub fn noted(self, said: Option<Call>, line: &[u8]) -> Notes
        ensures { result ≡ noted_by self said line.now }
    {
        let lines = counted(self.lines, 1);
        if said.is_some() {
            return Notes { lines, ..self };
        }
        let first = if self.unreadable == 0 {
            Some(FirstUnreadable {
                number: lines,
                fault: u32::from(lines::faults::fault(line)),
            })
        } else {
            self.first
        };
        Notes {
            lines,
            unreadable: counted(self.unreadable, 1),
            first,
        }
    }
}

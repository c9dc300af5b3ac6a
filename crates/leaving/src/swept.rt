// What a sweep takes, and columns of words and of marks after it.
ghost use Rattle.std.specs.Prelude.{◌≡◌};
ghost use Rattle.leaving.specs.Leaving.{items_below, lessened, raised};

use rows::sizes::{CONNECTIONS, ITEMS};
use tables::columns::{Numbers, Timestamps, at};

// The places of the present items whose timestamps are below the bound.
pub fn items_below(timestamps: &Timestamps, present: u64, bound: u32) -> u64
    ensures { result ≡ items_below timestamps.now present bound }
{
    let mut gone = 0;
    for place in words::places(present, ITEMS as usize) {
        gone = words::with_if(at(timestamps, place) < bound, gone, place);
    }
    gone
}

// A column of words without the places of items that leave: the items of every channel, or one of the two facts of every connection.
pub fn lessen<const N: usize>(column: &mut [u64; N], gone: u64)
    ensures { column.new ≡ lessened N gone column.old }
{
    for word in column.iter_mut() {
        *word = words::except(*word, gone);
    }
}

// The mark of every input connection becomes the larger of itself and the bound.
pub fn raise_marks(marks: &mut Numbers, inputs: u64, bound: u32)
    ensures { marks.new ≡ raised inputs bound marks.old }
{
    for connection in words::places(inputs, CONNECTIONS as usize) {
        let mark = marks[connection as usize];
        marks[connection as usize] = mark.max(bound);
    }
}

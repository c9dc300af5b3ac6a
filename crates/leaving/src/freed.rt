// Columns once some places are free: zeros stand there.
ghost use Rattle.std.specs.Prelude.{◌≡◌, length, min};
ghost use Rattle.words.specs.Words.{word_places};
ghost use Rattle.leaving.specs.Leaving.{emptied};

use tables::columns::Zeroed;

// A column of numbers or of words, as far as a word has places.
pub fn clear<T: Zeroed + Drop, const N: usize>(column: &mut [T; N], gone: u64)
    ensures { column.new ≡ emptied T.zero (min N word_places) gone column.old }
{
    clear_cells(column, gone);
}

// The same of a slice, since a write into an array needs to know how large its elements are.
fn clear_cells<T: Zeroed + Drop>(cells: &mut [T], gone: u64)
    ensures { cells.new ≡ emptied T.zero (min (length cells.old) word_places) gone cells.old }
{
    for place in words::places(gone, cells.len()) {
        cells[place as usize] = T::zero();
    }
}

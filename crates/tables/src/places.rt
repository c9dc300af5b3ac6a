// Which places of a table are used.
ghost use Rattle.std.specs.Prelude.{◌≡◌};
ghost use Rattle.tables.specs.Columns.{in_use};

// Whether the place is one of the table's places, and used.
pub fn in_use(used: u64, place: u32, places: u32) -> bool
    ensures { result ≡ in_use used place places }
{
    place < places && words::has(used, place)
}

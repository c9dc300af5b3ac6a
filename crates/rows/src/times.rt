// Never, and the smaller of two times where one counts.
ghost use Rattle.std.specs.Prelude.{◌≡◌};
ghost use Rattle.rows.specs.Times.{least_if};

// The value that is called never: no timestamp is as large.
pub const NEVER: u32 = 4294967295;

// The smaller of the two where the first one counts, the second where it does not.
pub fn least_if(counts: bool, time: u32, least: u32) -> u32
    ensures { result ≡ least_if counts time least }
{
    if counts {
        return time.min(least);
    }
    least
}

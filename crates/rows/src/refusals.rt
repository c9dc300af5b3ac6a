// Checks for a caller that goes by refusals; one that goes by numbers has `answers::needs`.
ghost use Rattle.std.specs.Prelude.{◌≡◌};
ghost use Rattle.rows.specs.Checks.{needed};

use crate::Refusal;

// One check of a call: its refusal where it fails.
pub fn needs(holds: bool, refusal: Refusal) -> Result<(), Refusal>
    ensures { result ≡ needed holds refusal }
{
    if holds { Ok(()) } else { Err(refusal) }
}

// The reasons why a line of a session is not readable.
ghost use Rattle.std.specs.Prelude.{◌≡◌};
ghost use Rattle.lines.specs.Faults.{fault_number};

// Why a line is not readable.
#[derive(Clone, Copy, PartialEq, Eq)]
pub enum Fault {
    Empty,
    TooLong,
    ByteOrderMark,
    CarriageReturn,
    Tab,
    SpaceAtEnd,
    NoLetter,
    WrongCount,
    NoNumber,
    TooLarge,
}

// The number by which a reason is told.
impl From<Fault> for u32 {
    ghost from_gives = { λ fault number. number ≡ fault_number fault };

    fn from(fault: Fault) -> u32 {
        match fault {
            Fault::Empty => 1,
            Fault::TooLong => 2,
            Fault::ByteOrderMark => 3,
            Fault::CarriageReturn => 4,
            Fault::Tab => 5,
            Fault::SpaceAtEnd => 6,
            Fault::NoLetter => 7,
            Fault::WrongCount => 8,
            Fault::NoNumber => 9,
            Fault::TooLarge => 10,
        }
    }
}

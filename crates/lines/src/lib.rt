// A line of a session, read as a call.
#![tactic(auto)]

ghost use Rattle.std.specs.Prelude.{◌≡◌, ◌+◌, get_or};
ghost use Rattle.lines.specs.Lines.{form_of, number_below, read_line};
ghost use Rattle.lines.specs.Reading.{FirstThreeNumbers, WithinLine, limits_from};

use calls::{Bound, Call, Deed, Which};
pub use reasons::Fault;

pub mod faults;
mod reasons;

pub const LONGEST_LINE: usize = 80;

const MOST_NUMBERS: usize = 4;

// The largest that a number of a line may be, and the largest that a ticket may be.
const LARGEST_NUMBER: u64 = u32::MAX as u64;

const LARGEST_TICKET: u64 = u64::MAX;

// What p takes: a ticket is its fourth number.
const WITH_TICKET: [u64; MOST_NUMBERS] = [
    LARGEST_NUMBER,
    LARGEST_NUMBER,
    LARGEST_NUMBER,
    LARGEST_TICKET,
];

// Reads a line: a letter, then decimal numbers, one space before each. What is no such line is no call.
pub fn read(line: &[u8]) -> Option<Call>
    ensures { result ≡ read_line line.now }
{
    if line.len() > LONGEST_LINE {
        return None;
    }
    let mut fields = line.split(|byte| *byte == b' ');
    let [letter] = fields.next()? else {
        return None;
    };
    let mut numbers = [0u64; MOST_NUMBERS];
    for (place, largest) in largest_of(*letter).iter().enumerate() {
        let field = fields.next()?;
        numbers[place] = number_of(field, *largest)?;
    }
    if fields.next().is_some() {
        return None;
    }
    called(*letter, numbers)
}

// The largest that each number behind a letter may be. Behind w, W and a byte that is no letter stands none.
#[tactic(auto, unfolding(crate::specs::Lines::form_among))]
fn largest_of(letter: u8) -> &'static [u64]
    ensures { (limits_from result.now ≡ (form_of letter).limits) × WithinLine result.now }
{
    match letter {
        b'c' | b'e' => &[LARGEST_NUMBER],
        b'n' | b'i' | b'o' | b'd' | b's' | b'g' | b'G' => &[LARGEST_NUMBER; 2],
        b'x' | b'f' | b'u' => &[LARGEST_NUMBER; 3],
        b'p' => &WITH_TICKET,
        _ => &[],
    }
}

// The number that a field is. A number too large is given up at the digit that makes it so: the value stays at most the largest, however
// many zeros or digits there are. It is read digit by digit, since the library's parse takes a sign too.
fn number_of(field: &[u8], largest: u64) -> Option<u64>
    ensures { result ≡ number_below (largest + 1) field.now }
{
    if field.is_empty() {
        return None;
    }
    let mut value: u64 = 0;
    for byte in field {
        let b'0'..=b'9' = *byte else {
            return None;
        };
        let digit = u64::from(*byte - b'0');
        if value > largest / 10 {
            return None;
        }
        if digit > largest - value * 10 {
            return None;
        }
        value = value * 10 + digit;
    }
    Some(value)
}

// The call of a letter with its numbers.
#[tactic(auto, unfolding(crate::specs::Lines::form_among))]
fn called(letter: u8, numbers: [u64; MOST_NUMBERS]) -> Option<Call>
    requires { FirstThreeNumbers numbers }
    ensures { result ≡ (form_of letter).line (λ place. get_or numbers place 0) }
{
    let [first, second, third, fourth] = numbers;
    // No digit is lost: the limits keep the first three within 32 bits, so that a `try_from` would want a branch that no line takes.
    let first = first as u32;
    let second = second as u32;
    let third = third as u32;
    match letter {
        b'c' => Some(Call::By(first, Deed::Channel)),
        b'n' => Some(Call::By(first, Deed::NewThread(second))),
        b'i' => Some(Call::By(first, Deed::AttachInput(second))),
        b'o' => Some(Call::By(first, Deed::AttachOutput(second))),
        b'd' => Some(Call::By(first, Deed::Detach(second))),
        b'e' => Some(Call::By(first, Deed::End)),
        b's' => Some(Call::By(first, Deed::Set(second))),
        b'p' => Some(Call::By(first, Deed::Put(second, third, fourth))),
        b'g' => Some(Call::By(first, Deed::Get(second, Which::Earliest))),
        b'G' => Some(Call::By(first, Deed::Get(second, Which::Latest))),
        b'x' => Some(Call::By(first, Deed::Get(second, Which::Named(third)))),
        b'f' => Some(Call::By(first, Deed::Consume(second, third))),
        b'u' => Some(Call::By(first, Deed::ConsumeUntil(second, third))),
        b'w' => Some(Call::Sweep(Bound::Weak)),
        b'W' => Some(Call::Sweep(Bound::Strong)),
        _ => None,
    }
}

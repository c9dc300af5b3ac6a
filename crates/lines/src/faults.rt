// Why a line of a session is not readable.
ghost use Rattle.std.specs.Prelude.{◌≡◌, ◌<◌, ◌&&◌, drop, length, not};
ghost use Rattle.lines.specs.Lines.{all_digits, fields_of, is_empty};
ghost use Rattle.lines.specs.Faults.{all_numbers, begins_with_letter, count_of, fault_of, fault_of_fields};

use crate::{Fault, LONGEST_LINE, MOST_NUMBERS, called, largest_of};

// The three bytes that some editors write before a text.
const MARK: [u8; 3] = [0xEF, 0xBB, 0xBF];

// The first reason that a line has. A line with none of the others has a number that is too large, if it is not readable.
pub fn fault(line: &[u8]) -> Fault
    ensures { result ≡ fault_of line.now }
{
    let Some(last) = line.last() else {
        return Fault::Empty;
    };
    if line.len() > LONGEST_LINE {
        return Fault::TooLong;
    }
    if line.starts_with(&MARK) {
        return Fault::ByteOrderMark;
    }
    let has_return = count_of(line, b'\r') > 0;
    if has_return {
        return Fault::CarriageReturn;
    }
    let has_tab = count_of(line, b'\t') > 0;
    if has_tab {
        return Fault::Tab;
    }
    if *last == b' ' {
        return Fault::SpaceAtEnd;
    }
    fault_of_fields(line)
}

// The first reason among the fields of a line.
fn fault_of_fields(line: &[u8]) -> Fault
    requires { 0 < length line.now }
    ensures { result ≡ fault_of_fields line.now }
{
    if !begins_with_letter(line) {
        return Fault::NoLetter;
    }
    if !all_numbers(line) {
        return Fault::NoNumber;
    }
    // One space stands before each number.
    if count_of(line, b' ') != largest_of(line[0]).len() {
        return Fault::WrongCount;
    }
    Fault::TooLarge
}

// How often a byte stands in a line.
#[tactic(auto, unfolding(crate::specs::Faults::count_of))]
fn count_of(line: &[u8], byte: u8) -> usize
    ensures { result ≡ count_of byte line.now }
{
    line.iter().filter(|other| **other == byte).count()
}

// Whether a line begins with a letter that has its field to itself. A byte that is no letter makes no call, whatever numbers follow it.
fn begins_with_letter(line: &[u8]) -> bool
    ensures { result ≡ begins_with_letter (fields_of line.now) }
{
    let Some(field) = line.split(|byte| *byte == b' ').next() else {
        return false;
    };
    let [letter] = field else {
        return false;
    };
    called(*letter, [0u64; MOST_NUMBERS]).is_some()
}

// Whether the fields behind a letter are numbers, however large.
fn all_numbers(line: &[u8]) -> bool
    ensures { result ≡ all_numbers (drop 1 (fields_of line.now)) }
{
    line.split(|byte| *byte == b' ')
        .skip(1)
        .all(|field| is_number(field))
}

// Whether a field is a number, however large: digits, at least one.
fn is_number(field: &[u8]) -> bool
    ensures { result ≡ (not (is_empty field.now) && all_digits field.now) }
{
    !field.is_empty() && field.iter().all(|byte| byte.is_ascii_digit())
}

// An answer as text: code, value, time and the tickets in decimal, one space between, and a newline.
// `write_answer` is the one door; the other functions are its parts and lean on the room that it has made sure of.
#![tactic(auto)]

ghost use Rattle.std.specs.Prelude.{◌≡◌, cond, ◌+◌, ◌<◌, ◌≤◌, [], ◌∷◌, length, take};
ghost use Rattle.text.specs.Text.{answer_text, decimal_text, field_text, fields_text, has_room, written};
ghost use Rattle.text.specs.Writing.{Added, HasRoomFor};

use itoa::write_digits;
use rows::Answer;

// Every number of 64 bits has at most so many digits.
const MOST_DIGITS: usize = 20;

// A space and a number.
const FIELD_ROOM: usize = 1 + MOST_DIGITS;

// The session's slice has 64 places, so no sweep hands more tickets back.
pub const MOST_TICKETS: usize = 64;

// The places that are enough for any line, whatever its numbers: the code, fields for the value, the time and the tickets, and the newline.
pub const ANSWER_ROOM: usize = MOST_DIGITS + FIELD_ROOM * (2 + MOST_TICKETS) + 1;

// How many decimal digits a number has.
fn digit_count(number: u64) -> usize
    ensures { result ≡ length (decimal_text number) }
{
    number.checked_ilog10().unwrap_or(0) as usize + 1
}

// The buffer that an answer is written into, and the place up to which it is written.
#[derive(Drop)]
struct Line<'a> {
    out: &'a mut [u8],
    end: usize,
}

impl Line<'_> {
    // Writes one byte.
    fn byte(&mut self, byte: u8)
        requires { HasRoomFor self.old (byte ∷ []) }
        ensures { Added self.old (byte ∷ []) self.new }
    {
        self.out[self.end] = byte;
        self.end += 1;
    }

    // Writes a number. `write!` into a slice promises how many bytes it took and not which: `write_digits` promises the bytes.
    fn number(&mut self, number: u64)
        requires { HasRoomFor self.old (decimal_text number) }
        ensures { Added self.old (decimal_text number) self.new }
    {
        let end = self.end + digit_count(number);
        write_digits(number, self.out, end);
        self.end = end;
    }

    // Writes a space and a number.
    fn field(&mut self, number: u64)
        requires { HasRoomFor self.old (field_text number) }
        ensures { Added self.old (field_text number) self.new }
    {
        self.byte(b' ');
        self.number(number);
    }

    // Writes the tickets, a space before each.
    fn fields(&mut self, tickets: &[u64])
        requires { HasRoomFor self.old (fields_text tickets.now) }
        ensures { Added self.old (fields_text tickets.now) self.new }
    {
        for ticket in tickets {
            self.field(*ticket);
        }
    }

    // Writes the line of an answer.
    fn answer(&mut self, answer: Answer, tickets: &[u64])
        requires { HasRoomFor self.old (answer_text answer.code answer.value answer.time tickets.now) }
        ensures { Added self.old (answer_text answer.code answer.value answer.time tickets.now) self.new }
    {
        self.number(answer.code as u64);
        self.field(answer.value);
        self.field(answer.time as u64);
        self.fields(tickets);
        self.byte(b'\n');
    }
}

// Whether from `at` on there is the room for an answer, and whether the tickets are there. No sum here can wrap.
#[tactic(auto, using(std::proofs::lemmas::Bool::Decides::nat_tests), unfolding(crate::specs::Text::has_room))]
fn has_room(at: usize, places: usize, count: usize, held: usize) -> bool
    ensures { result ≡ has_room at places count held }
{
    places >= ANSWER_ROOM && at <= places - ANSWER_ROOM && count <= MOST_TICKETS && count <= held
}

// Writes the line of an answer into out from `at` on, with the first `count` tickets, and answers the place after it.
// Where it might not fit, or the tickets are not there, it writes nothing and answers `at`: so `count` stays beside `tickets`, since a slice of
// just these would ask its caller for them; and its caller goes on in one buffer, so `at` stays beside `out`.
pub fn write_answer(
    out: &mut [u8],
    at: usize,
    answer: Answer,
    tickets: &[u64],
    count: usize,
) -> usize
    ensures { let room = has_room at (length out.old) count (length tickets.now) in
        let text = answer_text answer.code answer.value answer.time (take count tickets.now) in
        (result ≡ cond room (at + length text) at) × (out.new ≡ cond room (written out.old at text) out.old) }
{
    if !has_room(at, out.len(), count, tickets.len()) {
        return at;
    }
    let mut line = Line { out, end: at };
    line.answer(answer, &tickets[..count]);
    line.end
}

// A session: lines of bytes in, lines of answers out, over one desk.
#![tactic(auto)]

mod noting;

ghost use Rattle.std.specs.Prelude.{◌≡◌, ◌++◌, drop, length, take};
ghost use Rattle.session.specs.Tickets.{swept_count};
ghost use Rattle.session.specs.Stream.{notes_at_end, printed_for, reader_after, start, used_of, written_at_end};

use calls::{Call, Deed};
use desk::{Desk, Next};
use lines::LONGEST_LINE;
pub use noting::counted;
use rows::Answer;
use text::{ANSWER_ROOM, MOST_TICKETS};

// The code of a line that is not readable, a number as in every answer: a host in C reads answers too.
const UNREADABLE: u32 = 99;

// A line with one byte more than the longest is overlong, so no more of a line is kept.
const LINE_KEPT: usize = LONGEST_LINE + 1;

// The first line that was not readable: its number, from 1, and why it is not, as a number, since `feed` hands on whatever was noted.
#[derive(Clone, Copy)]
pub struct FirstUnreadable {
    pub number: u64,
    pub fault: u32,
}

// How many lines there were, how many of them were not readable, and the first of these, if there is one.
#[derive(Clone, Copy)]
pub struct Notes {
    pub lines: u64,
    pub unreadable: u64,
    pub first: Option<FirstUnreadable>,
}

// The desk, what was read of a line that has not ended, and what was noted of the lines that have. A session has no heap, and `feed` answers
// every reader, also one that says that it holds more than a line keeps: so how many bytes are held stands beside them.
#[derive(Clone, Copy)]
pub struct Reader {
    pub desk: Desk,
    pub line: [u8; LINE_KEPT],
    pub held: usize,
    pub notes: Notes,
}

// What became of a part of the input: the reader after it, how many of its bytes were used, and how many bytes were written.
#[derive(Clone, Copy)]
pub struct Fed {
    pub reader: Reader,
    pub used: usize,
    pub written: usize,
}

// What became of the end of the input: what was noted of all lines, and how many bytes were written.
#[derive(Clone, Copy)]
pub struct Finished {
    pub notes: Notes,
    pub written: usize,
}

// How many tickets a sweep with this answer has handed back: a refused one has handed back none, whatever its value. That it is refused stands in
// its code, a number here too.
fn swept_count(answer: Answer) -> u64
    ensures { result ≡ swept_count answer }
{
    if answer.code == 0 { answer.value } else { 0 }
}

// The start of a session.
#[tactic(auto, unfolding(crate::specs::Stream::start))]
pub fn started() -> Reader
    ensures { result ≡ start }
{
    Reader {
        desk: Desk::fresh(),
        line: [0u8; LINE_KEPT],
        held: 0,
        notes: Notes {
            lines: 0,
            unreadable: 0,
            first: None,
        },
    }
}

// Reads a part of the input and writes the answers to the front of out. It stops at a newline where the room for an answer is not left:
// what is left of the part is to be fed again, with out written away.
pub fn feed(reader: Reader, part: &[u8], out: &mut [u8]) -> Fed
    ensures { let used = used_of reader part.now (length out.old) in
        let text = printed_for reader (take used part.now) in
        (result.used ≡ used)
        × (result.reader ≡ reader_after reader (take used part.now))
        × (result.written ≡ length text)
        × (out.new ≡ text ++ drop (length text) out.old) }
{
    let unreadable = Answer {
        code: UNREADABLE,
        value: 0,
        time: 0,
    };
    // The answer to the last line and the desk after it. A call is assigned to it where it is made: with a function that makes any call, which was
    // tried, a session takes half as long again.
    let mut next = Next {
        answer: unreadable,
        desk: reader.desk,
    };
    let mut line = reader.line;
    let mut held = reader.held;
    let mut notes = reader.notes;
    let mut at = 0;
    let mut used = part.len();
    for (place, byte) in part.iter().enumerate() {
        if *byte != b'\n' {
            if held < LINE_KEPT {
                line[held] = *byte;
                held += 1;
            }
            continue;
        }
        if out.len() - at < ANSWER_ROOM {
            used = place;
            break;
        }
        let mut slice = [0u64; MOST_TICKETS];
        let kept = held.min(LINE_KEPT);
        let said = lines::read(&line[..kept]);
        notes = notes.noted(said, &line[..kept]);
        let mut count = 0;
        let desk = next.desk;
        match said {
            Some(Call::By(thread, deed)) => match deed {
                Deed::Channel => next = desk.channel(thread),
                Deed::NewThread(time) => next = desk.new_thread(thread, time),
                Deed::AttachInput(channel) => next = desk.attach_input(thread, channel),
                Deed::AttachOutput(channel) => next = desk.attach_output(thread, channel),
                Deed::Detach(connection) => next = desk.detach(thread, connection),
                Deed::End => next = desk.end(thread),
                Deed::Set(time) => next = desk.set(thread, time),
                Deed::Put(connection, timestamp, ticket) => {
                    next = desk.put(thread, connection, timestamp, ticket);
                }
                Deed::Get(connection, which) => next = desk.get(thread, connection, which),
                Deed::Consume(connection, timestamp) => {
                    next = desk.consume(thread, connection, timestamp);
                }
                Deed::ConsumeUntil(connection, timestamp) => {
                    next = desk.consume_until(thread, connection, timestamp);
                }
            },
            Some(Call::Sweep(bound)) => {
                next = desk.sweep(bound, &mut slice);
                count = swept_count(next.answer) as usize;
            }
            None => next.answer = unreadable,
        }
        at = text::write_answer(out, at, next.answer, &slice, count);
        held = 0;
    }
    Fed {
        reader: Reader {
            desk: next.desk,
            line,
            held,
            notes,
        },
        used,
        written: at,
    }
}

// The end of the input: answers a last line that lacks its newline. Where out lacks the room for an answer, nothing is written and no line more is noted.
pub fn finish(reader: Reader, out: &mut [u8]) -> Finished
    ensures { let text = written_at_end reader (length out.old) in
        (result.notes ≡ notes_at_end reader (length out.old))
        × (result.written ≡ length text)
        × (out.new ≡ text ++ drop (length text) out.old) }
{
    if out.len() < ANSWER_ROOM {
        return Finished {
            notes: reader.notes,
            written: 0,
        };
    }
    if reader.held == 0 {
        return Finished {
            notes: reader.notes,
            written: 0,
        };
    }
    // A last line that lacks its newline is answered as if it had one.
    let fed = feed(reader, b"\n", out);
    Finished {
        notes: fed.reader.notes,
        written: fed.written,
    }
}

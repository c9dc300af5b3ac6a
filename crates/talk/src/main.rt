// The session program: standard input in parts, as they come, and the answers to each part to standard output. At a complete end it says so on
// descriptor 3, and its status is 0; where a read or a write has failed, it says that on standard error, and its status is 1. A reader of the answers
// that has gone has what it wanted: there it says nothing, and its status is 141.
#![tactic(auto)]

#[cfg(test)]
mod tests;
mod waiting;

ghost use Rattle.std.specs.Prelude.{◌≡◌, ◌↔◌, IsSomeAnd, IsTrue, List, ℕ, ◌≤◌, length, take};
ghost use Rattle.std.specs.IoError.{error_kind};
ghost use Rattle.std.specs.declared.io.ErrorKind.TheVariants.{BrokenPipe};
ghost use Rattle.text.specs.Text.{answer_room};
ghost use Rattle.session.specs.Stream.{printed_at_end, printed_for};
ghost use Rattle.talk.specs.Talk.{Answers, Concludes, ConcludesWriting, Gave, HeardWhole, HeardWriting, Hears, HearsWriting, Spoken, SpokenWriting, Writes, Wrote, clamp_len, none_heard};

use session::{Notes, Reader};
use std::alloc::Alloc;
use std::fs::OpenOptions;
use std::io::{ErrorKind, Read, Write};
use std::process::ExitCode;
use std::rt::Files;
use std::time::Clock;
use std::{fmt, fs, io};
use waiting::Ends;

// Where the report of a complete end goes: descriptor 3; and what the system tells of it.
const REPORT: &str = "/dev/fd/3";

const ABOUT_REPORT: &str = "/proc/self/fdinfo/3";

// The status of a program that the signal of a broken pipe, 13, has ended. The signal itself is ignored here, and the write fails.
const READER_GONE: u8 = 141;

// Why a session has failed.
#[derive(Clone, Copy, Debug, PartialEq, Eq)]
enum Failure {
    ReadFailed,
    WriteFailed,
    TooMuch,
}

impl fmt::Display for Failure {
    fn fmt<W: fmt::Write>(&self, f: &mut fmt::Formatter<W>) -> fmt::Result {
        f.write_str(match self {
            Failure::ReadFailed => "standard input could not be read",
            Failure::WriteFailed => "the answers could not be written",
            Failure::TooMuch => "the input has more bytes than can be counted",
        })
    }
}

// The reader after the input that was read, how many bytes of its answers were taken, and how many bytes it has.
#[derive(Clone, Copy)]
struct Heard {
    reader: Reader,
    taken: u64,
    bytes: u64,
}

// Where answers stand before they are written away: there is room for one at least, so that each piece that is fed is answered in it and none is empty.
#[derive(Drop)]
struct Room<'a> {
    bytes: &'a mut [u8],
    ghost wide: { answer_room ≤ length bytes.now },
}

// A session over two ends, and what was heard of it. Where it fails, that stays: what was read before and how much of the answers was taken.
#[derive(Drop)]
struct Talk<'a, C, R, W> {
    ends: Ends<'a, C, R, W>,
    heard: Heard,
}

impl<'a, C: Clock, R: Read, W: Write> Talk<'a, C, R, W> {
    fn new(ends: Ends<'a, C, R, W>) -> Talk<'a, C, R, W>
        ensures ends { result.ends ≡ ends.entry }
        ensures heard { result.heard ≡ none_heard }
    {
        Talk {
            ends,
            heard: Heard {
                reader: session::started(),
                taken: 0,
                bytes: 0,
            },
        }
    }

    // Writes answers away, and counts their bytes that were taken.
    fn write(&mut self, answers: &[u8]) -> Result<(), Failure>
        ensures writes { Writes self.old.heard answers.now result self.new.heard }
        ensures reader { self.new.ends.from ≡ self.old.ends.from }
        ensures wrote { Wrote result (W.contents self.old.ends.to) (W.contents self.new.ends.to) answers.now }
    {
        let took = self.ends.write_out(answers);
        self.heard.taken = session::counted(self.heard.taken, took);
        if took < answers.len() {
            return Err(Failure::WriteFailed);
        }
        Ok(())
    }

    // Answers one part of the input. What the answers to a piece of it leave of the room may be too little for the next answer: so each piece's answers are
    // written away before the rest of the part is fed. The buffers stay parameters: a part of the one is lent while the session changes.
    fn tell(&mut self, part: &[u8], out: &mut Room<'_>) -> Result<(), Failure>
        ensures answers { Answers self.old.heard part.now result self.new.heard }
        ensures reader { self.new.ends.from ≡ self.old.ends.from }
        ensures wrote { Wrote result (W.contents self.old.ends.to) (W.contents self.new.ends.to) (printed_for self.old.heard.reader part.now) }
    {
        // Where nothing is to be told the count stays, and a count is never more than the largest.
        prove!(self.heard.taken <= u64::MAX);
        let mut rest = part;
        // No `for`: how much of the rest a turn uses is what `feed` answers.
        while !rest.is_empty() {
            let fed = session::feed(self.heard.reader, rest, out.bytes);
            self.heard.reader = fed.reader;
            self.write(&out.bytes[..fed.written])?;
            rest = &rest[fed.used..];
        }
        Ok(())
    }

    // Hears what a read has answered: the end of the input, a failure, or a part, which is at the front of input. Answers whether the session goes on.
    fn hear(
        &mut self,
        got: io::Result<usize>,
        input: &[u8],
        out: &mut Room<'_>,
    ) -> Result<bool, Failure>
        ensures hears { Hears self.old.heard got input.now result self.new.heard }
        ensures reader { self.new.ends.from ≡ self.old.ends.from }
        ensures wrote { let part = take (clamp_len got (length input.now)) input.now in
            HearsWriting result (W.contents self.old.ends.to) (W.contents self.new.ends.to) (printed_for self.old.heard.reader part) }
    {
        let count = match got {
            Ok(0) => return Ok(false),
            Ok(read) if !input.is_empty() => read.min(input.len()),
            _ => return Err(Failure::ReadFailed),
        };
        let bytes = self.heard.bytes.checked_add(count as u64);
        self.heard.bytes = bytes.ok_or(Failure::TooMuch)?;
        self.tell(&input[..count], out)?;
        Ok(true)
    }

    // Reads and answers, part by part, until the input has ended. Every program here ends: this one where no number could count its bytes.
    fn converse(&mut self, input: &mut [u8], out: &mut Room<'_>) -> Result<(), Failure>
        requires begins { self.old.heard ≡ none_heard }
        ensures { (all : List ℕ) × HeardWhole result self.new.heard all
            × Gave (length input.old) result (R.remaining self.old.ends.from) (R.remaining self.new.ends.from) all
            × HeardWriting result (W.contents self.old.ends.to) (W.contents self.new.ends.to) all }
    {
        loop {
            let got = self.ends.read_part(input);
            let goes_on = self.hear(got, input, out)?;
            if !goes_on {
                return Ok(());
            }
        }
    }

    // The end of an input that was heard. Where it has ended, a last line that lacks its newline is answered; else what is held of a line is never run.
    // What was heard is a parameter, and no ? of the caller's, so that the contract can say that a failure stays as it is and nothing more is written.
    fn conclude(&mut self, heard: Result<(), Failure>, out: &mut Room<'_>) -> Result<Notes, Failure>
        ensures concludes { Concludes heard result
            × ((all : List ℕ) → HeardWhole heard self.old.heard all → Spoken result self.new.heard all) }
        ensures reader { self.new.ends.from ≡ self.old.ends.from }
        ensures wrote { ConcludesWriting heard result (W.contents self.old.ends.to) (W.contents self.new.ends.to) (printed_at_end self.old.heard.reader) }
    {
        heard?;
        let finished = session::finish(self.heard.reader, out.bytes);
        self.write(&out.bytes[..finished.written])?;
        Ok(finished.notes)
    }

    // A whole session, and what was noted of its lines.
    fn speak(&mut self, input: &mut [u8], out: &mut Room<'_>) -> Result<Notes, Failure>
        requires begins { self.old.heard ≡ none_heard }
        ensures { (all : List ℕ) × Spoken result self.new.heard all
            × Gave (length input.old) result (R.remaining self.old.ends.from) (R.remaining self.new.ends.from) all
            × SpokenWriting result (W.contents self.old.ends.to) (W.contents self.new.ends.to) all }
    {
        let heard = self.converse(input, out);
        self.conclude(heard, out)
    }
}

// Whether descriptor 3 is open for writing. The system tells how it was opened in a line in octal, of whose last digit the lower two bits are 0 where it
// is for reading alone.
fn is_report_wanted<R: Files + Alloc>(rt: &R) -> io::Result<bool> {
    let about = fs::read_to_string(rt, ABOUT_REPORT)?;
    let flags = about.lines().find(|line| line.starts_with("flags:"));
    Ok(flags.is_some_and(|line| !line.ends_with('0') && !line.ends_with('4')))
}

// A complete end, in one line: why the first unreadable line is not readable, how many are not, how many lines there were, and the number of the first;
// 0 and 0 for the first where every line is readable.
// std opens anew what descriptor 3 leads to: so where that is for reading alone it is left as it is, and it is opened for both, since a pipe that nobody
// reads any more would else be waited for.
fn report<R: Files + Alloc>(rt: &R, notes: Notes) -> io::Result<()> {
    if !is_report_wanted(rt)? {
        return Ok(());
    }
    let mut to = OpenOptions::new().read(true).append(true).open(rt, REPORT)?;
    let (fault, first) = match notes.first {
        Some(first) => (first.fault, first.number),
        None => (0, 0),
    };
    let unreadable = notes.unreadable;
    let lines = notes.lines;
    writeln!(to, "{fault} {unreadable} {lines} {first}")
}

// Whether a write failed since nobody reads the answers any more.
fn is_reader_gone(why: Failure, cause: Option<io::Error>) -> bool
    ensures { IsTrue result ↔ ((why ≡ Failure.WriteFailed) × IsSomeAnd cause (λ e. error_kind e ≡ BrokenPipe)) }
{
    why == Failure::WriteFailed && cause.is_some_and(|e| e.kind() == ErrorKind::BrokenPipe)
}

fn main(rt: HostRuntime) -> ExitCode {
    let mut talk = Talk::new(Ends::new(&rt, rt.stdin(), rt.stdout()));
    let mut input = [0u8; 65536];
    let mut bytes = [0u8; 65536];
    let mut out = Room { bytes: &mut bytes };
    let why = match talk.speak(&mut input, &mut out) {
        Ok(notes) => {
            // Where descriptor 3 is not open, nobody asks for the report.
            let _ = report(&rt, notes);
            return ExitCode::SUCCESS;
        }
        Err(why) => why,
    };
    let cause = talk.ends.failure();
    if is_reader_gone(why, cause) {
        return ExitCode::from(READER_GONE);
    }
    // A sentence that cannot be shown changes nothing.
    let _ = match cause {
        Some(cause) => eprintln!(rt; "session: {why}: {cause}"),
        None => eprintln!(rt; "session: {why}"),
    };
    ExitCode::FAILURE
}

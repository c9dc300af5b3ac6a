// Reads and writes that are made again where the system asks for it.
ghost use Rattle.std.specs.Prelude.{◌≡◌, ◌↔◌, ◌≤◌, ◌<◌, false, IfErr, IfOk, IsSomeAnd, Some, length, take};
ghost use Rattle.std.specs.Io.KnownBytes.{Appends, ReadConsumes};
ghost use Rattle.talk.specs.Talk.{IsFinal, IsPrefixLen};

use std::io::{ErrorKind, Read, Write};
use std::time::{Clock, Duration};
use std::{io, thread};

// Waits a thousandth of a second.
fn pause<C: Clock>(clock: &C) {
    thread::sleep(clock, Duration::from_millis(1));
}

// Where the input of a session comes from and where its answers go, the clock by which either is waited for, and why a read or a write has failed.
#[derive(Drop)]
pub struct Ends<'a, C, R, W> {
    clock: &'a C,
    from: R,
    to: W,
    // Beside the session's Failure and not in it: contracts say of an outcome which failure it is (`how ≡ write_failed`), whatever its cause was.
    failure: Option<io::Error>,
}

impl<'a, C: Clock, R: Read, W: Write> Ends<'a, C, R, W> {
    pub fn new(clock: &'a C, from: R, to: W) -> Ends<'a, C, R, W>
        ensures reader { result.from ≡ from }
        ensures writer { result.to ≡ to }
    {
        Ends {
            clock,
            from,
            to,
            failure: None,
        }
    }

    pub fn failure(&self) -> Option<io::Error>
        ensures { result ≡ self.now.failure }
    {
        self.failure
    }

    // Whether a call that failed so is to be made again: it was interrupted, or its end was not ready, and then a while has passed.
    fn again(&self, error: &io::Error) -> bool
        ensures { result ≡ false ↔ IsFinal error.now }
    {
        let kind = error.kind();
        if kind == ErrorKind::WouldBlock {
            pause(self.clock);
            return true;
        }
        kind == ErrorKind::Interrupted
    }

    // A part of the input: how many bytes of it are in input now, 0 at its end, or why the read failed.
    pub fn read_part(&mut self, input: &mut [u8]) -> io::Result<usize>
        ensures room { IfOk result (λ n. n ≤ length input.old) }
        ensures same { length input.new ≡ length input.old }
        ensures writer { self.new.to ≡ self.old.to }
        ensures bytes { ReadConsumes (R.remaining self.old.from) (R.remaining self.new.from) result input.new }
        ensures failure { IfErr result (λ e. IsFinal e × (self.new.failure ≡ Some e)) }
    {
        for _ in 0..u64::MAX {
            match self.from.read(input) {
                Ok(got) => return Ok(got),
                Err(error) => {
                    if !self.again(&error) {
                        self.failure = Some(error);
                        return Err(error);
                    }
                }
            }
        }
        let error = io::Error::from(ErrorKind::TimedOut);
        self.failure = Some(error);
        Err(error)
    }

    // Writes the bytes, and answers how many of them were taken: fewer than all only where a write failed. The answer is a count, so it counts, and does
    // not walk down what is left of the bytes.
    pub fn write_out(&mut self, bytes: &[u8]) -> usize
        ensures counts { IsPrefixLen result bytes.now }
        ensures reader { self.new.from ≡ self.old.from }
        ensures bytes { Appends (W.contents self.old.to) (W.contents self.new.to) (take result bytes.now) }
        ensures failure { result < length bytes.now → IsSomeAnd self.new.failure IsFinal }
    {
        let mut taken = 0;
        for _ in 0..u64::MAX {
            if taken >= bytes.len() {
                return taken;
            }
            match self.to.write(&bytes[taken..]) {
                Ok(0) => pause(self.clock),
                Ok(took) => taken += took,
                Err(error) => {
                    if !self.again(&error) {
                        self.failure = Some(error);
                        return taken;
                    }
                }
            }
        }
        self.failure = Some(io::Error::from(ErrorKind::TimedOut));
        taken
    }
}

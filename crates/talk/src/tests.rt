// Sessions over memory, and over ends that are interrupted, not ready, slow or broken: what no contract says of the calls that are made again.
use super::*;
use std::alloc::Global;
use std::cell::Cell;
use std::time::Duration;

// A clock that only counts how often it was waited by it.
#[derive(Drop)]
struct Waits {
    count: Cell<u64>,
}

impl Clock for Waits {
    fn monotonic(&self) -> io::Result<Duration> {
        Ok(Duration::ZERO)
    }

    fn since_1970(&self) -> io::Result<Duration> {
        Ok(Duration::ZERO)
    }

    fn sleep(&self, _duration: Duration) {
        self.count.set(self.count.get().saturating_add(1));
    }
}

// Three bytes at most a read, and before each an interruption and an end that is not ready; then the end of the input, or a failure.
#[derive(Drop)]
struct Uneasy<'a> {
    input: &'a [u8],
    fails: bool,
    turn: u64,
}

impl Read for Uneasy<'_> {
    fn read(&mut self, buf: &mut [u8]) -> io::Result<usize> {
        let turn = self.turn;
        self.turn = turn.wrapping_add(1);
        if turn % 3 == 0 {
            return Err(io::Error::from(ErrorKind::Interrupted));
        }
        if turn % 3 == 1 {
            return Err(io::Error::from(ErrorKind::WouldBlock));
        }
        if self.fails && self.input.is_empty() {
            return Err(io::Error::from(ErrorKind::ConnectionReset));
        }
        let most = buf.len().min(3);
        self.input.read(&mut buf[..most])
    }
}

// Five bytes at most a write, and before each an interruption, an end that is not ready, and a write of nothing; then it is full.
#[derive(Drop)]
struct Slow<'a> {
    taken: &'a mut Vec<u8, Global>,
    room: usize,
    turn: u64,
}

impl Write for Slow<'_> {
    fn write(&mut self, buf: &[u8]) -> io::Result<usize> {
        let turn = self.turn;
        self.turn = turn.wrapping_add(1);
        if turn % 4 == 0 {
            return Err(io::Error::from(ErrorKind::Interrupted));
        }
        if turn % 4 == 1 {
            return Err(io::Error::from(ErrorKind::WouldBlock));
        }
        if turn % 4 == 2 {
            return Ok(0);
        }
        if self.room == 0 {
            return Err(io::Error::from(ErrorKind::StorageFull));
        }
        let most = buf.len().min(5).min(self.room);
        self.taken.extend_from_slice(&buf[..most])?;
        self.room -= most;
        Ok(most)
    }

    fn flush(&mut self) -> io::Result<()> {
        Ok(())
    }
}

const INPUT: &[u8] = b"c 0\nq\ni 0 0";

const ANSWERS: &[u8] = b"0 0 0\n99 0 0\n0 0 0\n";

#[test]
fn over_memory(rt: HostRuntime) {
    let mut input = [0u8; 100];
    let mut bytes = [0u8; 2000];
    let mut out = Room { bytes: &mut bytes };
    let mut taken = Vec::new(rt.alloc());
    let mut talk = Talk::new(Ends::new(&rt, INPUT, &mut taken));
    let spoken = talk.speak(&mut input, &mut out);
    assert_eq!(rt; spoken.err(), None);
    assert!(rt; talk.ends.failure().is_none());
    assert!(rt; taken.as_slice() == ANSWERS);
}

// A session over uneasy ends, whose input fails at its end or not, with room for so many bytes of answers.
fn over(
    waits: &Waits,
    fails: bool,
    taken: &mut Vec<u8, Global>,
    room: usize,
) -> (Option<Failure>, Option<io::Error>) {
    let mut input = [0u8; 100];
    let mut bytes = [0u8; 2000];
    let mut out = Room { bytes: &mut bytes };
    let from = Uneasy {
        input: INPUT,
        fails,
        turn: 0,
    };
    let to = Slow {
        taken,
        room,
        turn: 0,
    };
    let mut talk = Talk::new(Ends::new(waits, from, to));
    let spoken = talk.speak(&mut input, &mut out);
    (spoken.err(), talk.ends.failure())
}

#[test]
fn over_uneasy_ends(rt: HostRuntime) {
    let waits = Waits {
        count: Cell::new(0),
    };
    let mut taken = Vec::new(rt.alloc());
    let (why, cause) = over(&waits, false, &mut taken, 100);
    assert_eq!(rt; why, None);
    assert!(rt; cause.is_none());
    assert!(rt; taken.as_slice() == ANSWERS);
    // once for each of five reads, and twice for each of five writes
    assert_eq!(rt; waits.count.get(), 15);
}

#[test]
fn a_failed_read_is_no_end(rt: HostRuntime) {
    let waits = Waits {
        count: Cell::new(0),
    };
    let mut taken = Vec::new(rt.alloc());
    let (why, cause) = over(&waits, true, &mut taken, 100);
    assert_eq!(rt; why, Some(Failure::ReadFailed));
    assert!(rt; matches!(cause, Some(e) if e.kind() == ErrorKind::ConnectionReset));
    assert!(rt; taken.as_slice() == &ANSWERS[..13]);
}

#[test]
fn a_failed_write_is_the_last(rt: HostRuntime) {
    let waits = Waits {
        count: Cell::new(0),
    };
    let mut taken = Vec::new(rt.alloc());
    let (why, cause) = over(&waits, false, &mut taken, 8);
    assert_eq!(rt; why, Some(Failure::WriteFailed));
    assert!(rt; matches!(cause, Some(e) if e.kind() == ErrorKind::StorageFull));
    assert!(rt; taken.as_slice() == &ANSWERS[..8]);
}

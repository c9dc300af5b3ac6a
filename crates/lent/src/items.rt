// The lent desk: put, the three gets, consume, consume until.
ghost use Rattle.std.specs.Prelude.{◌≡◌};
ghost use Rattle.calls.specs.declared.Which.TheVariants.{Earliest, Latest, Named};
ghost use Rattle.calls.specs.Calls.{put, get, consume, consume_until};
ghost use Rattle.desk.specs.Calls.{step};
ghost use Rattle.lent.specs.Lent.{lent_back};

use crate::stored;
use calls::Which;
use desk::{Desk, Next};
use rows::Answer;

// The by-value get, with one caller, so that it is compiled into it. Made by `get` itself, it would copy the desk once more.
fn got(desk: Desk, thread: u32, connection: u32, which: Which) -> Next
    ensures { result ≡ step desk (get thread connection which) }
{
    desk.get(thread, connection, which)
}

// The three gets are this one.
fn get(desk: &mut Desk, thread: u32, connection: u32, which: Which) -> Answer
    ensures { lent_back result desk.new ≡ step desk.old (get thread connection which) }
{
    let next = got(*desk, thread, connection, which);
    stored(desk, next)
}

#[unsafe(no_mangle)]
pub extern "C" fn desk_put(
    desk: &mut Desk,
    thread: u32,
    connection: u32,
    timestamp: u32,
    ticket: u64,
) -> Answer
    ensures { lent_back result desk.new ≡ step desk.old (put thread connection timestamp ticket) }
{
    let next = desk.put(thread, connection, timestamp, ticket);
    stored(desk, next)
}

#[unsafe(no_mangle)]
pub extern "C" fn desk_get_earliest(desk: &mut Desk, thread: u32, connection: u32) -> Answer
    ensures { lent_back result desk.new ≡ step desk.old (get thread connection Earliest) }
{
    get(desk, thread, connection, Which::Earliest)
}

#[unsafe(no_mangle)]
pub extern "C" fn desk_get_latest(desk: &mut Desk, thread: u32, connection: u32) -> Answer
    ensures { lent_back result desk.new ≡ step desk.old (get thread connection Latest) }
{
    get(desk, thread, connection, Which::Latest)
}

#[unsafe(no_mangle)]
pub extern "C" fn desk_get_named(
    desk: &mut Desk,
    thread: u32,
    connection: u32,
    timestamp: u32,
) -> Answer
    ensures { lent_back result desk.new ≡ step desk.old (get thread connection (Named timestamp)) }
{
    get(desk, thread, connection, Which::Named(timestamp))
}

#[unsafe(no_mangle)]
pub extern "C" fn desk_consume(
    desk: &mut Desk,
    thread: u32,
    connection: u32,
    timestamp: u32,
) -> Answer
    ensures { lent_back result desk.new ≡ step desk.old (consume thread connection timestamp) }
{
    let next = desk.consume(thread, connection, timestamp);
    stored(desk, next)
}

#[unsafe(no_mangle)]
pub extern "C" fn desk_consume_until(
    desk: &mut Desk,
    thread: u32,
    connection: u32,
    timestamp: u32,
) -> Answer
    ensures { lent_back result desk.new ≡ step desk.old (consume_until thread connection timestamp) }
{
    let next = desk.consume_until(thread, connection, timestamp);
    stored(desk, next)
}

// What a host in C, Rust or Python links: the lent calls by their names in C. A crate is a library or a static library and not both, so each
// export calls the function of lent that has its name, and promises the same.
#![tactic(auto)]

ghost use Rattle.std.specs.Prelude.{◌≡◌};
ghost use Rattle.calls.specs.Calls.{attach_input, attach_output, consume, consume_until, detach, end, get, new_channel, new_thread, put, set_time, strong_sweep, weak_sweep};
ghost use Rattle.calls.specs.Questions.{ask_items_present, ask_state_of, ask_strong_bound, ask_visible_time, ask_weak_bound};
ghost use Rattle.calls.specs.declared.Which.TheVariants.{Earliest, Latest, Named};
ghost use Rattle.desk.specs.Calls.{slice_after, step};
ghost use Rattle.desk.specs.Desk.{fresh};
ghost use Rattle.desk.specs.Questions.{reply};
ghost use Rattle.lent.specs.Lent.{lent_back};

use desk::Desk;
use rows::Answer;

#[unsafe(no_mangle)]
pub extern "C" fn desk_fresh() -> Desk
    ensures { result ≡ fresh }
{
    lent::desk_fresh()
}

#[unsafe(no_mangle)]
pub extern "C" fn desk_channel(desk: &mut Desk, thread: u32) -> Answer
    ensures { lent_back result desk.new ≡ step desk.old (new_channel thread) }
{
    lent::threads::desk_channel(desk, thread)
}

#[unsafe(no_mangle)]
pub extern "C" fn desk_new_thread(desk: &mut Desk, thread: u32, time: u32) -> Answer
    ensures { lent_back result desk.new ≡ step desk.old (new_thread thread time) }
{
    lent::threads::desk_new_thread(desk, thread, time)
}

#[unsafe(no_mangle)]
pub extern "C" fn desk_end(desk: &mut Desk, thread: u32) -> Answer
    ensures { lent_back result desk.new ≡ step desk.old (end thread) }
{
    lent::threads::desk_end(desk, thread)
}

#[unsafe(no_mangle)]
pub extern "C" fn desk_set(desk: &mut Desk, thread: u32, time: u32) -> Answer
    ensures { lent_back result desk.new ≡ step desk.old (set_time thread time) }
{
    lent::threads::desk_set(desk, thread, time)
}

#[unsafe(no_mangle)]
pub extern "C" fn desk_attach_input(desk: &mut Desk, thread: u32, channel: u32) -> Answer
    ensures { lent_back result desk.new ≡ step desk.old (attach_input thread channel) }
{
    lent::connections::desk_attach_input(desk, thread, channel)
}

#[unsafe(no_mangle)]
pub extern "C" fn desk_attach_output(desk: &mut Desk, thread: u32, channel: u32) -> Answer
    ensures { lent_back result desk.new ≡ step desk.old (attach_output thread channel) }
{
    lent::connections::desk_attach_output(desk, thread, channel)
}

#[unsafe(no_mangle)]
pub extern "C" fn desk_detach(desk: &mut Desk, thread: u32, connection: u32) -> Answer
    ensures { lent_back result desk.new ≡ step desk.old (detach thread connection) }
{
    lent::connections::desk_detach(desk, thread, connection)
}

#[unsafe(no_mangle)]
pub extern "C" fn desk_put(
    desk: &mut Desk,
    thread: u32,
    connection: u32,
    timestamp: u32,
    ticket: u64,
) -> Answer
    ensures { lent_back result desk.new ≡ step desk.old (put thread connection timestamp ticket) }
{
    lent::items::desk_put(desk, thread, connection, timestamp, ticket)
}

#[unsafe(no_mangle)]
pub extern "C" fn desk_get_earliest(desk: &mut Desk, thread: u32, connection: u32) -> Answer
    ensures { lent_back result desk.new ≡ step desk.old (get thread connection Earliest) }
{
    lent::items::desk_get_earliest(desk, thread, connection)
}

#[unsafe(no_mangle)]
pub extern "C" fn desk_get_latest(desk: &mut Desk, thread: u32, connection: u32) -> Answer
    ensures { lent_back result desk.new ≡ step desk.old (get thread connection Latest) }
{
    lent::items::desk_get_latest(desk, thread, connection)
}

#[unsafe(no_mangle)]
pub extern "C" fn desk_get_named(
    desk: &mut Desk,
    thread: u32,
    connection: u32,
    timestamp: u32,
) -> Answer
    ensures { lent_back result desk.new ≡ step desk.old (get thread connection (Named timestamp)) }
{
    lent::items::desk_get_named(desk, thread, connection, timestamp)
}

#[unsafe(no_mangle)]
pub extern "C" fn desk_consume(
    desk: &mut Desk,
    thread: u32,
    connection: u32,
    timestamp: u32,
) -> Answer
    ensures { lent_back result desk.new ≡ step desk.old (consume thread connection timestamp) }
{
    lent::items::desk_consume(desk, thread, connection, timestamp)
}

#[unsafe(no_mangle)]
pub extern "C" fn desk_consume_until(
    desk: &mut Desk,
    thread: u32,
    connection: u32,
    timestamp: u32,
) -> Answer
    ensures { lent_back result desk.new ≡ step desk.old (consume_until thread connection timestamp) }
{
    lent::items::desk_consume_until(desk, thread, connection, timestamp)
}

#[unsafe(no_mangle)]
pub extern "C" fn desk_weak_sweep(desk: &mut Desk, slice: &mut [u64]) -> Answer
    ensures { (lent_back result desk.new ≡ step desk.old (weak_sweep slice.old)) × (slice.new ≡ slice_after desk.old (weak_sweep slice.old)) }
{
    lent::sweeps::desk_weak_sweep(desk, slice)
}

#[unsafe(no_mangle)]
pub extern "C" fn desk_strong_sweep(desk: &mut Desk, slice: &mut [u64]) -> Answer
    ensures { (lent_back result desk.new ≡ step desk.old (strong_sweep slice.old)) × (slice.new ≡ slice_after desk.old (strong_sweep slice.old)) }
{
    lent::sweeps::desk_strong_sweep(desk, slice)
}

#[unsafe(no_mangle)]
pub extern "C" fn desk_visible_time(desk: &Desk, thread: u32) -> Answer
    ensures { result ≡ reply desk.now (ask_visible_time thread) }
{
    lent::questions::desk_visible_time(desk, thread)
}

#[unsafe(no_mangle)]
pub extern "C" fn desk_weak_bound(desk: &Desk) -> Answer
    ensures { result ≡ reply desk.now ask_weak_bound }
{
    lent::questions::desk_weak_bound(desk)
}

#[unsafe(no_mangle)]
pub extern "C" fn desk_strong_bound(desk: &Desk) -> Answer
    ensures { result ≡ reply desk.now ask_strong_bound }
{
    lent::questions::desk_strong_bound(desk)
}

#[unsafe(no_mangle)]
pub extern "C" fn desk_state(desk: &Desk, connection: u32, timestamp: u32) -> Answer
    ensures { result ≡ reply desk.now (ask_state_of connection timestamp) }
{
    lent::questions::desk_state(desk, connection, timestamp)
}

#[unsafe(no_mangle)]
pub extern "C" fn desk_items_present(desk: &Desk) -> Answer
    ensures { result ≡ reply desk.now ask_items_present }
{
    lent::questions::desk_items_present(desk)
}

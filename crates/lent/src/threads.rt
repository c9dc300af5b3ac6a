// The lent desk: channel, new thread, end, set.
ghost use Rattle.std.specs.Prelude.{◌≡◌};
ghost use Rattle.calls.specs.Calls.{new_channel, new_thread, end, set_time};
ghost use Rattle.desk.specs.Calls.{step};
ghost use Rattle.lent.specs.Lent.{lent_back};

use crate::stored;
use desk::Desk;
use rows::Answer;

#[unsafe(no_mangle)]
pub extern "C" fn desk_channel(desk: &mut Desk, thread: u32) -> Answer
    ensures { lent_back result desk.new ≡ step desk.old (new_channel thread) }
{
    let next = desk.channel(thread);
    stored(desk, next)
}

#[unsafe(no_mangle)]
pub extern "C" fn desk_new_thread(desk: &mut Desk, thread: u32, time: u32) -> Answer
    ensures { lent_back result desk.new ≡ step desk.old (new_thread thread time) }
{
    let next = desk.new_thread(thread, time);
    stored(desk, next)
}

#[unsafe(no_mangle)]
pub extern "C" fn desk_end(desk: &mut Desk, thread: u32) -> Answer
    ensures { lent_back result desk.new ≡ step desk.old (end thread) }
{
    let next = desk.end(thread);
    stored(desk, next)
}

#[unsafe(no_mangle)]
pub extern "C" fn desk_set(desk: &mut Desk, thread: u32, time: u32) -> Answer
    ensures { lent_back result desk.new ≡ step desk.old (set_time thread time) }
{
    let next = desk.set(thread, time);
    stored(desk, next)
}

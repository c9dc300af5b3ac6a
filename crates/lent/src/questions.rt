// The lent desk: questions, which only read it.
ghost use Rattle.std.specs.Prelude.{◌≡◌};
ghost use Rattle.calls.specs.Questions.{ask_visible_time, ask_weak_bound, ask_strong_bound, ask_state_of, ask_items_present};
ghost use Rattle.desk.specs.Questions.{reply};

use desk::Desk;
use rows::Answer;

#[unsafe(no_mangle)]
pub extern "C" fn desk_visible_time(desk: &Desk, thread: u32) -> Answer
    ensures { result ≡ reply desk.now (ask_visible_time thread) }
{
    desk.visible_time(thread)
}

#[unsafe(no_mangle)]
pub extern "C" fn desk_weak_bound(desk: &Desk) -> Answer
    ensures { result ≡ reply desk.now ask_weak_bound }
{
    desk.weak_bound()
}

#[unsafe(no_mangle)]
pub extern "C" fn desk_strong_bound(desk: &Desk) -> Answer
    ensures { result ≡ reply desk.now ask_strong_bound }
{
    desk.strong_bound()
}

#[unsafe(no_mangle)]
pub extern "C" fn desk_state(desk: &Desk, connection: u32, timestamp: u32) -> Answer
    ensures { result ≡ reply desk.now (ask_state_of connection timestamp) }
{
    desk.state(connection, timestamp)
}

#[unsafe(no_mangle)]
pub extern "C" fn desk_items_present(desk: &Desk) -> Answer
    ensures { result ≡ reply desk.now ask_items_present }
{
    desk.items_present()
}

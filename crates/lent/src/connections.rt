// The lent desk: attach input, attach output, detach.
ghost use Rattle.std.specs.Prelude.{◌≡◌};
ghost use Rattle.calls.specs.Calls.{attach_input, attach_output, detach};
ghost use Rattle.desk.specs.Calls.{step};
ghost use Rattle.lent.specs.Lent.{lent_back};

use crate::stored;
use desk::Desk;
use rows::Answer;

#[unsafe(no_mangle)]
pub extern "C" fn desk_attach_input(desk: &mut Desk, thread: u32, channel: u32) -> Answer
    ensures { lent_back result desk.new ≡ step desk.old (attach_input thread channel) }
{
    let next = desk.attach_input(thread, channel);
    stored(desk, next)
}

#[unsafe(no_mangle)]
pub extern "C" fn desk_attach_output(desk: &mut Desk, thread: u32, channel: u32) -> Answer
    ensures { lent_back result desk.new ≡ step desk.old (attach_output thread channel) }
{
    let next = desk.attach_output(thread, channel);
    stored(desk, next)
}

#[unsafe(no_mangle)]
pub extern "C" fn desk_detach(desk: &mut Desk, thread: u32, connection: u32) -> Answer
    ensures { lent_back result desk.new ≡ step desk.old (detach thread connection) }
{
    let next = desk.detach(thread, connection);
    stored(desk, next)
}

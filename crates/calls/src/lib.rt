// What a program can ask of a desk, as data: the code, the rules and the lines of a session speak of the same calls.
#![tactic(auto)]

pub mod states;

// What a timestamp is on an input connection.
#[derive(Clone, Copy)]
pub enum State {
    Absent,
    Unseen,
    Open,
    Consumed,
}

// Which item a get asks for.
#[derive(Clone, Copy)]
pub enum Which {
    Earliest,
    Latest,
    Named(u32),
}

// What a thread can do.
#[derive(Clone, Copy)]
pub enum Deed {
    // a new channel
    Channel,
    // a new thread with this virtual time
    NewThread(u32),
    // a new input, output connection to this channel
    AttachInput(u32),
    AttachOutput(u32),
    // this connection is given up
    Detach(u32),
    // the thread's end
    End,
    // another virtual time
    Set(u32),
    // through a connection, at a timestamp, a ticket
    Put(u32, u32, u64),
    // through a connection
    Get(u32, Which),
    // on a connection, a timestamp
    Consume(u32, u32),
    ConsumeUntil(u32, u32),
}

// The bound that a sweep takes.
#[derive(Clone, Copy)]
pub enum Bound {
    Weak,
    Strong,
}

// A call: a thread's deed, or a sweep, which names no thread.
#[derive(Clone, Copy)]
pub enum Call {
    By(u32, Deed),
    Sweep(Bound),
}

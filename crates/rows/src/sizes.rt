// How many places each table has.
pub const THREADS: u32 = 16;

pub const CHANNELS: u32 = 8;

pub const CONNECTIONS: u32 = 32;

pub const ITEMS: u32 = 64;

// What leaves the desk by a sweep, a detach or an end, and the columns afterwards. A column is lent to what changes it, so that none is copied.
#![tactic(auto)]

pub mod freed;
pub mod handed;
pub mod swept;

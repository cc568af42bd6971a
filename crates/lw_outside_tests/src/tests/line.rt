//! What no clause says: lines by hand, faults at each call, and the order of the calls.

mod asking;
mod calls;
mod free_names;
mod journal;
mod lines;
mod noting;
mod scripted;
mod served;
mod session;
mod streams;

//! The session: a core and the events of a log that were accepted so far.
//!
//! `Session::start` gives the session of a core, before the first event, and `Session::step` handles one event: the
//! session accepts it and answers it, or refuses it and stays as it was, or runs out of memory. These three are defined
//! in `specs/Stepping.antt`, over the moments of a log that a session stands for (`specs/Standing.antt`).
#![tactic(auto)]

mod asking;
mod hosts;
mod listing;
mod memory;
mod old_entries;
mod session;
mod writes;

pub use session::Session;

#[cfg(test)]
mod tests;

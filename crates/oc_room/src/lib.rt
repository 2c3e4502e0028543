//! The room of a file, in blocks: where things are placed, what finds no room, and what is given back.
#![tactic(auto)]

mod around;
mod fault;
mod laws;
mod room;
#[cfg(test)]
mod tests;

pub use fault::RoomFault;
pub use room::Room;

//! The redo log and its gate: the cells of a commit are put in all together or not at all, wherever a stop comes.
#![tactic(auto)]

mod applying;
mod cells;
mod draft;
mod fault;
mod gate;
mod preparing;
mod recovery;
mod states;
mod whole;

pub use applying::apply;
pub use cells::Cells;
pub use draft::Draft;
pub use fault::LogFault;
pub use gate::{close_gate, open_gate};
pub use preparing::prepare;
pub use recovery::recover;
pub use states::{Applied, Opened, Prepared};
pub use whole::put_in;

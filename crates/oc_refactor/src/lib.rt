//! What the commands on classes and fields make of a schema, or why they are refused. The schema that is handed in stays.
#![tactic(auto)]

mod convert;
mod declaration;
mod fields;
mod index;
mod limits;
mod names;
mod past;
mod related;
mod rename;
mod stated;

pub use convert::{ConvertFault, ConvertPlan, convert_plan};
pub use declaration::{DeclareFault, declare};
pub use index::{IndexFault, set_index};
pub use rename::{RenameClassFault, RenameFieldFault, rename_class, rename_field};

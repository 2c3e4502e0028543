//! Schemas: classes with their fields, which keep every rule of the catalog.
#![tactic(auto)]

mod class_rules;
mod distinct;
mod draft;
mod entries;
mod fields;
mod schema;

pub use class_rules::is_name;
pub use fields::latest_past;
pub use oc_model::command::{Decl as FieldText, Decls as FieldTexts};
pub use oc_model::schema::{ClassDef, FieldDef, Fields};
pub use schema::{Classes, Schema};

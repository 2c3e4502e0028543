//! The plain data that every definition speaks of: values, schemas, records, commands and answers.
//!
//! The definitions on them stand in `specs/`. A layer's crate passes on the types that it offers.
//! A law of the definitions is a clause of a function that does nothing, in one of the modules `laws_..`.
#![tactic(auto)]

pub mod answer;
pub mod command;
pub mod laws_candidates;
pub mod laws_conversions;
pub mod laws_maps;
pub mod laws_orders;
pub mod laws_queries;
pub mod laws_schemas;
pub mod laws_spelling;
pub mod laws_states;
pub mod laws_stores;
pub mod laws_walks;
pub mod query;
pub mod reach;
pub mod schema;
pub mod value;

//! Tests of schemas: the collections that share nodes, the classes, and the commands that change them. There is nothing but
//! tests here.
#![tactic(auto)]

#[cfg(test)]
mod refactor;
#[cfg(test)]
mod schema;
#[cfg(test)]
mod shared;

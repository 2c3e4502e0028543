//! Tests of the lists of a store: chunks, and what stands in them. There is nothing but
//! tests here.
#![tactic(auto)]

#[cfg(test)]
mod chunks;
#[cfg(test)]
mod index;

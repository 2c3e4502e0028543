//! Tests of the object store over a host in memory: files that are attached, and changes, commits and rollbacks against plain maps of
//! what the store has. There is nothing but tests here.
#![tactic(auto)]

#[cfg(test)]
mod attaching;
#[cfg(test)]
mod changing;
#[cfg(test)]
mod large;
#[cfg(test)]
mod plain;
#[cfg(test)]
mod shapes;
#[cfg(test)]
mod stepping;
#[cfg(test)]
mod stopping;
#[cfg(test)]
mod trial;
#[cfg(test)]
mod unwritten;
#[cfg(test)]
mod wide;

//! Tests of what stands under the slots: hosts, the redo log and the pages. There is nothing but tests here.
#![tactic(auto)]

#[cfg(test)]
mod host;
#[cfg(test)]
mod log;
#[cfg(test)]
mod pages;

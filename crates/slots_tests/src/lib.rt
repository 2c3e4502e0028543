//! Tests of the slot store over a host in memory: files that are attached, slots that are changed, committed and read again, and
//! what is kept of them. There is nothing but tests here.
#![tactic(auto)]

#[cfg(test)]
mod attaching;
#[cfg(test)]
mod changing;
#[cfg(test)]
mod committing;
#[cfg(test)]
mod keeping;
#[cfg(test)]
mod trial;

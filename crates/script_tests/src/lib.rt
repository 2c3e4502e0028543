//! Tests of the lines of a script: what they read as, what is printed, and runs over memory. There is nothing but
//! tests here.
#![tactic(auto)]

#[cfg(test)]
mod print;
#[cfg(test)]
mod run;
#[cfg(test)]
mod script;

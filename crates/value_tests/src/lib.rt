//! Tests of what turns values into bytes and into other values: records, catalogs, segments and conversions. There is nothing but
//! tests here.
#![tactic(auto)]

#[cfg(test)]
mod catalog;
#[cfg(test)]
mod convert;
#[cfg(test)]
mod marshal;
#[cfg(test)]
mod segments;

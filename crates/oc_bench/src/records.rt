//! Records read from their bytes.

use crate::fault::Fault;
use oc_marshal::decode;
use std::alloc::{AllocError, Global};

/// A record of class 1 up to its last value: the text `Michael` under the id 1, and the id 2 with its kind, i32.
const FRONT: &[u8] = b"\0\0\0\x01\0\x02\0\0\0\x01\x06\x01\0\0\0\x07Michael\0\0\0\x02\x04";

/// Decodes so many records, each from bytes of its own. The entries that are read.
pub fn entries_decoded(alloc: Global, count: u32) -> Result<u64, Fault> {
    let mut read: u64 = 0;
    for number in 0..count {
        let bytes = record_of(alloc, number)?;
        let record = decode(alloc, bytes.as_slice())?;
        read = read.wrapping_add(record.entries.len() as u64);
    }
    Ok(read)
}

/// The bytes of the record with this number as its last value.
fn record_of(alloc: Global, number: u32) -> Result<Vec<u8>, AllocError> {
    let mut bytes = Vec::from_slice(alloc, FRONT)?;
    bytes.extend_from_slice(&number.to_be_bytes())?;
    Ok(bytes)
}

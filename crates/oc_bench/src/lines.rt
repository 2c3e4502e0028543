//! Lines read and answers printed.

use crate::fault::Fault;
use oc_model::answer::{Answer, Mark, ObjectLine, Shown, ShownAtom, ShownField, ShownValue};
use oc_model::value::Txt;
use oc_print::answer_text;
use oc_script::parse_line;
use sqlite_items::Items;
use std::alloc::{AllocError, Global};

/// Reads so many lines, and prints an answer for each that is a command. The bytes that are printed.
pub fn bytes_answered(alloc: Global, count: u32) -> Result<u64, Fault> {
    let mut printed: u64 = 0;
    for number in 0..count {
        let line = line_of(alloc, number)?;
        if parse_line(alloc, line.as_bytes())?.is_some() {
            let text = answer_text(alloc, &answer_to(alloc, number)?)?;
            printed = printed.wrapping_add(text.len() as u64);
        }
    }
    Ok(printed)
}

/// A line of one of four sorts by turns.
fn line_of(alloc: Global, number: u32) -> Result<String, AllocError> {
    match number % 4 {
        0 => format!(in alloc; "make Pilot {{ name: \"P{number}\", points: {number} }}"),
        1 => format!(in alloc; "make Car {{ model: \"M{number}\", pilot: ~{number} }}"),
        2 => format!(in alloc;
            "query Pilot where points > {number} and not name = \"P{number}\" order points desc"
        ),
        _ => format!(in alloc; "let car.pilot = ~{number}"),
    }
}

/// An answer of one of two sorts by turns: a record that was written, or an object that was found.
fn answer_to(alloc: Global, number: u32) -> Result<Answer, AllocError> {
    if number % 2 == 0 {
        return Ok(Answer::Stored { number, count: 1 });
    }
    let mut fields = Vec::new(alloc);
    fields.push(ShownField {
        name: Txt::from_slice(alloc, b"points")?,
        value: ShownValue::One(ShownAtom::Int(number.into())),
    })?;
    let mut found = Vec::new(alloc);
    found.push(ObjectLine {
        mark: Mark::Number(number),
        class: Txt::from_slice(alloc, b"Pilot")?,
        fields: Shown::Fields(Items::from_vec(fields)),
    })?;
    Ok(Answer::Found(Items::from_vec(found)))
}

/// Reads a line of so many bytes, an array in which each element is one digit, two hundred times.
/// The bytes that are read.
pub fn numbers_read(alloc: Global, bytes: u32) -> Result<u64, Fault> {
    let mut line = String::from_str(alloc, "make A { a: [7")?;
    for _element in 0..bytes.saturating_sub(18) / 2 {
        line.push_str(",7")?;
    }
    line.push_str("] }")?;
    let mut read: u64 = 0;
    for _turn in 0..200 {
        if parse_line(alloc, line.as_bytes())?.is_some() {
            read = read.wrapping_add(line.len() as u64);
        }
    }
    Ok(read)
}

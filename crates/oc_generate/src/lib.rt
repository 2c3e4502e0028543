//! The generated script: pilots, cars and readings, and queries over them.
#![tactic(auto)]

ghost use Rattle.std.specs.Prelude.{◌≡◌, ◌++◌, ◌+◌, ◌≤◌, IfOk, OnOk, decimal};
ghost use Rattle.oc_machine.specs.Generated.{pilot_line, car_line, reading_line, commit_line, lines_of_one, generated};
ghost use Rattle.oc_generate.specs.Lines.{reading_front};

use std::alloc::{AllocError, Global};

#[cfg(test)]
mod tests;

/// The classes and the indexes.
const FIRST_LINES: &[u8] = b"class Pilot { name: text, points: i32 }
class Car { model: text, pilot: ref }
class Reading { car: ref, value: i64, at: i32 }
index Pilot.points
index Reading.at
";

/// A rename, three queries and a commit.
const LAST_LINES: &[u8] = b"rename Car.model to label
query Pilot where points > 90 order points desc
query Car where pilot.points = 37
query Reading where at >= 10 and at < 20 and car.pilot.points > 50
commit
";

/// The script that makes `count` objects of each of its three classes, commits behind each
/// hundredth, and then asks for some of them. `count` is 1 to 100,000.
/// Its only error is want of memory.
pub fn script_of(alloc: Global, count: u32) -> Result<Vec<u8>, AllocError>
    requires some { 1 ≤ count }
    requires few { count ≤ 100000 }
    ensures { IfOk result (λ script. script.items ≡ generated count) }
{
    let mut script = Vec::new(alloc);
    script.extend_from_slice(FIRST_LINES)?;
    for made in 0..count {
        put_lines_of_one(alloc, &mut script, made.into())?;
    }
    script.extend_from_slice(LAST_LINES)?;
    Ok(script)
}

/// Appends the lines of the objects behind so many.
fn put_lines_of_one(alloc: Global, script: &mut Vec<u8>, made: u64) -> Result<(), AllocError>
    requires few { made ≤ 100000 }
    ensures { OnOk result (script.new.items ≡ script.old.items ++ lines_of_one (made + 1)) }
{
    put_pilot(alloc, script, made + 1)?;
    put_car(alloc, script, made + 1)?;
    put_reading(alloc, script, made + 1)?;
    put_commit(script, made + 1)?;
    Ok(())
}

fn put_pilot(alloc: Global, script: &mut Vec<u8>, number: u64) -> Result<(), AllocError>
    requires few { number ≤ 100001 }
    ensures { OnOk result (script.new.items ≡ script.old.items ++ pilot_line number) }
{
    script.extend_from_slice(b"make Pilot { name: \"P")?;
    put_number(alloc, script, number)?;
    script.extend_from_slice(b"\", points: ")?;
    put_number(alloc, script, 37 * number % 101)?;
    script.extend_from_slice(b" }")?;
    script.push(b'\n')?;
    Ok(())
}

fn put_car(alloc: Global, script: &mut Vec<u8>, number: u64) -> Result<(), AllocError>
    requires some { 1 ≤ number }
    requires few { number ≤ 100001 }
    ensures { OnOk result (script.new.items ≡ script.old.items ++ car_line number) }
{
    script.extend_from_slice(b"make Car { model: \"M")?;
    put_number(alloc, script, number % 7)?;
    script.extend_from_slice(b"\", pilot: ~")?;
    put_number(alloc, script, 3 * number - 2)?;
    script.extend_from_slice(b" }")?;
    script.push(b'\n')?;
    Ok(())
}

/// Appends the front of a reading's line, up to its value.
fn put_reading_front(alloc: Global, script: &mut Vec<u8>, car: u64) -> Result<(), AllocError>
    ensures { OnOk result (script.new.items ≡ script.old.items ++ reading_front car) }
{
    script.extend_from_slice(b"make Reading { car: ~")?;
    put_number(alloc, script, car)?;
    script.extend_from_slice(b", value:")?;
    script.push(b' ')?;
    Ok(())
}

fn put_reading(alloc: Global, script: &mut Vec<u8>, number: u64) -> Result<(), AllocError>
    requires some { 1 ≤ number }
    requires few { number ≤ 100001 }
    ensures { OnOk result (script.new.items ≡ script.old.items ++ reading_line number) }
{
    put_reading_front(alloc, script, 3 * number - 1)?;
    put_number(alloc, script, number * number % 1009)?;
    script.extend_from_slice(b", at: ")?;
    put_number(alloc, script, number)?;
    script.extend_from_slice(b" }")?;
    script.push(b'\n')?;
    Ok(())
}

/// Appends a commit behind each hundredth.
fn put_commit(script: &mut Vec<u8>, number: u64) -> Result<(), AllocError>
    ensures { OnOk result (script.new.items ≡ script.old.items ++ commit_line number) }
{
    if number % 100 == 0 {
        script.extend_from_slice(b"commit\n")?;
    }
    Ok(())
}

/// Appends the number in decimal.
fn put_number(alloc: Global, script: &mut Vec<u8>, number: u64) -> Result<(), AllocError>
    ensures { OnOk result (script.new.items ≡ script.old.items ++ decimal number) }
{
    let digits = number.to_string(alloc)?;
    script.extend_from_slice(digits.as_bytes())?;
    Ok(())
}

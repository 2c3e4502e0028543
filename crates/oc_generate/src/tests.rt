use crate::script_of;
use std::test::Fail;

const FIRST: &str = "class Pilot { name: text, points: i32 }
class Car { model: text, pilot: ref }
class Reading { car: ref, value: i64, at: i32 }
index Pilot.points
index Reading.at
make Pilot { name: \"P1\", points: 37 }
make Car { model: \"M1\", pilot: ~1 }
make Reading { car: ~2, value: 1, at: 1 }
";

const LAST: &str = "make Pilot { name: \"P64\", points: 45 }
make Car { model: \"M1\", pilot: ~190 }
make Reading { car: ~191, value: 60, at: 64 }
rename Car.model to label
query Pilot where points > 90 order points desc
query Car where pilot.points = 37
query Reading where at >= 10 and at < 20 and car.pilot.points > 50
commit
";

const HUNDREDTH: &str = "make Reading { car: ~299, value: 919, at: 100 }
commit
rename Car.model to label
query Pilot where points > 90 order points desc
query Car where pilot.points = 37
query Reading where at >= 10 and at < 20 and car.pilot.points > 50
commit
";

#[test]
fn begins_and_ends_as_it_is_written(rt: HostRuntime) -> Result<(), Fail> {
    let script = script_of(rt.alloc(), 64)?;
    let text = script.as_slice();
    assert!(rt; text.starts_with(FIRST.as_bytes()));
    assert!(rt; text.ends_with(LAST.as_bytes()));
    assert_eq!(rt; text.len(), 8_168);
    assert_eq!(rt; text.iter().filter(|byte| **byte == b'\n').count(), 202);
    Ok(())
}

#[test]
fn commits_behind_each_hundredth(rt: HostRuntime) -> Result<(), Fail> {
    let script = script_of(rt.alloc(), 100)?;
    assert!(rt; script.as_slice().ends_with(HUNDREDTH.as_bytes()));
    assert_eq!(rt;
        script
            .as_slice()
            .iter()
            .filter(|byte| **byte == b'\n')
            .count(),
        311
    );
    Ok(())
}

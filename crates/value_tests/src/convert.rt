use oc_convert::convert;
use oc_value::{Atom, Atoms, Base, Kind, Txt, Value, fits};
use std::alloc::{AllocError, Global};
use std::process::Abort;
use std::test::Fail;

const BASES: [Base; 9] = [
    Base::Bool,
    Base::I8,
    Base::I16,
    Base::I32,
    Base::I64,
    Base::U64,
    Base::I128,
    Base::Text,
    Base::Ref,
];

fn text(alloc: Global, text: &str) -> Result<Atom, AllocError> {
    Ok(Atom::Text(Some(Txt::from_slice(alloc, text.as_bytes())?)))
}

fn atom_shown(alloc: Global, atom: &Atom) -> Result<String, AllocError> {
    match atom {
        Atom::Bool(truth) => format!(in alloc; "{truth}"),
        Atom::Int(number) => format!(in alloc; "{number}"),
        Atom::Text(None) => format!(in alloc; "null"),
        Atom::Text(Some(text)) => match str::from_utf8(text.as_slice()) {
            Ok(text) => format!(in alloc; "'{text}'"),
            Err(_) => format!(in alloc; "no text"),
        },
        Atom::Ref(number) => format!(in alloc; "~{number}"),
    }
}

fn shown(alloc: Global, found: &Option<Value>) -> Result<String, AllocError> {
    match found {
        None => format!(in alloc; "-"),
        Some(Value::One(atom)) => atom_shown(alloc, atom),
        Some(Value::Many(None)) => format!(in alloc; "null array"),
        Some(Value::Many(Some(atoms))) => {
            let mut all = String::new(alloc);
            for atom in atoms.as_slice() {
                let one = atom_shown(alloc, atom)?;
                all.push_str(one.as_str())?;
                all.push_str(";")?;
            }
            Ok(all)
        }
    }
}

fn converts(
    rt: &impl Abort,
    alloc: Global,
    value: &Value,
    from: Kind,
    to: Kind,
    want: &str,
) -> Result<(), AllocError> {
    assert!(rt; fits(from, value), "the value is of its kind");
    let found = convert(alloc, value, from, to)?;
    let shown = shown(alloc, &found)?;
    assert_eq!(rt; shown.as_str(), want);
    Ok(())
}

/// A single value, as a table can hold it.
enum Sample {
    Bool(bool),
    Int(i128),
    Text(&'static str),
    Null,
    Ref(u64),
}

fn atom_of(alloc: Global, sample: &Sample) -> Result<Atom, AllocError> {
    match sample {
        Sample::Bool(truth) => Ok(Atom::Bool(*truth)),
        Sample::Int(number) => Ok(Atom::Int(*number)),
        Sample::Text(spelled) => text(alloc, spelled),
        Sample::Null => Ok(Atom::Text(None)),
        Sample::Ref(number) => Ok(Atom::Ref(*number)),
    }
}

// Each row has a value of a kind, and what it is as each of the nine kinds, `-` where it is nothing.
const ROWS: [(Base, Sample, [&str; 9]); 24] = [
    (
        Base::Bool,
        Sample::Bool(true),
        ["true", "1", "1", "1", "1", "1", "1", "'true'", "-"],
    ),
    (
        Base::Bool,
        Sample::Bool(false),
        ["false", "0", "0", "0", "0", "0", "0", "'false'", "-"],
    ),
    (
        Base::I8,
        Sample::Int(1),
        ["true", "1", "1", "1", "1", "1", "1", "'1'", "-"],
    ),
    (
        Base::I8,
        Sample::Int(-128),
        [
            "-", "-128", "-128", "-128", "-128", "-", "-128", "'-128'", "-",
        ],
    ),
    (
        Base::I16,
        Sample::Int(0),
        ["false", "0", "0", "0", "0", "0", "0", "'0'", "-"],
    ),
    (
        Base::I16,
        Sample::Int(128),
        ["-", "-", "128", "128", "128", "128", "128", "'128'", "-"],
    ),
    (
        Base::I16,
        Sample::Int(-129),
        ["-", "-", "-129", "-129", "-129", "-", "-129", "'-129'", "-"],
    ),
    (
        Base::I32,
        Sample::Int(1),
        ["true", "1", "1", "1", "1", "1", "1", "'1'", "-"],
    ),
    (
        Base::I32,
        Sample::Int(32_768),
        [
            "-", "-", "-", "32768", "32768", "32768", "32768", "'32768'", "-",
        ],
    ),
    (
        Base::I32,
        Sample::Int(-32_769),
        [
            "-", "-", "-", "-32769", "-32769", "-", "-32769", "'-32769'", "-",
        ],
    ),
    (
        Base::I64,
        Sample::Int(0),
        ["false", "0", "0", "0", "0", "0", "0", "'0'", "-"],
    ),
    (
        Base::I64,
        Sample::Int(2_147_483_648),
        [
            "-",
            "-",
            "-",
            "-",
            "2147483648",
            "2147483648",
            "2147483648",
            "'2147483648'",
            "-",
        ],
    ),
    (
        Base::I64,
        Sample::Int(-2_147_483_649),
        [
            "-",
            "-",
            "-",
            "-",
            "-2147483649",
            "-",
            "-2147483649",
            "'-2147483649'",
            "-",
        ],
    ),
    (
        Base::U64,
        Sample::Int(1),
        ["true", "1", "1", "1", "1", "1", "1", "'1'", "-"],
    ),
    (
        Base::U64,
        Sample::Int(18_446_744_073_709_551_615),
        [
            "-",
            "-",
            "-",
            "-",
            "-",
            "18446744073709551615",
            "18446744073709551615",
            "'18446744073709551615'",
            "-",
        ],
    ),
    (
        Base::I128,
        Sample::Int(0),
        ["false", "0", "0", "0", "0", "0", "0", "'0'", "-"],
    ),
    (
        Base::I128,
        Sample::Int(18_446_744_073_709_551_616),
        [
            "-",
            "-",
            "-",
            "-",
            "-",
            "-",
            "18446744073709551616",
            "'18446744073709551616'",
            "-",
        ],
    ),
    (
        Base::I128,
        Sample::Int(i128::MIN),
        [
            "-",
            "-",
            "-",
            "-",
            "-",
            "-",
            "-170141183460469231731687303715884105728",
            "'-170141183460469231731687303715884105728'",
            "-",
        ],
    ),
    (
        Base::Text,
        Sample::Text("false"),
        ["false", "-", "-", "-", "-", "-", "-", "'false'", "-"],
    ),
    (
        Base::Text,
        Sample::Text("-007"),
        ["-", "-7", "-7", "-7", "-7", "-", "-7", "'-007'", "-"],
    ),
    (
        Base::Text,
        Sample::Text("18446744073709551615"),
        [
            "-",
            "-",
            "-",
            "-",
            "-",
            "18446744073709551615",
            "18446744073709551615",
            "'18446744073709551615'",
            "-",
        ],
    ),
    (
        Base::Text,
        Sample::Null,
        ["-", "-", "-", "-", "-", "-", "-", "null", "-"],
    ),
    (
        Base::Ref,
        Sample::Ref(5),
        ["-", "-", "-", "-", "-", "-", "-", "-", "~5"],
    ),
    (
        Base::Ref,
        Sample::Ref(0),
        ["-", "-", "-", "-", "-", "-", "-", "-", "~0"],
    ),
];

#[test]
fn each_kind_to_each_kind(rt: HostRuntime) -> Result<(), Fail> {
    let alloc = rt.alloc();
    for (from, sample, wants) in &ROWS {
        let value = Value::One(atom_of(alloc, sample)?);
        for (to, want) in BASES.iter().zip(wants.iter()) {
            converts(&rt, alloc, &value, Kind::One(*from), Kind::One(*to), want)?;
        }
    }
    Ok(())
}

#[test]
fn texts_of_digits_are_numbers(rt: HostRuntime) -> Result<(), Fail> {
    let alloc = rt.alloc();
    for (spelled, want) in [
        ("000000000000000000000000000000000000007", "7"),
        ("0000000000000000000000000000000000000007", "-"),
        ("-000000000000000000000000000000000000007", "-7"),
        ("-0000000000000000000000000000000000000007", "-"),
        (
            "170141183460469231731687303715884105727",
            "170141183460469231731687303715884105727",
        ),
        ("170141183460469231731687303715884105728", "-"),
        (
            "-170141183460469231731687303715884105728",
            "-170141183460469231731687303715884105728",
        ),
        ("-170141183460469231731687303715884105729", "-"),
        ("999999999999999999999999999999999999999", "-"),
        ("-0", "0"),
        ("", "-"),
        ("-", "-"),
        ("--1", "-"),
        ("+1", "-"),
        (" 1", "-"),
        ("1a", "-"),
    ] {
        let value = Value::One(text(alloc, spelled)?);
        converts(
            &rt,
            alloc,
            &value,
            Kind::One(Base::Text),
            Kind::One(Base::I128),
            want,
        )?;
    }
    Ok(())
}

fn numbers(alloc: Global, numbers: &[i128]) -> Result<Value, AllocError> {
    let mut atoms = Vec::new(alloc);
    for number in numbers {
        atoms.push(Atom::Int(*number))?;
    }
    Ok(Value::Many(Some(Atoms::from_vec(atoms))))
}

// Numbers of `i32`, and what their array is as another kind.
const ARRAYS: [(&[i128], Kind, &str); 6] = [
    (&[1, 0], Kind::Many(Base::Bool), "true;false;"),
    (&[1, 0], Kind::Many(Base::Text), "'1';'0';"),
    (&[1, 2], Kind::Many(Base::Bool), "-"),
    (&[2, 1], Kind::Many(Base::Bool), "-"),
    (&[], Kind::Many(Base::Ref), ""),
    (&[1], Kind::One(Base::I32), "-"),
];

#[test]
fn arrays_are_converted_as_wholes(rt: HostRuntime) -> Result<(), Fail> {
    let alloc = rt.alloc();
    let many = Kind::Many(Base::I32);
    for (elements, to, want) in &ARRAYS {
        let value = numbers(alloc, elements)?;
        converts(&rt, alloc, &value, many, *to, want)?;
    }
    let null = Value::Many(None);
    converts(&rt, alloc, &null, many, Kind::Many(Base::Ref), "null array")?;
    converts(&rt, alloc, &null, many, Kind::One(Base::I32), "-")?;
    let one = Value::One(Atom::Int(1));
    converts(&rt, alloc, &one, Kind::One(Base::I32), many, "-")?;
    Ok(())
}

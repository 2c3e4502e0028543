ghost use Rattle.std.specs.Prelude.{◌*◌, ◌-◌, IsTrue};
ghost use Rattle.oc_value.specs.Values.{fits_signed, fits_unsigned};
ghost use Rattle.oc_value.specs.Integers.{IsWidth};

use crate::{
    Atom, Base, Kind, Txt, Value, compare, default_of, fits, get_int, get_nat, put_int, put_nat,
};
use sqlite_items::Items;
use std::alloc::{AllocError, Global};
use std::cmp::Ordering;
use std::test::Fail;

fn whole(base: Base, number: i128) -> bool {
    fits(Kind::One(base), &Value::One(Atom::Int(number)))
}

fn array(alloc: Global, numbers: &[i128]) -> Result<Value, AllocError> {
    let mut atoms = Vec::new(alloc);
    for number in numbers {
        atoms.push(Atom::Int(*number))?;
    }
    Ok(Value::Many(Some(Items::from_vec(atoms))))
}

fn shown(value: &Value) -> &'static str {
    match value {
        Value::One(Atom::Bool(false)) => "false",
        Value::One(Atom::Int(0)) => "0",
        Value::One(Atom::Text(None)) => "null text",
        Value::One(Atom::Ref(0)) => "null reference",
        Value::Many(None) => "null array",
        _ => "another value",
    }
}

#[test]
fn whole_numbers_fit_up_to_their_bounds(rt: HostRuntime) {
    for (base, number, want) in [
        (Base::I8, -129, false),
        (Base::I8, -128, true),
        (Base::I8, 127, true),
        (Base::I8, 128, false),
        (Base::I16, -32_769, false),
        (Base::I16, -32_768, true),
        (Base::I16, 32_767, true),
        (Base::I16, 32_768, false),
        (Base::I32, -2_147_483_649, false),
        (Base::I32, -2_147_483_648, true),
        (Base::I32, 2_147_483_647, true),
        (Base::I32, 2_147_483_648, false),
        (Base::I64, -9_223_372_036_854_775_809, false),
        (Base::I64, -9_223_372_036_854_775_808, true),
        (Base::I64, 9_223_372_036_854_775_807, true),
        (Base::I64, 9_223_372_036_854_775_808, false),
        (Base::U64, -1, false),
        (Base::U64, 0, true),
        (Base::U64, 18_446_744_073_709_551_615, true),
        (Base::U64, 18_446_744_073_709_551_616, false),
        (Base::I128, i128::MIN, true),
        (Base::I128, i128::MAX, true),
        (Base::Bool, 0, false),
        (Base::Text, 0, false),
        (Base::Ref, 0, false),
    ] {
        assert_eq!(rt; whole(base, number), want, "at {number}");
    }
}

#[test]
fn other_values_fit_their_kind(rt: HostRuntime) -> Result<(), Fail> {
    let text = Value::One(Atom::Text(Some(Txt::from_slice(rt.alloc(), b"a")?)));
    let null = Value::One(Atom::Text(None));
    let truth = Value::One(Atom::Bool(false));
    let reference = Value::One(Atom::Ref(0));
    let none = Value::Many(None);
    let few = array(rt.alloc(), &[-128, 127])?;
    let last_large = array(rt.alloc(), &[1, 128])?;
    let first_large = array(rt.alloc(), &[128, 1])?;
    for (kind, value, want) in [
        (Kind::One(Base::Text), &text, true),
        (Kind::One(Base::Text), &null, true),
        (Kind::One(Base::Text), &reference, false),
        (Kind::One(Base::Ref), &reference, true),
        (Kind::One(Base::Ref), &null, false),
        (Kind::One(Base::Bool), &truth, true),
        (Kind::One(Base::I8), &truth, false),
        (Kind::One(Base::I8), &few, false),
        (Kind::One(Base::I8), &none, false),
        (Kind::Many(Base::I8), &none, true),
        (Kind::Many(Base::I8), &few, true),
        (Kind::Many(Base::I8), &last_large, false),
        (Kind::Many(Base::I8), &first_large, false),
        (Kind::Many(Base::Bool), &few, false),
        (Kind::Many(Base::Bool), &truth, false),
    ] {
        assert_eq!(rt; fits(kind, value), want, "at {}", shown(value));
    }
    Ok(())
}

#[test]
fn defaults_by_kind(rt: HostRuntime) {
    for (base, want) in [
        (Base::Bool, "false"),
        (Base::I8, "0"),
        (Base::I16, "0"),
        (Base::I32, "0"),
        (Base::I64, "0"),
        (Base::U64, "0"),
        (Base::I128, "0"),
        (Base::Text, "null text"),
        (Base::Ref, "null reference"),
    ] {
        assert_eq!(rt; shown(&default_of(Kind::One(base))), want);
        assert_eq!(rt; shown(&default_of(Kind::Many(base))), "null array");
    }
}

// Single values in their order, each with its place. The first two have one place.
fn in_order(alloc: Global) -> Result<Vec<(usize, Atom)>, AllocError> {
    let mut atoms = Vec::new(alloc);
    for (place, atom) in [
        (0, Atom::Text(None)),
        (0, Atom::Ref(0)),
        (1, Atom::Bool(false)),
        (2, Atom::Bool(true)),
        (3, Atom::Int(i128::MIN)),
        (4, Atom::Int(-1)),
        (5, Atom::Int(0)),
        (6, Atom::Int(i128::MAX)),
        (7, text(alloc, b"")?),
        (8, text(alloc, b"a")?),
        (9, text(alloc, b"ab")?),
        (10, text(alloc, b"b")?),
        (11, Atom::Ref(1)),
        (12, Atom::Ref(18_446_744_073_709_551_615)),
    ] {
        atoms.push((place, atom))?;
    }
    Ok(atoms)
}

fn text(alloc: Global, bytes: &[u8]) -> Result<Atom, AllocError> {
    Ok(Atom::Text(Some(Txt::from_slice(alloc, bytes)?)))
}

fn word(ordering: Ordering) -> &'static str {
    match ordering {
        Ordering::Less => "less",
        Ordering::Equal => "equal",
        Ordering::Greater => "greater",
    }
}

#[test]
fn any_two_values_are_compared(rt: HostRuntime) -> Result<(), Fail> {
    let atoms = in_order(rt.alloc())?;
    for (i, a) in atoms.as_slice() {
        for (j, b) in atoms.as_slice() {
            assert_eq!(rt; word(compare(a, b)), word(i.cmp(j)), "{i} and {j}");
        }
    }
    Ok(())
}

fn signed<const W: usize>(alloc: Global, n: i128) -> Result<Vec<u8>, AllocError>
    requires width { IsWidth W }
    requires fits { IsTrue (fits_signed (8 * W - 1) n) }
{
    let mut out = vec![in alloc; 9]?;
    put_int::<W>(&mut out, n)?;
    Ok(out)
}

fn natural(alloc: Global, n: i128) -> Result<Vec<u8>, AllocError>
    requires { IsTrue (fits_unsigned 64 n) }
{
    let mut out = vec![in alloc; 9]?;
    put_nat::<8>(&mut out, n)?;
    Ok(out)
}

#[test]
fn numbers_have_their_bytes(rt: HostRuntime) -> Result<(), Fail> {
    let alloc = rt.alloc();
    for (bytes, want) in [
        (signed::<1>(alloc, -128)?, b"\x09\x80".as_slice()),
        (signed::<1>(alloc, 127)?, b"\x09\x7f"),
        (signed::<2>(alloc, -2)?, b"\x09\xff\xfe"),
        (signed::<2>(alloc, -32_768)?, b"\x09\x80\x00"),
        (signed::<2>(alloc, 32_767)?, b"\x09\x7f\xff"),
        (signed::<4>(alloc, -2_147_483_648)?, b"\x09\x80\x00\x00\x00"),
        (signed::<4>(alloc, 100)?, b"\x09\x00\x00\x00\x64"),
        (
            signed::<8>(alloc, -1)?,
            b"\x09\xff\xff\xff\xff\xff\xff\xff\xff",
        ),
        (
            signed::<8>(alloc, 9_223_372_036_854_775_807)?,
            b"\x09\x7f\xff\xff\xff\xff\xff\xff\xff",
        ),
        (
            signed::<16>(alloc, i128::MIN)?,
            b"\x09\x80\0\0\0\0\0\0\0\0\0\0\0\0\0\0\0",
        ),
        (natural(alloc, 0)?, b"\x09\0\0\0\0\0\0\0\0"),
        (
            natural(alloc, 18_446_744_073_709_551_615)?,
            b"\x09\xff\xff\xff\xff\xff\xff\xff\xff",
        ),
    ] {
        assert_eq!(rt; bytes.as_slice(), want);
    }
    Ok(())
}

#[test]
fn bytes_are_read_as_numbers(rt: HostRuntime) {
    let bytes = b"\x80\xff\xfe\x7f\xff\xff\xff\xff\xff\xff\xff\xff\xff\xff\xff\xff\xff\xff\xff";
    for (number, want) in [
        (get_int::<1>(bytes, 0), -128),
        (get_int::<1>(bytes, 3), 127),
        (get_int::<2>(bytes, 1), -2),
        (get_int::<2>(bytes, 3), 32_767),
        (get_int::<4>(bytes, 3), 2_147_483_647),
        (get_int::<8>(bytes, 3), 9_223_372_036_854_775_807),
        (get_int::<8>(bytes, 4), -1),
        (get_int::<16>(bytes, 3), i128::MAX),
        (get_nat::<8>(bytes, 3), 9_223_372_036_854_775_807),
        (get_nat::<8>(bytes, 4), 18_446_744_073_709_551_615),
    ] {
        assert_eq!(rt; number, want);
    }
}

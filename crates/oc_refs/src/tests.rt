ghost use Rattle.std.specs.Prelude.{◌≡◌, ◌<◌};
ghost use Rattle.oc_refs.specs.Triples.{by_number, by_handle};

use crate::{Ref, RefTable, Steps};
use std::alloc::AllocError;
use std::marker::Brand;
use std::sync::ledger::{Blank, Ledger};
use std::test::Fail;

fn counted<L: Ledger>(
    table: &RefTable,
    number: u32,
    handle: u64,
    blank: Blank,
) -> (Option<Ref>, Option<Ref>)
    requires name { blank.name ≡ L.name }
    requires parts { blank.parts ≡ L.parts }
    requires some { 0 < L.parts }
    ensures number { result.0 ≡ by_number table.now number }
    ensures handle { result.1 ≡ by_handle table.now handle }
{
    let mut steps = Steps::<L>::new(blank);
    let by_number = table.by_number(number, &mut steps);
    let by_handle = table.by_handle(handle, &mut steps);
    (by_number, by_handle)
}

/// What stands under the number, and what under the handle.
fn found(table: &RefTable, number: u32, handle: u64) -> (Option<Ref>, Option<Ref>)
    ensures number { result.0 ≡ by_number table.now number }
    ensures handle { result.1 ≡ by_handle table.now handle }
{
    counted::<Brand>(table, number, handle, Blank::new(1))
}

/// Enters the triple where neither key is there, and says whether.
fn enter(table: &mut RefTable, row: Ref) -> Result<bool, AllocError> {
    match found(table, row.number, row.handle) {
        (None, None) => {
            table.insert(row.number, row.handle, row.active)?;
            Ok(true)
        }
        _ => Ok(false),
    }
}

/// Makes the triple of the number active or not, where it is there.
fn turn(table: &mut RefTable, number: u32, active: bool) {
    if let (Some(_), _) = found(table, number, 0) {
        table.set_active(number, active);
    }
}

fn row(number: u32, handle: u64, active: bool) -> Ref {
    Ref {
        number,
        handle,
        active,
    }
}

const ROWS: [Ref; 4] = [
    Ref {
        number: 7,
        handle: 2,
        active: true,
    },
    Ref {
        number: 1,
        handle: 9,
        active: false,
    },
    Ref {
        number: 2_147_483_646,
        handle: 1,
        active: true,
    },
    Ref {
        number: 4,
        handle: 18_446_744_073_709_551_614,
        active: false,
    },
];

#[test]
fn each_key_leads_to_the_triple(rt: HostRuntime) -> Result<(), Fail> {
    let mut table = RefTable::new(rt.alloc());
    assert_eq!(rt; table.len(), 0);
    assert_eq!(rt; found(&table, 7, 2), (None, None));
    for triple in ROWS {
        assert!(rt; enter(&mut table, triple)?);
        assert!(rt; !enter(&mut table, triple)?);
    }
    assert_eq!(rt; table.len(), 4);
    for triple in ROWS {
        assert_eq!(rt;
            found(&table, triple.number, triple.handle),
            (Some(triple), Some(triple))
        );
    }
    assert!(rt; !enter(&mut table, row(7, 77, true))?);
    assert!(rt; !enter(&mut table, row(77, 9, true))?);
    turn(&mut table, 1, true);
    turn(&mut table, 7, false);
    turn(&mut table, 8, false);
    assert_eq!(rt;
        found(&table, 1, 2),
        (Some(row(1, 9, true)), Some(row(7, 2, false)))
    );
    assert_eq!(rt; table.remove(7), Some(row(7, 2, false)));
    assert_eq!(rt; table.remove(7), None);
    assert_eq!(rt; found(&table, 7, 2), (None, None));
    assert_eq!(rt; table.len(), 3);
    assert!(rt; enter(&mut table, row(8, 2, true))?);
    assert_eq!(rt;
        found(&table, 8, 2),
        (Some(row(8, 2, true)), Some(row(8, 2, true)))
    );
    table.clear();
    assert_eq!(rt; table.len(), 0);
    assert_eq!(rt; found(&table, 4, 2), (None, None));
    Ok(())
}

/// Numbers without a pattern.
#[derive(Drop)]
struct Dice {
    state: u64,
}

impl Dice {
    fn roll(&mut self) -> u32 {
        self.state = self
            .state
            .wrapping_mul(6_364_136_223_846_793_005)
            .wrapping_add(1_442_695_040_888_963_407);
        (self.state >> 40) as u32
    }
}

/// Does the same to a table and to a plain list of triples, and says whether both answered alike.
fn step(dice: &mut Dice, table: &mut RefTable, plain: &mut Vec<Ref>) -> Result<bool, AllocError> {
    let number = dice.roll() % 90;
    let handle = u64::from(dice.roll() % 90);
    let active = dice.roll() % 2 == 0;
    match dice.roll() % 500 {
        0 => {
            table.clear();
            plain.clear();
            Ok(true)
        }
        1..=200 => {
            let is_free = plain.iter().all(|triple| triple.number != number
                && triple.handle != handle);
            if is_free {
                plain.push(row(number, handle, active))?;
            }
            Ok(enter(table, row(number, handle, active))? == is_free)
        }
        201..=320 => {
            for triple in plain.iter_mut() {
                if triple.number == number {
                    triple.active = active;
                }
            }
            turn(table, number, active);
            Ok(true)
        }
        _ => {
            let was = plain.iter().copied().find(|triple| triple.number == number);
            plain.retain(|triple| triple.number != number);
            Ok(table.remove(number) == was)
        }
    }
}

/// Whether a look-up by each key up to 90 answers as the plain list.
fn are_alike(table: &RefTable, plain: &[Ref]) -> bool {
    for key in 0..90 {
        let (by_number, by_handle) = found(table, key, u64::from(key));
        if by_number != plain.iter().copied().find(|triple| triple.number == key) {
            return false;
        }
        if by_handle
            != plain
                .iter()
                .copied()
                .find(|triple| triple.handle == u64::from(key))
        {
            return false;
        }
    }
    table.len() == plain.len() as u64
}

#[test]
fn ten_thousand_calls_do_what_a_plain_list_does(rt: HostRuntime) -> Result<(), Fail> {
    let mut dice = Dice { state: 3 };
    let mut table = RefTable::new(rt.alloc());
    let mut plain = Vec::new(rt.alloc());
    let mut most = 0;
    for call in 0..10_000 {
        assert!(rt; step(&mut dice, &mut table, &mut plain)?);
        if call % 50 == 0 {
            assert!(rt; are_alike(&table, plain.as_slice()));
        }
        most = plain.len().max(most);
    }
    assert!(rt; most > 20);
    Ok(())
}

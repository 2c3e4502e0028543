//! The entries of a record, apart from any schema.

ghost use Rattle.std.specs.Prelude.{◌≡◌, map};
ghost use Rattle.std.specs.List.{list_all};
ghost use Rattle.oc_model.specs.Spelling.{entry_fits};
ghost use Rattle.oc_model.specs.StoreRules.{are_ascending};

use oc_model::value::Entry;
use oc_value::fits;

/// Whether each entry has a value of its kind.
pub fn all_fit(entries: &[Entry]) -> bool
    ensures { result ≡ list_all entry_fits entries.now }
{
    entries.iter().all(|entry| fits(entry.kind, &entry.value))
}

/// Whether each entry's id is less than the next one's.
pub fn are_by_id(entries: &[Entry]) -> bool
    ensures { result ≡ are_ascending (map (λ e. e.id) entries.now) }
{
    let [first, rest @ ..] = entries else {
        return true;
    };
    let mut before = first;
    for next in rest {
        if before.id >= next.id {
            return false;
        }
        before = next;
    }
    true
}

//! Lists of which a changed copy shares nearly all with the list that it came from.

ghost use Rattle.std.specs.Prelude.{◌≡◌, ◌≤◌, ◌<◌, ◌+◌, ◌-◌, ◌^◌, ◌∷◌, ◌++◌, [], length, slice_get, slice_set, insert, remove, IfOk, IfSome, IsTrue, MatchOption};
ghost use Rattle.std.specs.Option.{option_copied};

use sqlite_items::Items;
use std::alloc::{AllocError, Global};
use std::marker::Model;
use std::rc::Rc;

/// A list of items. A step to another list costs about the logarithm of its length in time and memory, since both share
/// all but a few nodes of a tree that is balanced by its numbers of items.
#[cycle(sequence)]
#[derive(Drop)]
pub struct Sequence<T> {
    root: Option<Rc<Node<T>>>,
}

#[cycle(sequence)]
#[derive(Drop)]
struct Node<T> {
    len: usize,
    before: Sequence<T>,
    item: Rc<T>,
    after: Sequence<T>,
}

/// A list in parts: what stands before one of its items, the item, and what stands after it.
#[derive(Drop)]
pub struct Parts<'a, T> {
    pub before: &'a Sequence<T>,
    pub item: &'a T,
    pub after: &'a Sequence<T>,
}

impl<T> Model for Sequence<T> {
    ghost use Rattle.std.specs.Prelude.{List, length};
    ghost use Rattle.std.specs.Coded.{coded_list};

    ghost Value = { List T };

    ghost coded = { coded_list T.code };

    ghost use Rattle.oc_shared.specs.Nodes.{items, IsCounted};

    ghost view = { λ s. items s.root };

    ghost invariant = { λ s. IsCounted s.root };

    ghost size = { length };

    ghost use Rattle.std.proofs.Common.{arith, length-append};

    ghost size_decreases = { λ a h. Prim.grind (arith, length-append) };
}

impl<T: Drop> Sequence<T> {
    /// No items.
    pub fn new() -> Sequence<T>
        ensures { result ≡ [] }
    {
        Sequence { root: None }
    }

    /// How many items there are.
    pub fn len(&self) -> usize
        ensures { result ≡ length self.now }
    {
        match &self.root {
            Some(node) => node.len,
            None => 0,
        }
    }

    /// The root, which parts the list.
    fn node(&self) -> Option<&Node<T>>
        ensures { MatchOption result (self.now ≡ []) (λ n. self.now ≡ n.now.before ++ n.now.item.value ∷ n.now.after) }
    {
        match &self.root {
            Some(node) => Some(node.as_ref()),
            None => None,
        }
    }

    /// The item in this place.
    #[tactic(auto, using(crate::proofs::Places::got_front, crate::proofs::Places::got_middle, crate::proofs::Places::got_back))]
    pub fn get(&self, place: usize) -> Option<&T>
        ensures { option_copied result ≡ slice_get self.now place }
    {
        let node = self.node()?;
        let middle = node.before.len();
        if place < middle {
            node.before.get(place)
        } else if place == middle {
            Some(node.item.as_ref())
        } else {
            node.after.get(place - middle - 1)
        }
    }

    /// The same list once more, which shares all.
    pub fn share(&self) -> Result<Sequence<T>, AllocError>
        ensures { IfOk result (λ s. s ≡ self.now) }
    {
        match &self.root {
            Some(node) => Ok(Sequence {
                root: Some(node.clone()?),
            }),
            None => Ok(Sequence { root: None }),
        }
    }

    /// With this item in this place, in front of the one that was there.
    pub fn with(&self, alloc: Global, place: usize, item: T) -> Result<Sequence<T>, AllocError>
        requires within { place ≤ length self.now }
        ensures { IfOk result (λ s. s ≡ insert self.now place item) }
    {
        let item = Rc::new(alloc, item)?;
        let with = self.inserted(alloc, place, item)?;
        Ok(with)
    }

    /// With this item behind the others.
    #[tactic(auto, using(crate::proofs::Places::inserted_last))]
    pub fn with_last(&self, alloc: Global, item: T) -> Result<Sequence<T>, AllocError>
        ensures { IfOk result (λ s. s ≡ self.now ++ item ∷ []) }
    {
        let longer = self.with(alloc, self.len(), item)?;
        Ok(longer)
    }

    #[tactic(auto, using(crate::proofs::Places::inserted_front, crate::proofs::Places::inserted_back))]
    fn inserted(&self, alloc: Global, place: usize, item: Rc<T>) -> Result<Sequence<T>, AllocError>
        requires within { place ≤ length self.now }
        ensures { IfOk result (λ s. s ≡ insert self.now place item.value) }
    {
        let Some(node) = self.node() else {
            let single = fork(alloc, Sequence::new(), item, Sequence::new())?;
            return Ok(single);
        };
        let middle = node.before.len();
        if place <= middle {
            let before = node.before.inserted(alloc, place, item)?;
            let with = node.with_before(alloc, before)?;
            Ok(with)
        } else {
            let after = node.after.inserted(alloc, place - middle - 1, item)?;
            let with = node.with_after(alloc, after)?;
            Ok(with)
        }
    }

    /// With this item in this place, instead of the one that was there.
    pub fn with_at(&self, alloc: Global, place: usize, item: T) -> Result<Sequence<T>, AllocError>
        requires within { place < length self.now }
        ensures { IfOk result (λ s. s ≡ slice_set self.now place item) }
    {
        let item = Rc::new(alloc, item)?;
        let with = self.replaced(alloc, place, item)?;
        Ok(with)
    }

    #[tactic(auto, using(crate::proofs::Places::replaced_front, crate::proofs::Places::replaced_middle, crate::proofs::Places::replaced_back))]
    fn replaced(&self, alloc: Global, place: usize, item: Rc<T>) -> Result<Sequence<T>, AllocError>
        requires within { place < length self.now }
        ensures { IfOk result (λ s. s ≡ slice_set self.now place item.value) }
    {
        let Some(node) = self.node() else {
            unreachable!()
        };
        let middle = node.before.len();
        if place < middle {
            let before = node.before.replaced(alloc, place, item)?;
            let with = node.with_before(alloc, before)?;
            Ok(with)
        } else if place == middle {
            let with = fork(alloc, node.before.share()?, item, node.after.share()?)?;
            Ok(with)
        } else {
            let after = node.after.replaced(alloc, place - middle - 1, item)?;
            let with = node.with_after(alloc, after)?;
            Ok(with)
        }
    }

    /// Without the item in this place.
    #[tactic(auto, using(crate::proofs::Places::removed_front, crate::proofs::Places::removed_middle, crate::proofs::Places::removed_back))]
    pub fn without(&self, alloc: Global, place: usize) -> Result<Sequence<T>, AllocError>
        requires within { place < length self.now }
        ensures { IfOk result (λ s. s ≡ remove self.now place) }
    {
        let Some(node) = self.node() else {
            unreachable!()
        };
        let middle = node.before.len();
        if place < middle {
            let before = node.before.without(alloc, place)?;
            let rest = node.with_before(alloc, before)?;
            Ok(rest)
        } else if place == middle {
            let rest = joined(alloc, &node.before, &node.after)?;
            Ok(rest)
        } else {
            let after = node.after.without(alloc, place - middle - 1)?;
            let rest = node.with_after(alloc, after)?;
            Ok(rest)
        }
    }

    /// The first item of the list, and the others.
    fn split_first(&self, alloc: Global) -> Result<(Rc<T>, Sequence<T>), AllocError>
        requires some { 0 < length self.now }
        ensures { IfOk result (λ p. self.now ≡ p.0.value ∷ p.1) }
    {
        let Some(node) = self.node() else {
            unreachable!()
        };
        if node.before.len() == 0 {
            return Ok((node.item.clone()?, node.after.share()?));
        }
        let (first, before) = node.before.split_first(alloc)?;
        let rest = node.with_before(alloc, before)?;
        Ok((first, rest))
    }

    /// The list in parts around one of its items, which stands about in its middle, or `None` where it has no items.
    pub fn parts(&self) -> Option<Parts<'_, T>>
        ensures { MatchOption result (self.now ≡ []) (λ p. self.now ≡ p.before.now ++ p.item.now ∷ p.after.now) }
    {
        let node = self.node()?;
        Some(Parts {
            before: &node.before,
            item: node.item.as_ref(),
            after: &node.after,
        })
    }

    /// The list of these items.
    pub fn of(alloc: Global, mut items: Items<T>) -> Result<Sequence<T>, AllocError>
        ensures { IfOk result (λ s. s ≡ items) }
    {
        let count = items.len();
        let sequence = last_of(alloc, &mut items, count)?;
        Ok(sequence)
    }
}

impl<T: Drop> Node<T> {
    /// With other items in front of the middle.
    fn with_before(&self, alloc: Global, before: Sequence<T>) -> Result<Sequence<T>, AllocError>
        ensures { IfOk result (λ s. s ≡ before ++ self.now.item.value ∷ self.now.after) }
    {
        let with = balanced(alloc, before, self.item.clone()?, self.after.share()?)?;
        Ok(with)
    }

    /// With other items behind the middle.
    fn with_after(&self, alloc: Global, after: Sequence<T>) -> Result<Sequence<T>, AllocError>
        ensures { IfOk result (λ s. s ≡ self.now.before ++ self.now.item.value ∷ after) }
    {
        let with = balanced(alloc, self.before.share()?, self.item.clone()?, after)?;
        Ok(with)
    }
}

/// The items of both sides.
fn joined<T: Drop>(
    alloc: Global,
    before: &Sequence<T>,
    after: &Sequence<T>,
) -> Result<Sequence<T>, AllocError>
    ensures { IfOk result (λ s. s ≡ before.now ++ after.now) }
{
    if after.len() == 0 {
        let all = before.share()?;
        return Ok(all);
    }
    let (item, after) = after.split_first(alloc)?;
    let all = balanced(alloc, before.share()?, item, after)?;
    Ok(all)
}

/// The last items, so many, which are taken off.
fn last_of<T: Drop>(
    alloc: Global,
    items: &mut Items<T>,
    count: usize,
) -> Result<Sequence<T>, AllocError>
    requires within { count ≤ length items.old }
    ensures items { IfOk result (λ s. items.old ≡ items.new ++ s) }
    ensures len { IfOk result (λ s. length s ≡ count) }
{
    if count == 0 {
        return Ok(Sequence::new());
    }
    let behind = (count - 1) / 2;
    let after = last_of(alloc, items, behind)?;
    let Some(item) = items.pop() else {
        unreachable!()
    };
    let before = last_of(alloc, items, count - 1 - behind)?;
    let sequence = fork(alloc, before, Rc::new(alloc, item)?, after)?;
    Ok(sequence)
}

/// The items of both sides, and this item between them.
fn fork<T: Drop>(
    alloc: Global,
    before: Sequence<T>,
    item: Rc<T>,
    after: Sequence<T>,
) -> Result<Sequence<T>, AllocError>
    ensures { IfOk result (λ s. s ≡ before ++ item.value ∷ after) }
{
    let Some(len) = fork_len(before.len(), after.len()) else {
        return Err(AllocError);
    };
    let node = Node {
        len,
        before,
        item,
        after,
    };
    let root = Some(Rc::new(alloc, node)?);
    Ok(Sequence { root })
}

/// How many items a fork has, where memory has that many places at all.
fn fork_len(before: usize, after: usize) -> Option<usize>
    ensures { IfSome result (λ n. n ≡ before + 1 + after) }
{
    let front = before.checked_add(1)?;
    front.checked_add(after)
}

/// `fork`, where one side may have become too long for the other, so that the tree is turned.
fn balanced<T: Drop>(
    alloc: Global,
    before: Sequence<T>,
    item: Rc<T>,
    after: Sequence<T>,
) -> Result<Sequence<T>, AllocError>
    ensures { IfOk result (λ s. s ≡ before ++ item.value ∷ after) }
{
    if is_heavy(before.len(), after.len()) {
        turned_back(alloc, &before, item, after)
    } else if is_heavy(after.len(), before.len()) {
        turned_front(alloc, before, item, &after)
    } else {
        fork(alloc, before, item, after)
    }
}

/// Whether a side of so many items is too long for the other: each counted with one more, over three times as long.
fn is_heavy(side: usize, other: usize) -> bool
    ensures { IsTrue result → 0 < side }
{
    side > other.saturating_mul(3).saturating_add(2)
}

/// `fork`, where the front side is too long: its last items go to the back side.
fn turned_back<T: Drop>(
    alloc: Global,
    before: &Sequence<T>,
    item: Rc<T>,
    after: Sequence<T>,
) -> Result<Sequence<T>, AllocError>
    requires some { 0 < length before.now }
    ensures { IfOk result (λ s. s ≡ before.now ++ item.value ∷ after) }
{
    let Some(node) = before.node() else {
        unreachable!()
    };
    if node.after.len() <= node.before.len().saturating_mul(2) {
        let back = fork(alloc, node.after.share()?, item, after)?;
        let turned = fork(alloc, node.before.share()?, node.item.clone()?, back)?;
        return Ok(turned);
    }
    let Some(inner) = node.after.node() else {
        unreachable!()
    };
    let front = fork(
        alloc,
        node.before.share()?,
        node.item.clone()?,
        inner.before.share()?,
    )?;
    let back = fork(alloc, inner.after.share()?, item, after)?;
    let turned = fork(alloc, front, inner.item.clone()?, back)?;
    Ok(turned)
}

/// `fork`, where the back side is too long: its first items go to the front side.
fn turned_front<T: Drop>(
    alloc: Global,
    before: Sequence<T>,
    item: Rc<T>,
    after: &Sequence<T>,
) -> Result<Sequence<T>, AllocError>
    requires some { 0 < length after.now }
    ensures { IfOk result (λ s. s ≡ before ++ item.value ∷ after.now) }
{
    let Some(node) = after.node() else {
        unreachable!()
    };
    if node.before.len() <= node.after.len().saturating_mul(2) {
        let front = fork(alloc, before, item, node.before.share()?)?;
        let turned = fork(alloc, front, node.item.clone()?, node.after.share()?)?;
        return Ok(turned);
    }
    let Some(inner) = node.before.node() else {
        unreachable!()
    };
    let front = fork(alloc, before, item, inner.before.share()?)?;
    let back = fork(
        alloc,
        inner.after.share()?,
        node.item.clone()?,
        node.after.share()?,
    )?;
    let turned = fork(alloc, front, inner.item.clone()?, back)?;
    Ok(turned)
}

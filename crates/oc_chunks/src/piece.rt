//! A chunk, and what it was at the mark.

ghost use Rattle.std.specs.Prelude.{◌≡◌, ◌≤◌, ◌<◌, ◌+◌, ◌++◌, ◌∷◌, ◌||◌, nat_lt, take, drop, length};
ghost use Rattle.oc_chunks.specs.Pieces.{present, gone};

/// Entries in order, and behind them those that went since the mark, the latest first.
#[derive(Drop)]
pub(crate) struct Part<E> {
    pub(crate) items: Vec<E>,
    pub(crate) len: usize,
    pub(crate) number: Option<u32>,
    pub(crate) changed: bool,
}

/// What a piece was at the mark.
#[derive(Drop)]
pub(crate) enum Was<E> {
    Itself,
    Nothing,
    Other(Part<E>),
}

/// A part of the list, with what it was.
#[derive(Drop)]
pub(crate) struct Piece<E> {
    pub(crate) part: Part<E>,
    pub(crate) was: Was<E>,
}

/// The entries that are there.
pub(crate) fn entries<E>(part: &Part<E>) -> &[E]
    requires { part.now.len ≤ length part.now.items.items }
    ensures { result.now ≡ present part.now }
{
    &part.items[..part.len]
}

/// Whether the part changed since its chunk was written.
pub(crate) fn is_changed<E>(part: &Part<E>) -> bool
    ensures { result ≡ (part.now.changed || nat_lt part.now.len (length part.now.items.items)) }
{
    part.changed || part.len < part.items.len()
}

/// Moves the entry behind those that are there.
pub(crate) fn take_out<E>(part: &mut Part<E>, at: usize)
    requires within { part.old.len ≤ length part.old.items.items }
    requires there { at < part.old.len }
    ensures items { part.new.items.items ≡ take at part.old.items.items ++ (drop (at + 1) (present part.old) ++ (take 1 (drop at part.old.items.items) ++ gone part.old)) }
    ensures len { part.new.len + 1 ≡ part.old.len }
    ensures number { part.new.number ≡ part.old.number }
    ensures changed { part.new.changed ≡ part.old.changed }
{
    let len = part.len;
    part.items[at..len].rotate_left(1);
    part.len = len - 1;
}

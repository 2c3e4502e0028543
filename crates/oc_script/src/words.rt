//! Words by their bytes.

ghost use Rattle.std.specs.Prelude.{◌≡◌};
ghost use Rattle.oc_model.specs.Maps.{same};
ghost use Rattle.oc_machine.specs.Parsers.{is_reserved};

pub(crate) fn is_same(a: &[u8], b: &[u8]) -> bool
    ensures { result ≡ same a.now b.now }
{
    a == b
}

/// Whether the word is no name.
pub(crate) fn is_reserved(word: &[u8]) -> bool
    ensures { result ≡ is_reserved word.now }
{
    is_same(word, b"true")
        || is_same(word, b"false")
        || is_same(word, b"null")
        || is_same(word, b"and")
        || is_same(word, b"or")
        || is_same(word, b"not")
        || is_same(word, b"where")
        || is_same(word, b"order")
        || is_same(word, b"asc")
        || is_same(word, b"desc")
}

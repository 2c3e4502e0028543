//! The words behind the program's name.

ghost use Rattle.std.specs.Prelude.{◌≡◌, map, is_some, IfOk};
ghost use Rattle.std.specs.String.{string_bytes};
ghost use Rattle.oc_run.specs.Words.{begins_with_dash, words_of};

use oc_model::value::Txt;
use std::alloc::{AllocError, Global};

/// What the words name: the container's file, and the file that another container goes to.
#[derive(Drop)]
pub struct FileWords {
    pub file: Txt,
    pub other: Option<Txt>,
}

fn has_dash(word: &[u8]) -> bool
    ensures { result ≡ begins_with_dash word.now }
{
    match word {
        [first, ..] => *first == b'-',
        [] => false,
    }
}

/// Whether the words have the form: one word that doesn't begin with `-`.
pub(crate) fn is_form(words: &[String]) -> bool
    ensures { result ≡ is_some (words_of (map string_bytes words.now)) }
{
    match words {
        [word] => !has_dash(word.as_bytes()),
        _ => false,
    }
}

/// What the words name, where they have the form: one word that doesn't begin with `-`.
pub fn file_words(alloc: Global, words: &[String]) -> Result<Option<FileWords>, AllocError>
    ensures { IfOk result (λ named. named ≡ words_of (map string_bytes words.now)) }
{
    let [word] = words else {
        return Ok(None);
    };
    if has_dash(word.as_bytes()) {
        return Ok(None);
    }
    let file = Txt::from_slice(alloc, word.as_bytes())?;
    Ok(Some(FileWords { file, other: None }))
}

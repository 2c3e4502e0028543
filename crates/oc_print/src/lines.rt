//! Lines: one for each object that an answer shows, and the answer's own.

ghost use Rattle.std.specs.Prelude.{◌≡◌, ◌++◌, IfOk, OnOk, map, flat_map, codes, decimal, length};
ghost use Rattle.oc_machine.specs.Printing.{line, counted, joined, field_text, fields_text, word_text, state_text, object_line as object_line_text, name_line as name_line_text, answer_text as answer_lines};

use crate::numbers::put_natural;
use crate::values::{put_mark, put_value};
use oc_model::answer::{Answer, Mark, NameLine, ObjectLine, Shown, ShownField, Word};
use std::alloc::{AllocError, Global};

/// The line of an object: its mark, its class, and its fields in braces, or `stub`.
/// Its only error is want of memory.
pub fn object_line(alloc: Global, line: &ObjectLine) -> Result<Vec<u8>, AllocError>
    ensures { IfOk result (λ text. text.items ≡ object_line_text line.now) }
{
    let mut text = Vec::new(alloc);
    put_object_line(alloc, &mut text, line)?;
    Ok(text)
}

/// The lines that the answer says: one for each object or name that it shows, and its own.
/// Its only error is want of memory.
pub fn answer_text(alloc: Global, answer: &Answer) -> Result<Vec<u8>, AllocError>
    ensures { IfOk result (λ text. text.items ≡ answer_lines answer.now) }
{
    let mut text = Vec::new(alloc);
    put_answer(alloc, &mut text, answer)?;
    Ok(text)
}

#[tactic(auto, unfolding(oc_machine::specs::Printing::answer_text))]
fn put_answer(alloc: Global, out: &mut Vec<u8>, answer: &Answer) -> Result<(), AllocError>
    ensures { OnOk result (out.new.items ≡ out.old.items ++ answer_lines answer.now) }
{
    match answer {
        Answer::Done => out.extend_from_slice(b"ok\n"),
        Answer::Stored { number, count } => put_stored(alloc, out, *number, *count),
        Answer::Deleted(count) => put_counted(alloc, out, b"deleted", (*count).into()),
        Answer::Activated(count) => put_counted(alloc, out, b"activated", (*count).into()),
        Answer::Deactivated(count) => put_counted(alloc, out, b"deactivated", (*count).into()),
        Answer::Refreshed(count) => put_counted(alloc, out, b"refreshed", (*count).into()),
        Answer::Converted(count) => put_counted(alloc, out, b"converted", (*count).into()),
        Answer::Found(objects) => put_objects(alloc, out, b"found", objects.as_slice()),
        Answer::Shown(objects) => put_objects(alloc, out, b"shown", objects.as_slice()),
        Answer::Peeked(objects) => put_objects(alloc, out, b"peeked", objects.as_slice()),
        Answer::Names(names) => put_names(alloc, out, names.as_slice()),
        Answer::Committed(count) => put_counted(alloc, out, b"committed", *count),
        Answer::RolledBack => out.extend_from_slice(b"rolled back\n"),
        Answer::Closed => out.extend_from_slice(b"closed\n"),
        Answer::Refused(word) => put_refusal(out, *word),
    }
}

fn put_stored(alloc: Global, out: &mut Vec<u8>, number: u32, count: u32) -> Result<(), AllocError>
    ensures { OnOk result (out.new.items ≡ out.old.items ++ line (codes "stored ~" ++ decimal number ++ codes " " ++ decimal count)) }
{
    out.extend_from_slice(b"stored ~")?;
    put_natural(alloc, out, number.into())?;
    out.push(b' ')?;
    put_natural(alloc, out, count.into())?;
    out.push(b'\n')?;
    Ok(())
}

/// Appends a line of a word and a number.
fn put_counted(alloc: Global, out: &mut Vec<u8>, word: &[u8], count: u64) -> Result<(), AllocError>
    ensures { OnOk result (out.new.items ≡ out.old.items ++ counted word.now count) }
{
    out.extend_from_slice(word)?;
    out.push(b' ')?;
    put_natural(alloc, out, count)?;
    out.push(b'\n')?;
    Ok(())
}

/// Appends a line for each object, and one that counts them.
fn put_objects(
    alloc: Global,
    out: &mut Vec<u8>,
    word: &[u8],
    objects: &[ObjectLine],
) -> Result<(), AllocError>
    ensures { OnOk result (out.new.items ≡ out.old.items ++ (flat_map object_line_text objects.now ++ counted word.now (length objects.now))) }
{
    put_object_lines(alloc, out, objects)?;
    put_counted(alloc, out, word, objects.len() as u64)?;
    Ok(())
}

/// Appends a line for each name, and one that counts them.
fn put_names(alloc: Global, out: &mut Vec<u8>, names: &[NameLine]) -> Result<(), AllocError>
    ensures { OnOk result (out.new.items ≡ out.old.items ++ (flat_map name_line_text names.now ++ counted (codes "names") (length names.now))) }
{
    put_name_lines(alloc, out, names)?;
    put_counted(alloc, out, b"names", names.len() as u64)?;
    Ok(())
}

fn put_refusal(out: &mut Vec<u8>, refusal: Word) -> Result<(), AllocError>
    ensures { OnOk result (out.new.items ≡ out.old.items ++ line (codes "error " ++ word_text refusal)) }
{
    out.extend_from_slice(b"error ")?;
    put_word(out, refusal)?;
    out.push(b'\n')?;
    Ok(())
}

fn put_word(out: &mut Vec<u8>, refusal: Word) -> Result<(), AllocError>
    ensures { OnOk result (out.new.items ≡ out.old.items ++ word_text refusal) }
{
    match refusal {
        Word::Syntax => out.extend_from_slice(b"syntax"),
        Word::Long => out.extend_from_slice(b"long"),
        Word::Deep => out.extend_from_slice(b"deep"),
        Word::Class => out.extend_from_slice(b"class"),
        Word::Field => out.extend_from_slice(b"field"),
        Word::Kind => out.extend_from_slice(b"kind"),
        Word::Name => out.extend_from_slice(b"name"),
        Word::Exists => out.extend_from_slice(b"exists"),
        Word::Parent => out.extend_from_slice(b"parent"),
        Word::Past => out.extend_from_slice(b"past"),
        Word::Live => out.extend_from_slice(b"live"),
        Word::Stub => out.extend_from_slice(b"stub"),
        Word::Cycle => out.extend_from_slice(b"cycle"),
        Word::Size => out.extend_from_slice(b"size"),
        Word::Numbers => out.extend_from_slice(b"numbers"),
        Word::Full { .. } => out.extend_from_slice(b"full"),
    }
}

fn put_name_lines(alloc: Global, out: &mut Vec<u8>, names: &[NameLine]) -> Result<(), AllocError>
    ensures { OnOk result (out.new.items ≡ out.old.items ++ flat_map name_line_text names.now) }
{
    for name in names {
        put_name_line(alloc, out, name)?;
    }
    Ok(())
}

#[tactic(auto, unfolding(oc_machine::specs::Printing::name_line))]
fn put_name_line(alloc: Global, out: &mut Vec<u8>, name: &NameLine) -> Result<(), AllocError>
    ensures { OnOk result (out.new.items ≡ out.old.items ++ name_line_text name.now) }
{
    out.extend_from_slice(name.name.as_slice())?;
    out.push(b' ')?;
    put_mark(alloc, out, name.mark)?;
    out.push(b' ')?;
    put_state(out, name)?;
    out.push(b'\n')?;
    Ok(())
}

/// Appends whether the object of a name is unsaved, active or a stub.
fn put_state(out: &mut Vec<u8>, name: &NameLine) -> Result<(), AllocError>
    ensures { OnOk result (out.new.items ≡ out.old.items ++ state_text name.now) }
{
    match name.mark {
        Mark::Handle(_) => out.extend_from_slice(b"unsaved"),
        Mark::Number(_) => {
            if name.active {
                out.extend_from_slice(b"active")
            } else {
                out.extend_from_slice(b"stub")
            }
        }
    }
}

fn put_object_lines(
    alloc: Global,
    out: &mut Vec<u8>,
    objects: &[ObjectLine],
) -> Result<(), AllocError>
    ensures { OnOk result (out.new.items ≡ out.old.items ++ flat_map object_line_text objects.now) }
{
    for object in objects {
        put_object_line(alloc, out, object)?;
    }
    Ok(())
}

#[tactic(auto, unfolding(oc_machine::specs::Printing::object_line))]
fn put_object_line(alloc: Global, out: &mut Vec<u8>, object: &ObjectLine) -> Result<(), AllocError>
    ensures { OnOk result (out.new.items ≡ out.old.items ++ object_line_text object.now) }
{
    put_mark(alloc, out, object.mark)?;
    out.push(b' ')?;
    out.extend_from_slice(object.class.as_slice())?;
    put_shown(alloc, out, &object.fields)?;
    out.push(b'\n')?;
    Ok(())
}

fn put_shown(alloc: Global, out: &mut Vec<u8>, shown: &Shown) -> Result<(), AllocError>
    ensures { OnOk result (out.new.items ≡ out.old.items ++ fields_text shown.now) }
{
    match shown {
        Shown::Stub => out.extend_from_slice(b" stub"),
        Shown::Fields(fields) => {
            out.extend_from_slice(b" {")?;
            put_fields(alloc, out, fields.as_slice())?;
            out.extend_from_slice(b" }")
        }
    }
}

fn put_fields(alloc: Global, out: &mut Vec<u8>, fields: &[ShownField]) -> Result<(), AllocError>
    ensures { OnOk result (out.new.items ≡ out.old.items ++ joined (codes ",") (map field_text fields.now)) }
{
    let Some((first, others)) = fields.split_first() else {
        return Ok(());
    };
    put_field(alloc, out, first)?;
    put_other_fields(alloc, out, others)?;
    Ok(())
}

/// Appends the fields that stand behind another, each behind a comma.
fn put_other_fields(
    alloc: Global,
    out: &mut Vec<u8>,
    fields: &[ShownField],
) -> Result<(), AllocError>
    ensures { OnOk result (out.new.items ≡ out.old.items ++ flat_map (λ field. codes "," ++ field_text field) fields.now) }
{
    for field in fields {
        out.push(b',')?;
        put_field(alloc, out, field)?;
    }
    Ok(())
}

fn put_field(alloc: Global, out: &mut Vec<u8>, field: &ShownField) -> Result<(), AllocError>
    ensures { OnOk result (out.new.items ≡ out.old.items ++ field_text field.now) }
{
    out.push(b' ')?;
    out.extend_from_slice(field.name.as_slice())?;
    out.extend_from_slice(b": ")?;
    put_value(alloc, out, &field.value)
}

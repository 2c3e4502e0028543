//! Classes and their fields, read and written.

ghost use Rattle.std.specs.Prelude.{◌≡◌, ◌≤◌, ◌<◌, ◌++◌, length, IsTrue, OnOk, IfSome, IfNone};
ghost use Rattle.oc_model.specs.Kinds.{base_tag, kind_tag};
ghost use Rattle.oc_model.specs.Spelling.{field_flags, name_bytes};
ghost use Rattle.oc_marshal.specs.Places.{StandsAt, NothingAt};
ghost use Rattle.oc_catalog.specs.Drafts.{is_label, is_short_name, label_bytes};

use crate::parts::{Part, few_at, write_few};
use crate::places::{flags_at, kind_at, name_at, word_at};
use oc_schema::{ClassDef, FieldDef};
use oc_value::{Base, Kind};
use std::alloc::{AllocError, Global};

impl Part for FieldDef {
    ghost use Rattle.oc_model.specs.Spelling.{field_bytes};
    ghost use Rattle.oc_catalog.specs.Drafts.{is_field};
    ghost use Rattle.oc_catalog.specs.Telling.{fields_tell};

    ghost test = { is_field };

    ghost spell = { field_bytes };

    fn read(alloc: Global, bytes: &[u8], at: usize) -> Result<Option<(Self, usize)>, AllocError> {
        let Some((id, kind, current, indexed, from)) = label_at(bytes, at) else {
            return Ok(None);
        };
        let Some((name, to)) = name_at(alloc, bytes, from)? else {
            return Ok(None);
        };
        let field = FieldDef {
            id,
            name,
            kind,
            current,
            indexed,
        };
        Ok(Some((field, to)))
    }

    fn write(&self, out: &mut Vec<u8>) -> Result<(), AllocError> {
        out.extend_from_slice(&self.id.to_be_bytes())?;
        out.push(flags_of(self))?;
        out.push(tag_of(self.kind))?;
        write_name(self.name.as_slice(), out)?;
        Ok(())
    }

    ghost told = { fields_tell };
}

impl Part for ClassDef {
    ghost use Rattle.oc_model.specs.Spelling.{class_bytes};
    ghost use Rattle.oc_catalog.specs.Drafts.{is_class};
    ghost use Rattle.oc_catalog.specs.Telling.{classes_tell};

    ghost test = { is_class };

    ghost spell = { class_bytes };

    fn read(alloc: Global, bytes: &[u8], at: usize) -> Result<Option<(Self, usize)>, AllocError> {
        let Some((parent, from)) = word_at(bytes, at) else {
            return Ok(None);
        };
        let Some((name, mid)) = name_at(alloc, bytes, from)? else {
            return Ok(None);
        };
        let Some((fields, to)) = few_at::<FieldDef>(alloc, bytes, mid)? else {
            return Ok(None);
        };
        let class = ClassDef {
            name,
            parent,
            fields,
        };
        Ok(Some((class, to)))
    }

    fn write(&self, out: &mut Vec<u8>) -> Result<(), AllocError> {
        out.extend_from_slice(&self.parent.to_be_bytes())?;
        write_name(self.name.as_slice(), out)?;
        write_few(self.fields.as_slice(), out)?;
        Ok(())
    }

    ghost told = { classes_tell };
}

// A field's id and kind, and whether it is current and indexed.
fn label_at(bytes: &[u8], at: usize) -> Option<(u32, Kind, bool, bool, usize)>
    requires { at ≤ length bytes.now }
    ensures found { IfSome result (λ p. StandsAt is_label label_bytes bytes.now at (p.0, ((p.2, p.3), p.1)) p.4) }
    ensures none { IfNone result (NothingAt is_label label_bytes bytes.now at) }
{
    let (id, from) = word_at(bytes, at)?;
    let (current, indexed, mid) = flags_at(bytes, from)?;
    let (kind, to) = kind_at(bytes, mid)?;
    Some((id, kind, current, indexed, to))
}

fn flags_of(field: &FieldDef) -> u8
    ensures { result ≡ field_flags field.now }
{
    u8::from(field.current) + 2 * u8::from(field.indexed)
}

fn tag_of(kind: Kind) -> u8
    ensures { result ≡ kind_tag kind }
{
    match kind {
        Kind::One(base) => tag_of_base(base),
        Kind::Many(base) => tag_of_base(base) + 16,
    }
}

fn tag_of_base(base: Base) -> u8
    ensures tag { result ≡ base_tag base }
    ensures small { result < 16 }
{
    match base {
        Base::Bool => 1,
        Base::I8 => 2,
        Base::I16 => 3,
        Base::I32 => 4,
        Base::I64 => 5,
        Base::Text => 6,
        Base::Ref => 7,
        Base::U64 => 8,
        Base::I128 => 9,
    }
}

fn write_name(name: &[u8], out: &mut Vec<u8>) -> Result<(), AllocError>
    requires { IsTrue (is_short_name name.now) }
    ensures { OnOk result (out.new.items ≡ out.old.items ++ name_bytes name.now) }
{
    out.push(name.len() as u8)?;
    out.extend_from_slice(name)?;
    Ok(())
}

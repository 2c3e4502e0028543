//! Commands in words: what each part is, and its parts behind it.

use oc_model::value::{Base, Kind, Txt};
use oc_script::{
    Command, CompareOp, CritText, Decl, ExprText, FlagSetting, Given, Literal, NumberSetting,
    RunDepth, SideText, Single, TextOp, ValueText,
};
use std::alloc::{AllocError, Global};
use std::test::Fail;

/// How deep an expression is shown.
const MOST_DEEP: usize = 200;

type Put = Result<(), AllocError>;

/// The command in words.
pub(crate) fn shown(alloc: Global, command: &Command) -> Result<Vec<u8>, Fail> {
    let mut out = Vec::new(alloc);
    put_schema_line(alloc, &mut out, command)?;
    put_object_line(alloc, &mut out, command)?;
    put_name_line(alloc, &mut out, command)?;
    put_query_line(alloc, &mut out, command)?;
    Ok(out)
}

// ---- parts

fn put(out: &mut Vec<u8>, words: &[u8]) -> Put {
    out.extend_from_slice(words)
}

fn put_name(out: &mut Vec<u8>, name: &Txt) -> Put {
    out.extend_from_slice(b" ")?;
    out.extend_from_slice(name.as_slice())
}

fn put_nat(alloc: Global, out: &mut Vec<u8>, number: u128) -> Put {
    let digits = format!(in alloc; " {number}")?;
    out.extend_from_slice(digits.as_bytes())
}

fn put_number(alloc: Global, out: &mut Vec<u8>, number: u128) -> Put {
    let digits = format!(in alloc; " ~{number}")?;
    out.extend_from_slice(digits.as_bytes())
}

fn put_int(alloc: Global, out: &mut Vec<u8>, number: i128) -> Put {
    let digits = format!(in alloc; " int {number}")?;
    out.extend_from_slice(digits.as_bytes())
}

fn put_text(out: &mut Vec<u8>, text: &Txt) -> Put {
    out.extend_from_slice(b" '")?;
    out.extend_from_slice(text.as_slice())?;
    out.extend_from_slice(b"'")
}

fn put_path(out: &mut Vec<u8>, path: &[Txt]) -> Put {
    for name in path {
        out.extend_from_slice(b" .")?;
        out.extend_from_slice(name.as_slice())?;
    }
    Ok(())
}

fn base_shown(base: Base) -> &'static [u8] {
    match base {
        Base::Bool => b" bool",
        Base::I8 => b" i8",
        Base::I16 => b" i16",
        Base::I32 => b" i32",
        Base::I64 => b" i64",
        Base::U64 => b" u64",
        Base::I128 => b" i128",
        Base::Text => b" text",
        Base::Ref => b" ref",
    }
}

fn put_kind(out: &mut Vec<u8>, kind: Kind) -> Put {
    match kind {
        Kind::One(base) => put(out, base_shown(base)),
        Kind::Many(base) => {
            put(out, b" many")?;
            put(out, base_shown(base))
        }
    }
}

fn bool_shown(truth: bool) -> &'static [u8] {
    if truth { b" true" } else { b" false" }
}

fn put_single(alloc: Global, out: &mut Vec<u8>, single: &Single) -> Put {
    match single {
        Single::Null => put(out, b" null"),
        Single::Bool(truth) => put(out, bool_shown(*truth)),
        Single::Int(number) => put_int(alloc, out, *number),
        Single::Text(text) => put_text(out, text),
        Single::Name(name) => put_name(out, name),
        Single::Num(number) => put_number(alloc, out, *number),
    }
}

fn put_value(alloc: Global, out: &mut Vec<u8>, value: &ValueText) -> Put {
    match value {
        ValueText::One(single) => put_single(alloc, out, single),
        ValueText::Many(singles) => {
            put(out, b" [")?;
            for single in singles.as_slice() {
                put_single(alloc, out, single)?;
            }
            put(out, b" ]")
        }
    }
}

fn put_decls(out: &mut Vec<u8>, decls: &[Decl]) -> Put {
    for decl in decls {
        put_name(out, &decl.name)?;
        put_kind(out, decl.kind)?;
    }
    Ok(())
}

fn put_givens(alloc: Global, out: &mut Vec<u8>, givens: &[Given]) -> Put {
    for given in givens {
        put_name(out, &given.name)?;
        put_value(alloc, out, &given.value)?;
    }
    Ok(())
}

// ---- lines

fn put_schema_line(alloc: Global, out: &mut Vec<u8>, command: &Command) -> Put {
    match command {
        Command::Class {
            name,
            parent,
            fields,
        } => {
            put(out, b"class")?;
            put_name(out, name)?;
            put_parent(out, parent.as_ref())?;
            put_decls(out, fields.as_slice())
        }
        Command::RenameClass { class, to } => {
            put(out, b"rename class")?;
            put_name(out, class)?;
            put_name(out, to)
        }
        Command::RenameField { class, field, to } => {
            put(out, b"rename field")?;
            put_name(out, class)?;
            put_name(out, field)?;
            put_name(out, to)
        }
        Command::Convert { class, field, from } => {
            put(out, b"convert")?;
            put_name(out, class)?;
            put_name(out, field)?;
            put_kind(out, *from)
        }
        Command::Index { class, field } => {
            put(out, b"index")?;
            put_name(out, class)?;
            put_name(out, field)
        }
        Command::Unindex { class, field } => {
            put(out, b"unindex")?;
            put_name(out, class)?;
            put_name(out, field)
        }
        _ => put_setting_line(alloc, out, command),
    }
}

fn put_parent(out: &mut Vec<u8>, parent: Option<&Txt>) -> Put {
    match parent {
        Some(parent) => {
            put(out, b" below")?;
            put_name(out, parent)
        }
        None => Ok(()),
    }
}

fn put_setting_line(alloc: Global, out: &mut Vec<u8>, command: &Command) -> Put {
    match command {
        Command::ConfigRun { which, to } => {
            put(
                out,
                match which {
                    RunDepth::Activation => b"run activation".as_slice(),
                    RunDepth::Update => b"run update",
                },
            )?;
            put_nat(alloc, out, *to)
        }
        Command::ConfigNumber { class, setting, to } => {
            put(
                out,
                match setting {
                    NumberSetting::Minimum => b"class minimum".as_slice(),
                    NumberSetting::Maximum => b"class maximum",
                    NumberSetting::Update => b"class update",
                },
            )?;
            put_name(out, class)?;
            put_nat(alloc, out, *to)
        }
        Command::ConfigFlag { class, setting, on } => {
            put(
                out,
                match setting {
                    FlagSetting::CascadeActivate => b"cascade activate".as_slice(),
                    FlagSetting::CascadeUpdate => b"cascade update",
                    FlagSetting::CascadeDelete => b"cascade delete",
                },
            )?;
            put_name(out, class)?;
            put(out, bool_shown(*on))
        }
        _ => Ok(()),
    }
}

fn put_depth(alloc: Global, out: &mut Vec<u8>, depth: Option<u128>) -> Put {
    match depth {
        Some(depth) => put_nat(alloc, out, depth),
        None => put(out, b" by default"),
    }
}

fn put_object_line(alloc: Global, out: &mut Vec<u8>, command: &Command) -> Put {
    match command {
        Command::New {
            name,
            class,
            givens,
        } => {
            put(out, b"new")?;
            put_name(out, name)?;
            put_name(out, class)?;
            put_givens(alloc, out, givens.as_slice())
        }
        Command::Make { class, givens } => {
            put(out, b"make")?;
            put_name(out, class)?;
            put_givens(alloc, out, givens.as_slice())
        }
        Command::Let { name, field, value } => {
            put(out, b"let")?;
            put_name(out, name)?;
            put_name(out, field)?;
            put_value(alloc, out, value)
        }
        _ => put_walk_line(alloc, out, command),
    }
}

fn put_walk_line(alloc: Global, out: &mut Vec<u8>, command: &Command) -> Put {
    match command {
        Command::Store { name, depth } => {
            put(out, b"store")?;
            put_name(out, name)?;
            put_depth(alloc, out, *depth)
        }
        Command::Delete { name } => {
            put(out, b"delete")?;
            put_name(out, name)
        }
        Command::Activate { name, depth } => {
            put(out, b"activate")?;
            put_name(out, name)?;
            put_depth(alloc, out, *depth)
        }
        Command::Deactivate { name, depth } => {
            put(out, b"deactivate")?;
            put_name(out, name)?;
            put_nat(alloc, out, *depth)
        }
        Command::Refresh { name, depth } => {
            put(out, b"refresh")?;
            put_name(out, name)?;
            put_nat(alloc, out, *depth)
        }
        Command::Purge { name } => {
            put(out, b"purge")?;
            put_name(out, name)
        }
        _ => Ok(()),
    }
}

fn side_shown(side: SideText) -> &'static [u8] {
    match side {
        SideText::Committed => b" committed",
        SideText::Session => b" session",
    }
}

fn put_name_line(alloc: Global, out: &mut Vec<u8>, command: &Command) -> Put {
    match command {
        Command::BindNumber { name, number } => {
            put(out, b"bind number")?;
            put_name(out, name)?;
            put_number(alloc, out, *number)
        }
        Command::BindField {
            name,
            source,
            field,
        } => {
            put(out, b"bind field")?;
            put_name(out, name)?;
            put_name(out, source)?;
            put_name(out, field)
        }
        Command::Forget { name } => {
            put(out, b"forget")?;
            put_name(out, name)
        }
        Command::Names => put(out, b"names"),
        Command::Show { name } => {
            put(out, b"show")?;
            put_name(out, name)
        }
        Command::PeekName { name, depth, side } => {
            put(out, b"peek name")?;
            put_name(out, name)?;
            put_nat(alloc, out, *depth)?;
            put(out, side_shown(*side))
        }
        Command::PeekNumber {
            number,
            depth,
            side,
        } => {
            put(out, b"peek number")?;
            put_number(alloc, out, *number)?;
            put_nat(alloc, out, *depth)?;
            put(out, side_shown(*side))
        }
        _ => Ok(()),
    }
}

// ---- queries

fn put_query_line(alloc: Global, out: &mut Vec<u8>, command: &Command) -> Put {
    match command {
        Command::Query {
            class,
            filter,
            criteria,
        } => {
            put(out, b"query")?;
            put_name(out, class)?;
            put_filter(alloc, out, filter.as_ref())?;
            put_criteria(out, criteria.as_slice())
        }
        Command::Example { name } => {
            put(out, b"example")?;
            put_name(out, name)
        }
        Command::Commit => put(out, b"commit"),
        Command::Rollback => put(out, b"rollback"),
        _ => Ok(()),
    }
}

fn put_filter(alloc: Global, out: &mut Vec<u8>, filter: Option<&ExprText>) -> Put {
    match filter {
        Some(filter) => {
            put(out, b" where")?;
            put_expr(alloc, out, filter, MOST_DEEP)
        }
        None => Ok(()),
    }
}

fn put_criteria(out: &mut Vec<u8>, criteria: &[CritText]) -> Put {
    for criterion in criteria {
        put(out, b" by")?;
        put_path(out, criterion.path.as_slice())?;
        if criterion.ascending {
            put(out, b" up")?;
        } else {
            put(out, b" down")?;
        }
    }
    Ok(())
}

#[cycle(shown)]
fn put_expr(alloc: Global, out: &mut Vec<u8>, expr: &ExprText, depth: usize) -> Put {
    if depth == 0 {
        return put(out, b" ..");
    }
    match expr {
        ExprText::Not(operand) => {
            put(out, b" (not")?;
            put_expr(alloc, out, operand.get(), depth - 1)?;
            put(out, b")")
        }
        ExprText::And(factors) => {
            put(out, b" (and")?;
            put_exprs(alloc, out, factors.as_slice(), depth - 1)?;
            put(out, b")")
        }
        ExprText::Or(terms) => {
            put(out, b" (or")?;
            put_exprs(alloc, out, terms.as_slice(), depth - 1)?;
            put(out, b")")
        }
        _ => put_atom(alloc, out, expr),
    }
}

#[cycle(shown)]
fn put_exprs(alloc: Global, out: &mut Vec<u8>, exprs: &[ExprText], depth: usize) -> Put {
    for expr in exprs {
        put_expr(alloc, out, expr, depth)?;
    }
    Ok(())
}

fn put_atom(alloc: Global, out: &mut Vec<u8>, expr: &ExprText) -> Put {
    match expr {
        ExprText::Compare { path, op, literal } => {
            put_path(out, path.as_slice())?;
            put(out, compare_shown(*op))?;
            put_literal(alloc, out, literal)
        }
        ExprText::Match { path, op, text } => {
            put_path(out, path.as_slice())?;
            put(out, match_shown(*op))?;
            put_text(out, text)
        }
        ExprText::IsName { path, name } => {
            put_path(out, path.as_slice())?;
            put(out, b" is")?;
            put_name(out, name)
        }
        ExprText::IsNumber { path, number } => {
            put_path(out, path.as_slice())?;
            put(out, b" is")?;
            put_number(alloc, out, *number)
        }
        ExprText::Example { path, name } => {
            put_path(out, path.as_slice())?;
            put(out, b" example")?;
            put_name(out, name)
        }
        _ => Ok(()),
    }
}

fn compare_shown(op: CompareOp) -> &'static [u8] {
    match op {
        CompareOp::Equal => b" =",
        CompareOp::Less => b" <",
        CompareOp::AtMost => b" <=",
        CompareOp::Greater => b" >",
        CompareOp::AtLeast => b" >=",
    }
}

fn match_shown(op: TextOp) -> &'static [u8] {
    match op {
        TextOp::Like => b" like",
        TextOp::Contains => b" contains",
        TextOp::Starts => b" starts",
        TextOp::Ends => b" ends",
    }
}

fn put_literal(alloc: Global, out: &mut Vec<u8>, literal: &Literal) -> Put {
    match literal {
        Literal::Null => put(out, b" null"),
        Literal::Bool(truth) => put(out, bool_shown(*truth)),
        Literal::Int(number) => put_int(alloc, out, *number),
        Literal::Text(text) => put_text(out, text),
    }
}

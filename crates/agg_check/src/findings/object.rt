//! What is wrong with a value, down its members and items.

use crate::findings::Severity;
use crate::findings::findings::Findings;
use crate::findings::grammar::{Form, Need, Others, Shape};
use crate::findings::path::Path;
use crate::findings::scalar::check_scalar;
use crate::findings::words::{names_of, other_words};
use agg_values::{OutOfMemory, Text};
use json::Value;

// A member is compared with so many before it.
const MANY_MEMBERS: usize = 100;

/// Tells what is wrong with a value of a line that has to be of a form. Levels of members and items
/// below the given number aren't looked at.
#[cycle(values)]
pub fn check_value(
    found: &mut Findings,
    line: &str,
    path: &Path<'_>,
    value: &Value<'_>,
    asked: (Form, usize),
) -> Result<(), OutOfMemory> {
    if asked.1 == 0 {
        return Ok(());
    }
    let below = asked.1 - 1;
    match (asked.0, value) {
        (Form::Object(shape), Value::Object(members)) => {
            check_members(found, line, path, members.as_slice(), (shape, below))
        }
        (Form::Value, Value::Object(members)) | (Form::Values, Value::Object(members)) => {
            check_members(
                found,
                line,
                path,
                members.as_slice(),
                (Shape::TypedValue, below),
            )
        }
        (Form::Objects(shape), Value::Array(items)) => {
            check_items(
                found,
                line,
                path,
                items.as_slice(),
                (Form::Object(shape), below),
            )
        }
        (Form::Texts, Value::Array(items)) => {
            check_items(found, line, path, items.as_slice(), (Form::Text, below))
        }
        (Form::Values, Value::Array(items)) => {
            check_items(found, line, path, items.as_slice(), (Form::Value, below))
        }
        _ => check_scalar(found, line, path, value, asked.0),
    }
}

#[cycle(values)]
fn check_items(
    found: &mut Findings,
    line: &str,
    path: &Path<'_>,
    items: &[Value<'_>],
    asked: (Form, usize),
) -> Result<(), OutOfMemory> {
    for (index, item) in items.iter().enumerate() {
        check_value(found, line, &Path::Item(&*path, index), item, asked)?;
    }
    Ok(())
}

#[cycle(values)]
fn check_members(
    found: &mut Findings,
    line: &str,
    path: &Path<'_>,
    members: &[(&str, Value<'_>)],
    asked: (Shape, usize),
) -> Result<(), OutOfMemory> {
    for (index, member) in members.iter().enumerate() {
        let name = Text::copy_of(found.alloc, member.0)?;
        let inner = Path::Member(&*path, name);
        if stands_before(members, index, member.0) {
            let what = String::from_str(found.alloc, "it stands twice, and the last one counts")?;
            found.of_name(Severity::Warning, line, &inner, what)?;
        }
        check_member(found, line, &inner, member, asked)?;
    }
    check_names(found, line, path, members, asked.0)
}

#[cycle(values)]
fn check_member(
    found: &mut Findings,
    line: &str,
    path: &Path<'_>,
    member: &(&str, Value<'_>),
    asked: (Shape, usize),
) -> Result<(), OutOfMemory> {
    let (shape, depth) = asked;
    if let Some(form) = form_of(shape, member.0) {
        return check_value(found, line, path, &member.1, (form, depth));
    }
    let severity = match shape.others() {
        Others::Each(form) | Others::One(form) => {
            return check_value(found, line, path, &member.1, (form, depth));
        }
        Others::PassedOver => Severity::Warning,
        Others::Refused => Severity::Mistake,
    };
    let what = other_words(found.alloc, member.0, severity, shape)?;
    found.of_name(severity, line, path, what)
}

// What the member of a name has to be, if it has a meaning of its own.
fn form_of(shape: Shape, name: &str) -> Option<Form> {
    for (known, form, _) in shape.members() {
        if *known == name {
            return Some(*form);
        }
    }
    None
}

// Whether one of the first members has this name, before one of them.
fn stands_before(members: &[(&str, Value<'_>)], index: usize, name: &str) -> bool {
    let count = index.min(MANY_MEMBERS);
    members.iter().take(count).any(|member| member.0 == name)
}

fn has_member(members: &[(&str, Value<'_>)], name: &str) -> bool {
    members.iter().any(|member| member.0 == name)
}

// Tells members that are missing, or too many.
fn check_names(
    found: &mut Findings,
    line: &str,
    path: &Path<'_>,
    members: &[(&str, Value<'_>)],
    shape: Shape,
) -> Result<(), OutOfMemory> {
    let alloc = found.alloc;
    for (name, _, need) in shape.members() {
        if *need == Need::Required && !has_member(members, name) {
            let what = format!(in alloc; "'{name}' is missing")?;
            found.mistake(line, path, what)?;
        }
    }
    if let Others::One(_) = shape.others() {
        if members.len() != 1 {
            let count = members.len();
            let what = format!(in alloc; "expected one member, found {count}")?;
            found.mistake(line, path, what)?;
        }
    }
    check_kind(found, line, path, members, shape)?;
    check_bounds(found, line, path, members, shape)?;
    check_leaf(found, line, path, members, shape)
}

// Tells where there isn't exactly one kind. An unknown one is told by its name.
fn check_kind(
    found: &mut Findings,
    line: &str,
    path: &Path<'_>,
    members: &[(&str, Value<'_>)],
    shape: Shape,
) -> Result<(), OutOfMemory> {
    let leaves = count_of(members, shape, Need::Leaf);
    let count = leaves.saturating_add(count_of(members, shape, Need::Kind));
    let is_missing = count == 0 && shape.has_kinds() && !has_unknown(members, shape);
    if count > 1 || is_missing {
        let names = names_of(found.alloc, shape)?;
        let what = format!(in found.alloc; "expected exactly one of {names}")?;
        found.mistake(line, path, what)?;
    }
    Ok(())
}

// Tells two bounds of one side.
fn check_bounds(
    found: &mut Findings,
    line: &str,
    path: &Path<'_>,
    members: &[(&str, Value<'_>)],
    shape: Shape,
) -> Result<(), OutOfMemory> {
    for (need, what) in [
        (Need::Lower, "gt and gte exclude each other"),
        (Need::Upper, "lt and lte exclude each other"),
    ] {
        if count_of(members, shape, need) > 1 {
            let what = String::from_str(found.alloc, what)?;
            found.mistake(line, path, what)?;
        }
    }
    Ok(())
}

// Tells aggregations below one that has none.
fn check_leaf(
    found: &mut Findings,
    line: &str,
    path: &Path<'_>,
    members: &[(&str, Value<'_>)],
    shape: Shape,
) -> Result<(), OutOfMemory> {
    if count_of(members, shape, Need::Leaf) > 0 && members.iter().any(is_inhabited_below) {
        let what = String::from_str(found.alloc, "a metric has no aggregations below it")?;
        let name = Text::copy_of(found.alloc, "aggs")?;
        found.of_name(Severity::Mistake, line, &Path::Member(&*path, name), what)?;
    }
    Ok(())
}

// Whether a member is aggregations below.
fn is_inhabited_below(member: &(&str, Value<'_>)) -> bool {
    match &member.1 {
        Value::Object(below) => member.0 == "aggs" && !below.is_empty(),
        _ => false,
    }
}

// How many of these members an object has.
fn count_of(members: &[(&str, Value<'_>)], shape: Shape, need: Need) -> usize {
    let mut count = 0usize;
    for (name, _, other) in shape.members() {
        if *other == need && has_member(members, name) {
            count = count.saturating_add(1);
        }
    }
    count
}

// Whether an object has a member without a meaning.
fn has_unknown(members: &[(&str, Value<'_>)], shape: Shape) -> bool {
    members
        .iter()
        .any(|member| form_of(shape, member.0).is_none())
}

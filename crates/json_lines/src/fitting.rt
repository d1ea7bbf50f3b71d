//! Which shape a line has, and its members.
ghost use Rattle.std.specs.Prelude.{◌≡◌, [], IfOk, map};
ghost use Rattle.std.specs.Option.{option_map};
ghost use Rattle.json_lines.specs.Lines.{parts_by};
ghost use Rattle.json_lines.specs.Shapes as spec;
ghost use Rattle.json_lines.specs.inner.Views.{members as members_view, row};

use crate::parting::{first_part, kind_in, mark_in, stripped, until};
use std::alloc::{AllocError, Global};

/// The name of a member, and its text.
pub(crate) type Member<'a> = (&'a str, &'a str);

/// What is told of a line: its kind, and its members.
#[derive(Drop)]
pub(crate) struct Row<'a> {
    pub(crate) kind: &'a str,
    pub(crate) members: Vec<Member<'a>>,
}

// The members that a text has by marks, if it has them all and nothing behind them.
fn members_of<'a>(
    alloc: Global,
    marks: &'a str,
    text: &'a str,
) -> Result<Option<Vec<Member<'a>>>, AllocError>
    ensures { IfOk result (λ found. option_map (λ ms. members_view ms.items) found
        ≡ spec.members_of (map spec.mark_in (parts_by spec.open_brace marks.entry.now)) text.entry.now) }
{
    let mut members = Vec::new(alloc);
    let mut left = marks;
    let mut rest = text;
    'mark: while !left.is_empty() {
        let (piece, more) = first_part(left, '{');
        let (name, mark) = mark_in(piece);
        let Some((value, behind)) = until(rest, mark) else {
            return Ok(None);
        };
        members.push((name, value))?;
        left = more;
        rest = behind;
    }
    if rest.is_empty() {
        return Ok(Some(members));
    }
    Ok(None)
}

// The members of a line that looks so.
fn members_by<'a>(
    alloc: Global,
    look: &'a str,
    line: &'a str,
) -> Result<Option<Vec<Member<'a>>>, AllocError>
    ensures { IfOk result (λ found. option_map (λ ms. members_view ms.items) found
        ≡ spec.members_by (spec.shaped [] (parts_by spec.open_brace look.entry.now)) line.entry.now) }
{
    let (front, marks) = first_part(look, '{');
    match stripped(line, front) {
        Some(rest) => members_of(alloc, marks, rest),
        None => Ok(None),
    }
}

// A line as it is.
fn text_row<'a>(alloc: Global, line: &'a str) -> Result<Row<'a>, AllocError>
    ensures { IfOk result (λ told. row told ≡ spec.text_row line.entry.now) }
{
    let mut members = Vec::new(alloc);
    members.push(("text", line))?;
    Ok(Row {
        kind: "text",
        members,
    })
}

/// What is told of a line by the first of these shapes that it has.
pub(crate) fn row_of<'a>(
    alloc: Global,
    shapes: &'a str,
    line: &'a str,
) -> Result<Row<'a>, AllocError>
    ensures { IfOk result (λ told. row told ≡ spec.text_row_of (spec.shapes_in shapes.entry.now) line.entry.now) }
{
    let mut left = shapes;
    'shape: while !left.is_empty() {
        let (shape, more) = first_part(left, '\n');
        let (kind, look) = kind_in(shape);
        if let Some(members) = members_by(alloc, look, line)? {
            return Ok(Row { kind, members });
        }
        left = more;
    }
    text_row(alloc, line)
}

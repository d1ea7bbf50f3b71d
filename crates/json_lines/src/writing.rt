//! The objects of an answer, as text.
ghost use Rattle.std.specs.Prelude.{◌≡◌, ◌≤◌, ◌<◌, ◌++◌, ◌∷◌, [], IfOk, OnOk, drop, length, map};
ghost use Rattle.std.specs.List.{flat_map};
ghost use Rattle.json.specs.Print.{print};
ghost use Rattle.json.specs.Tree.{json_tokens};
ghost use Rattle.texts.specs.Lines.{line_feed};
ghost use Rattle.json_lines.specs.Kinds.{kinds_of, shapes_of};
ghost use Rattle.json_lines.specs.Objects as spec;
ghost use Rattle.json_lines.specs.Shapes as shapes_spec;
ghost use Rattle.json_lines.specs.inner.Tokens.{details_tokens, each_tokens, member_tokens, objects_in, row_tokens, said as said_in};
ghost use Rattle.json_lines.specs.inner.Views.{members as members_view, row as row_view, texts};

use crate::fitting::{Member, Row, row_of};
use crate::splitting::{count_of_details, lines_of, said};
use crate::table::texts_called;
use json::Writer;
use std::alloc::{AllocError, Global};

// Adds members.
fn put_members(writer: &mut Writer, members: &[Member<'_>]) -> Result<(), AllocError>
    ensures tokens { OnOk result (writer.new.tokens ≡ writer.old.tokens ++ flat_map member_tokens (members_view members.now)) }
    ensures before { OnOk result (writer.new.before ≡ writer.old.before) }
{
    for member in members {
        writer.key(member.0)?;
        writer.string(member.1)?;
    }
    Ok(())
}

// Adds the kind and the members of what is told of a line.
fn put_row(writer: &mut Writer, row: &Row<'_>) -> Result<(), AllocError>
    ensures tokens { OnOk result (writer.new.tokens ≡ writer.old.tokens ++ row_tokens (row_view row.now)) }
    ensures before { OnOk result (writer.new.before ≡ writer.old.before) }
{
    writer.key("kind")?;
    writer.string(row.kind)?;
    put_members(writer, &row.members)?;
    Ok(())
}

// Adds what is told of a text.
fn put_text(alloc: Global, writer: &mut Writer, shapes: &str, line: &str) -> Result<(), AllocError>
    ensures tokens { OnOk result (writer.new.tokens
        ≡ writer.old.tokens ++ row_tokens (shapes_spec.text_row_of (shapes_spec.shapes_in shapes.now) line.now)) }
    ensures before { OnOk result (writer.new.before ≡ writer.old.before) }
{
    let row = row_of(alloc, shapes, line)?;
    put_row(writer, &row)?;
    Ok(())
}

// Adds bytes by their hexadecimal digits.
fn put_bytes(alloc: Global, writer: &mut Writer, kind: &str, bytes: &[u8]) -> Result<(), AllocError>
    ensures tokens { OnOk result (writer.new.tokens ≡ writer.old.tokens ++ row_tokens (shapes_spec.bytes_row kind.now bytes.now)) }
    ensures before { OnOk result (writer.new.before ≡ writer.old.before) }
{
    let digits = hex::encode(alloc, bytes)?;
    writer.key("kind")?;
    writer.string(kind)?;
    writer.key("hex")?;
    writer.string(digits.as_str())?;
    Ok(())
}

// Adds what is told of a line.
fn put_line(alloc: Global, writer: &mut Writer, shapes: &str, line: &[u8]) -> Result<(), AllocError>
    ensures tokens { OnOk result (writer.new.tokens
        ≡ writer.old.tokens ++ row_tokens (shapes_spec.row_of (shapes_spec.shapes_in shapes.now) line.now)) }
    ensures before { OnOk result (writer.new.before ≡ writer.old.before) }
{
    match str::from_utf8(line) {
        Ok(text) => put_text(alloc, writer, shapes, text)?,
        Err(_) => put_bytes(alloc, writer, "bytes", line)?,
    }
    Ok(())
}

// Adds the object of a detail.
fn put_detail(
    alloc: Global,
    writer: &mut Writer,
    shapes: &str,
    line: &[u8],
) -> Result<(), AllocError>
    ensures tokens { OnOk result (writer.new.tokens
        ≡ writer.old.tokens ++ json_tokens (spec.detail_object (shapes_spec.shapes_in shapes.now) line.now)) }
    ensures before { OnOk result (writer.new.before ≡ writer.old.before) }
{
    writer.begin_object()?;
    put_line(alloc, writer, shapes, line)?;
    writer.end_object()?;
    Ok(())
}

// Adds the objects of details.
fn put_each(
    alloc: Global,
    writer: &mut Writer,
    shapes: &str,
    lines: &[&[u8]],
) -> Result<(), AllocError>
    ensures tokens { OnOk result (writer.new.tokens
        ≡ writer.old.tokens ++ each_tokens (shapes_spec.shapes_in shapes.now) (map said_in (texts lines.now))) }
    ensures before { OnOk result (writer.new.before ≡ writer.old.before) }
{
    for line in lines {
        put_detail(alloc, writer, shapes, said(line))?;
    }
    Ok(())
}

// Adds details, if there are any.
fn put_details(
    alloc: Global,
    writer: &mut Writer,
    shapes: &str,
    lines: &[&[u8]],
) -> Result<(), AllocError>
    ensures tokens { OnOk result (writer.new.tokens
        ≡ writer.old.tokens ++ details_tokens (shapes_spec.shapes_in shapes.now) (map said_in (texts lines.now))) }
    ensures before { OnOk result (writer.new.before ≡ writer.old.before) }
{
    if lines.is_empty() {
        return Ok(());
    }
    writer.key("details")?;
    writer.begin_array()?;
    put_each(alloc, writer, shapes, lines)?;
    writer.end_array()?;
    Ok(())
}

// The shapes of lines, and of details.
type Shapes<'a> = (&'a str, &'a str);

// What was written, as a line.
fn line_of(writer: Writer) -> Result<Vec<u8>, AllocError>
    ensures { IfOk result (λ bytes. bytes.items ≡ (writer.before ++ print writer.tokens) ++ line_feed ∷ []) }
{
    let mut bytes = writer.into_inner();
    bytes.push(10)?;
    Ok(bytes)
}

// The object of a line and the details behind it.
fn object(
    alloc: Global,
    kinds: Shapes<'_>,
    head: &[u8],
    details: &[&[u8]],
) -> Result<Vec<u8>, AllocError>
    ensures { IfOk result (λ bytes. bytes.items
        ≡ spec.object_line (spec.group_object (shapes_of (kinds.entry.0.now, kinds.entry.1.now)) (head.now, map said_in (texts details.now)))) }
{
    let mut writer = Writer::new(Vec::new(alloc));
    writer.begin_object()?;
    put_line(alloc, &mut writer, kinds.0, head)?;
    put_details(alloc, &mut writer, kinds.1, details)?;
    writer.end_object()?;
    line_of(writer)
}

// Adds the object of the line at a place, with the details behind it. Returns the place behind these.
fn put_group(
    alloc: Global,
    told: &mut Vec<u8>,
    kinds: Shapes<'_>,
    lines: &[&[u8]],
    at: usize,
) -> Result<usize, AllocError>
    requires { at < length lines.now }
    ensures objects { IfOk result (λ next. told.new.items
        ++ objects_in (shapes_of (kinds.entry.0.now, kinds.entry.1.now)) (texts (drop next lines.now))
        ≡ told.old.items ++ objects_in (shapes_of (kinds.entry.0.now, kinds.entry.1.now)) (texts (drop at lines.now))) }
    ensures later { IfOk result (λ next. at < next) }
    ensures within { IfOk result (λ next. next ≤ length lines.now) }
{
    let more = &lines[at + 1..];
    let count = count_of_details(more);
    let object = object(alloc, kinds, lines[at], &more[..count])?;
    told.extend_from_slice(&object)?;
    Ok(at + 1 + count)
}

// Adds the objects of lines.
fn put_objects(
    alloc: Global,
    told: &mut Vec<u8>,
    kinds: Shapes<'_>,
    lines: &[&[u8]],
) -> Result<(), AllocError>
    ensures { OnOk result (told.new.items
        ≡ told.old.items ++ objects_in (shapes_of (kinds.entry.0.now, kinds.entry.1.now)) (texts lines.now)) }
{
    let mut at = 0;
    'group: while at < lines.len() {
        at = put_group(alloc, told, kinds, lines, at)?;
    }
    Ok(())
}

// The object of the status.
fn status_line(alloc: Global, status: u8) -> Result<Vec<u8>, AllocError>
    ensures { IfOk result (λ bytes. bytes.items ≡ spec.object_line (spec.status_object status)) }
{
    let mut writer = Writer::new(Vec::new(alloc));
    writer.begin_object()?;
    writer.key("kind")?;
    writer.string("status")?;
    writer.key("status")?;
    writer.u64(u64::from(status))?;
    writer.end_object()?;
    line_of(writer)
}

// The object of a certificate.
fn certificate_line(alloc: Global, bytes: &[u8]) -> Result<Vec<u8>, AllocError>
    ensures { IfOk result (λ line. line.items ≡ spec.object_line (spec.certificate_object bytes.now)) }
{
    let mut writer = Writer::new(Vec::new(alloc));
    writer.begin_object()?;
    put_bytes(alloc, &mut writer, "certificate", bytes)?;
    writer.end_object()?;
    line_of(writer)
}

/// What a command answered in lines, and its status, as objects.
pub fn lines(alloc: Global, command: &str, text: &[u8], status: u8) -> Result<Vec<u8>, AllocError>
    ensures { IfOk result (λ told. told.items ≡ spec.told_lines (kinds_of command.now) text.now status) }
{
    let lines = lines_of(alloc, text)?;
    let mut told = Vec::new(alloc);
    put_objects(alloc, &mut told, texts_called(command), &lines)?;
    let last = status_line(alloc, status)?;
    told.extend_from_slice(&last)?;
    Ok(told)
}

/// A certificate and the status of the command that wrote it, as objects.
pub fn certificate(alloc: Global, bytes: &[u8], status: u8) -> Result<Vec<u8>, AllocError>
    ensures { IfOk result (λ told. told.items ≡ spec.told_certificate bytes.now status) }
{
    let mut told = certificate_line(alloc, bytes)?;
    let last = status_line(alloc, status)?;
    told.extend_from_slice(&last)?;
    Ok(told)
}

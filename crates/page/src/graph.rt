//! The graph of a filter.
ghost use Rattle.std.specs.Prelude.{◌≡◌, ◌++◌, OnOk};
ghost use Rattle.std.specs.List.{flat_map};
ghost use Rattle.json_lines.specs.inner.Views.{texts};
ghost use Rattle.page.specs.Graph as spec;

use crate::parts::{behind_one, has, past, up_to};
use crate::putting::{put, put_markup};
use json_lines::{lines_of, parts_of};
use std::alloc::{AllocError, Global};

// The number of the first node that a line names.
fn number_in(line: &[u8]) -> &[u8]
    ensures { result.now ≡ spec.number_in line.now }
{
    up_to(past(line, b'n'), b' ')
}

// The colour of a node.
fn colour_in(line: &[u8]) -> &[u8]
    ensures { result.now ≡ spec.colour_in line.now }
{
    up_to(past(past(past(line, b'"'), b'"'), b'='), b']')
}

// Adds instructions.
fn put_parts(page: &mut Vec<u8>, parts: &[&[u8]]) -> Result<(), AllocError>
    ensures { OnOk result (page.new.items ≡ page.old.items ++ flat_map spec.instruction_text (texts parts.now)) }
{
    for part in parts {
        put(page, "\n", up_to(behind_one(part), b'"'))?;
    }
    Ok(())
}

// Adds the instructions of a node.
fn put_instructions(alloc: Global, page: &mut Vec<u8>, line: &[u8]) -> Result<(), AllocError>
    ensures { OnOk result (page.new.items ≡ page.old.items ++ spec.instructions_text line.now) }
{
    let parts = parts_of(alloc, past(line, b'='), b'\\')?;
    put_parts(page, &parts)
}

// Adds a node.
fn put_node(alloc: Global, page: &mut Vec<u8>, mark: &str, line: &[u8]) -> Result<(), AllocError>
    ensures { OnOk result (page.new.items ≡ page.old.items ++ spec.node_text mark.now line.now) }
{
    put_markup(page, "<pre id=\"")?;
    put(page, mark, number_in(line))?;
    put(page, "\" style=\"background:", colour_in(line))?;
    put_markup(page, "\">")?;
    put_instructions(alloc, page, line)?;
    put_markup(page, "</pre>\n")
}

// Adds an edge.
fn put_edge(page: &mut Vec<u8>, mark: &str, line: &[u8]) -> Result<(), AllocError>
    ensures { OnOk result (page.new.items ≡ page.old.items ++ spec.edge_text mark.now line.now) }
{
    let target = number_in(past(line, b'>'));
    put(page, "<p>", up_to(past(line, b'='), b']'))?;
    put_markup(page, ": <a href=\"#")?;
    put(page, mark, target)?;
    put(page, "\">", target)?;
    put_markup(page, "</a></p>\n")
}

// Adds what a line tells.
fn put_line(alloc: Global, page: &mut Vec<u8>, mark: &str, line: &[u8]) -> Result<(), AllocError>
    ensures { OnOk result (page.new.items ≡ page.old.items ++ spec.line_text mark.now line.now) }
{
    if has(line, b'"') {
        put_node(alloc, page, mark, line)
    } else if has(line, b'>') {
        put_edge(page, mark, line)
    } else {
        Ok(())
    }
}

// Adds what lines tell.
fn put_lines(
    alloc: Global,
    page: &mut Vec<u8>,
    mark: &str,
    lines: &[&[u8]],
) -> Result<(), AllocError>
    ensures { OnOk result (page.new.items ≡ page.old.items ++ flat_map (spec.line_text mark.now) (texts lines.now)) }
{
    for line in lines {
        put_line(alloc, page, mark, line)?;
    }
    Ok(())
}

/// Adds the graph of a filter, or why there is none.
pub(crate) fn put_graph(
    alloc: Global,
    page: &mut Vec<u8>,
    mark: &str,
    is_drawn: bool,
    text: &[u8],
) -> Result<(), AllocError>
    ensures { OnOk result (page.new.items ≡ page.old.items ++ spec.graph_text mark.now is_drawn text.now) }
{
    if is_drawn {
        let lines = lines_of(alloc, text)?;
        put_lines(alloc, page, mark, &lines)
    } else {
        put(page, "<pre>", text)?;
        put_markup(page, "</pre>\n")
    }
}

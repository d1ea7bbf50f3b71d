//! The page of one profile, and of two.
ghost use Rattle.std.specs.Prelude.{◌≡◌, ◌++◌, IfOk, OnOk};
ghost use Rattle.std.specs.List.{flat_map};
ghost use Rattle.json_lines.specs.inner.Views.{texts};
ghost use Rattle.page.specs.Page as spec;
ghost use Rattle.page.specs.Table.{rows};

use crate::front::FRONT;
use crate::graph::put_graph;
use crate::groups::groups_of;
use crate::putting::{put, put_markup};
use crate::side::Side;
use crate::table::put_rows;
use json_lines::lines_of;
use std::alloc::{AllocError, Global};

// Adds the head of a profile's column.
fn put_head(page: &mut Vec<u8>, side: &Side<'_>) -> Result<(), AllocError>
    ensures { OnOk result (page.new.items ≡ page.old.items ++ spec.head_text (spec.read side.now)) }
{
    put(page, "<th>", side.name.as_bytes())?;
    put_markup(page, "</th>")
}

// Adds the rows of what is told of a profile, and beside it of another.
fn put_groups(
    alloc: Global,
    page: &mut Vec<u8>,
    review: &[u8],
    other: &[u8],
) -> Result<(), AllocError>
    ensures { OnOk result (page.new.items ≡ page.old.items ++ rows (spec.groups_told review.now) (spec.groups_told other.now)) }
{
    let lines = lines_of(alloc, review)?;
    let other_lines = lines_of(alloc, other)?;
    let groups = groups_of(alloc, &lines)?;
    let others = groups_of(alloc, &other_lines)?;
    put_rows(page, &groups, &others)
}

// Adds the table of one profile.
fn put_table(alloc: Global, page: &mut Vec<u8>, side: &Side<'_>) -> Result<(), AllocError>
    ensures { OnOk result (page.new.items ≡ page.old.items ++ spec.table_of_one (spec.read side.now)) }
{
    put_markup(page, "<table>\n<tr><th>group</th><th>why</th>")?;
    put_head(page, side)?;
    put_markup(page, "</tr>\n")?;
    put_groups(alloc, page, side.review, b"")?;
    put_markup(page, "</table>\n")
}

// Adds the table of two.
fn put_both(
    alloc: Global,
    page: &mut Vec<u8>,
    old: &Side<'_>,
    new: &Side<'_>,
) -> Result<(), AllocError>
    ensures { OnOk result (page.new.items ≡ page.old.items ++ spec.table_of_two (spec.read old.now) (spec.read new.now)) }
{
    put_markup(page, "<table>\n<tr><th>group</th><th>why</th>")?;
    put_head(page, old)?;
    put_head(page, new)?;
    put_markup(page, "</tr>\n")?;
    put_groups(alloc, page, old.review, new.review)?;
    put_markup(page, "</table>\n")
}

// Adds lines as a list.
fn put_list(page: &mut Vec<u8>, lines: &[&[u8]]) -> Result<(), AllocError>
    ensures { OnOk result (page.new.items ≡ page.old.items ++ flat_map spec.change_text (texts lines.now)) }
{
    for line in lines {
        put(page, "<li>", line)?;
        put_markup(page, "</li>\n")?;
    }
    Ok(())
}

// Adds what `compare` tells.
fn put_changes(alloc: Global, page: &mut Vec<u8>, compared: &[u8]) -> Result<(), AllocError>
    ensures { OnOk result (page.new.items ≡ page.old.items ++ spec.changes_text compared.now) }
{
    let lines = lines_of(alloc, compared)?;
    put_markup(page, "<h2>What differs</h2>\n<ul>\n")?;
    put_list(page, &lines)?;
    put_markup(page, "</ul>\n")
}

// Adds the filter of a profile.
fn put_filter(
    alloc: Global,
    page: &mut Vec<u8>,
    mark: &str,
    side: &Side<'_>,
) -> Result<(), AllocError>
    ensures { OnOk result (page.new.items ≡ page.old.items ++ spec.filter_text mark.now (spec.read side.now)) }
{
    put(page, "<h2>The filter of ", side.name.as_bytes())?;
    put_markup(page, "</h2>\n")?;
    put_graph(alloc, page, mark, side.is_drawn, side.graph)
}

/// The page of a profile.
pub fn page_of_one(alloc: Global, side: &Side<'_>) -> Result<Vec<u8>, AllocError>
    ensures { IfOk result (λ page. page.items ≡ spec.page_of_one (spec.read side.now)) }
{
    let mut page = Vec::new(alloc);
    put_markup(&mut page, FRONT)?;
    put_table(alloc, &mut page, side)?;
    put_filter(alloc, &mut page, "a", side)?;
    put_markup(&mut page, "</body>\n</html>\n")?;
    Ok(page)
}

/// The page of two profiles, an old one and a new one, with what `compare` tells of them.
pub fn page_of_two(
    alloc: Global,
    old: &Side<'_>,
    new: &Side<'_>,
    compared: &[u8],
) -> Result<Vec<u8>, AllocError>
    ensures { IfOk result (λ page. page.items ≡ spec.page_of_two (spec.read old.now) (spec.read new.now) compared.now) }
{
    let mut page = Vec::new(alloc);
    put_markup(&mut page, FRONT)?;
    put_both(alloc, &mut page, old, new)?;
    put_changes(alloc, &mut page, compared)?;
    put_filter(alloc, &mut page, "a", old)?;
    put_filter(alloc, &mut page, "b", new)?;
    put_markup(&mut page, "</body>\n</html>\n")?;
    Ok(page)
}

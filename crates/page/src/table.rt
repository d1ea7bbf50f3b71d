//! The table of groups.
ghost use Rattle.std.specs.Prelude.{◌≡◌, ◌++◌, OnOk, map, option_map};
ghost use Rattle.std.specs.List.{flat_map};
ghost use Rattle.json_lines.specs.inner.Tokens.{said as said_in};
ghost use Rattle.json_lines.specs.inner.Views.{texts};
ghost use Rattle.page.specs.Table as spec;
ghost use Rattle.page.specs.inner.Views.{group as group_view, groups as groups_view, other_cell};

use crate::groups::Group;
use crate::putting::{put, put_markup};
use json_lines::said;
use std::alloc::AllocError;

// Adds the lines below that of a group.
fn put_details(page: &mut Vec<u8>, details: &[&[u8]]) -> Result<(), AllocError>
    ensures { OnOk result (page.new.items ≡ page.old.items ++ flat_map spec.detail_text (map said_in (texts details.now))) }
{
    for detail in details {
        put(page, "<div>", said(detail))?;
        put_markup(page, "</div>")?;
    }
    Ok(())
}

// Adds a state, in its colour.
fn put_state(page: &mut Vec<u8>, state: &[u8]) -> Result<(), AllocError>
    ensures { OnOk result (page.new.items ≡ page.old.items ++ spec.state_text state.now) }
{
    put(page, "<td class=\"", state)?;
    put(page, "\"><b>", state)?;
    put_markup(page, "</b>")
}

// Adds what a profile leaves open of a group.
fn put_cell(page: &mut Vec<u8>, group: &Group<'_>) -> Result<(), AllocError>
    ensures { OnOk result (page.new.items ≡ page.old.items ++ spec.cell (group_view group.now)) }
{
    put_state(page, group.state())?;
    put_details(page, group.details)?;
    put_markup(page, "</td>")
}

// Adds what the other profile leaves open of a group, if there is one.
fn put_other(page: &mut Vec<u8>, other: Option<&Group<'_>>) -> Result<(), AllocError>
    ensures { OnOk result (page.new.items ≡ page.old.items ++ other_cell (option_map (λ g. group_view g.now) other.entry)) }
{
    match other {
        Some(group) => put_cell(page, group),
        None => Ok(()),
    }
}

// Adds the row of a group.
fn put_row(
    page: &mut Vec<u8>,
    group: &Group<'_>,
    other: Option<&Group<'_>>,
) -> Result<(), AllocError>
    ensures { OnOk result (page.new.items
        ≡ page.old.items ++ spec.row (group_view group.now) (other_cell (option_map (λ g. group_view g.now) other.entry))) }
{
    put(page, "<tr><th>", group.name())?;
    put(page, "</th><td>", group.why())?;
    put_markup(page, "</td>")?;
    put_cell(page, group)?;
    put_other(page, other)?;
    put_markup(page, "</tr>\n")
}

/// Adds the rows of groups, each beside the one of the other profile at its place.
pub(crate) fn put_rows(
    page: &mut Vec<u8>,
    groups: &[Group<'_>],
    others: &[Group<'_>],
) -> Result<(), AllocError>
    ensures { OnOk result (page.new.items ≡ page.old.items ++ spec.rows (groups_view groups.now) (groups_view others.now)) }
{
    for (place, group) in groups.iter().enumerate() {
        put_row(page, group, others.get(place))?;
    }
    Ok(())
}

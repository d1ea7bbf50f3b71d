//! Look-ups in the rows of all calls of Linux, which stand in four parts.
ghost use Rattle.std.specs.Prelude.{◌≡◌, ◌<◌, ◌++◌, option_copied, IsTrue};
ghost use Rattle.call_tables.specs.Table.{number_in, name_in};
ghost use Rattle.call_tables.specs.Rows.{rows, column_of};
ghost use Rattle.call_tables.specs.Tables.{first_rows, second_rows, third_rows, fourth_rows, linux_rows};
ghost use Rattle.call_tables.specs.inner.Order.{are_sorted};

use crate::linux_calls::{FIRST_CALLS, SECOND_CALLS};
use crate::linux_calls_later::{FOURTH_CALLS, THIRD_CALLS};
use crate::rows::{MACHINES, name_of, number_of};

#[tactic(auto, unfolding(crate::specs::Tables::first_rows))]
fn first() -> &'static [(&'static str, [u32; MACHINES])]
    ensures rows { rows result.now ≡ first_rows }
    ensures sorted { IsTrue (are_sorted (rows result.now)) }
{
    FIRST_CALLS
}

#[tactic(auto, unfolding(crate::specs::Tables::second_rows))]
fn second() -> &'static [(&'static str, [u32; MACHINES])]
    ensures rows { rows result.now ≡ second_rows }
    ensures sorted { IsTrue (are_sorted (rows result.now)) }
{
    SECOND_CALLS
}

#[tactic(auto, unfolding(crate::specs::Tables::third_rows))]
fn third() -> &'static [(&'static str, [u32; MACHINES])]
    ensures rows { rows result.now ≡ third_rows }
    ensures sorted { IsTrue (are_sorted (rows result.now)) }
{
    THIRD_CALLS
}

#[tactic(auto, unfolding(crate::specs::Tables::fourth_rows))]
fn fourth() -> &'static [(&'static str, [u32; MACHINES])]
    ensures rows { rows result.now ≡ fourth_rows }
    ensures sorted { IsTrue (are_sorted (rows result.now)) }
{
    FOURTH_CALLS
}

// The same from the third part on.
fn number_from_third(column: usize, name: &str) -> Option<u32>
    requires { column < 10 }
    ensures { result ≡ number_in (column_of column (third_rows ++ fourth_rows)) name.now }
{
    let found = number_of(third(), column, name);
    if found.is_some() {
        return found;
    }
    number_of(fourth(), column, name)
}

// The same from the second part on.
fn number_from_second(column: usize, name: &str) -> Option<u32>
    requires { column < 10 }
    ensures { result ≡ number_in (column_of column (second_rows ++ (third_rows ++ fourth_rows))) name.now }
{
    let found = number_of(second(), column, name);
    if found.is_some() {
        return found;
    }
    number_from_third(column, name)
}

/// The number of the name in a column.
pub(crate) fn linux_number(column: usize, name: &str) -> Option<u32>
    requires { column < 10 }
    ensures { result ≡ number_in (column_of column (first_rows ++ (second_rows ++ (third_rows ++ fourth_rows)))) name.now }
{
    let found = number_of(first(), column, name);
    if found.is_some() {
        return found;
    }
    number_from_second(column, name)
}

// The same from the third part on.
fn name_from_third(column: usize, number: u32) -> Option<&'static str>
    requires { column < 10 }
    ensures { option_copied result ≡ name_in (column_of column (third_rows ++ fourth_rows)) number }
{
    let found = name_of(third(), column, number);
    if found.is_some() {
        return found;
    }
    name_of(fourth(), column, number)
}

// The same from the second part on.
fn name_from_second(column: usize, number: u32) -> Option<&'static str>
    requires { column < 10 }
    ensures { option_copied result ≡ name_in (column_of column (second_rows ++ (third_rows ++ fourth_rows))) number }
{
    let found = name_of(second(), column, number);
    if found.is_some() {
        return found;
    }
    name_from_third(column, number)
}

/// The name of the number in a column.
pub(crate) fn linux_name(column: usize, number: u32) -> Option<&'static str>
    requires { column < 10 }
    ensures { option_copied result ≡ name_in (column_of column (first_rows ++ (second_rows ++ (third_rows ++ fourth_rows)))) number }
{
    let found = name_of(first(), column, number);
    if found.is_some() {
        return found;
    }
    name_from_second(column, number)
}

//! Look-ups in a table of rows, each of a name and of its numbers on several machines. The rows stand in the order of
//! their names.
ghost use Rattle.std.specs.Prelude.{◌≡◌, ◌↔◌, ◌<◌, Some, option_copied, IsTrue};
ghost use Rattle.call_tables.specs.Table.{number_in, name_in};
ghost use Rattle.call_tables.specs.Rows.{rows, row_in, number_at, column_of};
ghost use Rattle.call_tables.specs.inner.Order.{are_sorted};

use crate::linux_calls::NONE;
use std::cmp::Ordering;

/// How many machines a row has numbers for.
pub(crate) const MACHINES: usize = 10;

// The numbers beside the name, by halving.
fn row_of<'a>(table: &'a [(&str, [u32; MACHINES])], name: &str) -> Option<&'a [u32; MACHINES]>
    requires { IsTrue (are_sorted (rows table.now)) }
    ensures { option_copied result ≡ row_in (rows table.now) name.now }
{
    let (front, back) = table.split_at(table.len() / 2);
    let [entry, behind @ ..] = back else {
        return None;
    };
    match entry.0.cmp(name) {
        Ordering::Equal => Some(&entry.1),
        Ordering::Less => row_of(behind, name),
        Ordering::Greater => row_of(front, name),
    }
}

// The number in a column of a row, if there is one.
fn number_at(numbers: &[u32; MACHINES], column: usize) -> Option<u32>
    requires { column < 10 }
    ensures { result ≡ number_at column numbers.now }
{
    let number = numbers[column];
    if number == NONE { None } else { Some(number) }
}

/// The number of the name in a column.
pub(crate) fn number_of(table: &[(&str, [u32; MACHINES])], column: usize, name: &str) -> Option<u32>
    requires sorted { IsTrue (are_sorted (rows table.now)) }
    requires column { column < 10 }
    ensures { result ≡ number_in (column_of column (rows table.now)) name.now }
{
    match row_of(table, name) {
        Some(numbers) => number_at(numbers, column),
        None => None,
    }
}

// Whether a row has the number in a column.
fn has_number(numbers: &[u32; MACHINES], column: usize, number: u32) -> bool
    requires { column < 10 }
    ensures { IsTrue result ↔ (number_at column numbers.now ≡ Some number) }
{
    match number_at(numbers, column) {
        Some(own) => own == number,
        None => false,
    }
}

/// The name of the number in a column.
pub(crate) fn name_of(
    table: &[(&'static str, [u32; MACHINES])],
    column: usize,
    number: u32,
) -> Option<&'static str>
    requires { column < 10 }
    ensures { option_copied result ≡ name_in (column_of column (rows table.now)) number }
{
    for (name, numbers) in table {
        if has_number(numbers, column, number) {
            return Some(*name);
        }
    }
    None
}

//! Look-ups in a table of calls.
ghost use Rattle.std.specs.Prelude.{◌≡◌, option_copied};
ghost use Rattle.call_tables.specs.Table.{entries, number_in, name_in};

/// The number beside the first such name.
pub(crate) fn find_number(table: &[(&str, u32)], name: &str) -> Option<u32>
    ensures { result ≡ number_in (entries table.now) name.now }
{
    for entry in table {
        if entry.0 == name {
            return Some(entry.1);
        }
    }
    None
}

/// The name beside the first such number.
pub(crate) fn find_name(table: &[(&'static str, u32)], number: u32) -> Option<&'static str>
    ensures { option_copied result ≡ name_in (entries table.now) number }
{
    for entry in table {
        if entry.1 == number {
            return Some(entry.0);
        }
    }
    None
}

//! Call names.
ghost use Rattle.std.specs.Prelude.{◌≡◌};
ghost use Rattle.profile_json.specs.Names as names;
ghost use Rattle.profile_json.specs.CallName as spec;

use arrayvec::ArrayString;
use call_tables::call_number;
use machines::Family;

/// Whether some machine of the family has the call, listed or not.
pub(crate) fn is_known(family: Family, name: &str) -> bool
    ensures { result ≡ names.is_known family name.now }
{
    family
        .machines()
        .iter()
        .any(|arch| call_number(*arch, name).is_some())
}

/// The longest beginning of a name with at most 64 bytes and whole characters.
pub(crate) fn short_name(name: &str) -> ArrayString<64>
    ensures { result.bytes ≡ spec.short_name name.now }
{
    let end = name.floor_char_boundary(64);
    let mut short = ArrayString::new();
    short.push_str(&name[..end]);
    short
}

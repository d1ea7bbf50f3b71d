//! The bundles of a script.
use cert_check::Checked;
use machines::Arch;

/// A checked filter, and what a script calls it.
#[derive(Clone, Copy)]
pub struct Bundle<'a> {
    pub name: &'a str,
    pub checked: Checked<'a>,
}

/// The checked filters that a script may name, and the machine whose calls it names.
#[derive(Clone, Copy)]
pub struct Bundles<'a> {
    /// The native machine: calls are named by its table.
    pub native: Arch,
    /// Of equal names the first counts.
    pub list: &'a [Bundle<'a>],
}

impl<'a> Bundles<'a> {
    ghost use Rattle.std.specs.Prelude.{◌≡◌};
    ghost use Rattle.session.specs.Commands.{first_called, named};

    /// The checked filter of this name, if there is one.
    pub(crate) fn find(&self, name: &str) -> Option<Checked<'a>>
        ensures { result ≡ first_called name.now (named self.now) }
    {
        for i in 0..self.list.len() {
            let bundle = self.list[i];
            if name == bundle.name {
                return Some(bundle.checked);
            }
        }
        None
    }
}

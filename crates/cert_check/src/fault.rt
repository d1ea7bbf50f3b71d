//! Why a certificate is refused.
use bpf_insn::ViewError;
use cert_form::FormError;
use kernel_check::Refused;
use std::fmt;
use thiserror::Error;

/// The first rule that is broken. The order is: the filter's bytes, the kernel's check, the certificate's form and its
/// root. Then come the nodes from 0, at one node in the order Edge, Split, Entail, Return.
#[derive(Clone, Copy, Debug, PartialEq, Eq, Error)]
pub enum CheckError {
    /// The filter's bytes are no program.
    View(ViewError),
    /// The kernel does not accept the program.
    Kernel(Refused),
    /// The bytes are no certificate.
    Form(FormError),
    /// Node 0 is no root.
    Root,
    /// The node may not stand where it stands, or leads to no such node.
    Edge(u32),
    /// What is known at the node does not give what its successor says, or a dead node is not dead.
    Entail(u32),
    /// The node gives no verdict, or another than the profile.
    Return(u32),
    /// The two literals of a split do not cover each record.
    Split(u32),
    /// Memory was refused.
    OutOfMemory,
}

impl CheckError {
    ghost use Rattle.std.specs.Prelude.{◌≡◌};
    ghost use Rattle.cert_check.specs.Fault.{label_of};

    /// The number and the name by which it is told.
    pub fn label(self) -> (u32, &'static str)
        ensures number { result.0 ≡ (label_of self).0 }
        ensures name { result.1.now ≡ (label_of self).1 }
    {
        match self {
            CheckError::View(_) => (1, "View"),
            CheckError::Kernel(_) => (2, "Kernel"),
            CheckError::Form(_) => (3, "Form"),
            CheckError::Root => (4, "Root"),
            CheckError::Edge(_) => (5, "Edge"),
            CheckError::Entail(_) => (6, "Entail"),
            CheckError::Return(_) => (7, "Return"),
            CheckError::Split(_) => (8, "Split"),
            CheckError::OutOfMemory => (9, "OutOfMemory"),
        }
    }
}

impl fmt::Display for CheckError {
    ghost use Rattle.std.specs.Prelude.{Some};
    ghost use Rattle.cert_check.specs.Fault.{text_of};

    ghost output = { λ error. Some (text_of error) };

    fn fmt<W: fmt::Write>(&self, f: &mut fmt::Formatter<W>) -> fmt::Result {
        let (number, name) = self.label();
        write!(f, "{number} {name}")?;
        match *self {
            CheckError::View(fault) => write!(f, " {fault}"),
            CheckError::Kernel(refused) => write!(f, " {refused}"),
            CheckError::Form(fault) => write!(f, " {fault}"),
            CheckError::Edge(i)
            | CheckError::Entail(i)
            | CheckError::Return(i)
            | CheckError::Split(i) => write!(f, " node {i}"),
            CheckError::Root | CheckError::OutOfMemory => Ok(()),
        }
    }
}

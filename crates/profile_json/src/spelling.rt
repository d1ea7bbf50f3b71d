//! The names of actions and operators in a bundle.
ghost use Rattle.std.specs.Prelude.{◌≡◌, Some};
ghost use Rattle.profile_json.specs.Names.{op_named};

use crate::key;
use profile::Op;

/// The actions that the machines of every family read.
pub const ACTIONS: &[&str] = &[
    key::KILL,
    key::KILL_PROCESS,
    key::TRAP,
    key::ERRNO,
    key::TRACE,
    key::LOG,
    key::ALLOW,
];

/// The operators of conditions.
pub const OPERATORS: &[&str] = &[
    key::NE,
    key::LT,
    key::LE,
    key::EQ,
    key::GE,
    key::GT,
    key::MASKED_EQ,
];

/// The name of an operator.
#[tactic(auto, unfolding(crate::specs::Names::op_named))]
pub fn operator_name(op: Op) -> &'static str
    ensures { op_named result.now ≡ Some op }
{
    match op {
        Op::Ne => key::NE,
        Op::Lt => key::LT,
        Op::Le => key::LE,
        Op::Eq => key::EQ,
        Op::Ge => key::GE,
        Op::Gt => key::GT,
        Op::MaskedEq => key::MASKED_EQ,
    }
}

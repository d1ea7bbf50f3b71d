//! Numbers for lists of conditions.
use profile::{Cond, Op};
use std::alloc::{AllocError, Global};
use std::collections::BTreeMap;

// The beginning of a list, by its number, and the parts of the condition behind it.
type Step = (usize, u8, u8, u64, u64);

/// Lists of conditions, numbered from 0 on in the order in which they came.
#[derive(Drop)]
pub(crate) struct Lists {
    // For each step the number of the longer beginning. The empty one has 0.
    longer: BTreeMap<Step, usize>,
    // For each beginning that is a whole list the number of the list.
    numbers: BTreeMap<usize, usize>,
}

// A number for each operator.
fn operator_number(op: Op) -> u8 {
    match op {
        Op::Ne => 0,
        Op::Lt => 1,
        Op::Le => 2,
        Op::Eq => 3,
        Op::Ge => 4,
        Op::Gt => 5,
        Op::MaskedEq => 6,
    }
}

// The step from a beginning by a condition.
fn step(begin: usize, cond: &Cond) -> Step {
    let operator = operator_number(cond.op);
    (begin, cond.index, operator, cond.value, cond.datum)
}

impl Lists {
    /// No lists.
    pub(crate) fn new(alloc: Global) -> Lists {
        Lists {
            longer: BTreeMap::new(alloc),
            numbers: BTreeMap::new(alloc),
        }
    }

    /// The number of a list, if it came.
    pub(crate) fn number(&self, conds: &[Cond]) -> Option<usize> {
        let mut begin = 0;
        for cond in conds {
            begin = *self.longer.get(&step(begin, cond))?;
        }
        self.numbers.get(&begin).copied()
    }

    /// The number of a list, the next one where it comes for the first time.
    pub(crate) fn add(&mut self, conds: &[Cond]) -> Result<usize, AllocError> {
        let mut begin = 0;
        for cond in conds {
            begin = self.lengthen(begin, cond)?;
        }
        if let Some(number) = self.numbers.get(&begin) {
            return Ok(*number);
        }
        let number = self.numbers.len();
        self.numbers.insert(begin, number)?;
        Ok(number)
    }

    // The number of the beginning that is longer by a condition.
    fn lengthen(&mut self, begin: usize, cond: &Cond) -> Result<usize, AllocError> {
        let step = step(begin, cond);
        if let Some(number) = self.longer.get(&step) {
            return Ok(*number);
        }
        let number = self.longer.len().saturating_add(1);
        self.longer.insert(step, number)?;
        Ok(number)
    }
}

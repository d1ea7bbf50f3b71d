//! Calls that show why no section is found, with the verdicts that the filter itself gives them.
use crate::unallowed::Unallowed;
use bpf_insn::Program;
use bpf_interp::verdict;
use kernel_check::{Accepted, accept};
use maker::Counterexample;
use recover::{Shown, Unsaid};

// A call that is of no listed machine.
fn other(program: &Accepted<'_>, shown: &Shown) -> Unallowed {
    Unallowed::Refused(Shown {
        call: shown.call,
        given: verdict(program, &shown.call),
    })
}

// A call that refutes the filter that was judged, if it gets the same verdict from the filter itself. Else it is of no listed machine.
fn unlike(program: &Accepted<'_>, found: &Counterexample) -> Unallowed {
    let given = verdict(program, &found.call);
    if given == found.given {
        return Unallowed::Unsaid(Unsaid::Unlike(*found));
    }
    Unallowed::Refused(Shown {
        call: found.call,
        given,
    })
}

fn as_given(program: &Accepted<'_>, why: Unallowed) -> Unallowed {
    match why {
        Unallowed::Unsaid(Unsaid::OtherMachine(shown)) => other(program, &shown),
        Unallowed::Unsaid(Unsaid::Unlike(found)) => unlike(program, &found),
        _ => why,
    }
}

/// Why no section is found, of why none is of the filter that kills other calls.
pub(crate) fn of_filter(filter: &[u8], why: Unallowed) -> Unallowed {
    let Ok(program) = Program::view(filter) else {
        return why;
    };
    match accept(&program) {
        Ok(accepted) => as_given(&accepted, why),
        Err(_refused) => why,
    }
}

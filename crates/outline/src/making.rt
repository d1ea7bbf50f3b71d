//! The certificate from an outline.

use crate::asked::AskedCall;
use crate::fault::OutlineError;
use crate::keeping::kept_nodes;
use crate::listing::{Written, listed_nodes, sorted};
use crate::maker::Maker;
use bpf_insn::Program;
use cert_form::{Kind, MAX_LITERALS};
use profile::Profile;
use std::alloc::Global;

// A certificate of more bytes is made with calls told apart early as well: it has some thousand nodes. It is looked at for how much it
// states, too: to state less takes several times as long as to check more.
const LARGE: usize = 0x4_0000;

// All nodes of a certificate; and the certificate in which each states all that is known there, if that has room.
#[derive(Drop)]
struct Draft<'a> {
    maker: Maker<'a>,
    kinds: Vec<Kind>,
    order: Vec<u32>,
    written: Option<Written>,
}

type Drafted<'a> = Result<Draft<'a>, OutlineError>;

// How many bytes there are, more than any certificate has where there is none.
fn length(drafted: &Drafted<'_>) -> usize {
    match drafted {
        Ok(draft) => match &draft.written {
            Some(written) => written.bytes.len(),
            None => usize::MAX,
        },
        Err(_) => usize::MAX,
    }
}

fn is_refused(drafted: &Drafted<'_>) -> bool {
    matches!(drafted, Err(OutlineError::OutOfMemory))
}

fn drafted<'a>(
    alloc: Global,
    profile: &'a Profile,
    program: &Program<'a>,
    calls: &'a [AskedCall],
    is_early: bool,
) -> Drafted<'a> {
    let mut maker = Maker::new(alloc, profile, *program, calls, is_early)?;
    let kinds = maker.all_kinds()?;
    let order = sorted(alloc, &kinds)?;
    let written = match listed_nodes(&maker, &kinds, &order) {
        Ok(written) => Some(written),
        Err(OutlineError::TooLarge) => None,
        Err(error) => return Err(error),
    };
    Ok(Draft {
        maker,
        kinds,
        order,
        written,
    })
}

// The certificate of a draft: where it states much, the shorter one of it and of one whose nodes state what is needed behind.
fn finished(drafted: Drafted<'_>) -> Result<Vec<u8>, OutlineError> {
    let Draft {
        maker,
        kinds,
        order,
        written,
    } = drafted?;
    let Some(written) = written else {
        return kept_nodes(&maker, &kinds, &order);
    };
    if !written.states_much || written.bytes.len() <= LARGE {
        return Ok(written.bytes);
    }
    match kept_nodes(&maker, &kinds, &order) {
        Ok(kept) if kept.len() < written.bytes.len() => Ok(kept),
        Err(OutlineError::OutOfMemory) => Err(OutlineError::OutOfMemory),
        _ => Ok(written.bytes),
    }
}

/// Whether a call has more rules than a node has claims, of which most nodes of the call state that they are out.
pub fn are_too_many(calls: &[AskedCall]) -> bool {
    for call in calls {
        if call.is_merged {
            continue;
        }
        let mut rules = 0usize;
        for part in &call.parts {
            rules = rules.saturating_add(part.len());
        }
        if rules > MAX_LITERALS {
            return true;
        }
    }
    false
}

/// The certificate of the filter that the compiler made of a profile. Its outline names the calls whose arguments rules
/// ask for. First try: split calls with the same rules only at returns. If that is large or too large, also try
/// splitting before their arguments, and keep the shorter.
pub fn outlined(
    alloc: Global,
    profile: &Profile,
    program: &Program<'_>,
    calls: &[AskedCall],
) -> Result<Vec<u8>, OutlineError> {
    if are_too_many(calls) {
        return Err(OutlineError::TooLarge);
    }
    let first = drafted(alloc, profile, program, calls, false);
    if is_refused(&first) || length(&first) <= LARGE {
        return finished(first);
    }
    let other = drafted(alloc, profile, program, calls, true);
    if first.is_err() || is_refused(&other) || length(&other) < length(&first) {
        return finished(other);
    }
    finished(first)
}

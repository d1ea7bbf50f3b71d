//! Sets of call numbers.
ghost use Rattle.std.specs.Prelude.{ℕ, ◌≡◌, ◌+◌, ◌*◌, ◌<◌, ◌≤◌, ◌&&◌, Option};
ghost use Rattle.bpf_interp.specs.Fixed.{is_fixed_allow};
ghost use Rattle.kernel_check.specs.Lent.{accepted_insns};
ghost use Rattle.shared_table.specs.Numbers.{is_in, is_in_all, packed};

use bpf_interp::fixed_allow;
use kernel_check::Accepted;

/// A set of numbers below 512, a bit for each.
#[derive(Clone, Copy)]
pub(crate) struct Numbers {
    parts: [u64; 8],
}

impl Numbers {
    /// Whether a number is in the set.
    pub(crate) fn has(&self, nr: u32) -> bool
        requires { nr < 512 }
        ensures { result ≡ is_in self.now.parts nr }
    {
        (self.parts[(nr / 64) as usize] >> (nr % 64)) % 2 == 1
    }

    /// The numbers that a filter allows on a machine, whatever else the record holds, of those that
    /// all below it allow.
    pub(crate) fn allowed(program: &Accepted<'_>, arch: u32, below: Option<Numbers>) -> Numbers
        ensures { (nr : ℕ) → nr < 512 → is_in result.parts nr
            ≡ (is_fixed_allow (accepted_insns program.now) arch nr && is_in_all below nr) }
    {
        Numbers {
            parts: [
                part_from(program, arch, below, 0),
                part_from(program, arch, below, 64),
                part_from(program, arch, below, 128),
                part_from(program, arch, below, 192),
                part_from(program, arch, below, 256),
                part_from(program, arch, below, 320),
                part_from(program, arch, below, 384),
                part_from(program, arch, below, 448),
            ],
        }
    }
}

// Whether a filter allows a number, and all below it.
fn is_allowed(program: &Accepted<'_>, arch: u32, below: Option<Numbers>, nr: u32) -> bool
    requires { nr < 512 }
    ensures { result ≡ (is_fixed_allow (accepted_insns program.now) arch nr && is_in_all below nr) }
{
    let allowed_below = match below {
        None => true,
        Some(numbers) => numbers.has(nr),
    };
    fixed_allow(program, arch, nr) && allowed_below
}

// The bits of the 64 numbers from one on.
fn part_from(program: &Accepted<'_>, arch: u32, below: Option<Numbers>, first: u32) -> u64
    requires { first ≤ 448 }
    ensures { result ≡ packed
        (λ nr. is_fixed_allow (accepted_insns program.now) arch nr && is_in_all below nr) first 64 }
{
    let mut part = 0;
    let mut left = 64;
    'bits: while left > 0 {
        left -= 1;
        let bit = u64::from(is_allowed(program, arch, below, first + left));
        part = 2 * part + bit;
    }
    part
}

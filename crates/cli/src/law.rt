//! The law of the program.
ghost use Rattle.cli.specs.Headline.{Headline};

/// If the checker says yes, the kernel accepts the filter, and its verdict on every call record is the one that the bundle's
/// profile says. So the replies of a script are those of the kernel machine whose first judge for each container is its
/// profile. No call that the profile refuses is carried out.
pub fn headline()
    ensures { Headline }
{}

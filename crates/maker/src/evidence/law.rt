//! Profiles that are plain, and filters that are right, as laws of the definitions.
ghost use Rattle.maker.specs.evidence.Right.{CompiledIsRight, ShapeIsRight};
ghost use Rattle.maker.specs.evidence.Tables.{TableProfilesArePlain};

/// Take a profile without conditions, for machines with two tokens at most and x32 beside x86-64 alone. Its calls stand in
/// tables of small numbers. For such a profile `certify` promises a certificate.
pub fn table_profiles_are_plain()
    ensures { TableProfilesArePlain }
{}

/// A filter that has the shape of the filters of a profile without conditions is right. The kernel's machine gives each call
/// record the verdict that the profile says.
pub fn shape_is_right()
    ensures { ShapeIsRight }
{}

/// A filter of the compiler is right in the checker's terms. On each call record it gives the verdict that the profile says,
/// and no other.
pub fn compiled_is_right()
    ensures { CompiledIsRight }
{}

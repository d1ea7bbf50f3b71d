//! Laws of bundles that are promised to users.
ghost use Rattle.profile_json.specs.Laws.{MeaningIsUnbroken, MeaningIsOne, MeaningIsKept, MeaningIsWidened};

/// A bundle that means a profile breaks no rule.
pub fn meaning_is_unbroken()
    ensures { MeaningIsUnbroken }
{}

/// A bundle means one profile.
pub fn meaning_is_one()
    ensures { MeaningIsOne }
{}

/// What a bundle meant under edition 1.0.2 alone, without `defaultErrnoRet`, it means still.
pub fn meaning_is_kept()
    ensures { MeaningIsKept }
{}

/// What root, action and keys mean to the machines of the chosen tables, they mean to those of
/// whole tables.
pub fn meaning_is_widened()
    ensures { MeaningIsWidened }
{}

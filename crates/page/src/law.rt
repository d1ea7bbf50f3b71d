//! No text writes markup.
ghost use Rattle.std.specs.Prelude.{ℕ, List};
ghost use Rattle.page.specs.Shown.{HasNoMarkup, shown};

/// Whatever a text is, nothing of what is shown of it begins or ends a tag, or ends an attribute.
pub fn texts_have_no_markup()
    ensures { (text : List ℕ) → HasNoMarkup (shown text) }
{}

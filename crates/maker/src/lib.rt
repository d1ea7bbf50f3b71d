//! What is judged and made of a bundle, a filter and a certificate, and what each command writes of them: `verdict`, `check`,
//! `certify` (`certifying`) and `export` (`exporting`). `checked_bundle` has the way from a bundle to its checked filter, and the module
//! `export` the forms in which that is written. `evidence` has the way from a filter to its certificate, or to a record that is a
//! counterexample. `outline` and `record_search`, of which it takes both, promise nothing. The checker stands on none of this.
#![tactic(auto)]

mod certifying;
mod check;
mod checked_bundle;
mod evidence;
mod export;
mod exporting;
mod law;
mod make_error;
mod own;
mod proposal;
mod shorter;
mod verdict;

pub use certifying::{certify_bundle, judge_bundle, judge_filter, line_of, write_judged};
pub use check::{Finding, check_line, finding_of};
pub use checked_bundle::CheckedBundle;
pub use evidence::{
    Counterexample, Evidence, compiled_is_right, judge, shape_is_right, table_profiles_are_plain,
};
pub use export::{Form, export_cert, export_form, export_listing, export_raw};
pub use exporting::export_bundle;
pub use law::{bundles_are_plain, evidence_excludes, findings_exclude, one_answer};
pub use make_error::{MakeError, refuse};
pub use verdict::{Answer, answer_to, verdict_line};

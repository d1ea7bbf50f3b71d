//! A profile as plain text, which a program can read that knows neither bundles nor names of calls.
mod bundle;
mod lines;

pub use bundle::bundle_text;
pub use lines::text_of;

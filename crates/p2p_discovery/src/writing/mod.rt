//! Writing: each writer adds the one spelling of a value at the end.
pub(crate) mod bits;
pub(crate) mod fields;
pub(crate) mod info;
pub(crate) mod payload;

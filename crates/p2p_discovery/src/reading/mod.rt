//! Reading from the left: each reader answers what it read and the bytes after that, or the first fault that it meets.
pub(crate) mod bits;
pub(crate) mod fields;
pub(crate) mod info;
pub(crate) mod ingress;
pub(crate) mod payload;

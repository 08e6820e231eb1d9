// The fields of a sheet's images in a byte string: where they stand, read and written.
#![tactic(auto)]

pub mod field;
pub mod place;
pub mod width;

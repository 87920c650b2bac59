//! Pairs of values.

use lat_core::Tagged;

/// Two values in one field.
#[derive(Drop)]
pub struct Pair {
    pub first: Tagged,
    pub second: Tagged,
}

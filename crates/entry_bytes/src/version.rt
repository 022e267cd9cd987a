//! The versions of the bytes.

/// A version of the bytes.
#[derive(Clone, Copy)]
pub(crate) enum Version {
    /// No operators, and serials of digits alone. It is only read.
    First,
    /// With operators, and an alphabet for the serials of each product.
    Second,
}

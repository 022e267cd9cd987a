//! Why an entry may not come next.

/// Why an entry that was read back may not come next: the first reason in this order.
#[derive(Clone, Copy, Debug, PartialEq, Eq)]
pub enum Unlawful {
    /// The station isn't of the setup.
    BadStation,
    /// The station's next number is this one.
    BadNumber(u64),
    /// The stamp is before the last one.
    StampFell,
    /// It drew otherwise than its deed does.
    BadDrawn,
    /// Memory was wanting.
    Memory,
}

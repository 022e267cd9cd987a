//! What a path names, before its segments are read.

/// A route.
#[derive(Clone, Copy, Debug, PartialEq, Eq)]
pub enum Page {
    /// `/stations/{station}/requests/{number}`
    Requests,
    /// `/batches/{batch}`
    Report,
    /// `/batches/{batch}/events/{from}/{count}`
    Events,
    /// `/items/{gtin}/{serial}`
    Item,
    /// `/units/{sscc}`
    Unit,
}

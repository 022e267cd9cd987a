//! Whether a connection reads on.
ghost use Rattle.std.specs.Prelude.{◌≡◌, if◌then◌else◌};

#[derive(Clone, Copy, Debug, PartialEq, Eq)]
pub enum Stage {
    Open,
    /// A request with `close` was handed out.
    Closed,
    /// A fault was told.
    Spent,
}

/// The stage after a request.
pub fn after(close: bool) -> Stage
    ensures { result ≡ (if close then Stage.Closed else Stage.Open) }
{
    if close { Stage::Closed } else { Stage::Open }
}

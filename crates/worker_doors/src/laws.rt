//! Laws of shares.
ghost use Rattle.worker_doors.specs.Shares.{AllAreShared, SharesAreEven};

/// The shares of the workers come to all connections. Of two doors the first one has as many as the other, or one more.
pub fn all_are_shared()
    ensures shared { AllAreShared }
    ensures even { SharesAreEven }
{}

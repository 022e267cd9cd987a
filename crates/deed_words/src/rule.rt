//! What refuses a deed.
use crate::{Condition, StationId, What};
use gs1_keys::{Sscc, Text20};

/// Why a batch isn't accounted for.
#[derive(Clone, Copy, Debug, PartialEq, Eq)]
pub enum Finding {
    /// This serial is lent.
    StillLent(Text20),
    /// This serial is rejected.
    StillRejected(Text20),
    /// The item of this serial stands in no container.
    Unpacked(Text20),
    /// This container is filling.
    UnitOpen(Sscc),
    /// This sealed case stands on no pallet, and the order has pallets.
    UnitLoose(Sscc),
    /// This line was lent serials, and declared nothing.
    NotDeclared(StationId),
    /// This line declared other numbers: its good, spoiled and returned serials as they are
    /// counted, and as it declared them last.
    DeclaredDiffers(StationId, [u32; 3], [u32; 3]),
}

/// The rule that a deed breaks, with what a refusal tells of it. Rows count from 1, indexes from 0.
#[derive(Clone, Copy, Debug, PartialEq, Eq)]
pub enum Rule {
    /// The deed isn't for the station's role.
    RoleForbids,
    /// The site doesn't make the GTIN of this row.
    UnknownProduct(u64),
    /// The batch of this row was ordered with another row.
    OrderConflict(u64),
    /// There is no such batch.
    UnknownBatch,
    /// There is no such container.
    UnknownUnit,
    /// The batch is planned.
    BatchNotStarted,
    /// The batch is started.
    BatchStarted,
    /// The batch, or that of the container, is closed.
    BatchClosed,
    /// The container is void.
    UnitVoid,
    /// The container is sealed.
    UnitSealed,
    /// The container is filling.
    UnitNotSealed,
    /// A list is empty, or a count is 0 or above this most.
    CountOutOfRange(u64),
    /// The site is full of these: it has so many, and no room for what the deed adds.
    SiteFull(What, u64),
    /// So many serials were asked for and so many are drawn of the GTIN: together more than half of all.
    PoolThin(u64, u64),
    /// The batch has only so many serials to lend.
    FewFresh(u64),
    /// The site has no SSCC left.
    SsccSpent,
    /// The entry at this index names what an earlier one names.
    RepeatedInRequest(u64),
    /// The entry at this index names no serial and, in a packing, no container.
    UnknownSerial(u64),
    /// The entry at this index is of another batch, or its code has another lot or expiry.
    OtherBatch(u64),
    /// The entry at this index doesn't go into the container.
    WrongLevel(u64),
    /// The entry at this index is in this state, which doesn't allow the deed.
    WrongState(u64, Condition),
    /// The entry at this index was lent to this other line.
    LentToOther(u64, StationId),
    /// The entry at this index stands in this container.
    HasParent(u64, Sscc),
    /// The entry at this index doesn't stand in the container.
    NotChild(u64),
    /// The container has so many inside and takes so many.
    UnitFull(u64, u64),
    /// The container has so many inside.
    UnitNotEmpty(u64),
    /// Nothing is inside the container.
    NothingInside,
    /// The batch isn't accounted for.
    NotAccounted(Finding),
}

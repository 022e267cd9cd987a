//! Serials that are to be drawn.
ghost use Rattle.std.specs.Prelude.{◌≡◌, IfOk};

use gs1_keys::{Gtin, Memory, Serials};
use std::alloc::Global;
use std::marker::Model;

/// Serials that a pool has room for and may draw for a GTIN.
#[derive(Drop)]
pub struct DrawPlan {
    pub(crate) gtin: Gtin,
    pub(crate) serials: Serials,
}

impl Model for DrawPlan {
    ghost use Rattle.serial_pool.specs.Held.{PlanView};

    ghost Value = { PlanView };

    ghost view = { λ p. record { gtin = p.gtin; serials = p.serials } };
}

impl DrawPlan {
    /// The serials, in the order in which they are to be drawn.
    pub fn serials(&self) -> &Serials
        ensures { result.now ≡ self.now.serials }
    {
        &self.serials
    }
}

/// Serials that were drawn last for a GTIN: what is needed to take them back.
#[derive(Drop)]
pub struct DrawDone {
    pub(crate) gtin: Gtin,
    pub(crate) serials: Serials,
}

impl Model for DrawDone {
    ghost use Rattle.serial_pool.specs.Held.{PlanView};

    ghost Value = { PlanView };

    ghost view = { λ p. record { gtin = p.gtin; serials = p.serials } };
}

/// The same serials once more, as for an entry beside its plan.
pub fn copied(alloc: Global, serials: &Serials) -> Result<Serials, Memory>
    ensures { IfOk result (λ copy. copy ≡ serials.now) }
{
    let mut copy = Serials::new(alloc);
    for serial in serials.as_slice() {
        copy.push(*serial)?;
    }
    Ok(copy)
}

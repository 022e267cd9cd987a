//! Planning serials that were drawn before, as in a journal.
ghost use Rattle.std.specs.Prelude.{◌≡◌, map, IfOk};
ghost use Rattle.serial_pool.specs.Ends.{KnownEnds};
ghost use Rattle.serial_pool.specs.Held.{had_of, may_follow};
ghost use Rattle.serial_pool.specs.Index.{hash_in};

use crate::drawn::{DrawnSerial, was_drawn};
use crate::fault::KnownFault;
use crate::new_serials::NewSerials;
use crate::plan::DrawPlan;
use gs1_keys::{Gtin, SerialForm, Serials, Text20};
use place_table::PlaceTable;
use std::alloc::Global;

/// Whether the serial may be drawn for the GTIN behind these.
fn is_fit(
    table: &PlaceTable,
    drawn: &[DrawnSerial],
    gtin: &Gtin,
    form: &SerialForm,
    serials: &NewSerials,
    serial: &Text20,
) -> bool
    requires hashed { table.now.hashes ≡ map hash_in drawn.now }
    ensures { result ≡ may_follow (had_of gtin.now drawn.now) form.now serials.now serial.now }
{
    form.has(serial) && !was_drawn(table, drawn, gtin, serial) && !serials.has(serial)
}

/// Plans these serials, where each is of the form, wasn't drawn for the GTIN and comes once.
pub(crate) fn know(
    alloc: Global,
    table: &PlaceTable,
    drawn: &[DrawnSerial],
    gtin: &Gtin,
    form: &SerialForm,
    serials: &Serials,
) -> Result<DrawPlan, KnownFault>
    requires hashed { table.now.hashes ≡ map hash_in drawn.now }
    ensures known { KnownEnds (had_of gtin.now drawn.now) form.now serials.now result }
    ensures gtin { IfOk result (λ plan. plan.gtin ≡ gtin.now) }
{
    let mut planned = NewSerials::new(alloc);
    for (i, serial) in serials.as_slice().iter().enumerate() {
        if !is_fit(table, drawn, gtin, form, &planned, serial) {
            return Err(KnownFault::NotNew(i as u64));
        }
        planned.push(*serial)?;
    }
    Ok(DrawPlan {
        gtin: *gtin,
        serials: planned.into_serials(),
    })
}

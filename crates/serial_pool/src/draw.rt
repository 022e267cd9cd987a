//! Drawing serials from random words.
ghost use Rattle.std.specs.Prelude.{◌≡◌, ◌++◌, true, map, IfOk};
ghost use Rattle.gs1_keys.specs.Forms.{is_form};
ghost use Rattle.outside.specs.Causes.{HasCauseIf};
ghost use Rattle.outside.specs.Devices.{Takes};
ghost use Rattle.serial_pool.specs.Drawing.{candidate, unless_among};
ghost use Rattle.serial_pool.specs.Ends.{DrawEnds, IsAmple, is_words_fault};
ghost use Rattle.serial_pool.specs.Held.{had_of};
ghost use Rattle.serial_pool.specs.Index.{hash_in};

use crate::candidate::candidate_of;
use crate::drawn::{DrawnSerial, was_drawn};
use crate::fault::DrawFault;
use crate::new_serials::NewSerials;
use crate::plan::DrawPlan;
use gs1_keys::{Gtin, SerialForm, Text20};
use outside::Words;
use place_table::PlaceTable;
use std::alloc::Global;

/// The serial that a word stands for, where it was drawn neither before for the GTIN nor in this draw.
fn new_serial(
    table: &PlaceTable,
    drawn: &[DrawnSerial],
    serials: &NewSerials,
    gtin: &Gtin,
    form: &SerialForm,
    word: u64,
) -> Option<Text20>
    requires form { is_form form.now ≡ true }
    requires hashed { table.now.hashes ≡ map hash_in drawn.now }
    ensures { result ≡ unless_among (had_of gtin.now drawn.now ++ serials.now) (candidate form.now word) }
{
    match candidate_of(word, form) {
        Some(serial) => {
            if was_drawn(table, drawn, gtin, &serial) || serials.has(&serial) {
                None
            } else {
                Some(serial)
            }
        }
        None => None,
    }
}

/// Draws so many new serials of the form for the GTIN, each word's in turn.
pub(crate) fn draw<W: Words>(
    alloc: Global,
    table: &PlaceTable,
    drawn: &[DrawnSerial],
    gtin: &Gtin,
    form: &SerialForm,
    count: u32,
    words: &mut W,
) -> Result<DrawPlan, DrawFault>
    requires form { is_form form.now ≡ true }
    requires hashed { table.now.hashes ≡ map hash_in drawn.now }
    requires ample { IsAmple (had_of gtin.now drawn.now) form.now count }
    ensures draw { Takes (W.words_left words.old) (W.words_left words.new) (λ taken. DrawEnds (had_of gtin.now drawn.now) form.now count taken result) }
    ensures cause { HasCauseIf (is_words_fault result) (W.word_faults words.old) (W.word_faults words.new) }
    ensures gtin { IfOk result (λ plan. plan.gtin ≡ gtin.now) }
{
    let limit = 4 * u64::from(count) + 64;
    let mut serials = NewSerials::new(alloc);
    let mut found = 0;
    let mut used = 0;
    while found < count {
        if used == limit {
            return Err(DrawFault::WordsSpent(u64::from(found)));
        }
        let Ok(word) = words.next_word() else {
            return Err(DrawFault::WordsFault);
        };
        used += 1;
        if let Some(serial) = new_serial(table, drawn, &serials, gtin, form, word) {
            serials.push(serial)?;
            found += 1;
        }
    }
    Ok(DrawPlan {
        gtin: *gtin,
        serials: serials.into_serials(),
    })
}

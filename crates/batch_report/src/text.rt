//! The text of a report.
ghost use Rattle.std.specs.Prelude.{◌≡◌, ◌++◌, ◌∷◌, [], List, true, IfOk, OnOk, Some, codes};
ghost use Rattle.std.specs.List.{flat_map};
ghost use Rattle.gs1_element.specs.Dates.{is_expiry};
ghost use Rattle.deed_words.specs.Names.{Text};
ghost use Rattle.deed_words.specs.Setups.{Setup};
ghost use Rattle.deed_words.specs.History.{world_of};
ghost use Rattle.deed_words.specs.World.{batch_of};
ghost use Rattle.deed_words.specs.declared.entry.Entry.{Entry};
ghost use Rattle.deed_words.specs.declared.world.Batch.{Batch};
ghost use Rattle.batch_report.specs.Texts.{text_line, number_line, line_line, phase_word, date_of, report_of};
ghost use Rattle.batch_report.specs.Views.{view_of, report_text};

use crate::columns::{push_left, push_number, push_numbers, push_text};
use crate::date::date_text;
use crate::{BatchView, LineRow};
use deed_words::Phase;
use gs1_keys::Memory;
use std::alloc::Global;

/// The word of a phase.
#[tactic(auto, unfolding(crate::specs::Texts::phase_word))]
fn word_of(phase: Phase) -> &'static [u8]
    ensures { result.now ≡ phase_word phase }
{
    match phase {
        Phase::Planned => b"planned",
        Phase::Started => b"started",
        Phase::Closed => b"closed",
    }
}

/// Puts what was ordered, and how far it is.
fn push_order(out: &mut Vec<u8>, view: &BatchView) -> Result<(), Memory>
    requires { is_expiry view.now.row.expiry ≡ true }
    ensures { OnOk result (out.new.items ≡ out.old.items
        ++ text_line (codes "batch") view.now.row.batch
        ++ text_line (codes "product") view.now.row.gtin
        ++ text_line (codes "lot") view.now.row.lot
        ++ text_line (codes "expiry") (date_of view.now.row.expiry)
        ++ text_line (codes "state") (phase_word view.now.phase)) }
{
    let date = date_text(&view.row.expiry);
    push_text(out, b"batch", view.row.batch.bytes())?;
    push_text(out, b"product", view.row.gtin.digits())?;
    push_text(out, b"lot", view.row.lot.bytes())?;
    push_text(out, b"expiry", &date)?;
    push_text(out, b"state", word_of(view.phase))
}

/// Puts how many items are planned, and how the serials stand.
fn push_serials(out: &mut Vec<u8>, view: &BatchView) -> Result<(), Memory>
    ensures { OnOk result (out.new.items ≡ out.old.items
        ++ number_line (codes "planned") view.now.quantity
        ++ number_line (codes "drawn") view.now.counts.drawn
        ++ number_line (codes "unused") view.now.counts.unused
        ++ number_line (codes "lent") view.now.counts.lent
        ++ number_line (codes "commissioned") view.now.counts.commissioned
        ++ number_line (codes "sampled") view.now.counts.sampled
        ++ number_line (codes "rejected") view.now.counts.rejected
        ++ number_line (codes "destroyed") view.now.counts.destroyed) }
{
    let counts = &view.counts;
    push_number(out, b"planned", view.quantity)?;
    push_number(out, b"drawn", counts.drawn)?;
    push_number(out, b"unused", counts.unused)?;
    push_number(out, b"lent", counts.lent)?;
    push_number(out, b"commissioned", counts.commissioned)?;
    push_number(out, b"sampled", counts.sampled)?;
    push_number(out, b"rejected", counts.rejected)?;
    push_number(out, b"destroyed", counts.destroyed)
}

/// Puts how much is packed, and how many events there are.
fn push_packing(out: &mut Vec<u8>, view: &BatchView) -> Result<(), Memory>
    ensures { OnOk result (out.new.items ≡ out.old.items
        ++ number_line (codes "cases") view.now.cases
        ++ number_line (codes "pallets") view.now.pallets
        ++ number_line (codes "events") view.now.events) }
{
    push_number(out, b"cases", view.cases)?;
    push_number(out, b"pallets", view.pallets)?;
    push_number(out, b"events", view.events)
}

/// Puts what a line made of its serials.
fn push_line(out: &mut Vec<u8>, line: &LineRow) -> Result<(), Memory>
    ensures { OnOk result (out.new.items ≡ out.old.items ++ line_line line.now) }
{
    push_left(out, b"line", 14)?;
    push_left(out, line.name.bytes(), 20)?;
    push_numbers(out, &line.numbers)?;
    out.push(b'\n')?;
    Ok(())
}

/// Puts what the lines made of their serials.
fn push_lines(out: &mut Vec<u8>, lines: &[LineRow]) -> Result<(), Memory>
    ensures { OnOk result (out.new.items ≡ out.old.items ++ flat_map line_line lines.now) }
{
    for line in lines {
        push_line(out, line)?;
    }
    Ok(())
}

/// The report of a batch: its exact text, a line for each thing. A line has a label in 14 places, and a text, or a number
/// on the right of 9 places; that of a packing line has its name in 20 places and three numbers. The expiry is a date.
///
/// # Errors
///
/// `Memory` where no memory was found.
#[tactic(auto, unfolding(crate::specs::Texts::report_of))]
pub fn report(alloc: Global, view: &BatchView) -> Result<Vec<u8>, Memory>
    requires { is_expiry view.now.row.expiry ≡ true }
    ensures text { IfOk result (λ text. text.items ≡ report_of view.now) }
    ensures batch { (site : Setup) (history : List Entry) (name : Text) (batch : Batch) → batch_of (world_of site history) name ≡ Some batch → view.now ≡ view_of site history batch
        → IfOk result (λ text. report_text site history name ≡ Some text.items) }
{
    let mut out = Vec::new(alloc);
    push_order(&mut out, view)?;
    push_serials(&mut out, view)?;
    push_packing(&mut out, view)?;
    push_lines(&mut out, view.lines.as_slice())?;
    Ok(out)
}

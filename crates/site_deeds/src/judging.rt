//! Whether a deed may be done.
ghost use Rattle.std.specs.Prelude.{◌≡◌, IfOk};
ghost use Rattle.batch_book.specs.Content.{world_in};
ghost use Rattle.site_rules.specs.Asked.{IsDrawnCount, IsSubject};
ghost use Rattle.site_deeds.specs.Verdicts.{IsJudged};
ghost use Rattle.site_deeds.specs.Draws.{drawn_in};

use deed_words::{Deed, Rule, Setup, StationId};
use gs1_keys::Memory;
use serial_pool::Pool;
use site_rules::{Found, Subject, ask, broken, find_subject, make_names};
use site_stores::Stores;
use std::alloc::Global;

/// Whether a deed may be done.
#[derive(Drop)]
pub(crate) enum Judged {
    /// It breaks this rule, and this is what it is about.
    Breaks(Rule, Subject),
    /// It breaks none, and this was found of its names.
    Allowed(Found),
}

/// How many serials are drawn of the GTIN of a draw's batch; 0 for any other deed.
fn count_drawn(stores: &Stores, pool: &Pool, deed: &Deed, subject: &Subject) -> u32
    requires subject { IsSubject stores.now.content deed.now subject.now }
    requires pool { pool.now.drawn ≡ drawn_in (world_in stores.now.content) }
    ensures { IsDrawnCount stores.now.content deed.now result }
{
    let Deed::Draw(_, _) = deed else { return 0 };
    match subject.batch {
        Some(batch) => pool.drawn(&stores.batch_at(batch).order.gtin),
        None => 0,
    }
}

/// Looks for the rule that the deed breaks first.
pub(crate) fn judge(
    alloc: Global,
    setup: &Setup,
    stores: &Stores,
    pool: &Pool,
    station: StationId,
    deed: &Deed,
) -> Result<Judged, Memory>
    requires pool { pool.now.drawn ≡ drawn_in (world_in stores.now.content) }
    ensures { IfOk result (λ judged. IsJudged setup.now stores.now.content station deed.now judged) }
{
    let subject = find_subject(stores, deed);
    let made = make_names(alloc, stores, deed, &subject)?;
    let drawn = count_drawn(stores, pool, deed, &subject);
    let asked = ask(alloc, setup, stores, station, deed, &subject, &made, drawn)?;
    match broken(&asked) {
        Some(rule) => Ok(Judged::Breaks(rule, subject)),
        None => Ok(Judged::Allowed(asked.found)),
    }
}

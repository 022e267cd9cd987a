//! The rules on counts: how many a deed asks for, and how many a site takes.
ghost use Rattle.std.specs.Prelude.{◌≡◌, ◌+◌, ◌<◌, ◌^◌, length, not, nat_lt, true};
ghost use Rattle.deed_words.specs.Chain.{when};
ghost use Rattle.deed_words.specs.Deeds.{batch_named};
ghost use Rattle.deed_words.specs.Setups.{half_pool, reference_bound};
ghost use Rattle.deed_words.specs.Tests.{count_range, out_of_range, site_full, full, asked, thin, pool_thin, fresh_rows, few_fresh, sscc_spent};
ghost use Rattle.deed_words.specs.declared.rule.Rule.TheVariants.{CountOutOfRange};
ghost use Rattle.batch_book.specs.Content.{world_in};
ghost use Rattle.site_rules.specs.Asked.{IsAsked, IsDrawnCount};
ghost use Rattle.site_rules.specs.Suits.{is_draw, is_lend};

use crate::asked::Asked;
use crate::batches::batch_for;
use crate::orders::count_new;
use deed_words::{Deed, Rule, Setup, State, What, reference_end};
use gs1_keys::Gtin;

/// How many batches a site has at most.
const MOST_BATCHES: u64 = 4_096;

/// How many serials a site has at most.
const MOST_SERIALS: u64 = 1_000_000;

/// How many units a site has at most.
const MOST_UNITS: u64 = 65_536;

/// How many serials one request asks for at most.
const MOST_ASKED: u32 = 10_000;

/// How many things or orders one request lists at most.
const MOST_LISTED: u64 = 1_000;

/// A count is 0 or too great.
#[tactic(auto, unfolding(deed_words::specs::Tests::count_range, deed_words::specs::Chain::when))]
fn count_range(count: u32) -> Option<Rule>
    ensures { result ≡ count_range count }
{
    if count == 0 {
        return Some(Rule::CountOutOfRange(u64::from(MOST_ASKED)));
    }
    if count > MOST_ASKED {
        return Some(Rule::CountOutOfRange(u64::from(MOST_ASKED)));
    }
    None
}

/// A list is empty.
#[tactic(auto, unfolding(deed_words::specs::Chain::when))]
fn list_range(is_empty: bool) -> Option<Rule>
    ensures { result ≡ when is_empty (CountOutOfRange 1000) }
{
    if is_empty {
        return Some(Rule::CountOutOfRange(MOST_LISTED));
    }
    None
}

/// A list is empty, or a count is 0 or too great.
#[tactic(auto, unfolding(deed_words::specs::Tests::out_of_range))]
pub(crate) fn out_of_range(asked: &Asked) -> Option<Rule>
    requires asked { IsAsked asked.now.stores.now.content asked.now.deed.now asked.now.names.now asked.now.found asked.now.repeat }
    ensures { result ≡ out_of_range asked.now.setup.now (world_in asked.now.stores.now.content) asked.now.station asked.now.deed.now }
{
    match asked.deed {
        Deed::Draw(_, count) => count_range(*count),
        Deed::Lend(_, count) => count_range(*count),
        Deed::Orders(rows) => list_range(rows.as_slice().is_empty()),
        _ => list_range(asked.names.is_empty()),
    }
}

/// So many more pass the limit.
#[tactic(auto, unfolding(deed_words::specs::Tests::full, deed_words::specs::Chain::when))]
fn full(what: What, have: u64, more: u64, most: u64) -> Option<Rule>
    requires { have + more < 2 ^ 64 }
    ensures { result ≡ full what have more most }
{
    if most < have + more {
        return Some(Rule::SiteFull(what, have));
    }
    None
}

/// The site has no room for what the deed adds.
#[tactic(auto, unfolding(deed_words::specs::Tests::site_full))]
pub(crate) fn site_full(asked: &Asked) -> Option<Rule>
    requires asked { IsAsked asked.now.stores.now.content asked.now.deed.now asked.now.names.now asked.now.found asked.now.repeat }
    ensures { result ≡ site_full asked.now.setup.now (world_in asked.now.stores.now.content) asked.now.station asked.now.deed.now }
{
    match asked.deed {
        Deed::Draw(_, count) => {
            let have = asked.stores.row_count() as u64;
            full(What::Serials, have, *count as u64, MOST_SERIALS)
        }
        Deed::Container(_, _) => {
            let have = asked.stores.unit_count() as u64;
            full(What::Units, have, 1, MOST_UNITS)
        }
        _ => {
            let have = asked.stores.batch_count() as u64;
            let more = count_new(asked);
            full(What::Batches, have, more, MOST_BATCHES)
        }
    }
}

/// Half of the serials that the product has, and none where the GTIN is no product's.
#[tactic(auto, unfolding(deed_words::specs::Setups::half_pool, deed_words::specs::Setups::is_product))]
fn half_pool(setup: &Setup, gtin: &Gtin) -> u64
    ensures { result ≡ half_pool setup.now gtin.now }
{
    match setup.product(gtin) {
        Some(product) => product.form.half(),
        None => 0,
    }
}

/// How many serials the deed asks for.
#[tactic(auto, unfolding(deed_words::specs::Tests::asked))]
fn count_asked(deed: &Deed) -> u32
    ensures { result ≡ asked deed.now }
{
    match deed {
        Deed::Draw(_, count) => *count,
        Deed::Lend(_, count) => *count,
        _ => 0,
    }
}

/// More than half of a product's serials would be drawn.
#[tactic(auto, unfolding(deed_words::specs::Tests::pool_thin, deed_words::specs::Tests::thin, deed_words::specs::Chain::when))]
pub(crate) fn pool_thin(asked: &Asked) -> Option<Rule>
    requires draw { is_draw asked.now.deed.now ≡ true }
    requires drawn { IsDrawnCount asked.now.stores.now.content asked.now.deed.now asked.now.drawn }
    requires asked { IsAsked asked.now.stores.now.content asked.now.deed.now asked.now.names.now asked.now.found asked.now.repeat }
    ensures { result ≡ pool_thin asked.now.setup.now (world_in asked.now.stores.now.content) asked.now.station asked.now.deed.now }
{
    let Some(batch) = batch_for(asked) else {
        return None;
    };
    let more = u64::from(count_asked(asked.deed));
    let have = u64::from(asked.drawn);
    if half_pool(asked.setup, &batch.order.gtin) < have + more {
        return Some(Rule::PoolThin(more, have));
    }
    None
}

/// How many serials of the batch of a lend are Fresh.
fn fresh(asked: &Asked) -> u32
    requires lend { is_lend asked.now.deed.now ≡ true }
    requires asked { IsAsked asked.now.stores.now.content asked.now.deed.now asked.now.names.now asked.now.found asked.now.repeat }
    ensures { result ≡ length (fresh_rows (world_in asked.now.stores.now.content) (batch_named (world_in asked.now.stores.now.content) asked.now.deed.now)) }
{
    asked.stores.tell_whole();
    match asked.found.batch {
        Some(batch) => asked.stores.items().count(batch, State::Fresh),
        None => 0,
    }
}

/// The batch has too few Fresh serials.
#[tactic(auto, unfolding(deed_words::specs::Tests::few_fresh, deed_words::specs::Chain::when))]
pub(crate) fn few_fresh(asked: &Asked) -> Option<Rule>
    requires lend { is_lend asked.now.deed.now ≡ true }
    requires asked { IsAsked asked.now.stores.now.content asked.now.deed.now asked.now.names.now asked.now.found asked.now.repeat }
    ensures { result ≡ few_fresh asked.now.setup.now (world_in asked.now.stores.now.content) asked.now.station asked.now.deed.now }
{
    let have = fresh(asked);
    if have < count_asked(asked.deed) {
        return Some(Rule::FewFresh(u64::from(have)));
    }
    None
}

/// The serial reference after so many units is none of the prefix's.
#[tactic(auto, unfolding(deed_words::specs::Setups::next_reference, deed_words::specs::Setups::reference_bound))]
fn is_spent(setup: &Setup, units: u32) -> bool
    ensures { result ≡ not (nat_lt (setup.now.reference + units) (reference_bound setup.now)) }
{
    setup.tell_proper();
    setup.reference + u64::from(units) >= reference_end(&setup.prefix)
}

/// The site has no code left.
#[tactic(auto, unfolding(deed_words::specs::Tests::sscc_spent, deed_words::specs::Setups::next_reference, deed_words::specs::Chain::when))]
pub(crate) fn sscc_spent(asked: &Asked) -> Option<Rule>
    ensures { result ≡ sscc_spent asked.now.setup.now (world_in asked.now.stores.now.content) asked.now.station asked.now.deed.now }
{
    if is_spent(asked.setup, asked.stores.unit_count()) {
        return Some(Rule::SsccSpent);
    }
    None
}

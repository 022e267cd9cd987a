//! The rule on closing.
ghost use Rattle.std.specs.Prelude.{◌≡◌, length, true};
ghost use Rattle.deed_words.specs.Tests.{not_accounted};
ghost use Rattle.batch_book.specs.Content.{world_in};
ghost use Rattle.site_rules.specs.Asked.{IsAsked};
ghost use Rattle.site_rules.specs.Suits.{is_close};

use crate::asked::Asked;
use deed_words::{Rule, Setup};

/// How many stations the site has: at most 64.
fn station_count(setup: &Setup) -> u8
    ensures { result ≡ length setup.now.stations }
{
    setup.tell_proper();
    setup.stations.len() as u8
}

/// The batch isn't accounted for.
#[tactic(auto, unfolding(deed_words::specs::Tests::not_accounted))]
pub(crate) fn not_accounted(asked: &Asked) -> Option<Rule>
    requires close { is_close asked.now.deed.now ≡ true }
    requires asked { IsAsked asked.now.stores.now.content asked.now.deed.now asked.now.names.now asked.now.found asked.now.repeat }
    ensures { result ≡ not_accounted asked.now.setup.now (world_in asked.now.stores.now.content) asked.now.station asked.now.deed.now }
{
    asked.stores.tell_whole();
    let Some(batch) = asked.found.batch else {
        return None;
    };
    let Some(finding) = asked.stores.finding(batch, station_count(asked.setup)) else {
        return None;
    };
    Some(Rule::NotAccounted(finding))
}

//! The rule that a deed breaks first.
ghost use Rattle.std.specs.Prelude.{◌≡◌, true};
ghost use Rattle.std.specs.List.{list_all};
ghost use Rattle.deed_words.specs.Chain.{each};
ghost use Rattle.deed_words.specs.Rules.{broken};
ghost use Rattle.batch_book.specs.Content.{world_in};
ghost use Rattle.site_rules.specs.Asked.{IsAsked, IsDrawnCount};
ghost use Rattle.site_rules.specs.Rules.{test_of, told};
ghost use Rattle.site_rules.specs.Suits.{suits};

use crate::accounts::not_accounted;
use crate::asked::Asked;
use crate::batches::{closed, not_started, role_forbids, started, unknown_batch};
use crate::counts::{few_fresh, out_of_range, pool_thin, site_full, sscc_spent};
use crate::orders::{order_conflict, unknown_product};
use crate::table::{Test, rules_of};
use crate::things::{
    has_parent, lent_to_other, not_child, other_batch, repeated, unknown_serial, wrong_level,
    wrong_state,
};
use crate::units::{
    nothing_inside, unit_full, unit_not_empty, unit_not_sealed, unit_sealed, unit_void,
    unknown_unit,
};
use deed_words::Rule;

/// What a test says of the deed.
#[tactic(auto, unfolding(crate::specs::Suits::suits))]
fn says(asked: &Asked, test: Test) -> Option<Rule>
    requires asked { IsAsked asked.now.stores.now.content asked.now.deed.now asked.now.names.now asked.now.found asked.now.repeat }
    requires drawn { IsDrawnCount asked.now.stores.now.content asked.now.deed.now asked.now.drawn }
    requires suited { suits asked.now.deed.now test ≡ true }
    ensures { result ≡ test_of test asked.now.setup.now (world_in asked.now.stores.now.content) asked.now.station asked.now.deed.now }
{
    match test {
        Test::RoleForbids => role_forbids(asked),
        Test::UnknownProduct => unknown_product(asked),
        Test::OrderConflict => order_conflict(asked),
        Test::UnknownBatch => unknown_batch(asked),
        Test::UnknownUnit => unknown_unit(asked),
        Test::NotStarted => not_started(asked),
        Test::Started => started(asked),
        Test::Closed => closed(asked),
        Test::UnitVoid => unit_void(asked),
        Test::UnitSealed => unit_sealed(asked),
        Test::UnitNotSealed => unit_not_sealed(asked),
        Test::OutOfRange => out_of_range(asked),
        Test::SiteFull => site_full(asked),
        Test::PoolThin => pool_thin(asked),
        Test::FewFresh => few_fresh(asked),
        Test::SsccSpent => sscc_spent(asked),
        Test::Repeated => repeated(asked),
        Test::UnknownSerial => unknown_serial(asked),
        Test::OtherBatch => other_batch(asked),
        Test::WrongLevel => wrong_level(asked),
        Test::WrongState => wrong_state(asked),
        Test::LentToOther => lent_to_other(asked),
        Test::HasParent => has_parent(asked),
        Test::NotChild => not_child(asked),
        Test::UnitFull => unit_full(asked),
        Test::UnitNotEmpty => unit_not_empty(asked),
        Test::NothingInside => nothing_inside(asked),
        Test::NotAccounted => not_accounted(asked),
    }
}

/// What the first of these tests says that says something.
fn first_rule(asked: &Asked, tests: &[Test]) -> Option<Rule>
    requires asked { IsAsked asked.now.stores.now.content asked.now.deed.now asked.now.names.now asked.now.found asked.now.repeat }
    requires drawn { IsDrawnCount asked.now.stores.now.content asked.now.deed.now asked.now.drawn }
    requires suited { list_all (suits asked.now.deed.now) tests.now ≡ true }
    ensures { result ≡ each tests.now (told asked.now.setup.now (world_in asked.now.stores.now.content) asked.now.station asked.now.deed.now) }
{
    for test in tests {
        if let Some(rule) = says(asked, *test) {
            return Some(rule);
        }
    }
    None
}

/// The rule that the deed breaks first, with what a refusal tells of it; `None` exactly where it breaks none. It takes
/// no memory.
pub fn broken(asked: &Asked) -> Option<Rule>
    requires asked { IsAsked asked.now.stores.now.content asked.now.deed.now asked.now.names.now asked.now.found asked.now.repeat }
    requires drawn { IsDrawnCount asked.now.stores.now.content asked.now.deed.now asked.now.drawn }
    ensures { result ≡ broken asked.now.setup.now (world_in asked.now.stores.now.content) asked.now.station asked.now.deed.now }
{
    first_rule(asked, rules_of(asked.deed))
}

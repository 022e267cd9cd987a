//! The units of a batch.
ghost use Rattle.std.specs.Prelude.{◌≡◌, length, filter};
ghost use Rattle.deed_words.specs.Accounts.{is_case as is_case_level};
ghost use Rattle.deed_words.specs.Moves.{is_void as is_void_mark};
ghost use Rattle.site_views.specs.Own.{is_in_use as is_used_unit, is_own};

use deed_words::{BatchId, Level, Mark};
use pack_tree::{Tree, UnitRow};

#[tactic(auto, unfolding(deed_words::specs::Accounts::is_case))]
fn is_case(level: Level) -> bool
    ensures { result ≡ is_case_level level }
{
    matches!(level, Level::Case)
}

#[tactic(auto, unfolding(deed_words::specs::Moves::is_void))]
fn is_void(mark: Mark) -> bool
    ensures { result ≡ is_void_mark mark }
{
    matches!(mark, Mark::Void)
}

/// Whether a unit is of the level, and isn't void.
#[tactic(auto, unfolding(crate::specs::Own::is_in_use, batch_report::specs::Views::is_pallet))]
fn is_in_use(unit: &UnitRow, level: Level) -> bool
    ensures { result ≡ is_used_unit level unit.now }
{
    match level {
        Level::Case => is_case(unit.level) && !is_void(unit.mark),
        Level::Pallet => !is_case(unit.level) && !is_void(unit.mark),
    }
}

/// How many units of the level a batch has that aren't void. It costs a look at each unit of the batch.
pub(crate) fn used_units(tree: &Tree, batch: BatchId, level: Level) -> u32
    ensures { result ≡ length (filter (is_own batch level) tree.now.units) }
{
    let _most = tree.len();
    let mut count = 0;
    for unit in tree.units_of(batch) {
        let row = tree.unit(unit);
        if is_in_use(&row, level) {
            count += 1;
        }
    }
    count
}

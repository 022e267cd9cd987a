//! The words of a log.
ghost use Rattle.std.specs.Prelude.{◌≡◌};
ghost use Rattle.deed_json.specs.Deeds.{deed_word};
ghost use Rattle.site_console.specs.Logs.{operator_word, rule_name, verdict_word};

use deed_words::{Deed, Rule};
use gs1_keys::Text20;

/// The word that a deed has in a request.
#[tactic(auto, unfolding(deed_json::specs::Deeds::deed_word))]
pub(crate) fn deed_word(deed: &Deed) -> &'static [u8]
    ensures { result.now ≡ deed_word deed.now }
{
    match deed {
        Deed::Order(_) => b"order",
        Deed::Orders(_) => b"orders",
        Deed::Start(_) => b"start",
        Deed::Draw(..) => b"draw",
        Deed::Lend(..) => b"lend",
        Deed::Commission(..) => b"commission",
        Deed::Spoil(..) => b"spoil",
        Deed::Giveback(..) => b"giveback",
        Deed::Sample(..) => b"sample",
        Deed::Reject(..) => b"reject",
        Deed::Reinstate(..) => b"reinstate",
        Deed::Destroy(..) => b"destroy",
        Deed::Decommission(..) => b"decommission",
        Deed::Container(..) => b"container",
        Deed::Pack(..) => b"pack",
        Deed::Unpack(..) => b"unpack",
        Deed::UnpackAll(_) => b"unpack_all",
        Deed::Seal(_) => b"seal",
        Deed::Unseal(_) => b"unseal",
        Deed::Void(_) => b"void",
        Deed::Declare(..) => b"declare",
        Deed::Close(_) => b"close",
        Deed::Amend(..) => b"amend",
    }
}

/// The name that a rule has in a reply.
#[tactic(auto, unfolding(crate::specs::Logs::rule_name))]
fn rule_name(rule: &Rule) -> &'static [u8]
    ensures { result.now ≡ rule_name rule.now }
{
    match rule {
        Rule::RoleForbids => b"RoleForbids",
        Rule::UnknownProduct(_) => b"UnknownProduct",
        Rule::OrderConflict(_) => b"OrderConflict",
        Rule::UnknownBatch => b"UnknownBatch",
        Rule::UnknownUnit => b"UnknownUnit",
        Rule::BatchNotStarted => b"BatchNotStarted",
        Rule::BatchStarted => b"BatchStarted",
        Rule::BatchClosed => b"BatchClosed",
        Rule::UnitVoid => b"UnitVoid",
        Rule::UnitSealed => b"UnitSealed",
        Rule::UnitNotSealed => b"UnitNotSealed",
        Rule::CountOutOfRange(_) => b"CountOutOfRange",
        Rule::SiteFull(..) => b"SiteFull",
        Rule::PoolThin(..) => b"PoolThin",
        Rule::FewFresh(_) => b"FewFresh",
        Rule::SsccSpent => b"SsccSpent",
        Rule::RepeatedInRequest(_) => b"RepeatedInRequest",
        Rule::UnknownSerial(_) => b"UnknownSerial",
        Rule::OtherBatch(_) => b"OtherBatch",
        Rule::WrongLevel(_) => b"WrongLevel",
        Rule::WrongState(..) => b"WrongState",
        Rule::LentToOther(..) => b"LentToOther",
        Rule::HasParent(..) => b"HasParent",
        Rule::NotChild(_) => b"NotChild",
        Rule::UnitFull(..) => b"UnitFull",
        Rule::UnitNotEmpty(_) => b"UnitNotEmpty",
        Rule::NothingInside => b"NothingInside",
        Rule::NotAccounted(_) => b"NotAccounted",
    }
}

/// Who worked at the station, or a hyphen.
#[tactic(auto, unfolding(crate::specs::Logs::operator_word))]
pub(crate) fn operator_word(operator: &Option<Text20>) -> &[u8]
    ensures { result.now ≡ operator_word operator.now }
{
    match operator {
        None => b"-",
        Some(operator) => operator.bytes(),
    }
}

/// Whether it was done, or the rule that it broke.
#[tactic(auto, unfolding(crate::specs::Logs::verdict_word))]
pub(crate) fn verdict_word(rule: &Option<Rule>) -> &'static [u8]
    ensures { result.now ≡ verdict_word rule.now }
{
    match rule {
        None => b"ok",
        Some(rule) => rule_name(rule),
    }
}

//! Refusals as JSON.
ghost use Rattle.std.specs.Prelude.{◌≡◌, ◌∷◌, [], codes, IfOk};
ghost use Rattle.serde_json.specs.View.{view};
ghost use Rattle.deed_json.specs.Objects.{refused};
ghost use Rattle.deed_json.specs.Replies.{finding_data, rule_data, finding_at, numbers_at, stations_of_finding, stations_of_rule, AreOfSite};

use crate::object::{one, plain, refusal, two};
use crate::value::{line_value, numbers_value, sscc_value, text_value};
use crate::words::{word_of_condition, word_of_what};
use deed_words::{Finding, Rule, Setup};
use serde_json::{Value, put};
use std::alloc::{AllocError, Global};

/// The refusal to close a batch, with what was found at a thing.
fn found(alloc: Global, finding: &str, key: &str, thing: Value) -> Result<Value, AllocError>
    ensures { IfOk result (λ v. view v
        ≡ refused (codes "NotAccounted") (finding_at finding.now ∷ (key.now, view thing) ∷ [])) }
{
    let name = Value::try_from_str(alloc, finding)?;
    two(alloc, "NotAccounted", "finding", name, key, thing)
}

/// The refusal to close a batch for which a line declared other numbers than are counted.
fn differs(
    alloc: Global,
    line: Value,
    counted: &[u32; 3],
    declared: &[u32; 3],
) -> Result<Value, AllocError>
    ensures { IfOk result (λ v. view v ≡ refused (codes "NotAccounted")
        (finding_at (codes "DeclaredDiffers") ∷ (codes "line", view line) ∷ numbers_at (codes "counted") counted.now ∷ numbers_at (codes "declared") declared.now ∷ [])) }
{
    let mut members = refusal(alloc, "NotAccounted")?;
    put(
        &mut members,
        alloc,
        "finding",
        Value::try_from_str(alloc, "DeclaredDiffers")?,
    )?;
    put(&mut members, alloc, "line", line)?;
    put(
        &mut members,
        alloc,
        "counted",
        numbers_value(alloc, counted)?,
    )?;
    put(
        &mut members,
        alloc,
        "declared",
        numbers_value(alloc, declared)?,
    )?;
    Ok(Value::Object(members))
}

/// The refusal to close a batch that isn't accounted for.
#[tactic(auto, unfolding(crate::specs::Replies::finding_data))]
fn finding_value(alloc: Global, finding: &Finding, setup: &Setup) -> Result<Value, AllocError>
    requires { AreOfSite setup.now (stations_of_finding finding.now) }
    ensures { IfOk result (λ v. view v ≡ finding_data setup.now finding.now) }
{
    match finding {
        Finding::StillLent(serial) => {
            found(alloc, "StillLent", "serial", text_value(alloc, serial)?)
        }
        Finding::StillRejected(serial) => {
            found(alloc, "StillRejected", "serial", text_value(alloc, serial)?)
        }
        Finding::Unpacked(serial) => {
            found(alloc, "Unpacked", "serial", text_value(alloc, serial)?)
        }
        Finding::UnitOpen(sscc) => found(alloc, "UnitOpen", "sscc", sscc_value(alloc, sscc)?),
        Finding::UnitLoose(sscc) => found(alloc, "UnitLoose", "sscc", sscc_value(alloc, sscc)?),
        Finding::NotDeclared(line) => {
            found(
                alloc,
                "NotDeclared",
                "line",
                line_value(alloc, *line, setup)?,
            )
        }
        Finding::DeclaredDiffers(line, counted, declared) => {
            differs(alloc, line_value(alloc, *line, setup)?, counted, declared)
        }
    }
}

/// The refusal of a deed by a rule.
#[tactic(auto, unfolding(crate::specs::Replies::rule_data))]
pub(crate) fn rule_value(alloc: Global, rule: &Rule, setup: &Setup) -> Result<Value, AllocError>
    requires { AreOfSite setup.now (stations_of_rule rule.now) }
    ensures { IfOk result (λ v. view v ≡ rule_data setup.now rule.now) }
{
    match rule {
        Rule::RoleForbids => plain(alloc, "RoleForbids"),
        Rule::UnknownProduct(row) => one(alloc, "UnknownProduct", "row", Value::from(*row)),
        Rule::OrderConflict(row) => one(alloc, "OrderConflict", "row", Value::from(*row)),
        Rule::UnknownBatch => plain(alloc, "UnknownBatch"),
        Rule::UnknownUnit => plain(alloc, "UnknownUnit"),
        Rule::BatchNotStarted => plain(alloc, "BatchNotStarted"),
        Rule::BatchStarted => plain(alloc, "BatchStarted"),
        Rule::BatchClosed => plain(alloc, "BatchClosed"),
        Rule::UnitVoid => plain(alloc, "UnitVoid"),
        Rule::UnitSealed => plain(alloc, "UnitSealed"),
        Rule::UnitNotSealed => plain(alloc, "UnitNotSealed"),
        Rule::CountOutOfRange(most) => one(alloc, "CountOutOfRange", "most", Value::from(*most)),
        Rule::SiteFull(what, have) => {
            let word = Value::try_from_str(alloc, word_of_what(*what))?;
            two(alloc, "SiteFull", "what", word, "have", Value::from(*have))
        }
        Rule::PoolThin(asked, have) => {
            let asked = Value::from(*asked);
            two(
                alloc,
                "PoolThin",
                "asked",
                asked,
                "have",
                Value::from(*have),
            )
        }
        Rule::FewFresh(have) => one(alloc, "FewFresh", "have", Value::from(*have)),
        Rule::SsccSpent => plain(alloc, "SsccSpent"),
        Rule::RepeatedInRequest(index) => {
            one(alloc, "RepeatedInRequest", "index", Value::from(*index))
        }
        Rule::UnknownSerial(index) => one(alloc, "UnknownSerial", "index", Value::from(*index)),
        Rule::OtherBatch(index) => one(alloc, "OtherBatch", "index", Value::from(*index)),
        Rule::WrongLevel(index) => one(alloc, "WrongLevel", "index", Value::from(*index)),
        Rule::WrongState(index, condition) => {
            let word = Value::try_from_str(alloc, word_of_condition(*condition))?;
            two(
                alloc,
                "WrongState",
                "index",
                Value::from(*index),
                "state",
                word,
            )
        }
        Rule::LentToOther(index, line) => {
            let name = line_value(alloc, *line, setup)?;
            two(
                alloc,
                "LentToOther",
                "index",
                Value::from(*index),
                "line",
                name,
            )
        }
        Rule::HasParent(index, parent) => {
            let digits = sscc_value(alloc, parent)?;
            two(
                alloc,
                "HasParent",
                "index",
                Value::from(*index),
                "parent",
                digits,
            )
        }
        Rule::NotChild(index) => one(alloc, "NotChild", "index", Value::from(*index)),
        Rule::UnitFull(have, room) => {
            let have = Value::from(*have);
            two(alloc, "UnitFull", "have", have, "room", Value::from(*room))
        }
        Rule::UnitNotEmpty(have) => one(alloc, "UnitNotEmpty", "have", Value::from(*have)),
        Rule::NothingInside => plain(alloc, "NothingInside"),
        Rule::NotAccounted(finding) => finding_value(alloc, finding, setup),
    }
}

//! The JSON objects of refusals: `ok`, the rule's name, and what else is told.
ghost use Rattle.std.specs.Prelude.{◌≡◌, [], ◌∷◌, IfOk};
ghost use Rattle.serde_json.specs.View.{view, members_view};
ghost use Rattle.deed_json.specs.Objects.{refused, refused_members};

use serde_json::{Map, Value, put};
use std::alloc::{AllocError, Global};

/// The members of every refusal by this rule.
pub(crate) fn refusal(alloc: Global, rule: &str) -> Result<Map<String, Value>, AllocError>
    ensures { IfOk result (λ m. members_view m.entries ≡ refused_members rule.now) }
{
    let mut members = Map::new(alloc);
    put(&mut members, alloc, "ok", Value::from(false))?;
    put(
        &mut members,
        alloc,
        "rule",
        Value::try_from_str(alloc, rule)?,
    )?;
    Ok(members)
}

/// A refusal that tells no more than its rule.
pub(crate) fn plain(alloc: Global, rule: &str) -> Result<Value, AllocError>
    ensures { IfOk result (λ v. view v ≡ refused rule.now []) }
{
    Ok(Value::Object(refusal(alloc, rule)?))
}

/// A refusal that tells one thing more.
pub(crate) fn one(alloc: Global, rule: &str, key: &str, value: Value) -> Result<Value, AllocError>
    ensures { IfOk result (λ v. view v ≡ refused rule.now ((key.now, view value) ∷ [])) }
{
    let mut members = refusal(alloc, rule)?;
    put(&mut members, alloc, key, value)?;
    Ok(Value::Object(members))
}

/// A refusal that tells two things more.
pub(crate) fn two(
    alloc: Global,
    rule: &str,
    key: &str,
    value: Value,
    other_key: &str,
    other: Value,
) -> Result<Value, AllocError>
    ensures { IfOk result (λ v. view v
        ≡ refused rule.now ((key.now, view value) ∷ (other_key.now, view other) ∷ [])) }
{
    let mut members = refusal(alloc, rule)?;
    put(&mut members, alloc, key, value)?;
    put(&mut members, alloc, other_key, other)?;
    Ok(Value::Object(members))
}

//! Names that came before.
ghost use Rattle.std.specs.Prelude.{◌≡◌, ◌<◌, ◌≤◌, ◌+◌, length, map, take, IfOk};
ghost use Rattle.name_marks.specs.Hashes.{hash_of};
ghost use Rattle.name_marks.specs.Repeats.{first_repeat};

use crate::marks::{hash_of, is_marked, table_for};
use epc_urn::Epc;
use gs1_keys::Memory;
use std::alloc::Global;

/// The place of the first name that stands earlier in the list too.
///
/// # Errors
///
/// `Memory` where no memory was found, or there are 2^31 names or more.
pub fn first_repeat(alloc: Global, names: &[Epc]) -> Result<Option<usize>, Memory>
    ensures { IfOk result (λ place. place ≡ first_repeat names.now) }
{
    let mut table = table_for(alloc, names.len())?;
    for (place, name) in names.iter().enumerate() {
        if is_marked(&table, &names[..place], name) {
            return Ok(Some(place));
        }
        table.insert(hash_of(name));
    }
    Ok(None)
}

//! Names by their hashes.
ghost use Rattle.std.specs.Prelude.{◌≡◌, ◌<◌, ◌≤◌, [], length, map, IfOk};
ghost use Rattle.std.specs.List.{HoldsAt};
ghost use Rattle.deed_words.specs.Names.{same_name, is_among};
ghost use Rattle.name_marks.specs.Hashes.{hash_of};

use deed_words::same_epc;
use epc_urn::Epc;
use gs1_keys::Memory;
use place_table::{PlaceTable, pair_hash, text_hash};
use std::alloc::Global;
use std::marker::Model;

/// The hash of a name.
#[tactic(auto, unfolding(crate::specs::Hashes::hash_of))]
pub(crate) fn hash_of(name: &Epc) -> u32
    ensures { result ≡ hash_of name.now }
{
    match name {
        Epc::Item(gtin, serial) => pair_hash(gtin.digits(), serial.bytes()),
        Epc::Unit(sscc) => text_hash(sscc.digits()),
    }
}

/// Whether the name is one of those whose hashes the table has.
pub(crate) fn is_marked(table: &PlaceTable, names: &[Epc], name: &Epc) -> bool
    requires { table.now.hashes ≡ map hash_of names.now }
    ensures { result ≡ is_among names.now name.now }
{
    let same = |at: usize| -> bool
        requires { at < length names.now }
        ensures { HoldsAt (λ other. same_name name.entry.now other ≡ result) names.entry.now at }
    { same_epc(name, &names[at]) };
    match table.find(hash_of(name), &same) {
        Some(_) => true,
        None => false,
    }
}

/// The names of a list, to be asked for.
#[derive(Drop)]
pub struct Marks<'a> {
    names: &'a [Epc],
    table: PlaceTable,
}

impl<'a> Model for Marks<'a> {
    ghost use Rattle.std.specs.Prelude.{◌≡◌, List, map};
    ghost use Rattle.name_marks.specs.Hashes.{hash_of};
    ghost use Rattle.epc_urn.specs.declared.epc.Epc.{Epc};

    ghost Value = { List Epc };

    ghost view = { λ m. m.names.now };

    ghost invariant = { λ m. m.table.hashes ≡ map hash_of m.names.now };
}

impl<'a> Marks<'a> {
    /// The marks of these names.
    ///
    /// # Errors
    ///
    /// `Memory` where no memory was found, or there are 2^31 names or more.
    pub fn of(alloc: Global, names: &'a [Epc]) -> Result<Marks<'a>, Memory>
        ensures { IfOk result (λ marks. marks ≡ names.now) }
    {
        let table = table_of(alloc, names)?;
        Ok(Marks { names, table })
    }

    /// Whether the name is one of them.
    pub fn has(&self, name: &Epc) -> bool
        ensures { result ≡ is_among self.now name.now }
    {
        is_marked(&self.table, self.names, name)
    }
}

/// The table of the names' hashes.
fn table_of(alloc: Global, names: &[Epc]) -> Result<PlaceTable, Memory>
    ensures { IfOk result (λ table. table.hashes ≡ map hash_of names.now) }
{
    let mut table = table_for(alloc, names.len())?;
    for name in names {
        table.insert(hash_of(name));
    }
    Ok(table)
}

/// A table with room for so many.
pub(crate) fn table_for(alloc: Global, count: usize) -> Result<PlaceTable, Memory>
    ensures { IfOk result (λ table. (table.hashes ≡ []) × (count ≤ table.room)) }
{
    if count >= 1 << 31 {
        return Err(Memory);
    }
    let mut table = PlaceTable::new(alloc);
    match table.ready(count) {
        Ok(()) => Ok(table),
        Err(_) => Err(Memory),
    }
}

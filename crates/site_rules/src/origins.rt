//! Where the batches of order rows were first ordered.
ghost use Rattle.std.specs.Prelude.{◌≡◌, ◌≤◌, ◌<◌, [], length, map, take, get_or, IfOk, Some};
ghost use Rattle.std.specs.List.{HoldsAt};
ghost use Rattle.deed_words.specs.Names.{same};
ghost use Rattle.site_rules.specs.Origins.{origin_of, row_hash, is_row, AreOrigins};

use deed_words::{OrderRow, same_text};
use gs1_keys::Memory;
use place_table::{PlaceTable, text_hash};
use site_stores::Stores;
use std::alloc::Global;

/// Where the batch of an order row was first ordered.
#[derive(Clone, Copy)]
pub enum Origin {
    /// Before the deed: it is the batch at this place.
    There(u16),
    /// By the row at this place, the first of the batch's name.
    Row(usize),
}

impl Origin {
    /// Whether the row at the place is the first that orders the batch: it adds the batch.
    #[tactic(auto, unfolding(crate::specs::Origins::is_row))]
    pub fn is_row(self, place: usize) -> bool
        ensures { result ≡ is_row place self }
    {
        match self {
            Origin::There(_) => false,
            Origin::Row(first) => first == place,
        }
    }
}

/// The origin of the row after those that have theirs. An earlier row of the same batch is found by the hash of its
/// name, and has the same origin.
fn next_origin(
    stores: &Stores,
    table: &PlaceTable,
    rows: &[OrderRow],
    origins: &[Origin],
    row: &OrderRow,
) -> Origin
    requires hashed { table.now.hashes ≡ map row_hash (take (length origins.now) rows.now) }
    requires origins { map Some origins.now ≡ map (λ row. origin_of stores.now.content rows.now row.batch) (take (length origins.now) rows.now) }
    requires left { length origins.now < length rows.now }
    requires row { row.now ≡ get_or rows.now (length origins.now) row.now }
    ensures { Some result ≡ origin_of stores.now.content rows.now row.now.batch }
{
    let place = origins.len();
    let same = |at: usize| -> bool
        requires { at < length rows.now }
        ensures { HoldsAt (λ other. same other.batch row.entry.now.batch ≡ result) rows.entry.now at }
    { same_text(&rows[at].batch, &row.batch) };
    if let Some(earlier) = table.find(text_hash(row.batch.bytes()), &same) {
        return origins[earlier];
    }
    match stores.find_batch(&row.batch) {
        Some(batch) => Origin::There(batch.0),
        None => Origin::Row(place),
    }
}

/// A table with room for so many rows.
fn table_for(alloc: Global, count: usize) -> Result<PlaceTable, Memory>
    ensures { IfOk result (λ table. (table.hashes ≡ []) × (count ≤ table.room)) }
{
    if count >= 1 << 31 {
        return Err(Memory);
    }
    let mut table = PlaceTable::new(alloc);
    match table.ready(count) {
        Ok(()) => Ok(table),
        Err(_) => Err(Memory),
    }
}

/// The origins of the rows, in one pass.
pub(crate) fn origins_of(
    alloc: Global,
    stores: &Stores,
    rows: &[OrderRow],
) -> Result<Vec<Origin>, Memory>
    ensures { IfOk result (λ origins. AreOrigins stores.now.content rows.now origins.items) }
{
    let mut table = table_for(alloc, rows.len())?;
    let mut origins = Vec::new(alloc);
    let Ok(()) = origins.reserve(rows.len()) else {
        return Err(Memory);
    };
    for row in rows {
        let origin = next_origin(stores, &table, rows, origins.as_slice(), row);
        let Ok(()) = origins.push(origin) else {
            return Err(Memory);
        };
        table.insert(text_hash(row.batch.bytes()));
    }
    Ok(origins)
}

use place_table::{PlaceTable, pair_hash, text_hash};
use std::alloc::Global;
use std::test::Fail;

/// A table of these hashes, with room for eight in all.
fn table_of(alloc: Global, hashes: &[u32]) -> Result<PlaceTable, Fail> {
    let mut table = PlaceTable::new(alloc);
    table.ready(8)?;
    for hash in hashes {
        if table.room() == 0 {
            return Err(Fail::from("no room"));
        }
        table.insert(*hash);
    }
    Ok(table)
}

#[test]
fn rows_of_one_hash_are_told_apart(rt: HostRuntime) -> Result<(), Fail> {
    let table = table_of(rt.alloc(), &[7, 23, 7, 7])?;
    assert_eq!(rt; table.find(7, &|row: usize| row == 2), Some(2));
    assert_eq!(rt; table.find(23, &|_row: usize| true), Some(1));
    assert_eq!(rt; table.find(39, &|_row: usize| true), None);
    assert_eq!(rt; table.find(7, &|row: usize| row == 1), None);
    Ok(())
}

#[test]
fn the_last_row_is_taken_back(rt: HostRuntime) -> Result<(), Fail> {
    let mut table = table_of(rt.alloc(), &[1, 1, 1])?;
    let room = table.room();
    if room == 0 {
        return Err(Fail::from("no room"));
    }
    table.insert(1);
    table.remove_last();
    assert_eq!(rt; (table.len(), table.room()), (3, room));
    assert_eq!(rt; table.find(1, &|row: usize| row == 3), None);
    assert_eq!(rt; table.find(1, &|row: usize| row == 2), Some(2));
    Ok(())
}

#[test]
fn hashes_are_those_of_fnv_1a(rt: HostRuntime) {
    // FNV-1a of 64 bits: of no byte cbf29ce484222325, of "a" af63dc4c8601ec8c, of "foobar" 85944171f73967e8
    assert_eq!(rt; text_hash(b""), 0xcbf2_9ce4);
    assert_eq!(rt; text_hash(b"a"), 0xaf63_dc4c);
    assert_eq!(rt; pair_hash(b"foo", b"bar"), 0x8594_4171);
}

//! Site files.
ghost use Rattle.std.specs.Prelude.{◌≡◌, ◌<◌, ◌≤◌, ◌-◌, ◌^◌, [], length, codes, Some, None, Ok, Err, IfOk, IfSome, true};
ghost use Rattle.std.specs.List.{list_all, IsDistinct};
ghost use Rattle.toml.specs.Data.{get, as_str};
ghost use Rattle.toml.specs.View.{view, items_view};
ghost use Rattle.gs1_keys.specs.Forms.{is_form};
ghost use Rattle.deed_words.specs.Names.{same};
ghost use Rattle.deed_words.specs.Setups.{begins_with, is_offset, is_product, gtins_of, names_of};
ghost use Rattle.site_files.specs.Due.{IsDue, IsExactly};
ghost use Rattle.site_files.specs.Sites.{toml_of, field_of, part_of, text_field, number_field, gln_field, prefix_field, gtin_field, name_field, keys_of, offset_field, offset_text, form_of, product_in, product_entry, products_after, entries_of, alphabet_in, alphabet_named, role_field, role_named, station_in, station_entry, stations_after, setup_in, setup_of};

use crate::fault::{FileFault, Word};
use deed_words::{
    Product, Products, Role, Setup, Station, Stations, has_gtin, has_name, is_of_prefix,
    is_time_offset, reference_end,
};
use gs1_keys::{Alphabet, Gln, Gtin, Prefix, SerialForm, Text20};
use std::alloc::Global;
use toml::Value;

/// Why bytes are no TOML.
#[derive(Clone, Copy, Debug, PartialEq, Eq)]
enum TomlFault {
    Refused,
    Memory,
}

/// The TOML of some bytes, as one value.
fn read_toml(alloc: Global, bytes: &[u8]) -> Result<Value, TomlFault>
    ensures ok { IfOk result (λ v. toml_of bytes.now ≡ Some (view v)) }
    ensures refused { result ≡ Err TomlFault.Refused → toml_of bytes.now ≡ None }
{
    match toml::table_from_slice(alloc, bytes) {
        Ok(table) => Ok(Value::Table(table)),
        Err(fault) => if fault.is_memory() {
            Err(TomlFault::Memory)
        } else {
            Err(TomlFault::Refused)
        },
    }
}

/// The field of a word.
#[tactic(auto, unfolding(crate::specs::Sites::field_of))]
fn field_at(value: &Value, word: Word) -> Result<&Value, FileFault>
    ensures { IsExactly (λ v. view v.now) result (field_of word (view value.now)) }
{
    match value.get(word.text()) {
        Some(found) => Ok(found),
        None => Err(FileFault::NoField(word)),
    }
}

/// A part that is a table.
#[tactic(auto, unfolding(crate::specs::Sites::part_of))]
fn part_at(value: &Value, word: Word) -> Result<&Value, FileFault>
    ensures { IsExactly (λ v. view v.now) result (part_of word (view value.now)) }
{
    let found = field_at(value, word)?;
    if !found.is_table() {
        return Err(FileFault::BadField(word));
    }
    Ok(found)
}

/// The text of a field.
#[tactic(auto, unfolding(crate::specs::Sites::text_field))]
fn text_at(value: &Value, word: Word) -> Result<&str, FileFault>
    ensures { IsExactly (λ s. s.now) result (text_field word (view value.now)) }
{
    match field_at(value, word)?.as_str() {
        Some(text) => Ok(text),
        None => Err(FileFault::BadField(word)),
    }
}

/// The whole number of a field, from `low` to below `end`.
#[tactic(auto, unfolding(crate::specs::Sites::number_field))]
fn number_at(value: &Value, word: Word, low: u64, end: u64) -> Result<u64, FileFault>
    ensures is { IsExactly (λ n. n) result (number_field word low end (view value.now)) }
    ensures within { IfOk result (λ n. (low ≤ n) × (n < end)) }
{
    let Some(number) = field_at(value, word)?.as_integer() else {
        return Err(FileFault::BadField(word));
    };
    if number < 0 {
        return Err(FileFault::BadField(word));
    }
    let whole = number as u64;
    if whole < low || whole >= end {
        return Err(FileFault::BadField(word));
    }
    Ok(whole)
}

#[tactic(auto, unfolding(crate::specs::Sites::gln_field))]
fn gln_at(value: &Value) -> Result<Gln, FileFault>
    ensures { IsExactly (λ x. x) result (gln_field (view value.now)) }
{
    match Gln::read(text_at(value, Word::Gln)?.as_bytes()) {
        Ok(gln) => Ok(gln),
        Err(_) => Err(FileFault::BadField(Word::Gln)),
    }
}

#[tactic(auto, unfolding(crate::specs::Sites::prefix_field))]
fn prefix_at(value: &Value) -> Result<Prefix, FileFault>
    ensures { IsExactly (λ x. x) result (prefix_field (view value.now)) }
{
    match Prefix::read(text_at(value, Word::Prefix)?.as_bytes()) {
        Ok(prefix) => Ok(prefix),
        Err(_) => Err(FileFault::BadField(Word::Prefix)),
    }
}

#[tactic(auto, unfolding(crate::specs::Sites::gtin_field))]
fn gtin_at(value: &Value) -> Result<Gtin, FileFault>
    ensures { IsExactly (λ x. x) result (gtin_field (view value.now)) }
{
    match Gtin::read(text_at(value, Word::Gtin)?.as_bytes()) {
        Ok(gtin) => Ok(gtin),
        Err(_) => Err(FileFault::BadField(Word::Gtin)),
    }
}

#[tactic(auto, unfolding(crate::specs::Sites::name_field))]
fn name_at(value: &Value) -> Result<Text20, FileFault>
    ensures { IsExactly (λ x. x) result (name_field (view value.now)) }
{
    match Text20::read(text_at(value, Word::Name)?.as_bytes()) {
        Ok(name) => Ok(name),
        Err(_) => Err(FileFault::BadField(Word::Name)),
    }
}

/// The location number, which begins with the company prefix, and the prefix.
#[tactic(auto, unfolding(crate::specs::Sites::keys_of))]
fn keys_at(value: &Value) -> Result<(Gln, Prefix), FileFault>
    ensures is { IsExactly (λ keys. keys) result (keys_of (view value.now)) }
    ensures begins { IfOk result (λ keys. begins_with keys.1 keys.0 ≡ true) }
{
    let gln = gln_at(value)?;
    let prefix = prefix_at(value)?;
    if !is_of_prefix(&gln, &prefix) {
        return Err(FileFault::BadField(Word::Gln));
    }
    Ok((gln, prefix))
}

/// The six characters of a text, where it is an offset of the time.
#[tactic(auto, unfolding(deed_words::specs::Setups::is_offset))]
fn read_offset(text: &[u8]) -> Option<[u8; 6]>
    ensures is { result ≡ offset_text text.now }
    ensures proper { IfSome result (λ x. is_offset x ≡ true) }
{
    if text.len() != 6 {
        return None;
    }
    let mut offset = [0; 6];
    offset.copy_from_slice(text);
    if !is_time_offset(&offset) {
        return None;
    }
    Some(offset)
}

#[tactic(auto, unfolding(crate::specs::Sites::offset_field))]
fn offset_at(value: &Value) -> Result<[u8; 6], FileFault>
    ensures is { IsExactly (λ x. x) result (offset_field (view value.now)) }
    ensures proper { IfOk result (λ x. is_offset x ≡ true) }
{
    match read_offset(text_at(value, Word::Offset)?.as_bytes()) {
        Some(offset) => Ok(offset),
        None => Err(FileFault::BadField(Word::Offset)),
    }
}

/// The alphabet that a text names.
fn named_alphabet(value: &Value) -> Result<Alphabet, FileFault>
    ensures { result ≡ alphabet_named (as_str (view value.now)) }
{
    let Some(text) = value.as_str() else {
        return Err(FileFault::BadField(Word::SerialAlphabet));
    };
    match text {
        "digits" => Ok(Alphabet::Digits),
        "base32" => Ok(Alphabet::Base32),
        _ => Err(FileFault::BadField(Word::SerialAlphabet)),
    }
}

/// The alphabet of a product, which is digits where nothing is said of it.
fn alphabet_at(value: &Value) -> Result<Alphabet, FileFault>
    ensures { result ≡ alphabet_in (get (codes "serial_alphabet") (view value.now)) }
{
    match value.get("serial_alphabet") {
        Some(named) => named_alphabet(named),
        None => Ok(Alphabet::Digits),
    }
}

/// The form of a product's serials.
#[tactic(auto, unfolding(crate::specs::Sites::form_of))]
fn form_at(value: &Value) -> Result<SerialForm, FileFault>
    ensures is { IsExactly (λ x. x) result (form_of (view value.now)) }
    ensures proper { IfOk result (λ form. is_form form ≡ true) }
{
    let length = number_at(value, Word::SerialLength, 6, 19)? as u8;
    let alphabet = alphabet_at(value)?;
    let form = SerialForm { alphabet, length };
    if !form.is_proper() {
        return Err(FileFault::BadField(Word::SerialAlphabet));
    }
    Ok(form)
}

/// The product of a table.
#[tactic(auto, unfolding(crate::specs::Sites::product_in, deed_words::specs::Setups::is_product))]
fn product_at(value: &Value) -> Result<Product, FileFault>
    ensures is { IsExactly (λ x. x) result (product_in (view value.now)) }
    ensures proper { IfOk result (λ product. is_product product ≡ true) }
{
    let gtin = gtin_at(value)?;
    let prefix_length = number_at(value, Word::PrefixLength, 6, 13)? as u8;
    let form = form_at(value)?;
    Ok(Product {
        gtin,
        prefix_length,
        form,
    })
}

/// The product of an entry.
#[tactic(auto, unfolding(crate::specs::Sites::product_entry))]
fn read_product(value: &Value) -> Result<Product, FileFault>
    ensures is { IsExactly (λ x. x) result (product_entry (view value.now)) }
    ensures proper { IfOk result (λ product. is_product product ≡ true) }
{
    if !value.is_table() {
        return Err(FileFault::BadField(Word::Product));
    }
    product_at(value)
}

/// The entries of a list, of which there are 1 to `most`.
#[tactic(auto, unfolding(crate::specs::Sites::entries_of))]
fn entries_at(value: &Value, word: Word, most: usize) -> Result<&[Value], FileFault>
    ensures is { IsExactly (λ entries. items_view entries.now) result (entries_of word most (view value.now)) }
    ensures size { IfOk result (λ entries. (1 ≤ length entries.now) × (length entries.now ≤ most)) }
{
    let Some(entries) = field_at(value, word)?.as_array() else {
        return Err(FileFault::BadField(word));
    };
    if entries.is_empty() {
        return Err(FileFault::NoField(word));
    }
    if entries.len() > most {
        return Err(FileFault::TooMany(word));
    }
    Ok(entries.as_slice())
}

/// The products of the entries.
fn read_products(alloc: Global, entries: &[Value]) -> Result<Products, FileFault>
    ensures is { IsDue (λ x. x) FileFault.Memory result (products_after [] (items_view entries.now)) }
    ensures size { IfOk result (λ products. length products ≡ length entries.now) }
    ensures proper { IfOk result (λ products. list_all is_product products ≡ true) }
    ensures differ { IfOk result (λ products. IsDistinct same (gtins_of products)) }
{
    let mut products = Products::new(alloc);
    for entry in entries {
        let product = read_product(entry)?;
        if has_gtin(products.as_slice(), product.gtin) {
            return Err(FileFault::Twice(Word::Gtin));
        }
        if products.push(product).is_err() {
            return Err(FileFault::Memory);
        }
    }
    Ok(products)
}

/// The role of a station.
#[tactic(auto, unfolding(crate::specs::Sites::role_field))]
fn role_at(value: &Value) -> Result<Role, FileFault>
    ensures { IsExactly (λ x. x) result (role_field (view value.now)) }
{
    match text_at(value, Word::Role)? {
        "planner" => Ok(Role::Planner),
        "line" => Ok(Role::Line),
        "quality" => Ok(Role::Quality),
        _ => Err(FileFault::BadField(Word::Role)),
    }
}

/// The station of a table.
#[tactic(auto, unfolding(crate::specs::Sites::station_in))]
fn station_at(value: &Value) -> Result<Station, FileFault>
    ensures { IsExactly (λ x. x) result (station_in (view value.now)) }
{
    let name = name_at(value)?;
    let role = role_at(value)?;
    Ok(Station { name, role })
}

/// The station of an entry.
#[tactic(auto, unfolding(crate::specs::Sites::station_entry))]
fn read_station(value: &Value) -> Result<Station, FileFault>
    ensures { IsExactly (λ x. x) result (station_entry (view value.now)) }
{
    if !value.is_table() {
        return Err(FileFault::BadField(Word::Station));
    }
    station_at(value)
}

/// The stations of the entries.
fn read_stations(alloc: Global, entries: &[Value]) -> Result<Stations, FileFault>
    ensures is { IsDue (λ x. x) FileFault.Memory result (stations_after [] (items_view entries.now)) }
    ensures size { IfOk result (λ stations. length stations ≡ length entries.now) }
    ensures differ { IfOk result (λ stations. IsDistinct same (names_of stations)) }
{
    let mut stations = Stations::new(alloc);
    for entry in entries {
        let station = read_station(entry)?;
        if has_name(stations.as_slice(), station.name) {
            return Err(FileFault::Twice(Word::Name));
        }
        if stations.push(station).is_err() {
            return Err(FileFault::Memory);
        }
    }
    Ok(stations)
}

/// The setup of a table.
#[tactic(auto, unfolding(crate::specs::Sites::setup_in))]
fn read_setup(alloc: Global, value: &Value) -> Result<Setup, FileFault>
    ensures { IsDue (λ x. x) FileFault.Memory result (setup_in (view value.now)) }
{
    let site = part_at(value, Word::Site)?;
    let (gln, prefix) = keys_at(site)?;
    let extension = number_at(site, Word::Extension, 0, 10)? as u8;
    let reference = number_at(site, Word::Reference, 0, reference_end(&prefix))?;
    let offset = offset_at(site)?;
    let products = read_products(alloc, entries_at(value, Word::Product, 256)?)?;
    let stations = read_stations(alloc, entries_at(value, Word::Station, 64)?)?;
    match Setup::new(
        gln, prefix, extension, reference, offset, products, stations,
    ) {
        Some(setup) => Ok(setup),
        None => unreachable!(),
    }
}

/// The setup of a site file, in TOML, or its first fault: `Unreadable` exactly where `toml` refuses the
/// bytes; then, of the fields in their order, `NoField` for a missing one and `BadField` for a wrong
/// one; `TooMany` before the entries of a list, and `Twice` after an entry's fields.
#[tactic(auto, unfolding(crate::specs::Sites::setup_of))]
pub fn read_site(alloc: Global, bytes: &[u8]) -> Result<Setup, FileFault>
    ensures { IsDue (λ x. x) FileFault.Memory result (setup_of bytes.now) }
{
    match read_toml(alloc, bytes) {
        Ok(value) => read_setup(alloc, &value),
        Err(TomlFault::Refused) => Err(FileFault::Unreadable),
        Err(TomlFault::Memory) => Err(FileFault::Memory),
    }
}

//! Reading the fields of a site.
ghost use Rattle.std.specs.Prelude.{◌≡◌, [], length};
ghost use Rattle.entry_bytes.specs.Reading.{IsDue, IsExactly, byte_at, ranged, many_after};
ghost use Rattle.entry_bytes.specs.SiteFields.{gln_at, prefix_at, reference_at, offset_at, alphabet_at, form_at, new_gtin_at, product_at, products_at, new_name_at, role_at, station_at, stations_at};

use crate::cursor::Cursor;
use crate::fault::Stop;
use crate::fields::{read_gtin, read_text};
use crate::version::Version;
use deed_words::{
    Product, Products, Role, Station, Stations, has_gtin, has_name, is_of_prefix, is_time_offset,
    reference_end,
};
use gs1_keys::{Alphabet, Gln, Gtin, Prefix, SerialForm, Text20};
use std::alloc::Global;

#[tactic(auto, unfolding(crate::specs::SiteFields::gln_at))]
pub(crate) fn read_gln(bytes: &mut Cursor) -> Result<Gln, Stop>
    ensures { IsExactly (λ x. (x, bytes.new)) result (gln_at bytes.old) }
{
    let start = bytes.len();
    if start < 13 {
        return Err(Stop::Short(start));
    }
    match Gln::read(bytes.front(13)) {
        Ok(key) => Ok(key),
        Err(_) => Err(Stop::BadField(start)),
    }
}

/// A prefix with which the location number begins.
#[tactic(auto, unfolding(crate::specs::SiteFields::prefix_at))]
pub(crate) fn read_prefix(gln: &Gln, bytes: &mut Cursor) -> Result<Prefix, Stop>
    ensures { IsExactly (λ x. (x, bytes.new)) result (prefix_at gln.now bytes.old) }
{
    let start = bytes.len();
    let len = bytes.byte()?;
    if len < 6 || len > 12 {
        return Err(Stop::BadField(start));
    }
    if bytes.len() < usize::from(len) {
        return Err(Stop::Short(start));
    }
    let prefix = match Prefix::read(bytes.front(usize::from(len))) {
        Ok(prefix) => prefix,
        Err(_) => return Err(Stop::BadField(start)),
    };
    if !is_of_prefix(gln, &prefix) {
        return Err(Stop::BadField(start));
    }
    Ok(prefix)
}

/// A byte from `low` to `high`.
pub(crate) fn read_byte(low: u8, high: u8, bytes: &mut Cursor) -> Result<u8, Stop>
    ensures { IsExactly (λ x. (x, bytes.new)) result (ranged low high byte_at bytes.old) }
{
    let start = bytes.len();
    let byte = bytes.byte()?;
    if byte < low || byte > high {
        return Err(Stop::BadField(start));
    }
    Ok(byte)
}

/// A reference that has its place beside the prefix.
#[tactic(auto, unfolding(crate::specs::SiteFields::reference_at))]
pub(crate) fn read_reference(prefix: &Prefix, bytes: &mut Cursor) -> Result<u64, Stop>
    ensures { IsExactly (λ x. (x, bytes.new)) result (reference_at prefix.now bytes.old) }
{
    let start = bytes.len();
    let reference = bytes.u64()?;
    if reference >= reference_end(prefix) {
        return Err(Stop::BadField(start));
    }
    Ok(reference)
}

#[tactic(auto, unfolding(crate::specs::SiteFields::offset_at))]
pub(crate) fn read_offset(bytes: &mut Cursor) -> Result<[u8; 6], Stop>
    ensures { IsExactly (λ x. (x, bytes.new)) result (offset_at bytes.old) }
{
    let start = bytes.len();
    if start < 6 {
        return Err(Stop::Short(start));
    }
    let mut offset = [0; 6];
    offset.copy_from_slice(bytes.front(6));
    if !is_time_offset(&offset) {
        return Err(Stop::BadField(start));
    }
    Ok(offset)
}

/// The alphabet of serials so long.
#[tactic(auto, unfolding(crate::specs::SiteFields::alphabet_at))]
fn read_alphabet(length: u8, bytes: &mut Cursor) -> Result<Alphabet, Stop>
    ensures { IsExactly (λ x. (x, bytes.new)) result (alphabet_at length bytes.old) }
{
    let start = bytes.len();
    match bytes.byte()? {
        1 => Ok(Alphabet::Digits),
        2 => {
            if length > 12 {
                return Err(Stop::BadField(start));
            }
            Ok(Alphabet::Base32)
        }
        _ => Err(Stop::BadField(start)),
    }
}

/// What serials look like: digits in version 1, which has no field for the alphabet.
#[tactic(auto, unfolding(crate::specs::SiteFields::form_at, crate::specs::SiteFields::serial_length_at))]
fn read_form(version: Version, bytes: &mut Cursor) -> Result<SerialForm, Stop>
    ensures { IsExactly (λ x. (x, bytes.new)) result (form_at version bytes.old) }
{
    let length = read_byte(6, 18, bytes)?;
    let alphabet = match version {
        Version::First => Alphabet::Digits,
        Version::Second => read_alphabet(length, bytes)?,
    };
    Ok(SerialForm { alphabet, length })
}

/// A GTIN that no product before has.
#[tactic(auto, unfolding(crate::specs::SiteFields::new_gtin_at))]
fn read_new_gtin(before: &[Product], bytes: &mut Cursor) -> Result<Gtin, Stop>
    ensures { IsExactly (λ x. (x, bytes.new)) result (new_gtin_at before.now bytes.old) }
{
    let start = bytes.len();
    let gtin = read_gtin(bytes)?;
    if has_gtin(before, gtin) {
        return Err(Stop::BadField(start));
    }
    Ok(gtin)
}

#[tactic(auto, unfolding(crate::specs::SiteFields::product_at, crate::specs::SiteFields::prefix_length_at))]
fn read_product(version: Version, before: &[Product], bytes: &mut Cursor) -> Result<Product, Stop>
    ensures { IsExactly (λ x. (x, bytes.new)) result (product_at version before.now bytes.old) }
{
    let gtin = read_new_gtin(before, bytes)?;
    let prefix_length = read_byte(6, 12, bytes)?;
    let form = read_form(version, bytes)?;
    Ok(Product {
        gtin,
        prefix_length,
        form,
    })
}

fn many_products(
    alloc: Global,
    version: Version,
    count: u16,
    bytes: &mut Cursor,
) -> Result<Products, Stop>
    ensures { IsDue (λ x. (x, bytes.new)) result (many_after (product_at version) [] count bytes.old) }
{
    let mut all = Products::new(alloc);
    for _ in 0..count {
        let item = read_product(version, all.as_slice(), bytes)?;
        all.push(item)?;
    }
    Ok(all)
}

#[tactic(auto, unfolding(crate::specs::SiteFields::products_at))]
pub(crate) fn read_products(
    alloc: Global,
    version: Version,
    bytes: &mut Cursor,
) -> Result<Products, Stop>
    ensures { IsDue (λ x. (x, bytes.new)) result (products_at version bytes.old) }
{
    let start = bytes.len();
    let count = bytes.u16()?;
    if count < 1 || count > 256 {
        return Err(Stop::BadField(start));
    }
    many_products(alloc, version, count, bytes)
}

/// A name that no station before has.
#[tactic(auto, unfolding(crate::specs::SiteFields::new_name_at))]
fn read_new_name(before: &[Station], bytes: &mut Cursor) -> Result<Text20, Stop>
    ensures { IsExactly (λ x. (x, bytes.new)) result (new_name_at before.now bytes.old) }
{
    let start = bytes.len();
    let name = read_text(bytes)?;
    if has_name(before, name) {
        return Err(Stop::BadField(start));
    }
    Ok(name)
}

#[tactic(auto, unfolding(crate::specs::SiteFields::role_at))]
fn read_role(bytes: &mut Cursor) -> Result<Role, Stop>
    ensures { IsExactly (λ x. (x, bytes.new)) result (role_at bytes.old) }
{
    let start = bytes.len();
    match bytes.byte()? {
        1 => Ok(Role::Planner),
        2 => Ok(Role::Line),
        3 => Ok(Role::Quality),
        _ => Err(Stop::BadField(start)),
    }
}

#[tactic(auto, unfolding(crate::specs::SiteFields::station_at))]
fn read_station(before: &[Station], bytes: &mut Cursor) -> Result<Station, Stop>
    ensures { IsExactly (λ x. (x, bytes.new)) result (station_at before.now bytes.old) }
{
    let name = read_new_name(before, bytes)?;
    let role = read_role(bytes)?;
    Ok(Station { name, role })
}

fn many_stations(alloc: Global, count: u8, bytes: &mut Cursor) -> Result<Stations, Stop>
    ensures { IsDue (λ x. (x, bytes.new)) result (many_after station_at [] count bytes.old) }
{
    let mut all = Stations::new(alloc);
    for _ in 0..count {
        let item = read_station(all.as_slice(), bytes)?;
        all.push(item)?;
    }
    Ok(all)
}

#[tactic(auto, unfolding(crate::specs::SiteFields::stations_at))]
pub(crate) fn read_stations(alloc: Global, bytes: &mut Cursor) -> Result<Stations, Stop>
    ensures { IsDue (λ x. (x, bytes.new)) result (stations_at bytes.old) }
{
    let start = bytes.len();
    let count = bytes.byte()?;
    if count < 1 || count > 64 {
        return Err(Stop::BadField(start));
    }
    many_stations(alloc, count, bytes)
}

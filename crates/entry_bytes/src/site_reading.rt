//! Reading a site.
ghost use Rattle.std.specs.Prelude.{◌≡◌, IfOk, Ok};
ghost use Rattle.deed_words.specs.Setups.{Setup as Site, IsProper};
ghost use Rattle.entry_bytes.specs.Reading.{IsDue};
ghost use Rattle.entry_bytes.specs.SiteFields.{parts_at, setup_at, setup_of};
ghost use Rattle.entry_bytes.specs.Sites.{SpellsSetup};
ghost use Rattle.entry_bytes.specs.Answers.{IsRead};

use crate::cursor::Cursor;
use crate::fault::{EntryFault, Stop};
use crate::reading::placed_at;
use crate::site_fields::{
    read_byte, read_gln, read_offset, read_prefix, read_products, read_reference, read_stations,
};
use crate::version::Version;
use deed_words::{Products, Setup, Stations};
use gs1_keys::{Gln, Prefix};
use std::alloc::Global;
use std::marker::Model;

/// The parts of a setup as they were read, before they are one.
#[derive(Drop)]
struct Parts {
    gln: Gln,
    prefix: Prefix,
    extension: u8,
    reference: u64,
    offset: [u8; 6],
    products: Products,
    stations: Stations,
}

impl Model for Parts {
    ghost use Rattle.deed_words.specs.Setups.{Setup};

    ghost Value = { Setup };

    ghost view = { λ s. record { gln = s.gln; prefix = s.prefix; extension = s.extension; reference = s.reference; offset = s.offset; products = s.products; stations = s.stations } };
}

#[tactic(auto, unfolding(crate::specs::SiteFields::parts_at, crate::specs::SiteFields::after_gln, crate::specs::SiteFields::after_prefix, crate::specs::SiteFields::extension_at))]
fn read_parts(alloc: Global, version: Version, bytes: &mut Cursor) -> Result<Parts, Stop>
    ensures { IsDue (λ x. (x, bytes.new)) result (parts_at version bytes.old) }
{
    let gln = read_gln(bytes)?;
    let prefix = read_prefix(&gln, bytes)?;
    let extension = read_byte(0, 9, bytes)?;
    let reference = read_reference(&prefix, bytes)?;
    let offset = read_offset(bytes)?;
    let products = read_products(alloc, version, bytes)?;
    let stations = read_stations(alloc, bytes)?;
    Ok(Parts {
        gln,
        prefix,
        extension,
        reference,
        offset,
        products,
        stations,
    })
}

#[tactic(auto, unfolding(crate::specs::SiteFields::setup_of, crate::specs::SiteFields::setup_at))]
fn read_all(alloc: Global, bytes: &[u8]) -> Result<Parts, EntryFault>
    ensures { IsRead (λ parts. parts) result (setup_of bytes.now) }
{
    let mut cursor = Cursor::new(bytes);
    let version = cursor.version();
    match read_parts(alloc, version, &mut cursor) {
        Ok(parts) => {
            let left = cursor.len();
            if left > 0 {
                return Err(EntryFault::Extra(bytes.len().saturating_sub(left) as u64));
            }
            Ok(parts)
        }
        Err(stop) => Err(placed_at(bytes.len(), stop)),
    }
}

/// The setup of parts that fit.
fn made_of(parts: Parts) -> Setup
    requires { IsProper parts }
    ensures { result ≡ parts }
{
    let setup = Setup::new(
        parts.gln,
        parts.prefix,
        parts.extension,
        parts.reference,
        parts.offset,
        parts.products,
        parts.stations,
    );
    match setup {
        Some(setup) => setup,
        None => unreachable!(),
    }
}

/// Reads the bytes of a site, of either version. Products of version 1 have serials of digits.
///
/// Else it answers the first fault from the left. A field that doesn't fit an earlier one is a
/// `BadField` at the later one: a prefix with which the location number doesn't begin, a reference
/// past its bound, the 32 characters after a serial length above 12, and a GTIN or a name that came before.
pub fn read_setup(alloc: Global, bytes: &[u8]) -> Result<Setup, EntryFault>
    // What is read is what the bytes spell.
    ensures found { IfOk result (λ setup. SpellsSetup setup bytes.now) }
    // What the bytes spell is read, unless memory is wanting.
    ensures only { (setup : Site) → SpellsSetup setup bytes.now → IsRead (λ read. read) result (Ok setup) }
    // Which fault it is.
    ensures exact { IsRead (λ read. read) result (setup_of bytes.now) }
{
    let parts = read_all(alloc, bytes)?;
    Ok(made_of(parts))
}

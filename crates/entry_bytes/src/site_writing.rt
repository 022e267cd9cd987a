//! Writing a site.
ghost use Rattle.std.specs.Prelude.{◌≡◌, ◌<◌, ◌≤◌, ◌++◌, ◌∷◌, All, length, OnOk, IfOk, if◌then◌else◌, is_ok};
ghost use Rattle.gs1_keys.specs.Keys.{IsGtin, IsText};
ghost use Rattle.entry_bytes.specs.Spelling.{list_bytes};
ghost use Rattle.entry_bytes.specs.Sites.{alphabet_byte, product_in, role_byte, station_bytes, stations_bytes, codes_bytes, setup_bytes, IsKeptCodes, IsKeptSetup, SpellsSetup};
ghost use Rattle.entry_bytes.specs.declared.version.Version.TheVariants.{Second};

use crate::writing::put_bytes;
use deed_words::{Product, Role, Setup, Station};
use gs1_keys::{Alphabet, Memory};
use std::alloc::{AllocError, Global};

fn byte_of_alphabet(alphabet: Alphabet) -> u8
    ensures { result ≡ alphabet_byte alphabet }
{
    match alphabet {
        Alphabet::Digits => 1,
        Alphabet::Base32 => 2,
    }
}

fn byte_of_role(role: Role) -> u8
    ensures { result ≡ role_byte role }
{
    match role {
        Role::Planner => 1,
        Role::Line => 2,
        Role::Quality => 3,
    }
}

fn put_product(out: &mut Vec<u8>, product: &Product) -> Result<(), AllocError>
    ensures bytes { OnOk result (out.new.items ≡ out.old.items ++ product_in Second product.now) }
    ensures kept { OnOk result (IsGtin product.now.gtin) }
{
    out.extend_from_slice(product.gtin.digits())?;
    out.push(product.prefix_length)?;
    out.push(product.form.length)?;
    out.push(byte_of_alphabet(product.form.alphabet))?;
    Ok(())
}

fn put_products(out: &mut Vec<u8>, items: &[Product]) -> Result<(), AllocError>
    requires { length items.now ≤ 256 }
    ensures bytes { OnOk result (out.new.items ≡ out.old.items ++ list_bytes (product_in Second) items.now) }
    ensures kept { OnOk result (All (λ product. IsGtin product.gtin) items.now) }
{
    out.extend_from_slice(&(items.len() as u16).to_be_bytes())?;
    for item in items {
        put_product(out, item)?;
    }
    Ok(())
}

fn put_station(out: &mut Vec<u8>, station: &Station) -> Result<(), AllocError>
    ensures bytes { OnOk result (out.new.items ≡ out.old.items ++ station_bytes station.now) }
    ensures kept { OnOk result (IsText station.now.name) }
{
    put_bytes(out, station.name.bytes())?;
    out.push(byte_of_role(station.role))?;
    Ok(())
}

fn put_stations(out: &mut Vec<u8>, items: &[Station]) -> Result<(), AllocError>
    requires { length items.now ≤ 64 }
    ensures bytes { OnOk result (out.new.items ≡ out.old.items ++ stations_bytes items.now) }
    ensures kept { OnOk result (All (λ station. IsText station.name) items.now) }
{
    out.push(items.len() as u8)?;
    for item in items {
        put_station(out, item)?;
    }
    Ok(())
}

/// Puts the location number, the prefix, the extension digit and the first reference.
#[tactic(auto, unfolding(crate::specs::Sites::codes_bytes))]
fn put_codes(out: &mut Vec<u8>, setup: &Setup) -> Result<(), AllocError>
    ensures bytes { OnOk result (out.new.items ≡ out.old.items ++ codes_bytes setup.now) }
    ensures kept { OnOk result (IsKeptCodes setup.now) }
{
    out.extend_from_slice(setup.gln.digits())?;
    put_bytes(out, setup.prefix.digits())?;
    out.push(setup.extension)?;
    out.extend_from_slice(&setup.reference.to_be_bytes())?;
    Ok(())
}

fn bytes_of(alloc: Global, setup: &Setup) -> Result<Vec<u8>, AllocError>
    ensures bytes { IfOk result (λ v. v.items ≡ setup_bytes setup.now) }
    ensures kept { OnOk result (IsKeptSetup setup.now) }
{
    setup.tell_proper();
    let mut out = Vec::new(alloc);
    out.push(2)?;
    put_codes(&mut out, setup)?;
    out.extend_from_slice(&setup.offset)?;
    put_products(&mut out, setup.products.as_slice())?;
    put_stations(&mut out, setup.stations.as_slice())?;
    Ok(out)
}

/// Puts the bytes of a site of version 2 last, or changes nothing.
pub fn print_setup(alloc: Global, setup: &Setup, out: &mut Vec<u8>) -> Result<(), Memory>
    ensures bytes { out.new.items ≡ (if is_ok result then out.old.items ++ setup_bytes setup.now else out.old.items) }
    // The bytes are those of this site and of no other.
    ensures spells { OnOk result (SpellsSetup setup.now (setup_bytes setup.now)) }
{
    setup.tell_proper();
    match bytes_of(alloc, setup) {
        Ok(site) => match out.extend_from_slice(&site) {
            Ok(()) => Ok(()),
            Err(_) => Err(Memory),
        },
        Err(_) => Err(Memory),
    }
}

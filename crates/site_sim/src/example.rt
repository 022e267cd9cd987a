//! The site of the simulation, and its batch.
ghost use Rattle.std.specs.Prelude.{◌≡◌, Ok, IfOk, codes};
ghost use Rattle.gs1_keys.specs.Keys.{gln_of, gtin_of, text_of};
ghost use Rattle.site_sim.specs.Example as example;

use deed_words::{Product, Products, Role, Setup, Station, Stations};
use gs1_keys::{Alphabet, Gln, Gtin, Memory, Prefix, SerialForm, Text20};
use std::alloc::Global;

/// The name of the batch, which is that of its lot too.
#[tactic(auto, unfolding(gs1_keys::specs::Keys::text_of))]
pub(crate) fn batch_name() -> Text20
    ensures { result ≡ example.batch }
{
    name(b"SIM")
}

/// The GTIN of what is made.
#[tactic(auto, unfolding(gs1_keys::specs::Keys::gtin_of, gs1_keys::specs::Keys::key_fault, gs1_keys::specs::Keys::check))]
pub(crate) fn first_gtin() -> Gtin
    ensures { result ≡ example.first_gtin }
{
    gtin(b"00614141123452")
}

/// The company prefix of the site's units.
#[tactic(auto, unfolding(gs1_keys::specs::Keys::prefix_of))]
pub(crate) fn prefix() -> Prefix
    ensures { result ≡ codes "0614141" }
{
    match Prefix::read(b"0614141") {
        Ok(prefix) => prefix,
        Err(_) => unreachable!(),
    }
}

/// The text.
fn name(text: &[u8]) -> Text20
    requires { text_of text.now ≡ Ok text.now }
    ensures { result ≡ text.now }
{
    match Text20::read(text) {
        Ok(name) => name,
        Err(_) => unreachable!(),
    }
}

/// The GTIN of 14 digits.
fn gtin(digits: &[u8]) -> Gtin
    requires { gtin_of digits.now ≡ Ok digits.now }
    ensures { result ≡ digits.now }
{
    match Gtin::read(digits) {
        Ok(gtin) => gtin,
        Err(_) => unreachable!(),
    }
}

/// The location number of 13 digits.
fn gln(digits: &[u8]) -> Gln
    requires { gln_of digits.now ≡ Ok digits.now }
    ensures { result ≡ digits.now }
{
    match Gln::read(digits) {
        Ok(gln) => gln,
        Err(_) => unreachable!(),
    }
}

/// A product whose serials have so many digits.
fn product(gtin: Gtin, digits: u8) -> Product
    ensures { result ≡ example.product gtin digits }
{
    Product {
        gtin,
        prefix_length: 7,
        form: SerialForm {
            alphabet: Alphabet::Digits,
            length: digits,
        },
    }
}

/// Its products.
#[tactic(auto, unfolding(crate::specs::Example::site, gs1_keys::specs::Keys::gtin_of, gs1_keys::specs::Keys::key_fault, gs1_keys::specs::Keys::check))]
fn products(alloc: Global) -> Result<Products, Memory>
    ensures { IfOk result (λ products. products ≡ example.site.products) }
{
    let mut products = Products::new(alloc);
    products.push(product(first_gtin(), 10))?;
    products.push(product(gtin(b"80614141123458"), 6))?;
    Ok(products)
}

/// A station of this name.
fn station(text: &[u8], role: Role) -> Station
    requires { text_of text.now ≡ Ok text.now }
    ensures { result ≡ example.station text.now role }
{
    Station {
        name: name(text),
        role,
    }
}

/// Its stations.
#[tactic(auto, unfolding(crate::specs::Example::site, gs1_keys::specs::Keys::text_of))]
fn stations(alloc: Global) -> Result<Stations, Memory>
    ensures { IfOk result (λ stations. stations ≡ example.site.stations) }
{
    let mut stations = Stations::new(alloc);
    stations.push(station(b"P1", Role::Planner))?;
    stations.push(station(b"L1", Role::Line))?;
    stations.push(station(b"L2", Role::Line))?;
    stations.push(station(b"Q1", Role::Quality))?;
    Ok(stations)
}

/// The site: a planner, two lines and quality assurance, and two products.
#[tactic(auto, unfolding(crate::specs::Example::site, gs1_keys::specs::Keys::gln_of, gs1_keys::specs::Keys::key_fault, gs1_keys::specs::Keys::check), using(crate::proofs::Literal::site_is_proper))]
pub(crate) fn site(alloc: Global) -> Result<Setup, Memory>
    ensures { IfOk result (λ setup. setup ≡ example.site) }
{
    let products = products(alloc)?;
    let stations = stations(alloc)?;
    let gln = gln(b"0614141000012");
    match Setup::new(gln, prefix(), 1, 1, *b"+00:00", products, stations) {
        Some(setup) => Ok(setup),
        None => unreachable!(),
    }
}

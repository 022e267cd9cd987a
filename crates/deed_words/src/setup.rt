//! The setup of a site.
ghost use Rattle.std.specs.Prelude.{◌≡◌, ◌≤◌, ◌<◌, ◌+◌, ◌-◌, ◌^◌, ◌↔◌, true, length, IfSome, IsSome};
ghost use Rattle.std.specs.List.{list_all, list_any, IsDistinct};
ghost use Rattle.gs1_element.specs.Dates.{two_digits};
ghost use Rattle.epc_urn.specs.Urns.{IsPrefixLength};
ghost use Rattle.deed_words.specs.Names.{same};
ghost use Rattle.deed_words.specs.Setups.{role_of, product_of, is_product, is_offset, begins_with, gtins_of, names_of, IsProper};

use crate::names::{same_gtin, same_text};
use crate::{Products, Role, StationId, Stations};
use gs1_keys::{Gln, Gtin, Prefix, SerialForm, Text20};
use std::marker::Model;

/// A product of the site.
#[derive(Clone, Copy, Debug, PartialEq, Eq)]
pub struct Product {
    /// Its GTIN.
    pub gtin: Gtin,
    /// How many digits of the GTIN are the company prefix: 6 to 12.
    pub prefix_length: u8,
    /// What its serials look like: 6 to 18 digits, or 6 to 12 letters and digits.
    pub form: SerialForm,
}

/// A station of the site.
#[derive(Clone, Copy, Debug, PartialEq, Eq)]
pub struct Station {
    /// Its name.
    pub name: Text20,
    /// What it is for.
    pub role: Role,
}

/// What a site is from its first day on. It is always proper: code that makes one has shown that.
#[derive(Debug, Drop)]
pub struct Setup {
    /// The site's location number, which begins with the prefix.
    pub gln: Gln,
    /// The company prefix of the site's containers.
    pub prefix: Prefix,
    /// The extension digit of their SSCCs: 0 to 9.
    pub extension: u8,
    /// The serial reference of the first SSCC. It has its place beside the prefix: below 10^(16 - length of the prefix).
    pub reference: u64,
    /// The offset of the site's time: a sign, two digits, a colon and two digits, from -14:00 to +14:00.
    pub offset: [u8; 6],
    /// 1 to 256 products, whose GTINs differ.
    pub products: Products,
    /// 1 to 64 stations, whose names differ.
    pub stations: Stations,
}

impl Model for Setup {
    ghost use Rattle.deed_words.specs.Setups.{Setup, IsProper};

    ghost Value = { Setup };

    ghost view = { λ s. record { gln = s.gln; prefix = s.prefix; extension = s.extension; reference = s.reference; offset = s.offset; products = s.products; stations = s.stations } };

    ghost invariant = { λ s. IsProper (record { gln = s.gln; prefix = s.prefix; extension = s.extension; reference = s.reference; offset = s.offset; products = s.products; stations = s.stations }) };
}

/// Whether the location number begins with the prefix.
#[tactic(auto, unfolding(crate::specs::Setups::begins_with, crate::specs::Names::same))]
pub fn is_of_prefix(gln: &Gln, prefix: &Prefix) -> bool
    ensures { result ≡ begins_with prefix.now gln.now }
{
    gln.digits().starts_with(prefix.digits())
}

/// Serial references of the prefix stay below this.
pub fn reference_end(prefix: &Prefix) -> u64
    ensures is { result ≡ 10 ^ (16 - length prefix.now) }
    ensures length { IsPrefixLength (length prefix.now) }
{
    10u64.pow(16 - prefix.digits().len() as u32)
}

/// The number that two digits at a place stand for.
fn two_digits_at(text: &[u8; 6], at: usize) -> u32
    requires { at + 1 < 6 }
    ensures { result ≡ two_digits text.now at }
{
    u32::from(text[at].saturating_sub(b'0')) * 10 + u32::from(text[at + 1].saturating_sub(b'0'))
}

/// Whether a text is an offset of the time: a sign, two digits, a colon and two digits, from -14:00 to +14:00.
#[tactic(auto, unfolding(crate::specs::Setups::is_offset))]
pub fn is_time_offset(text: &[u8; 6]) -> bool
    ensures { result ≡ is_offset text.now }
{
    (text[0] == b'+' || text[0] == b'-')
        && text[1].is_ascii_digit()
        && text[2].is_ascii_digit()
        && text[3] == b':'
        && text[4].is_ascii_digit()
        && text[5].is_ascii_digit()
        && two_digits_at(text, 4) <= 59
        && two_digits_at(text, 1) * 60 + two_digits_at(text, 4) <= 840
}

/// Whether the lengths of the product's prefix and serials are in their ranges.
#[tactic(auto, unfolding(crate::specs::Setups::is_product))]
fn is_in_range(product: &Product) -> bool
    ensures { result ≡ is_product product.now }
{
    (6..=12).contains(&product.prefix_length) && product.form.is_proper()
}

/// Whether the lengths of all products are in their ranges.
fn all_in_range(products: &[Product]) -> bool
    ensures { result ≡ list_all is_product products.now }
{
    products.iter().all(|product| is_in_range(product))
}

/// Whether a product has the GTIN.
pub fn has_gtin(products: &[Product], gtin: Gtin) -> bool
    ensures { result ≡ list_any (λ product. same gtin product.gtin) products.now }
{
    products
        .iter()
        .any(|product| same_gtin(&gtin, &product.gtin))
}

/// Whether a station has the name.
pub fn has_name(stations: &[Station], name: Text20) -> bool
    ensures { result ≡ list_any (λ station. same name station.name) stations.now }
{
    stations
        .iter()
        .any(|station| same_text(&name, &station.name))
}

/// Whether the GTINs differ.
fn gtins_differ(products: &[Product]) -> bool
    ensures { (result ≡ true) ↔ IsDistinct same (gtins_of products.now) }
{
    let mut left = products;
    while let Some((first, later)) = left.split_first() {
        if has_gtin(later, first.gtin) {
            return false;
        }
        left = later;
    }
    true
}

/// Whether the names differ.
fn names_differ(stations: &[Station]) -> bool
    ensures { (result ≡ true) ↔ IsDistinct same (names_of stations.now) }
{
    let mut left = stations;
    while let Some((first, later)) = left.split_first() {
        if has_name(later, first.name) {
            return false;
        }
        left = later;
    }
    true
}

/// Whether these are the products of a site.
fn are_products(products: &[Product]) -> bool
    ensures { (result ≡ true) ↔ ((1 ≤ length products.now) × (length products.now ≤ 256) × (list_all is_product products.now ≡ true) × IsDistinct same (gtins_of products.now)) }
{
    if products.is_empty() || products.len() > 256 {
        return false;
    }
    if !all_in_range(products) {
        return false;
    }
    gtins_differ(products)
}

/// Whether these are the stations of a site.
fn are_stations(stations: &[Station]) -> bool
    ensures { (result ≡ true) ↔ ((1 ≤ length stations.now) × (length stations.now ≤ 64) × IsDistinct same (names_of stations.now)) }
{
    if stations.is_empty() || stations.len() > 64 {
        return false;
    }
    names_differ(stations)
}

impl Setup {
    /// The setup of these parts, exactly where it is proper.
    pub fn new(
        gln: Gln,
        prefix: Prefix,
        extension: u8,
        reference: u64,
        offset: [u8; 6],
        products: Products,
        stations: Stations,
    ) -> Option<Setup>
        ensures is { IfSome result (λ setup. setup ≡ record { gln = gln; prefix = prefix; extension = extension; reference = reference; offset = offset; products = products; stations = stations }) }
        ensures exactly { IsSome result ↔ IsProper (record { gln = gln; prefix = prefix; extension = extension; reference = reference; offset = offset; products = products; stations = stations }) }
    {
        if !is_of_prefix(&gln, &prefix) || !is_time_offset(&offset) {
            return None;
        }
        if extension > 9 {
            return None;
        }
        if reference >= reference_end(&prefix) {
            return None;
        }
        if !are_products(products.as_slice()) || !are_stations(stations.as_slice()) {
            return None;
        }
        Some(Setup {
            gln,
            prefix,
            extension,
            reference,
            offset,
            products,
            stations,
        })
    }

    /// The role of a station, if it is of the setup.
    #[tactic(auto, unfolding(crate::specs::Setups::role_of))]
    pub fn role(&self, station: StationId) -> Option<Role>
        ensures { result ≡ role_of self.now station }
    {
        let at = usize::from(station.0);
        if at < self.stations.len() {
            Some(self.stations.get(at).role)
        } else {
            None
        }
    }

    /// The product of a GTIN, if the site makes it.
    #[tactic(auto, unfolding(crate::specs::Setups::product_of, crate::specs::Names::same))]
    pub fn product(&self, gtin: &Gtin) -> Option<Product>
        ensures is { result ≡ product_of self.now gtin.now }
        ensures proper { IfSome result (λ product. is_product product ≡ true) }
    {
        self.products
            .as_slice()
            .iter()
            .copied()
            .find(|product| product.gtin == *gtin)
    }

    /// Tells contracts what every setup keeps. It does nothing.
    pub fn tell_proper(&self)
        ensures { IsProper self.now }
    {
        let _extension = self.extension;
    }
}

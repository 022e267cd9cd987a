//! What the requests of the simulation ask.
ghost use Rattle.std.specs.Prelude.{◌≡◌, ◌<◌, ◌≤◌, ◌+◌, ◌^◌, map, if◌then◌else◌, IfOk};
ghost use Rattle.deed_words.specs.Proper.{IsProperAsk, IsProperDeed};
ghost use Rattle.site_sim.specs.Asking.{IsFair, ask_after, deed_of, item, order, part_of, printed, station_of, unit, units_of};
ghost use Rattle.site_sim.specs.Knowing.{last_of};
ghost use Rattle.site_sim.specs.Requests.{send};

use crate::example::{batch_name, first_gtin, prefix};
use crate::known::Known;
use crate::part::Part;
use crate::request::{Request, is_planners};
use deed_words::{Ask, Codes, Deed, Epcs, OrderRow, StationId};
use epc_urn::Epc;
use gs1_element::Code;
use gs1_keys::{Memory, Sscc, Text20};
use std::alloc::Global;

/// What the request asks: with its station's next number, or once more with its last one.
pub(crate) fn ask_of(
    alloc: Global,
    known: &Known,
    request: Request,
    again: bool,
) -> Result<Ask, Memory>
    requires fair { IsFair request }
    requires few { last_of known.now request + 1 < 2 ^ 64 }
    ensures ask { IfOk result (λ ask. ask ≡ ask_after (last_of known.now request) known.now.lent (send request again)) }
    ensures station { IfOk result (λ ask. ask.station < 4) }
    ensures proper { IfOk result IsProperAsk }
{
    let deed = deed_of(alloc, known.lent.as_slice(), request)?;
    let last = known.last_of(request);
    Ok(Ask {
        station: station_of(request),
        number: number_after(last, again),
        operator: None,
        deed,
    })
}

/// The number of a request behind a station's last one.
fn number_after(last: u64, again: bool) -> u64
    requires { last + 1 < 2 ^ 64 }
    ensures { result ≡ (if again then last else last + 1) }
{
    if again {
        return last;
    }
    last + 1
}

/// Whose the request is.
fn station_of(request: Request) -> StationId
    ensures is { result ≡ station_of request }
    ensures few { result < 4 }
{
    if is_planners(request) {
        StationId(0)
    } else {
        StationId(1)
    }
}

/// The deed of a request, where these serials were lent.
#[tactic(auto, unfolding(crate::specs::Asking::deed_of))]
fn deed_of(alloc: Global, lent: &[Text20], request: Request) -> Result<Deed, Memory>
    requires fair { IsFair request }
    ensures deed { IfOk result (λ deed. deed ≡ deed_of lent.now request) }
    ensures proper { IfOk result IsProperDeed }
{
    match request {
        Request::Order(quantity) => Ok(Deed::Order(order(quantity))),
        Request::Start => Ok(Deed::Start(batch_name())),
        Request::Draw(size) => Ok(Deed::Draw(batch_name(), size)),
        Request::Lend(size) => Ok(Deed::Lend(batch_name(), size)),
        Request::Commission(part) => {
            let codes = codes_of(alloc, part_of(lent, part))?;
            Ok(Deed::Commission(batch_name(), codes))
        }
        Request::Make(level) => Ok(Deed::Container(batch_name(), level)),
        Request::PackItems(place, part) => {
            let items = items_of(alloc, part_of(lent, part))?;
            Ok(Deed::Pack(unit(place), items))
        }
        Request::PackCases(place, part) => {
            let units = units_of(alloc, part)?;
            Ok(Deed::Pack(unit(place), units))
        }
        Request::Seal(place) => Ok(Deed::Seal(unit(place))),
        Request::Declare(good) => Ok(Deed::Declare(batch_name(), good, 0, 0)),
        Request::Close => Ok(Deed::Close(batch_name())),
    }
}

/// The order of so many items: 50 to a case, and 20 cases to a pallet.
fn order(quantity: u32) -> OrderRow
    ensures { result ≡ order quantity }
{
    OrderRow {
        batch: batch_name(),
        gtin: first_gtin(),
        lot: batch_name(),
        expiry: *b"271231",
        quantity,
        case_size: 50,
        pallet_size: 20,
    }
}

/// A part of a list, or what there is of it.
#[tactic(auto, using(crate::proofs::Cuts::part_is))]
fn part_of(all: &[Text20], part: Part) -> &[Text20]
    ensures { result.now ≡ part_of part all.now }
{
    let from = (part.from as usize).min(all.len());
    let rest = &all[from..];
    let size = (part.size as usize).min(rest.len());
    &rest[..size]
}

/// What is printed for these serials.
fn codes_of(alloc: Global, serials: &[Text20]) -> Result<Codes, Memory>
    ensures { IfOk result (λ codes. codes ≡ map printed serials.now) }
{
    let gtin = first_gtin();
    let lot = batch_name();
    let mut codes = Codes::new(alloc);
    for serial in serials {
        codes.push(Code {
            gtin,
            serial: *serial,
            lot,
            expiry: *b"271231",
        })?;
    }
    Ok(codes)
}

/// The items that have these serials.
fn items_of(alloc: Global, serials: &[Text20]) -> Result<Epcs, Memory>
    ensures { IfOk result (λ names. names ≡ map item serials.now) }
{
    let gtin = first_gtin();
    let mut names = Epcs::new(alloc);
    for serial in serials {
        names.push(Epc::Item(gtin, *serial))?;
    }
    Ok(names)
}

/// The units whose places are a part of all.
fn units_of(alloc: Global, part: Part) -> Result<Epcs, Memory>
    requires { part.from + part.size ≤ 65536 }
    ensures { IfOk result (λ names. names ≡ units_of part) }
{
    let mut names = Epcs::new(alloc);
    for k in 0..part.size {
        names.push(Epc::Unit(unit(part.from + k)))?;
    }
    Ok(names)
}

/// The code of the unit with this place among all that are made.
fn unit(place: u32) -> Sscc
    requires { place < 65536 }
    ensures { result ≡ unit place }
{
    Sscc::issue(&prefix(), 1, 1 + u64::from(place))
}

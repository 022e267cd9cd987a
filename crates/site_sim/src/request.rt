//! The requests of the simulation. Each is had by its place, without the others.
ghost use Rattle.std.specs.Prelude.{◌≡◌, ◌<◌, ◌≤◌, ◌*◌, true, Some, IfSome};
ghost use Rattle.std.specs.List.{slice_get};
ghost use Rattle.site_sim.specs.Asking.{IsFair};
ghost use Rattle.site_sim.specs.Requests.{case_count, case_requests, pallet_requests, ending, from_pallets, from_cases, from_codes, from_lends, from_draws, requests, is_planners, part_count};

use crate::part::{Part, count_parts, part_at};
use deed_words::Level;

/// A request of the simulation's planner or of its line, about its one batch.
#[derive(Clone, Copy, Debug)]
pub enum Request {
    /// The planner orders the batch: so many items.
    Order(u32),
    /// The planner starts it.
    Start,
    /// The planner draws so many serials.
    Draw(u32),
    /// The line borrows so many serials.
    Lend(u32),
    /// The line printed this part of the serials that it was lent.
    Commission(Part),
    /// The line makes a case or a pallet.
    Make(Level),
    /// The line puts this part of its items into the unit with this place among those made.
    PackItems(u32, Part),
    /// The line puts this part of the units made into the unit with this place.
    PackCases(u32, Part),
    /// The line seals the unit with this place.
    Seal(u32),
    /// The line declares that so many serials were good, and none spoiled or returned.
    Declare(u32),
    /// The planner closes the batch.
    Close,
}

/// Whether the request is the planner's.
pub(crate) fn is_planners(request: Request) -> bool
    ensures { result ≡ is_planners request }
{
    match request {
        Request::Order(_) => true,
        Request::Start => true,
        Request::Draw(_) => true,
        Request::Lend(_) => false,
        Request::Commission(_) => false,
        Request::Make(_) => false,
        Request::PackItems(_, _) => false,
        Request::PackCases(_, _) => false,
        Request::Seal(_) => false,
        Request::Declare(_) => false,
        Request::Close => true,
    }
}

/// The request at a place, from 0, for a batch of so many items.
#[tactic(auto, unfolding(crate::specs::Requests::requests), using(crate::proofs::Places::behind_two, crate::proofs::Fair::may_order))]
pub(crate) fn request_at(count: u32, at: u32) -> Option<Request>
    requires some { 1 ≤ count }
    requires few { count ≤ 200000 }
    ensures is { slice_get (requests count) at ≡ result }
    ensures fair { IfSome result IsFair }
    ensures within { IfSome result (λ _. at < 20000) }
{
    match at {
        0 => Some(Request::Order(count)),
        1 => Some(Request::Start),
        _ => draw_at(count, at - 2),
    }
}

/// .. of those from the first draw on.
#[tactic(auto, using(crate::proofs::Places::draw_there, crate::proofs::Places::draws_over))]
fn draw_at(count: u32, at: u32) -> Option<Request>
    requires few { count ≤ 200000 }
    ensures is { slice_get (from_draws count) at ≡ result }
    ensures fair { IfSome result IsFair }
    ensures within { IfSome result (λ _. at < 19000) }
{
    let parts = count_parts(count, 10_000);
    if at < parts {
        return Some(Request::Draw(part_at(count, 10_000, at).size));
    }
    lend_at(count, at - parts)
}

/// .. of those from the first lend on.
#[tactic(auto, using(crate::proofs::Places::lend_there, crate::proofs::Places::lends_over))]
fn lend_at(count: u32, at: u32) -> Option<Request>
    requires few { count ≤ 200000 }
    ensures is { slice_get (from_lends count) at ≡ result }
    ensures fair { IfSome result IsFair }
    ensures within { IfSome result (λ _. at < 18000) }
{
    let parts = count_parts(count, 10_000);
    if at < parts {
        return Some(Request::Lend(part_at(count, 10_000, at).size));
    }
    commission_at(count, at - parts)
}

/// .. of those from the first commission on.
#[tactic(auto, using(crate::proofs::Places::code_there, crate::proofs::Places::codes_over))]
fn commission_at(count: u32, at: u32) -> Option<Request>
    requires few { count ≤ 200000 }
    ensures is { slice_get (from_codes count) at ≡ result }
    ensures fair { IfSome result IsFair }
    ensures within { IfSome result (λ _. at < 17000) }
{
    let parts = count_parts(count, 1_000);
    if at < parts {
        return Some(Request::Commission(part_at(count, 1_000, at)));
    }
    case_at(count, at - parts)
}

/// .. of those from the first case on.
#[tactic(auto, using(crate::proofs::Places::case_there, crate::proofs::Places::cases_over))]
fn case_at(count: u32, at: u32) -> Option<Request>
    requires few { count ≤ 200000 }
    ensures is { slice_get (from_cases count) at ≡ result }
    ensures fair { IfSome result IsFair }
    ensures within { IfSome result (λ _. at < 16000) }
{
    let cases = count_parts(count, 50);
    if at < 3 * cases {
        return Some(case_request(count, at / 3, at % 3));
    }
    pallet_at(count, at - 3 * cases)
}

/// .. of those from the first pallet on.
#[tactic(auto, using(crate::proofs::Places::pallet_there, crate::proofs::Places::pallets_over))]
fn pallet_at(count: u32, at: u32) -> Option<Request>
    requires few { count ≤ 200000 }
    ensures is { slice_get (from_pallets count) at ≡ result }
    ensures fair { IfSome result IsFair }
    ensures within { IfSome result (λ _. at < 1000) }
{
    let cases = count_parts(count, 50);
    let pallets = count_parts(cases, 20);
    if at < 3 * pallets {
        return Some(pallet_request(count, at / 3, at % 3));
    }
    last_at(count, at - 3 * pallets)
}

/// .. of the last ones.
#[tactic(auto, unfolding(crate::specs::Requests::ending), using(crate::proofs::Places::past_two))]
fn last_at(count: u32, at: u32) -> Option<Request>
    ensures is { slice_get (ending count) at ≡ result }
    ensures fair { IfSome result IsFair }
    ensures within { IfSome result (λ _. at < 2) }
{
    match at {
        0 => Some(Request::Declare(count)),
        1 => Some(Request::Close),
        _ => None,
    }
}

/// The request at a place of those for a case: it is made, filled and sealed.
fn case_request(count: u32, case: u32, at: u32) -> Request
    requires few { count ≤ 200000 }
    requires there { case * 50 < count }
    requires within { at < 3 }
    ensures is { slice_get (case_requests count case) at ≡ Some result }
    ensures fair { IsFair result }
{
    match at {
        0 => Request::Make(Level::Case),
        1 => Request::PackItems(case, part_at(count, 50, case)),
        _ => Request::Seal(case),
    }
}

/// The request at a place of those for a pallet: it is made, filled and sealed.
fn pallet_request(count: u32, pallet: u32, at: u32) -> Request
    requires few { count ≤ 200000 }
    requires there { pallet * 20 < case_count count }
    requires within { at < 3 }
    ensures is { slice_get (pallet_requests count pallet) at ≡ Some result }
    ensures fair { IsFair result }
{
    let cases = count_parts(count, 50);
    match at {
        0 => Request::Make(Level::Pallet),
        1 => Request::PackCases(cases + pallet, part_at(cases, 20, pallet)),
        _ => Request::Seal(cases + pallet),
    }
}

//! Which requests a turn takes.
ghost use Rattle.std.specs.Prelude.{◌≡◌, ◌<◌, ◌≤◌, [], IfSome, IfNone, length, vec_capacity};
ghost use Rattle.deed_words.specs.Proper.{IsProperAsk};
ghost use Rattle.site_store.specs.Asked.{AreOf};
ghost use Rattle.site_turns.specs.Taking.{IsTaken, IsNotTaken, TakesSome, first_station as station_of_first};

use crate::post::Post;
use deed_words::{Ask, Setup, StationId, station_of};
use std::collections::VecDeque;

/// The station of the first request, if the site has it.
fn first_station(setup: &Setup, posts: &VecDeque<Post>) -> Option<StationId>
    ensures is { result ≡ station_of_first setup.now posts.now.items }
    ensures within { IfSome result (λ station. station < length setup.now.stations) }
{
    match posts.front() {
        Some(post) => station_of(setup, post.station().bytes()),
        None => None,
    }
}

/// Takes the first request, where its station is known.
fn take_ask(setup: &Setup, posts: &mut VecDeque<Post>) -> Option<Ask>
    ensures taken { IfSome result (λ ask. IsTaken setup.now posts.old.items ask posts.new.items) }
    ensures none { IfNone result (IsNotTaken setup.now posts.old.items posts.new.items) }
    ensures station { IfSome result (λ ask. ask.station < length setup.now.stations) }
    ensures proper { IfSome result (λ ask. IsProperAsk ask) }
{
    let Some(station) = first_station(setup, posts) else {
        return None;
    };
    match posts.pop_front() {
        Some(post) => Some(post.into_ask(station)),
        None => None,
    }
}

/// Takes the first requests whose stations are known.
pub(crate) fn take_asks(setup: &Setup, posts: &mut VecDeque<Post>, asks: &mut Vec<Ask>)
    requires empty { asks.old.items ≡ [] }
    requires spare { length posts.old.items ≤ vec_capacity asks.old }
    ensures taken { TakesSome setup.now posts.old.items asks.new.items posts.new.items }
    ensures stations { AreOf setup.now asks.new.items }
{
    'asks: while let Some(ask) = take_ask(setup, posts) {
        asks.push_reserved(ask);
    }
}

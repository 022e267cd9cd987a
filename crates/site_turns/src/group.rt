//! Numbered requests, in groups.
ghost use Rattle.std.specs.Prelude.{◌≡◌, ◌≤◌, [], length, vec_capacity, None};
ghost use Rattle.turn_desk.specs.Notes.{Appends};
ghost use Rattle.site_turns.specs.Origins.{IsServing, desk_notes, origin_of};
ghost use Rattle.site_turns.specs.Posted.{Posted};
ghost use Rattle.site_turns.specs.Taking.{first_station};
ghost use Rattle.site_turns.specs.Turns.{IsLeft, TakesTurn};

use crate::asking::take_asks;
use crate::lists::Lists;
use crate::post::Post;
use crate::responding::respond;
use crate::serving::DeskStore;
use crate::step::step;
use deed_json::AskFault;
use outside::{Clock, Disk, Words};
use site_answers::{Response, unasked_response};
use site_store::Store;
use std::alloc::Global;
use std::collections::VecDeque;
use turn_desk::Job;

/// What came of a turn for numbered requests.
#[derive(Debug, Drop)]
pub struct Answered {
    /// The answers to the first of them, one at least.
    pub said: Vec<Response>,
    /// The others, for another turn.
    pub rest: VecDeque<Post>,
}

/// Answers the first of some requests in a turn: all up to one whose station the site doesn't have, by one step of the
/// store; or the first alone, where the site doesn't have its station.
#[derive(Drop)]
pub struct Group {
    /// For the texts of the answers.
    pub alloc: Global,
    /// The requests, until the turn.
    pub lists: Option<Lists>,
}

impl<D: Disk, C: Clock, W: Words> Job<DeskStore<D, C, W>> for Group {
    type Answer = Answered;

    ghost use Rattle.site_turns.specs.Turns.{TakesTurn};
    ghost use Rattle.site_turns.specs.Waiting.{posts_in};

    ghost relates = { λ job worker origin xs ys answer. TakesTurn origin worker (posts_in job.lists) xs ys answer.said.items answer.rest.items };

    fn work(&mut self, worker: u8, desk: &mut DeskStore<D, C, W>) -> Answered {
        match self.lists.take() {
            Some(lists) => answer_group(self.alloc, worker, &mut desk.store, lists),
            None => Answered {
                said: Vec::new(self.alloc),
                rest: VecDeque::new(self.alloc),
            },
        }
    }
}

/// Answers the first of the requests.
fn answer_group<D: Disk, C: Clock, W: Words>(
    alloc: Global,
    worker: u8,
    store: &mut Store<D, C, W>,
    lists: Lists,
) -> Answered
    requires serving { IsServing D.Disk C.Clock W.Words store.old }
    ensures turn { TakesTurn (origin_of D.Disk C.Clock W.Words store.old) worker lists.posts.items (desk_notes store.old) (desk_notes store.new) result.said.items result.rest.items }
    ensures appends { Appends worker (desk_notes store.old) (desk_notes store.new) }
    ensures origin { origin_of D.Disk C.Clock W.Words store.new ≡ origin_of D.Disk C.Clock W.Words store.old }
    ensures serving { IsServing D.Disk C.Clock W.Words store.new }
{
    let Lists {
        posts,
        asks,
        outcomes,
        said,
    } = lists;
    let mut posts = posts;
    let mut asks = asks;
    let mut outcomes = outcomes;
    let mut said = said;
    take_asks(store.site().setup(), &mut posts, &mut asks);
    if asks.is_empty() {
        return without_step(alloc, posts, said);
    }
    step(store, worker, asks, &mut outcomes);
    respond(alloc, store.site().setup(), &outcomes, &mut said);
    Answered { said, rest: posts }
}

/// Tells the first of the requests that its station isn't known.
fn without_step(alloc: Global, posts: VecDeque<Post>, said: Vec<Response>) -> Answered
    requires empty { said.items ≡ [] }
    requires spare { length posts.items ≤ vec_capacity said }
    ensures { IsLeft posts.items result.said.items result.rest.items }
{
    let mut rest = posts;
    let mut said = said;
    let Some(post) = rest.pop_front() else {
        return Answered { said, rest };
    };
    let _post = post;
    said.push_reserved(unasked_response(alloc, AskFault::NoStation));
    Answered { said, rest }
}

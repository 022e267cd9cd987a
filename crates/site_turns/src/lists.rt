//! The lists of a turn.
ghost use Rattle.std.specs.Prelude.{◌≡◌, ◌≤◌, ◌∷◌, [], IfOk, IfErr, length, vec_capacity};

use crate::post::Post;
use deed_words::Ask;
use gs1_keys::Memory;
use site_answers::Response;
use site_store::Outcome;
use std::alloc::{AllocError, Global};
use std::collections::VecDeque;

/// Up to 16 requests for a turn, with the room that their answers take: in the turn no list needs any more.
#[derive(Drop)]
pub struct Lists {
    pub(crate) posts: VecDeque<Post>,
    pub(crate) asks: Vec<Ask>,
    pub(crate) outcomes: Vec<Outcome>,
    pub(crate) said: Vec<Response>,
    ghost few: { length posts.items ≤ 16 },
    ghost no_asks: { asks.items ≡ [] },
    ghost no_outcomes: { outcomes.items ≡ [] },
    ghost no_answers: { said.items ≡ [] },
    ghost room_for_asks: { length posts.items ≤ vec_capacity asks },
    ghost room_for_outcomes: { length posts.items ≤ vec_capacity outcomes },
    ghost room_for_answers: { length posts.items ≤ vec_capacity said },
}

/// Empty lists with room for so many.
fn with_room(
    alloc: Global,
    count: usize,
) -> Result<(Vec<Ask>, Vec<Outcome>, Vec<Response>), AllocError>
    ensures asks { IfOk result (λ r. (r.0.items ≡ []) × (count ≤ vec_capacity r.0)) }
    ensures outcomes { IfOk result (λ r. (r.1.items ≡ []) × (count ≤ vec_capacity r.1)) }
    ensures answers { IfOk result (λ r. (r.2.items ≡ []) × (count ≤ vec_capacity r.2)) }
{
    let asks = Vec::with_capacity(alloc, count)?;
    let outcomes = Vec::with_capacity(alloc, count)?;
    let said = Vec::with_capacity(alloc, count)?;
    Ok((asks, outcomes, said))
}

impl Lists {
    /// The lists for a turn of these requests, at most 16.
    ///
    /// # Errors
    ///
    /// For want of memory the requests come back.
    pub fn new(alloc: Global, posts: VecDeque<Post>) -> Result<Lists, VecDeque<Post>>
        requires { length posts.items ≤ 16 }
        ensures ok { IfOk result (λ lists. lists.posts.items ≡ posts.items) }
        ensures err { IfErr result (λ back. back.items ≡ posts.items) }
    {
        match with_room(alloc, posts.len()) {
            Ok((asks, outcomes, said)) => Ok(Lists {
                posts,
                asks,
                outcomes,
                said,
            }),
            Err(_) => Err(posts),
        }
    }

    /// The lists for a turn of one request.
    ///
    /// # Errors
    ///
    /// `Memory` where no memory was found.
    pub fn of_one(alloc: Global, post: Post) -> Result<Lists, Memory>
        ensures { IfOk result (λ lists. lists.posts.items ≡ post ∷ []) }
    {
        let mut posts = VecDeque::new(alloc);
        let Ok(()) = posts.push_back(post) else {
            return Err(Memory);
        };
        match Lists::new(alloc, posts) {
            Ok(lists) => Ok(lists),
            Err(_) => Err(Memory),
        }
    }
}

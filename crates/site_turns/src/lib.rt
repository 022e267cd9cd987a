//! What a worker does in its turn at the desk where a site's store stands: it answers numbered requests by one step of the
//! store, or reads. An answer leaves the turn whole; putting it stands outside.
//!
//! A definition of each answer is in `specs/Answering`: between the notes that the store has before a turn and those that
//! it has after it. A turn never takes longer than one group of up to 16 requests.
#![tactic(auto)]

mod answering;
mod asking;
mod group;
mod laws;
mod lists;
mod post;
mod responding;
mod serving;
mod showing;
mod step;
mod unread;

pub use answering::{answer, answer_posts, answer_unread, show};
pub use group::{Answered, Group};
pub use laws::answered_are_kept;
pub use lists::Lists;
pub use post::{Post, read_post};
pub use serving::DeskStore;
pub use showing::Show;
pub use unread::Unread;

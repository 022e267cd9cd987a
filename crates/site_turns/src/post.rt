//! Requests whose bodies read as deeds.
ghost use Rattle.std.specs.Prelude.{◌≡◌, IfOk};
ghost use Rattle.deed_words.specs.Proper.{IsProperAsk};
ghost use Rattle.site_files.specs.Due.{IsDue};
ghost use Rattle.deed_json.specs.Asked.{body_of};
ghost use Rattle.site_turns.specs.Posts.{ask_of};

use deed_json::{AskFault, read_body};
use deed_words::{Ask, Said, StationId};
use gs1_keys::Text20;
use std::alloc::Global;
use std::marker::Model;

/// A numbered request whose body reads as a deed. Whether the site has its station is told by the turn that answers it.
#[derive(Debug, Drop)]
pub struct Post {
    station: Text20,
    number: u64,
    said: Said,
}

impl Model for Post {
    ghost use Rattle.deed_words.specs.Proper.{IsProperSaid};
    ghost use Rattle.site_turns.specs.Posted.{Posted};

    ghost Value = { Posted };

    ghost view = { λ p. record { station = p.station; number = p.number; said = p.said } };

    ghost invariant = { λ p. IsProperSaid p.said };
}

impl Post {
    /// The name of the station that asks.
    pub fn station(&self) -> &Text20
        ensures { result.now ≡ self.now.station }
    {
        &self.station
    }

    /// What it asks, as this station.
    pub(crate) fn into_ask(self, station: StationId) -> Ask
        ensures is { result ≡ ask_of station self }
        ensures proper { IsProperAsk result }
    {
        let Post {
            station: _,
            number,
            said,
        } = self;
        let Said { deed, operator } = said;
        Ask {
            station,
            number,
            operator,
            deed,
        }
    }
}

/// The request of the station of that name with a number, whose body has these bytes. Else the first fault of the body:
/// `BadLine` where it is no JSON object, or else `BadDeed`; `Memory` may come at any place.
pub fn read_post(alloc: Global, station: Text20, number: u64, body: &[u8]) -> Result<Post, AskFault>
    ensures said { IsDue (λ post. post.said) AskFault.Memory result (body_of body.now) }
    ensures asks { IfOk result (λ post. (post.station ≡ station) × (post.number ≡ number)) }
{
    let said = read_body(alloc, body)?;
    Ok(Post {
        station,
        number,
        said,
    })
}

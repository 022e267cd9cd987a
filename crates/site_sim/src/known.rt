//! What the simulation keeps of its history.
ghost use Rattle.std.specs.Prelude.{◌≡◌, ◌<◌, ◌+◌, ◌^◌, ◌++◌, [], length, not, IfOk, OnOk};
ghost use Rattle.deed_words.specs.Once.{made_told};
ghost use Rattle.deed_words.specs.declared.reply.Reply.TheVariants.{Accepted};
ghost use Rattle.deed_words.specs.declared.reply.Answer.TheVariants.{Listed};
ghost use Rattle.site_sim.specs.Knowing.{Learns, drawn_for, is_accepted, last_of, lent_for, one_if};
ghost use Rattle.site_sim.specs.Requests.{is_planners};

use crate::request::{Request, is_planners};
use deed_words::{Answer, Reply};
use gs1_keys::{Memory, Serials};
use std::alloc::Global;

/// What the simulation keeps of its history, and how many requests it sent.
#[derive(Drop)]
pub(crate) struct Known {
    /// The serials that the line was lent, in the order in which it was lent them.
    pub(crate) lent: Serials,
    /// The planner's last number.
    pub(crate) planner: u64,
    /// The line's last number.
    pub(crate) line: u64,
    /// How many entries were accepted.
    pub(crate) accepted: u64,
    /// How many serials were drawn.
    pub(crate) serials: u64,
    /// How many units were made.
    pub(crate) units: u64,
    /// How many requests were sent.
    pub(crate) sent: u64,
}

impl Known {
    /// Before the first request.
    pub(crate) fn new(alloc: Global) -> Self
        ensures { result ≡ record { lent = []; planner = 0; line = 0; accepted = 0; serials = 0; units = 0; sent = 0 } }
    {
        Known {
            lent: Serials::new(alloc),
            planner: 0,
            line: 0,
            accepted: 0,
            serials: 0,
            units: 0,
            sent: 0,
        }
    }

    /// The last number of the request's station.
    pub(crate) fn last_of(&self, request: Request) -> u64
        ensures { result ≡ last_of self.now request }
    {
        if is_planners(request) {
            self.planner
        } else {
            self.line
        }
    }

    /// Takes note of the reply to a request that became an entry, and says whether it was accepted.
    pub(crate) fn learn(&mut self, request: Request, reply: Reply) -> Result<bool, Memory>
        requires planner { self.old.planner + 1 < 2 ^ 64 }
        requires line { self.old.line + 1 < 2 ^ 64 }
        requires accepted { self.old.accepted + 1 < 2 ^ 64 }
        requires serials { self.old.serials + length (drawn_for request reply) < 2 ^ 64 }
        requires units { self.old.units + 1 < 2 ^ 64 }
        ensures going { IfOk result (λ going. going ≡ is_accepted reply) }
        ensures learns { OnOk result (Learns self.old self.new request reply) }
    {
        self.count_number(request);
        match reply {
            Reply::Refused(_) => Ok(false),
            Reply::Accepted(answer) => {
                self.accepted += 1;
                self.take_in(request, answer)?;
                Ok(true)
            }
        }
    }

    /// Takes note that the request's number was given.
    fn count_number(&mut self, request: Request)
        requires planner { self.old.planner + 1 < 2 ^ 64 }
        requires line { self.old.line + 1 < 2 ^ 64 }
        ensures planner { self.new.planner ≡ self.old.planner + one_if (is_planners request) }
        ensures line { self.new.line ≡ self.old.line + one_if (not (is_planners request)) }
        ensures rest { (self.new.lent ≡ self.old.lent) × (self.new.accepted ≡ self.old.accepted) × (self.new.serials ≡ self.old.serials) × (self.new.units ≡ self.old.units) × (self.new.sent ≡ self.old.sent) }
    {
        if is_planners(request) {
            self.planner += 1;
        } else {
            self.line += 1;
        }
    }

    /// Takes note of the answer to an accepted request.
    #[tactic(auto, unfolding(deed_words::specs::Once::listed, deed_words::specs::Once::made_told), using(crate::proofs::Unlisted::lent_nothing, crate::proofs::Unlisted::drawn_nothing))]
    fn take_in(&mut self, request: Request, answer: Answer) -> Result<(), Memory>
        requires serials { self.old.serials + length (drawn_for request (Accepted answer)) < 2 ^ 64 }
        requires units { self.old.units + 1 < 2 ^ 64 }
        ensures lent { OnOk result (self.new.lent ≡ self.old.lent ++ lent_for request (Accepted answer)) }
        ensures serials { OnOk result (self.new.serials ≡ self.old.serials + length (drawn_for request (Accepted answer))) }
        ensures units { OnOk result (self.new.units ≡ self.old.units + length (made_told (Accepted answer))) }
        ensures numbers { (self.new.planner ≡ self.old.planner) × (self.new.line ≡ self.old.line) × (self.new.accepted ≡ self.old.accepted) × (self.new.sent ≡ self.old.sent) }
    {
        match answer {
            Answer::Listed(serials) => self.list(request, &serials),
            Answer::Made(_) => {
                self.units += 1;
                Ok(())
            }
            Answer::Plain => Ok(()),
            Answer::Orders { .. } => Ok(()),
            Answer::Taken(_) => Ok(()),
        }
    }

    /// Takes note of the serials that an answer lists.
    #[tactic(auto, unfolding(crate::specs::Knowing::lent_for, crate::specs::Knowing::drawn_for, deed_words::specs::Once::listed, deed_words::specs::Once::made_told))]
    fn list(&mut self, request: Request, serials: &Serials) -> Result<(), Memory>
        requires serials { self.old.serials + length (drawn_for request (Accepted (Listed serials.now))) < 2 ^ 64 }
        ensures lent { OnOk result (self.new.lent ≡ self.old.lent ++ lent_for request (Accepted (Listed serials.now))) }
        ensures serials { OnOk result (self.new.serials ≡ self.old.serials + length (drawn_for request (Accepted (Listed serials.now)))) }
        ensures rest { (self.new.planner ≡ self.old.planner) × (self.new.line ≡ self.old.line) × (self.new.accepted ≡ self.old.accepted) × (self.new.units ≡ self.old.units) × (self.new.sent ≡ self.old.sent) }
    {
        match request {
            Request::Lend(_) => extend(&mut self.lent, serials),
            Request::Draw(_) => {
                self.serials += serials.len() as u64;
                Ok(())
            }
            Request::Order(_) => Ok(()),
            Request::Start => Ok(()),
            Request::Commission(_) => Ok(()),
            Request::Make(_) => Ok(()),
            Request::PackItems(_, _) => Ok(()),
            Request::PackCases(_, _) => Ok(()),
            Request::Seal(_) => Ok(()),
            Request::Declare(_) => Ok(()),
            Request::Close => Ok(()),
        }
    }
}

/// Puts serials behind others.
fn extend(serials: &mut Serials, more: &Serials) -> Result<(), Memory>
    ensures { OnOk result (serials.new ≡ serials.old ++ more.now) }
{
    let more = more.as_slice();
    for serial in more {
        serials.push(*serial)?;
    }
    Ok(())
}

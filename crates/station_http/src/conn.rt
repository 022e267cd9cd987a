//! Reading requests from a source, in pieces of any size.
ghost use Rattle.std.specs.Prelude.{◌≡◌, ◌⊎◌, ◌<◌, ◌≤◌, ◌+◌, ◌-◌, min, [], ◌∷◌, ◌++◌, length, IfOk, OnOk, IfErr, IfSome, true, false, take, drop, Option, if◌then◌else◌};
ghost use Rattle.std.specs.Io.KnownBytes.{IsAtEnd};
ghost use Rattle.outside.specs.Causes.{HasCauseIf, HasCause};
ghost use Rattle.outside.specs.Devices.{Takes, TakesPiece, ask, asked_more, came_into, Asks, Puts};
ghost use Rattle.station_http.specs.Lines.{blank as blank_of};
ghost use Rattle.station_http.specs.Puts.{IsPutOf};
ghost use Rattle.station_http.specs.Limits.{head_limit, session_limit};
ghost use Rattle.station_http.specs.Waiting.{IsWaiting, IsDecided, HasCalled, IsFurther, is_ready};
ghost use Rattle.station_http.specs.Asking.{AsksAll, AsksEmpty, known_after};

use crate::asked::Asked;
use crate::fault::HttpFault;
use crate::kind::Kind;
use crate::lines::{blank, head_end};
use crate::plan::{Plan, plan_for};
use crate::put::put_answer;
use crate::stage::{Stage, after};
use gs1_keys::Memory;
use http_routes::Routes;
use outside::{Bytes, Failed, Sink, Source};
use std::alloc::Global;
use std::marker::Model;

/// How many bytes a head may have, and how many are held that belong to no body.
const HEAD_LIMIT: usize = 8192;

/// How many bytes a session may take.
const SESSION_LIMIT: u64 = 1 << 36;

/// One connection (RFC 9112): hands out the requests of a source, one after the other, and puts the answers.
#[derive(Drop)]
pub struct Conn {
    alloc: Global,
    routes: Routes,
    piece: Vec<u8>,
    at: usize,
    end: usize,
    taken: u64,
    stage: Stage,
}

impl Model for Conn {
    ghost use Rattle.station_http.specs.Reading.{Reading};
    ghost use Rattle.std.specs.Prelude.{◌≡◌, ◌≤◌, slice_range, vec_len};
    ghost use Rattle.station_http.specs.Limits.{head_limit, session_limit};

    ghost Value = { Reading };

    ghost view = { λ s. record { pending = slice_range s.piece.items s.at s.end; taken = s.taken; stage = s.stage } };

    ghost invariant = { λ s. (vec_len s.piece ≡ head_limit) × (s.at ≤ s.end) × (s.end ≤ head_limit) × (s.end ≤ s.taken) × (s.taken ≤ session_limit) };
}

impl Conn {
    ghost use Rattle.station_http.specs.Gives.{GivesAt, is_read_fault};
    ghost use Rattle.station_http.specs.declared.stage.Stage.TheVariants.{Open};
    ghost use Rattle.station_http.specs.declared.fault.HttpFault.TheVariants.{SessionLong};
    ghost use Rattle.station_http.specs.Steps.{Skips, Fills, MovesTo, GivesHead, GivesBody, Reads, with_pending};
    ghost use Rattle.station_http.specs.Refusals.{is_refusal};
    ghost use Rattle.station_http.specs.Gives.{is_full};
    ghost use Rattle.station_http.specs.Answers.{is_answered, answer_text};
    ghost use Rattle.station_http.specs.Lines.{head_end as head_end_of};
    ghost use Rattle.station_http.specs.Head.{IsHead};
    ghost use Rattle.station_http.specs.Plans.{plan_of};
    ghost use Rattle.httparse.specs.Grammar.{RequestHead};

    /// Before the first byte.
    pub fn new(alloc: Global) -> Result<Self, Memory>
        ensures { IfOk result (λ conn. (conn.pending ≡ []) × (conn.taken ≡ 0) × (conn.stage ≡ Open)) }
    {
        Ok(Conn {
            alloc,
            routes: Routes::new(alloc)?,
            piece: vec![in alloc; 0; HEAD_LIMIT]?,
            at: 0,
            end: 0,
            taken: 0,
            stage: Stage::Open,
        })
    }

    /// The next request of all the bytes, however they are cut; none where the source ended between two requests, or
    /// an earlier request's answer was the last.
    ///
    /// Each `HttpFault` comes exactly where its cause holds and none before it, in the order of its variants; `Memory`
    /// may come at any place. After a fault each later call answers `Spent`. In all it takes at most 2^36 bytes.
    ///
    /// It asks the source each time for all that the buffer has room for and that may still be taken: where none is
    /// pending, for 8,192 bytes, or for all that are left up to 2^36.
    pub fn next<S: Source>(&mut self, source: &mut S) -> Result<Option<Asked>, HttpFault>
        ensures answer { Takes (S.left source.old) (S.left source.new) (λ bytes. GivesAt self.old.stage self.old bytes result self.new (IsAtEnd (S.left source.new))) }
        ensures cause { HasCauseIf (is_read_fault result) (S.read_faults source.old) (S.read_faults source.new) }
        ensures asks { Asks (S.asks source.old) (S.asks source.new) (AsksAll self.old.taken self.old.pending self.new.taken) }
        ensures beside { S.beside_takes source.new ≡ S.beside_takes source.old }
        ensures within { self.new.taken ≤ session_limit }
        ensures held { length self.new.pending ≤ head_limit }
        ensures further { IfOk result (λ o. IfSome o (λ _. IsFurther self.old self.new)) }
        ensures waits { IsWaiting self.old true → source.new ≡ source.old }
        ensures calls { IsWaiting self.old false → HasCalled self.old self.new (IsAtEnd (S.left source.new)) result }
    {
        self.advance(source)
    }

    /// The next request by the stage.
    fn advance<S: Source>(&mut self, source: &mut S) -> Result<Option<Asked>, HttpFault>
        ensures answer { Takes (S.left source.old) (S.left source.new) (λ bytes. GivesAt self.old.stage self.old bytes result self.new (IsAtEnd (S.left source.new))) }
        ensures cause { HasCauseIf (is_read_fault result) (S.read_faults source.old) (S.read_faults source.new) }
        ensures asks { Asks (S.asks source.old) (S.asks source.new) (AsksAll self.old.taken self.old.pending self.new.taken) }
        ensures beside { S.beside_takes source.new ≡ S.beside_takes source.old }
        ensures within { self.new.taken ≤ session_limit }
        ensures held { length self.new.pending ≤ head_limit }
        ensures waits { IsWaiting self.old true → source.new ≡ source.old }
    {
        match self.stage {
            Stage::Spent => return Err(HttpFault::Spent),
            Stage::Closed => return Ok(None),
            Stage::Open => {}
        }
        match self.read(source) {
            Ok(Some(asked)) => {
                self.stage = after(asked.close);
                Ok(Some(asked))
            }
            Ok(None) => Ok(None),
            Err(fault) => {
                self.stage = Stage::Spent;
                Err(fault)
            }
        }
    }

    /// Whether the next `next` makes no call on the source: a whole request or a fault is there already, or nothing
    /// more is read.
    pub fn waiting(&self) -> bool
        ensures { IsWaiting self.now result }
    {
        match self.stage {
            Stage::Open => {}
            Stage::Closed => return true,
            Stage::Spent => return true,
        }
        if self.taken == SESSION_LIMIT {
            return true;
        }
        is_decided(&self.routes, &self.piece[self.at..self.end])
    }

    /// Puts an answer: its head, with `connection: close` where it is the last, and the body. The status is one of the
    /// thirteen that are answered. It takes no memory; after `Failed` a front of the answer was put.
    pub fn answer<O: Sink>(
        &mut self,
        sink: &mut O,
        status: u16,
        kind: Kind,
        body: &[u8],
        last: bool,
    ) -> Result<(), Failed>
        requires { is_answered status ≡ true }
        ensures put { Puts (O.held sink.old) (O.held sink.new) (λ put. IsPutOf (answer_text status kind body.now last) result put) }
        ensures cause { HasCause (O.write_faults sink.old) (O.write_faults sink.new) result }
        ensures beside { O.beside_puts sink.new ≡ O.beside_puts sink.old }
        ensures same { self.new ≡ self.old }
    {
        put_answer(sink, status, kind, body, last)
    }

    /// The next request of an open connection.
    fn read<S: Source>(&mut self, source: &mut S) -> Result<Option<Asked>, HttpFault>
        ensures answer { Takes (S.left source.old) (S.left source.new) (λ bytes. (self.new.taken ≡ self.old.taken + length bytes) × Reads (self.old.pending ++ bytes) result self.new (IsAtEnd (S.left source.new))) }
        ensures cause { HasCauseIf (is_read_fault result) (S.read_faults source.old) (S.read_faults source.new) }
        ensures asks { Asks (S.asks source.old) (S.asks source.new) (AsksAll self.old.taken self.old.pending self.new.taken) }
        ensures beside { S.beside_takes source.new ≡ S.beside_takes source.old }
        ensures within { self.new.taken ≤ session_limit }
        ensures stage { self.new.stage ≡ self.old.stage }
        ensures held { length self.new.pending ≤ head_limit }
        ensures idle { is_full self.old.taken ≡ true ⊎ IsDecided self.old.pending true → source.new ≡ source.old }
    {
        let head = match self.need_head(source) {
            Err(fault) => return Err(fault),
            Ok(None) => return Ok(None),
            Ok(Some(head)) => head,
        };
        let Plan {
            body: count,
            close,
            target,
        } = match self.take_plan(head) {
            Err(fault) => return Err(self.told(fault)),
            Ok(plan) => plan,
        };
        let body = match self.need_body(source, head, count) {
            Err(fault) => return Err(fault),
            Ok(body) => body,
        };
        match target {
            Err(fault) => Err(self.told(fault)),
            Ok(target) => Ok(Some(Asked {
                target,
                body,
                close,
            })),
        }
    }

    /// A fault of the bytes, which yields to the session's limit.
    fn told(&self, fault: HttpFault) -> HttpFault
        ensures { result ≡ (if is_full self.now.taken then SessionLong else fault) }
    {
        if self.taken >= SESSION_LIMIT {
            return HttpFault::SessionLong;
        }
        fault
    }

    /// Takes pieces until a whole head is pending.
    fn need_head<S: Source>(&mut self, source: &mut S) -> Result<Option<usize>, HttpFault>
        ensures head { Takes (S.left source.old) (S.left source.new) (λ bytes. (self.new.taken ≡ self.old.taken + length bytes) × GivesHead (self.old.pending ++ bytes) result self.new (IsAtEnd (S.left source.new))) }
        ensures cause { HasCauseIf (is_read_fault result) (S.read_faults source.old) (S.read_faults source.new) }
        ensures asks { Asks (S.asks source.old) (S.asks source.new) (λ asks. AsksAll self.old.taken self.old.pending self.new.taken asks × Skips (known_after self.old.pending asks) self.new.pending) }
        ensures beside { S.beside_takes source.new ≡ S.beside_takes source.old }
        ensures within { self.new.taken ≤ session_limit }
        ensures held { length self.new.pending ≤ head_limit }
        ensures stage { self.new.stage ≡ self.old.stage }
        ensures idle { is_ready self.old ≡ true → (source.new ≡ source.old) × (self.new.pending ≡ drop (blank_of self.old.pending) self.old.pending) × (self.new.taken ≡ self.old.taken) }
    {
        'pieces: loop {
            self.skip_blank();
            if let Some(count) = self.head_here() {
                return Ok(Some(count));
            }
            let held = self.held();
            if self.taken == SESSION_LIMIT {
                return Err(HttpFault::SessionLong);
            }
            if held == HEAD_LIMIT {
                return Err(HttpFault::HeadTooLong);
            }
            let Ok(count) = self.fill(source) else {
                return Err(HttpFault::ReadFault);
            };
            if count == 0 {
                if held == 0 {
                    return Ok(None);
                }
                return Err(HttpFault::Cut(held as u64));
            }
        }
    }

    /// How many bytes are pending.
    fn held(&self) -> usize
        ensures held { result ≡ length self.now.pending }
        ensures within { result ≤ head_limit }
    {
        self.end - self.at
    }

    /// Passes over the empty lines at the front.
    fn skip_blank(&mut self)
        ensures { self.new ≡ with_pending self.old (drop (blank_of self.old.pending) self.old.pending) }
    {
        self.at += blank(&self.piece[self.at..self.end]);
    }

    /// How long the head at the front is, if a whole one is pending.
    fn head_here(&self) -> Option<usize>
        ensures { result ≡ head_end_of self.now.pending }
    {
        head_end(&self.piece[self.at..self.end])
    }

    /// Takes the head at the front away, and says what it asks for.
    fn take_plan(&mut self, head: usize) -> Result<Plan, HttpFault>
        requires { head ≤ length self.old.pending }
        ensures plan { (h : Option RequestHead) × IsHead (take head self.old.pending) h × (result ≡ plan_of h) }
        ensures after { self.new ≡ with_pending self.old (drop head self.old.pending) }
        ensures refused { IfErr result (λ fault. is_refusal fault ≡ true) }
        ensures target { IfOk result (λ plan. IfErr plan.target (λ fault. is_refusal fault ≡ true)) }
    {
        let start = self.at;
        self.at += head;
        plan_for(&self.routes, &self.piece[start..self.at])
    }

    /// Takes pieces until the body is there, of which `count` bytes are to come.
    fn need_body<S: Source>(
        &mut self,
        source: &mut S,
        head: usize,
        count: usize,
    ) -> Result<Bytes, HttpFault>
        requires { head ≤ head_limit }
        ensures body { Takes (S.left source.old) (S.left source.new) (λ bytes. (self.new.taken ≡ self.old.taken + length bytes) × GivesBody head count (self.old.pending ++ bytes) result self.new (IsAtEnd (S.left source.new))) }
        ensures cause { HasCauseIf (is_read_fault result) (S.read_faults source.old) (S.read_faults source.new) }
        ensures asks { Asks (S.asks source.old) (S.asks source.new) (AsksEmpty self.old.taken self.new.taken) }
        ensures beside { S.beside_takes source.new ≡ S.beside_takes source.old }
        ensures within { self.new.taken ≤ session_limit }
        ensures stage { self.new.stage ≡ self.old.stage }
        ensures held { length self.new.pending ≤ head_limit }
        ensures idle { is_full self.old.taken ≡ true ⊎ (count ≤ length self.old.pending) → source.new ≡ source.old }
    {
        let mut body = Bytes::new(self.alloc);
        'pieces: loop {
            let Ok(()) = self.move_to(&mut body, count) else {
                return Err(HttpFault::Memory);
            };
            let came = body.len();
            if came == count {
                return Ok(body);
            }
            if self.taken == SESSION_LIMIT {
                return Err(HttpFault::SessionLong);
            }
            let Ok(more) = self.fill(source) else {
                return Err(HttpFault::ReadFault);
            };
            if more == 0 {
                return Err(HttpFault::Cut((head + came) as u64));
            }
        }
    }

    /// Moves what is pending to the end of a body, up to its length.
    fn move_to(&mut self, body: &mut Bytes, count: usize) -> Result<(), Memory>
        requires { length body.old ≤ count }
        ensures moved { OnOk result (MovesTo self.old.pending self.new.pending body.old body.new) }
        ensures within { length body.new ≤ count }
        ensures all { OnOk result (length body.new < count → self.new.pending ≡ []) }
        ensures after { self.new ≡ with_pending self.old self.new.pending }
        ensures held { length self.new.pending ≤ head_limit }
    {
        let part = (count - body.len()).min(self.end - self.at);
        body.extend(&self.piece[self.at..self.at + part])?;
        self.at += part;
        Ok(())
    }

    /// Takes a further piece behind what is pending, and says how many bytes it has.
    fn fill<S: Source>(&mut self, source: &mut S) -> Result<usize, Failed>
        requires room { length self.old.pending < head_limit }
        requires below { self.old.taken < session_limit }
        ensures bytes { Takes (S.left source.old) (S.left source.new) (λ bytes. Fills self.old bytes result self.new (IsAtEnd (S.left source.new))) }
        ensures cause { HasCause (S.read_faults source.old) (S.read_faults source.new) result }
        ensures asked { S.asks source.new ≡ asked_more (S.asks source.old) (ask (min (session_limit - self.old.taken) (head_limit - length self.old.pending)) (drop (length self.old.pending) self.new.pending) ∷ []) }
        ensures beside { S.beside_takes source.new ≡ S.beside_takes source.old }
        ensures within { self.new.taken ≤ session_limit }
        ensures held { length self.new.pending ≤ head_limit }
    {
        self.piece.copy_within(self.at..self.end, 0);
        self.end -= self.at;
        self.at = 0;
        let room = room(self.taken, self.end);
        let Ok(count) = take_behind(source, &mut self.piece, self.end, room) else {
            return Err(Failed);
        };
        self.end += count;
        self.taken += count as u64;
        Ok(count)
    }
}

/// How many bytes the next call asks for: all that there is room for, and that may still be taken.
fn room(taken: u64, held: usize) -> usize
    requires { (taken ≤ session_limit) × (held ≤ head_limit) }
    ensures { result ≡ min (session_limit - taken) (head_limit - held) }
{
    let free = (HEAD_LIMIT - held) as u64;
    (SESSION_LIMIT - taken).min(free) as usize
}

/// The bytes behind the empty lines at the front.
fn behind_blank<'a>(bytes: &'a [u8]) -> &'a [u8]
    ensures { result.now ≡ drop (blank_of bytes.entry.now) bytes.entry.now }
{
    &bytes[blank(bytes)..]
}

/// Whether the bytes begin with a whole request or a fault.
fn is_decided(routes: &Routes, bytes: &[u8]) -> bool
    requires { length bytes.now ≤ head_limit }
    ensures { IsDecided bytes.now result }
{
    let request = behind_blank(bytes);
    let Some(head) = head_end(request) else {
        return request.len() >= HEAD_LIMIT;
    };
    match plan_for(routes, &request[..head]) {
        Err(_) => true,
        Ok(plan) => plan.body <= request.len() - head,
    }
}

/// Takes at most `room` bytes behind the first `at` of the piece.
fn take_behind<S: Source>(
    source: &mut S,
    piece: &mut [u8],
    at: usize,
    room: usize,
) -> Result<usize, Failed>
    requires some { 0 < room }
    requires within { at + room ≤ length piece.old }
    ensures bound { IfOk result (λ n. n ≤ room) }
    ensures front { take at piece.new ≡ take at piece.old }
    ensures bytes { TakesPiece (S.left source.old) (S.left source.new) result (drop at piece.new) }
    ensures asked { S.asks source.new ≡ asked_more (S.asks source.old) (ask room (came_into (drop at piece.new) result) ∷ []) }
    ensures cause { HasCause (S.read_faults source.old) (S.read_faults source.new) result }
    ensures beside { S.beside_takes source.new ≡ S.beside_takes source.old }
{
    source.take(&mut piece[at..at + room])
}

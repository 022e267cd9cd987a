//! A door in memory.
ghost use Rattle.std.specs.Prelude.{◌≡◌, ◌≤◌, ◌<◌, ◌+◌, All, MatchOption, OnErr, IfOk, IfSome, IsErr, [], Some, drop, take, length, map, slice_get, slice_index_or, option_map, vec_capacity, vec_len};
ghost use Rattle.std.specs.Vec.Iter.{into_iter_items};
ghost use Rattle.outside.specs.Causes.{HasCause};
ghost use Rattle.outside.specs.Doors.{wire, with_quota, IsUnused, NextLink, gives, fails};
ghost use Rattle.outside.specs.Failing.{told, IsListed, IsCalled};

use crate::failures::Failures;
use crate::{Door, Failed, Link};
use std::alloc::Global;
use std::snapshot::Snapshot;
use std::vec::IntoIter;

/// Gives links in memory, in their order, and keeps those that came back.
#[derive(Drop)]
pub struct MemoryDoor<L: Link + Drop> {
    links: IntoIter<L, Global>,
    quota: usize,
    given: usize,
    back: Vec<L>,
    failures: Failures,
    // the links as they were handed in, which take no room
    first: Snapshot<Vec<L>>,
    ghost rest: { into_iter_items links ≡ drop given first.value.items },
    ghost within: { given + quota ≤ length first.value.items },
    ghost unused: { All (λ link. IsUnused (L.held link)) first.value.items },
    ghost room: { given ≤ vec_capacity back },
    ghost no_more: { vec_len back ≤ given },
}

impl<L: Link + Drop> MemoryDoor<L> {
    /// Gives these links, which have put nothing, and fails at the calls of these numbers, from 1.
    pub fn new(alloc: Global, links: Vec<L>, failing: Vec<u64>) -> Self
        requires { All (λ link. IsUnused (L.held link)) links.items }
        ensures state { ⟦<MemoryDoor<L> as Door>⟧.state result ≡ with_quota (length links.items) (Some []) }
        ensures links { result.first.value.items ≡ links.items }
        ensures failing { result.failures ≡ told failing.items }
    {
        let first = Snapshot::of(&links);
        MemoryDoor {
            quota: links.len(),
            links: links.into_iter(),
            given: 0,
            back: Vec::new(alloc),
            failures: Failures::new(failing),
            first,
        }
    }

    /// The link that came back at that place, from 0; none exactly where no more came back.
    pub fn back(&self, at: usize) -> Option<&L>
        ensures { option_map (λ link. link.now) result ≡ slice_get self.now.back.items at }
    {
        self.back.get(at)
    }
}

impl<L: Link + Drop> Door for MemoryDoor<L> {
    type Link = L;

    ghost state = { λ d. record {
      quota = d.quota;
      given = d.given;
      back = vec_len d.back;
      links = Some (map (λ link. wire (L.left link) (L.held link) (L.read_faults link) (L.write_faults link)) (take d.given d.first.value.items));
      links_back = Some (map (λ link. wire (L.left link) (L.held link) (L.read_faults link) (L.write_faults link)) d.back.items);
      faults = d.failures.failed;
    } };

    /// It fails where the number of the call is listed, and for want of memory, and else gives the first of the links
    /// that are left. Where the quota is used up, the list says nothing.
    fn next_link(&mut self) -> Result<Option<L>, Failed>
        ensures quota { NextLink result ((⟦<MemoryDoor<L> as Door>⟧.state self.old).quota) ((⟦<MemoryDoor<L> as Door>⟧.state self.new).quota) }
        ensures given { IfOk result (λ o. MatchOption o (⟦<MemoryDoor<L> as Door>⟧.state self.new ≡ ⟦<MemoryDoor<L> as Door>⟧.state self.old) (λ link. ⟦<MemoryDoor<L> as Door>⟧.state self.new ≡ gives (⟦<MemoryDoor<L> as Door>⟧.state self.old) (⟦<MemoryDoor<L> as Door>⟧.state self.new) (wire (L.left link) (L.held link) (L.read_faults link) (L.write_faults link)))) }
        ensures failed { OnErr result (⟦<MemoryDoor<L> as Door>⟧.state self.new ≡ fails (⟦<MemoryDoor<L> as Door>⟧.state self.old) (⟦<MemoryDoor<L> as Door>⟧.state self.new)) }
        ensures unused { IfOk result (λ o. IfSome o (λ link. IsUnused (L.held link))) }
        ensures cause { HasCause ((⟦<MemoryDoor<L> as Door>⟧.state self.old).faults) ((⟦<MemoryDoor<L> as Door>⟧.state self.new).faults) result }
        ensures first { IfOk result (λ o. IfSome o (λ link. slice_index_or self.old.first.value.items self.old.given link ≡ link)) }
        ensures same_links { self.new.first ≡ self.old.first }
        ensures called { 0 < self.old.quota → IsCalled self.old.failures self.new.failures }
        ensures failing { 0 < self.old.quota → IsListed self.old.failures → IsErr result }
    {
        if self.quota == 0 {
            return Ok(None);
        }
        self.quota -= 1;
        if self.failures.next_fails() {
            return Err(Failed);
        }
        let out = self.given - self.back.len();
        if self.back.reserve(out + 1).is_err() {
            self.failures.fail();
            return Err(Failed);
        }
        let link = self.links.next().unwrap();
        self.given += 1;
        Ok(Some(link))
    }

    fn link_back(&mut self, link: L) {
        match self.back.push(link) {
            Ok(()) => {}
            Err(_) => unreachable!(),
        }
    }
}

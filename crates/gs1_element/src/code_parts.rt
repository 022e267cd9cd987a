//! The units of a scan, one after the other.
ghost use Rattle.std.specs.Prelude.{◌≡◌, ◌≤◌, ◌-◌, ◌++◌, ℕ, List, length};

use crate::parts::{Part, length_of_unit, part_at, past_unit};
use crate::scan::length_of_prefix;

/// The units of a scan from the left, each a slice of it: an iterator that ends at the end of the
/// scan, or before the first unit that is short or has no two digits in front.
#[derive(Drop)]
pub struct CodeParts<'a> {
    scan: &'a [u8],
    at: usize,
    ghost in_range: { at ≤ length scan.now },
}

impl<'a> CodeParts<'a> {
    ghost use Rattle.gs1_element.specs.Codes.{prefix_length};
    ghost use Rattle.gs1_element.specs.Parts.{pieces_left, pieces_from};
    ghost use Rattle.gs1_element.specs.Scans.{Element, IsMark, AreElements, joined, pieces_of};

    /// The units of a scan, behind its scanner prefix.
    pub fn new(scan: &'a [u8]) -> Self
        ensures cut { pieces_left result ≡ pieces_from (prefix_length scan.now) scan.now }
        // Of a scan that is whole units they are these units.
        ensures units { (mark : List ℕ) (us : List Element) → IsMark mark → AreElements us
            → scan.now ≡ mark ++ joined us → pieces_left result ≡ pieces_of (length mark) us }
    {
        let at = length_of_prefix(scan);
        CodeParts { scan, at }
    }
}

impl<'a> Iterator for CodeParts<'a> {
    type Item = Part<'a>;

    ghost use Rattle.std.specs.Prelude.{◌-◌, length};
    ghost use Rattle.std.specs.Iterator.{at_most};
    ghost use Rattle.gs1_element.specs.Parts.{NextPart};

    ghost next_gives = { NextPart };

    ghost remaining = { λ s. at_most (length s.scan.now - s.at) };

    #[tactic(auto, using(crate::proofs::Stepping::ends_here))]
    fn next(&mut self) -> Option<Part<'a>> {
        let (_, left) = self.scan.split_at(self.at);
        if left.is_empty() {
            return None;
        }
        match length_of_unit(self.at, left) {
            Err(_fault) => None,
            Ok(n) => {
                let part = part_at(self.at, n, left);
                self.at += left.len() - past_unit(n, left).len();
                Some(part)
            }
        }
    }
}

//! The units of a batch as a chain, from the newest to the first: it grows and shrinks at its newest end.
ghost use Rattle.std.specs.Prelude.{◌≡◌, ℕ, ◌<◌, ◌≤◌, ◌++◌, None, length, replicate, set, slice_index_or, OnOk};

use std::alloc::AllocError;

/// How many batches a number can tell apart.
pub(crate) const BATCHES: usize = 65_536;

/// Links up to so many, the new ones to nothing.
pub(crate) fn grow_chain(links: &mut Vec<Option<u32>>, count: usize) -> Result<(), AllocError>
    ensures links { (k : ℕ) × (links.new.items ≡ links.old.items ++ replicate k None) }
    ensures ok { OnOk result (count ≤ length links.new.items) }
{
    if count <= links.len() {
        return Ok(());
    }
    links.resize(count, None)?;
    Ok(())
}

/// The link at a place, or none past the end.
pub(crate) fn link_at(links: &[Option<u32>], at: usize) -> Option<u32>
    ensures { result ≡ slice_index_or links.now at None }
{
    links.get(at).copied().unwrap_or(None)
}

/// A link is another from now on.
pub(crate) fn set_link_at(links: &mut Vec<Option<u32>>, at: usize, link: Option<u32>)
    requires { at < length links.old.items }
    ensures { links.new.items ≡ set links.old.items at link }
{
    links[at] = link;
}

//! Parts of a list.
ghost use Rattle.std.specs.Prelude.{◌≡◌, ◌<◌, ◌≤◌, ◌+◌, ◌*◌};
ghost use Rattle.site_sim.specs.Requests.{part_count, part_at};

/// A part of a list.
#[derive(Clone, Copy, Debug)]
pub struct Part {
    /// Where it begins.
    pub from: u32,
    /// How long it is.
    pub size: u32,
}

/// How many parts of this size so many things make, of which the last may be smaller.
pub(crate) fn count_parts(total: u32, most: u32) -> u32
    requires some { 0 < most }
    requires few { total + most ≤ 1000000 }
    ensures { result ≡ part_count total most }
{
    (total + most - 1) / most
}

/// The part at a place.
pub(crate) fn part_at(total: u32, most: u32, at: u32) -> Part
    requires { at * most < total }
    ensures { result ≡ part_at total most at }
{
    let from = at * most;
    Part {
        from,
        size: most.min(total - from),
    }
}

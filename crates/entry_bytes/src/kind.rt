//! Kinds of deeds and their tags.
ghost use Rattle.std.specs.Prelude.{◌≡◌};
ghost use Rattle.entry_bytes.specs.Deeds.{kind_of, tag_of};
ghost use Rattle.entry_bytes.specs.Spelling.{kind_in};

use deed_words::Deed;

/// The kinds of deeds, between a tag byte and a deed.
#[derive(Clone, Copy)]
pub(crate) enum DeedKind {
    Order,
    Orders,
    Start,
    Draw,
    Lend,
    Commission,
    Spoil,
    Giveback,
    Sample,
    Reject,
    Reinstate,
    Destroy,
    Decommission,
    Container,
    Pack,
    Unpack,
    UnpackAll,
    Seal,
    Unseal,
    Void,
    Declare,
    Close,
    Amend,
}

impl DeedKind {
    /// The tag of this kind in the bytes of an entry.
    pub(crate) fn tag(self) -> u8
        ensures { result ≡ tag_of self }
    {
        match self {
            DeedKind::Order => 1,
            DeedKind::Orders => 2,
            DeedKind::Start => 3,
            DeedKind::Draw => 4,
            DeedKind::Lend => 5,
            DeedKind::Commission => 6,
            DeedKind::Spoil => 7,
            DeedKind::Giveback => 8,
            DeedKind::Sample => 9,
            DeedKind::Reject => 10,
            DeedKind::Reinstate => 11,
            DeedKind::Destroy => 12,
            DeedKind::Decommission => 13,
            DeedKind::Container => 14,
            DeedKind::Pack => 15,
            DeedKind::Unpack => 16,
            DeedKind::UnpackAll => 17,
            DeedKind::Seal => 18,
            DeedKind::Unseal => 19,
            DeedKind::Void => 20,
            DeedKind::Declare => 21,
            DeedKind::Close => 22,
            DeedKind::Amend => 23,
        }
    }
}

/// The kind of deed that has this tag.
#[tactic(auto, unfolding(crate::specs::Deeds::kind_of))]
pub(crate) fn kind_of_tag(tag: u8) -> Option<DeedKind>
    ensures { result ≡ kind_of tag }
{
    Some(match tag {
        1 => DeedKind::Order,
        2 => DeedKind::Orders,
        3 => DeedKind::Start,
        4 => DeedKind::Draw,
        5 => DeedKind::Lend,
        6 => DeedKind::Commission,
        7 => DeedKind::Spoil,
        8 => DeedKind::Giveback,
        9 => DeedKind::Sample,
        10 => DeedKind::Reject,
        11 => DeedKind::Reinstate,
        12 => DeedKind::Destroy,
        13 => DeedKind::Decommission,
        14 => DeedKind::Container,
        15 => DeedKind::Pack,
        16 => DeedKind::Unpack,
        17 => DeedKind::UnpackAll,
        18 => DeedKind::Seal,
        19 => DeedKind::Unseal,
        20 => DeedKind::Void,
        21 => DeedKind::Declare,
        22 => DeedKind::Close,
        23 => DeedKind::Amend,
        _ => return None,
    })
}

/// The kind of a deed.
pub(crate) fn kind_of_deed(deed: &Deed) -> DeedKind
    ensures { result ≡ kind_in deed.now }
{
    match deed {
        Deed::Order(..) => DeedKind::Order,
        Deed::Orders(..) => DeedKind::Orders,
        Deed::Start(..) => DeedKind::Start,
        Deed::Draw(..) => DeedKind::Draw,
        Deed::Lend(..) => DeedKind::Lend,
        Deed::Commission(..) => DeedKind::Commission,
        Deed::Spoil(..) => DeedKind::Spoil,
        Deed::Giveback(..) => DeedKind::Giveback,
        Deed::Sample(..) => DeedKind::Sample,
        Deed::Reject(..) => DeedKind::Reject,
        Deed::Reinstate(..) => DeedKind::Reinstate,
        Deed::Destroy(..) => DeedKind::Destroy,
        Deed::Decommission(..) => DeedKind::Decommission,
        Deed::Container(..) => DeedKind::Container,
        Deed::Pack(..) => DeedKind::Pack,
        Deed::Unpack(..) => DeedKind::Unpack,
        Deed::UnpackAll(..) => DeedKind::UnpackAll,
        Deed::Seal(..) => DeedKind::Seal,
        Deed::Unseal(..) => DeedKind::Unseal,
        Deed::Void(..) => DeedKind::Void,
        Deed::Declare(..) => DeedKind::Declare,
        Deed::Close(..) => DeedKind::Close,
        Deed::Amend(..) => DeedKind::Amend,
    }
}

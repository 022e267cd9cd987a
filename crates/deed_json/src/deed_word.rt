//! The words of deeds.
ghost use Rattle.std.specs.Prelude.{◌≡◌};
ghost use Rattle.deed_json.specs.Deeds.{word_of};

/// What a deed does.
#[derive(Clone, Copy)]
pub(crate) enum DeedWord {
    Order,
    Orders,
    /// To the batch that it names first.
    OfBatch(BatchWord),
    /// To the unit that it names first.
    OfUnit(UnitWord),
}

/// What a deed does to a batch.
#[derive(Clone, Copy)]
pub(crate) enum BatchWord {
    Start,
    Draw,
    Lend,
    Commission,
    Spoil,
    Giveback,
    Sample,
    Reject,
    Reinstate,
    Destroy,
    Decommission,
    Container,
    Declare,
    Close,
    Amend,
}

/// What a deed does to a unit.
#[derive(Clone, Copy)]
pub(crate) enum UnitWord {
    Pack,
    Unpack,
    UnpackAll,
    Seal,
    Unseal,
    Void,
}

impl DeedWord {
    /// The word that a text is.
    #[tactic(auto, unfolding(crate::specs::Deeds::word_of))]
    pub(crate) fn read(text: &str) -> Option<DeedWord>
        ensures { result ≡ word_of text.now }
    {
        Some(match text {
            "order" => DeedWord::Order,
            "orders" => DeedWord::Orders,
            "start" => DeedWord::OfBatch(BatchWord::Start),
            "draw" => DeedWord::OfBatch(BatchWord::Draw),
            "lend" => DeedWord::OfBatch(BatchWord::Lend),
            "commission" => DeedWord::OfBatch(BatchWord::Commission),
            "spoil" => DeedWord::OfBatch(BatchWord::Spoil),
            "giveback" => DeedWord::OfBatch(BatchWord::Giveback),
            "sample" => DeedWord::OfBatch(BatchWord::Sample),
            "reject" => DeedWord::OfBatch(BatchWord::Reject),
            "reinstate" => DeedWord::OfBatch(BatchWord::Reinstate),
            "destroy" => DeedWord::OfBatch(BatchWord::Destroy),
            "decommission" => DeedWord::OfBatch(BatchWord::Decommission),
            "container" => DeedWord::OfBatch(BatchWord::Container),
            "pack" => DeedWord::OfUnit(UnitWord::Pack),
            "unpack" => DeedWord::OfUnit(UnitWord::Unpack),
            "unpack_all" => DeedWord::OfUnit(UnitWord::UnpackAll),
            "seal" => DeedWord::OfUnit(UnitWord::Seal),
            "unseal" => DeedWord::OfUnit(UnitWord::Unseal),
            "void" => DeedWord::OfUnit(UnitWord::Void),
            "declare" => DeedWord::OfBatch(BatchWord::Declare),
            "close" => DeedWord::OfBatch(BatchWord::Close),
            "amend" => DeedWord::OfBatch(BatchWord::Amend),
            _ => return None,
        })
    }
}

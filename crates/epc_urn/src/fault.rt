//! Why a text is no URN.
ghost use Rattle.std.specs.Prelude.{◌≡◌};
ghost use Rattle.epc_urn.specs.Reading.{placed};

/// The first fault of a text from the left. Places count bytes from 0.
#[derive(Clone, Copy, Debug, PartialEq, Eq)]
pub enum UrnFault {
    /// The text begins neither with `urn:epc:id:sgtin:` nor with `urn:epc:id:sscc:`.
    UnknownScheme,
    /// The company prefix has this length, which is none of 6 to 12, and a dot behind it.
    BadPrefixLength(u64),
    /// The byte at this place isn't what the field needs there, or the text ends there too early, or goes on too long.
    BadField(u64),
    /// The `%` at this place isn't followed by two of `0` to `9` and `A` to `F`.
    BadEscape(u64),
    /// The `%` at this place begins an escape of a character that stands as it is, or of none that a serial has.
    EscapeNotNeeded(u64),
    /// The serial has a 21st character.
    TooLong,
}

/// Where reading stopped, told by how many bytes were left there.
#[derive(Clone, Copy, Debug, PartialEq, Eq)]
pub(crate) enum Stop {
    UnknownScheme,
    BadPrefixLength(usize),
    BadField(usize),
    BadEscape(usize),
    EscapeNotNeeded(usize),
    TooLong,
}

impl Stop {
    /// The fault in a text of this length.
    pub(crate) fn placed(self, total: usize) -> UrnFault
        ensures { result ≡ placed total self }
    {
        match self {
            Stop::UnknownScheme => UrnFault::UnknownScheme,
            Stop::BadPrefixLength(len) => UrnFault::BadPrefixLength(len as u64),
            Stop::BadField(left) => UrnFault::BadField(total.saturating_sub(left) as u64),
            Stop::BadEscape(left) => UrnFault::BadEscape(total.saturating_sub(left) as u64),
            Stop::EscapeNotNeeded(left) => UrnFault::EscapeNotNeeded(
                total.saturating_sub(left) as u64,
            ),
            Stop::TooLong => UrnFault::TooLong,
        }
    }
}

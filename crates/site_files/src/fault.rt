//! What is wrong with a file.
ghost use Rattle.std.specs.Prelude.{◌≡◌};
ghost use Rattle.site_files.specs.Words.{word_text};

/// The words of a file's parts and fields.
#[derive(Clone, Copy, Debug, PartialEq, Eq)]
pub enum Word {
    Site,
    Gln,
    Prefix,
    Extension,
    Reference,
    Offset,
    Product,
    Gtin,
    PrefixLength,
    SerialLength,
    SerialAlphabet,
    Station,
    Name,
    Role,
    /// The rows of an order file.
    Rows,
}

impl Word {
    /// The word as it stands in a site file.
    pub fn text(self) -> &'static str
        ensures { result.now ≡ word_text self }
    {
        match self {
            Word::Site => "site",
            Word::Gln => "gln",
            Word::Prefix => "prefix",
            Word::Extension => "extension",
            Word::Reference => "reference",
            Word::Offset => "offset",
            Word::Product => "product",
            Word::Gtin => "gtin",
            Word::PrefixLength => "prefix_length",
            Word::SerialLength => "serial_length",
            Word::SerialAlphabet => "serial_alphabet",
            Word::Station => "station",
            Word::Name => "name",
            Word::Role => "role",
            Word::Rows => "rows",
        }
    }
}

/// The first fault of a file.
#[derive(Clone, Copy, Debug, PartialEq, Eq)]
pub enum FileFault {
    /// The bytes are no TOML.
    Unreadable,
    /// The part or field is missing.
    NoField(Word),
    /// The part or field is wrong.
    BadField(Word),
    /// An earlier entry has the same GTIN or name.
    Twice(Word),
    /// More than 256 products, 64 stations or 1,000 rows.
    TooMany(Word),
    /// Memory is wanting.
    Memory,
    /// The field in this column, from 1, of this record of an order file, from 1 with the header, is
    /// wrong. Column 0 says that the record hasn't seven fields, or, of record 1, that it isn't the header.
    Row(u64, u64),
}

impl From<gs1_keys::Memory> for FileFault {
    ghost use Rattle.site_files.specs.declared.fault.FileFault.TheVariants.{Memory};

    ghost from_gives = { λ _ e. e ≡ Memory };

    fn from(_refused: gs1_keys::Memory) -> FileFault {
        FileFault::Memory
    }
}

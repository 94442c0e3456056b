//! Why a command is refused: its number and its word.
ghost use Rattle.std.specs.Prelude.{◌≡◌};
ghost use Rattle.dt_reply.specs.Refusal.{number_of, word_of};

/// Why a line is refused.
#[derive(Clone, Copy)]
pub enum Refusal {
    /// The line is in no line form.
    Syntax,
    /// A type, a buffer or a session that is used doesn't stand, or a name of MPI that is used names no basic type.
    UnknownName,
    /// The name to be made stands already, or would be a type's and begins as those of MPI do.
    NameTaken,
    /// A basic type that is used is left out by this library, such as `MPI_DOUBLE`.
    UnsupportedKind,
    /// A session would be opened, or elements copied or reduced, over a type that isn't committed.
    NotCommitted,
    /// A basic type would be freed.
    BasicType,
    /// The contents, or an old type, of a basic type is asked for.
    NamedType,
    /// The type has no old type of that number.
    NoSuchChild,
    /// A count, a length or another argument is outside what MPI allows, such as a negative count; or a weight is out of range.
    BadArgument,
    /// A bound or the size of the type to be made is out of range, or the entries of the type to be rebuilt lie too far apart.
    Overflow,
    /// The type to be made would have too many levels.
    TooDeep,
    /// The type to be made would list too many blocks, displacements and parts.
    TooHeavy,
    /// As many types, buffers or sessions as may stand do stand.
    TooManyNames,
    /// The typemap has more entries than a reply may list, or than a least tree is looked for.
    TooManyEntries,
    /// Some byte of some element lies outside the buffer.
    Outside,
    /// Two elements that would be written have a common byte.
    Overlap,
    /// A buffer, all buffers together, the packed bytes, or those of all sessions or ranks together would be too many bytes; or there are
    /// too many ranks.
    TooLarge,
    /// Bytes would be taken from an unpack session, or sought in it, or given to a pack session.
    WrongDirection,
    /// More bytes would be given than are still to come, or more elements would be copied than there are places for.
    Truncated,
    /// An element would be copied to the place of one of another kind.
    SignatureDiffers,
    /// A buffer would be changed by itself.
    SameBuffer,
    /// The bytes spell no type.
    BadWire,
}

impl Refusal {
    /// The number by which the refusal is printed. Of several, the least is answered.
    pub fn number(self) -> u32
        ensures { result ≡ number_of self }
    {
        match self {
            Refusal::Syntax => 1,
            Refusal::UnknownName => 2,
            Refusal::NameTaken => 3,
            Refusal::UnsupportedKind => 4,
            Refusal::NotCommitted => 5,
            Refusal::BasicType => 6,
            Refusal::NamedType => 7,
            Refusal::NoSuchChild => 8,
            Refusal::BadArgument => 9,
            Refusal::Overflow => 10,
            Refusal::TooDeep => 11,
            Refusal::TooHeavy => 12,
            Refusal::TooManyNames => 13,
            Refusal::TooManyEntries => 14,
            Refusal::Outside => 15,
            Refusal::Overlap => 16,
            Refusal::TooLarge => 17,
            Refusal::WrongDirection => 18,
            Refusal::Truncated => 19,
            Refusal::SignatureDiffers => 20,
            Refusal::SameBuffer => 21,
            Refusal::BadWire => 22,
        }
    }

    /// The words that follow the number.
    pub fn word(self) -> &'static str
        ensures { result.now ≡ word_of self }
    {
        match self {
            Refusal::Syntax => "syntax",
            Refusal::UnknownName => "unknown name",
            Refusal::NameTaken => "name taken",
            Refusal::UnsupportedKind => "unsupported kind",
            Refusal::NotCommitted => "not committed",
            Refusal::BasicType => "basic type",
            Refusal::NamedType => "named type",
            Refusal::NoSuchChild => "no such child",
            Refusal::BadArgument => "bad argument",
            Refusal::Overflow => "overflow",
            Refusal::TooDeep => "too deep",
            Refusal::TooHeavy => "too heavy",
            Refusal::TooManyNames => "too many names",
            Refusal::TooManyEntries => "too many entries",
            Refusal::Outside => "outside",
            Refusal::Overlap => "overlap",
            Refusal::TooLarge => "too large",
            Refusal::WrongDirection => "wrong direction",
            Refusal::Truncated => "truncated",
            Refusal::SignatureDiffers => "signature differs",
            Refusal::SameBuffer => "same buffer",
            Refusal::BadWire => "bad wire",
        }
    }
}

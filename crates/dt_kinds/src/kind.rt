//! The kind table: names, sizes and signs.
ghost use Rattle.std.specs.Prelude.{◌≡◌, codes};
ghost use Rattle.dt_kinds.specs.Kind.{native_size, external_size, is_signed, name_of};
ghost use Rattle.dt_kinds.specs.Name.{kind_of};
ghost use Rattle.std.specs.List.{list_any, find};
ghost use Rattle.std.specs.Str.{bytes_eq};

/// A basic type of MPI 4.1, section 3.2.2, without floating-point, complex and logical types.
#[derive(Clone, Copy, Debug, PartialEq, Eq)]
pub enum Kind {
    Byte,
    Char,
    SignedChar,
    UnsignedChar,
    Short,
    UnsignedShort,
    Int,
    Unsigned,
    Long,
    UnsignedLong,
    LongLong,
    UnsignedLongLong,
    Int8,
    Int16,
    Int32,
    Int64,
    Uint8,
    Uint16,
    Uint32,
    Uint64,
    Aint,
    Count,
    Offset,
}

/// How packed bytes represent the elements: as they lie in memory, or as `external32` of MPI 4.1,
/// section 14.5.2.
#[derive(Clone, Copy, Debug, PartialEq, Eq)]
pub enum Rep {
    Native,
    External32,
}

/// Why a word names no kind.
#[derive(Clone, Copy, Debug, PartialEq, Eq)]
pub enum KindFault {
    /// It names an MPI datatype that this library leaves out.
    Unsupported,
    /// It is any other word.
    Unknown,
}

/// All kinds, in the order of their numbers.
pub const KINDS: [Kind; 23] = [
    Kind::Byte,
    Kind::Char,
    Kind::SignedChar,
    Kind::UnsignedChar,
    Kind::Short,
    Kind::UnsignedShort,
    Kind::Int,
    Kind::Unsigned,
    Kind::Long,
    Kind::UnsignedLong,
    Kind::LongLong,
    Kind::UnsignedLongLong,
    Kind::Int8,
    Kind::Int16,
    Kind::Int32,
    Kind::Int64,
    Kind::Uint8,
    Kind::Uint16,
    Kind::Uint32,
    Kind::Uint64,
    Kind::Aint,
    Kind::Count,
    Kind::Offset,
];

/// The names of MPI 4.1, sections 3.2.2 and 6.9.4, that this library leaves out.
const LEFT_OUT: [&str; 22] = [
    "MPI_FLOAT",
    "MPI_DOUBLE",
    "MPI_LONG_DOUBLE",
    "MPI_WCHAR",
    "MPI_C_BOOL",
    "MPI_C_COMPLEX",
    "MPI_C_FLOAT_COMPLEX",
    "MPI_C_DOUBLE_COMPLEX",
    "MPI_C_LONG_DOUBLE_COMPLEX",
    "MPI_PACKED",
    "MPI_FLOAT_INT",
    "MPI_DOUBLE_INT",
    "MPI_LONG_INT",
    "MPI_2INT",
    "MPI_SHORT_INT",
    "MPI_LONG_DOUBLE_INT",
    "MPI_INTEGER",
    "MPI_REAL",
    "MPI_DOUBLE_PRECISION",
    "MPI_COMPLEX",
    "MPI_LOGICAL",
    "MPI_CHARACTER",
];

impl Kind {
    /// The kind that a word names. `MPI_LONG_LONG_INT` is another name of `MPI_LONG_LONG` (MPI 4.1, section 3.2.2).
    /// `Unsupported` for a name that this library leaves out, `Unknown` for any other word.
    pub fn of_name(word: &[u8]) -> Result<Kind, KindFault>
        ensures { result ≡ kind_of word.now }
    {
        if is_one_of(word, &LEFT_OUT) {
            return Err(KindFault::Unsupported);
        }
        if word == "MPI_LONG_LONG_INT".as_bytes() {
            return Ok(Kind::LongLong);
        }
        first_named(word, &KINDS).ok_or(KindFault::Unknown)
    }

    /// The bytes of an element in memory, which are its alignment too: 1, 2, 4 or 8.
    pub fn size(self) -> u32
        ensures { result ≡ native_size self }
    {
        match self {
            Kind::Byte | Kind::Char | Kind::SignedChar | Kind::UnsignedChar => 1,
            Kind::Int8 | Kind::Uint8 => 1,
            Kind::Short | Kind::UnsignedShort | Kind::Int16 | Kind::Uint16 => 2,
            Kind::Int | Kind::Unsigned | Kind::Int32 | Kind::Uint32 => 4,
            Kind::Long | Kind::UnsignedLong | Kind::LongLong | Kind::UnsignedLongLong => 8,
            Kind::Int64 | Kind::Uint64 | Kind::Aint | Kind::Count | Kind::Offset => 8,
        }
    }

    /// The bytes of an element in external32 (MPI 4.1, section 14.5.2).
    pub fn ext_size(self) -> u32
        ensures { result ≡ external_size self }
    {
        match self {
            Kind::Long | Kind::UnsignedLong => 4,
            other => other.size(),
        }
    }

    /// Whether the kind's values have a sign; those of `MPI_CHAR` do.
    pub fn signed(self) -> bool
        ensures { result ≡ is_signed self }
    {
        match self {
            Kind::Char | Kind::SignedChar | Kind::Short | Kind::Int | Kind::Long => true,
            Kind::LongLong | Kind::Int8 | Kind::Int16 | Kind::Int32 | Kind::Int64 => true,
            Kind::Aint | Kind::Count | Kind::Offset => true,
            Kind::Byte | Kind::UnsignedChar | Kind::UnsignedShort | Kind::Unsigned => false,
            Kind::UnsignedLong | Kind::UnsignedLongLong => false,
            Kind::Uint8 | Kind::Uint16 | Kind::Uint32 | Kind::Uint64 => false,
        }
    }

    /// The name of the MPI datatype, such as `MPI_INT`.
    pub fn name(self) -> &'static str
        ensures { result.now ≡ name_of self }
    {
        match self {
            Kind::Byte => "MPI_BYTE",
            Kind::Char => "MPI_CHAR",
            Kind::SignedChar => "MPI_SIGNED_CHAR",
            Kind::UnsignedChar => "MPI_UNSIGNED_CHAR",
            Kind::Short => "MPI_SHORT",
            Kind::UnsignedShort => "MPI_UNSIGNED_SHORT",
            Kind::Int => "MPI_INT",
            Kind::Unsigned => "MPI_UNSIGNED",
            Kind::Long => "MPI_LONG",
            Kind::UnsignedLong => "MPI_UNSIGNED_LONG",
            Kind::LongLong => "MPI_LONG_LONG",
            Kind::UnsignedLongLong => "MPI_UNSIGNED_LONG_LONG",
            Kind::Int8 => "MPI_INT8_T",
            Kind::Int16 => "MPI_INT16_T",
            Kind::Int32 => "MPI_INT32_T",
            Kind::Int64 => "MPI_INT64_T",
            Kind::Uint8 => "MPI_UINT8_T",
            Kind::Uint16 => "MPI_UINT16_T",
            Kind::Uint32 => "MPI_UINT32_T",
            Kind::Uint64 => "MPI_UINT64_T",
            Kind::Aint => "MPI_AINT",
            Kind::Count => "MPI_COUNT",
            Kind::Offset => "MPI_OFFSET",
        }
    }
}

/// Whether a word is one of some names.
fn is_one_of(word: &[u8], names: &[&str]) -> bool
    ensures { result ≡ list_any (λ name. bytes_eq word.now name.now) names.now }
{
    names.iter().any(|name| word == name.as_bytes())
}

/// The first of some kinds whose name a word is.
fn first_named(word: &[u8], kinds: &[Kind]) -> Option<Kind>
    ensures { result ≡ find (λ kind. bytes_eq word.now (name_of kind)) kinds.now }
{
    kinds
        .iter()
        .copied()
        .find(|kind| word == kind.name().as_bytes())
}

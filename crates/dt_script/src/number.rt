ghost use Rattle.std.specs.Prelude.{◌≡◌, min, pos, negsuc};
ghost use Rattle.std.specs.Option.{option_map};
ghost use Rattle.dt_script.specs.Name.{is_digit};
ghost use Rattle.dt_script.specs.Number.{natural_of, bounded, int_of, address_of};

/// Numbers are counted up to here, which is past the range of every integer of a script.
pub(crate) const COUNTED: u128 = (1 << 63) + 1;

/// Whether a byte is a decimal digit.
pub(crate) fn is_digit(b: u8) -> bool
    ensures { result ≡ is_digit b }
{
    (b'0'..=b'9').contains(&b)
}

/// The number that a word of digits spells, or `COUNTED` where it is greater.
fn natural(word: &[u8]) -> Option<u128>
    ensures { result ≡ option_map (λ n. min n COUNTED) (natural_of word.now) }
{
    if word.is_empty() {
        return None;
    }
    let mut number = 0u128;
    for b in word {
        if !is_digit(*b) {
            return None;
        }
        number = (number * 10 + u128::from(*b - b'0')).min(COUNTED);
    }
    Some(number)
}

/// A number, where an `i32` holds it.
fn as_int(value: i128) -> Option<i32>
    ensures { result ≡ bounded (negsuc 2147483647) (pos 2147483647) value }
{
    i32::try_from(value).ok()
}

/// A number, where an `i64` holds it.
fn as_address(value: i128) -> Option<i64>
    ensures { result ≡ bounded (negsuc 9223372036854775807) (pos 9223372036854775807) value }
{
    i64::try_from(value).ok()
}

/// The number that a word spells, where an `i32` holds it.
#[tactic(auto, unfolding(crate::specs::Number::int_of))]
pub(crate) fn int(word: &[u8]) -> Option<i32>
    ensures { result ≡ int_of word.now }
{
    let (first, digits) = word.split_first()?;
    if *first == b'-' {
        as_int(-(natural(digits)? as i128))
    } else {
        as_int(natural(word)? as i128)
    }
}

/// The number that a word spells, where an `i64` holds it.
#[tactic(auto, unfolding(crate::specs::Number::address_of))]
pub(crate) fn address(word: &[u8]) -> Option<i64>
    ensures { result ≡ address_of word.now }
{
    let (first, digits) = word.split_first()?;
    if *first == b'-' {
        as_address(-(natural(digits)? as i128))
    } else {
        as_address(natural(word)? as i128)
    }
}

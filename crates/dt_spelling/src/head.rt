//! The first words of nodes.
ghost use Rattle.std.specs.Prelude.{◌≡◌};
ghost use Rattle.dt_spelling.specs.Reading.{has_room, head_named, head_in};

/// What the first word of a node says it is.
#[derive(Clone, Copy)]
pub(crate) enum Head {
    Leaf,
    Vector,
    Index,
    Group,
}

/// Which node a word begins.
#[tactic(auto, unfolding(crate::specs::Reading::head_named))]
fn head_named(word: &[u8]) -> Option<Head>
    ensures { result ≡ head_named word.now }
{
    if word == "leaf".as_bytes() {
        Some(Head::Leaf)
    } else if word == "vector".as_bytes() {
        Some(Head::Vector)
    } else if word == "index".as_bytes() {
        Some(Head::Index)
    } else if word == "struct".as_bytes() {
        Some(Head::Group)
    } else {
        None
    }
}

/// Whether a node can stand where so many levels may be below it, with so many nodes, places and parts.
fn has_room(levels: u32, spare: u32, head: Head) -> bool
    ensures { result ≡ has_room levels spare head }
{
    match head {
        Head::Leaf => true,
        Head::Vector => levels >= 1 && spare >= 1,
        Head::Index => levels >= 1 && spare >= 2,
        Head::Group => levels >= 1 && spare >= 2,
    }
}

/// Which node a word begins that can stand there.
#[tactic(auto, unfolding(crate::specs::Reading::head_in))]
pub(crate) fn head_in(levels: u32, spare: u32, word: &[u8]) -> Option<Head>
    ensures { result ≡ head_in levels spare word.now }
{
    let head = head_named(word)?;
    if has_room(levels, spare, head) {
        Some(head)
    } else {
        None
    }
}

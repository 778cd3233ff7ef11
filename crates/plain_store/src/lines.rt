//! Words and lines, read without the code that is tested.

/// The greatest number that the words and lines have.
pub(crate) const GREATEST: u64 = 4_294_967_295;

/// What the objects are, with its numbers.
#[derive(Clone, Copy)]
pub(crate) enum Kind {
    L1 { components: u64, most: u64 },
    LInf { components: u64, most: u64 },
    Hamming { bytes: u64 },
    Sets { universe: u64, most: u64 },
}

/// What the words ask for: the kind of objects, and how many pivots are wanted.
#[derive(Drop)]
pub(crate) struct Setup {
    pub(crate) kind: Kind,
    pub(crate) wanted: u64,
}

/// An object's text with its collection and id.
#[derive(Clone, Copy)]
pub(crate) struct Member<'a> {
    pub(crate) collection: u64,
    pub(crate) id: u64,
    pub(crate) object: &'a [u8],
}

/// What a line asks for.
#[derive(Clone, Copy)]
pub(crate) enum Request<'a> {
    Sample(&'a [u8]),
    Add(Member<'a>),
    Discard {
        collection: u64,
        id: u64,
    },
    Get {
        collection: u64,
        id: u64,
    },
    Count {
        collection: u64,
    },
    Range {
        collection: u64,
        radius: u64,
        query: &'a [u8],
    },
    Near {
        collection: u64,
        many: u64,
        query: &'a [u8],
    },
    Join {
        left: u64,
        right: u64,
        radius: u64,
    },
}

/// What the words of the program ask for.
pub(crate) fn setup_of(words: &[&str]) -> Option<Setup> {
    let (kind, pivots) = match words {
        ["mem", "hamming", bytes, pivots @ ..] => (hamming_of(bytes)?, pivots),
        ["mem", name, first, second, pivots @ ..] => (kind_of(name, first, second)?, pivots),
        _ => return None,
    };
    let wanted = match pivots {
        [] => 0,
        [word] => number(word.as_bytes(), 0, 8)?,
        _ => return None,
    };
    Some(Setup { kind, wanted })
}

/// Strings of this many bytes.
fn hamming_of(bytes: &str) -> Option<Kind> {
    let bytes = number(bytes.as_bytes(), 1, 120)?;
    Some(Kind::Hamming { bytes })
}

/// The kind of objects with the name and two numbers.
fn kind_of(name: &str, first: &str, second: &str) -> Option<Kind> {
    match name {
        "l1" => {
            let components = number(first.as_bytes(), 1, 30)?;
            let most = number(second.as_bytes(), 1, GREATEST)?;
            if components.saturating_mul(most) > GREATEST {
                return None;
            }
            Some(Kind::L1 { components, most })
        }
        "linf" => Some(Kind::LInf {
            components: number(first.as_bytes(), 1, 30)?,
            most: number(second.as_bytes(), 1, GREATEST)?,
        }),
        "sets" => Some(Kind::Sets {
            universe: number(first.as_bytes(), 1, GREATEST)?,
            most: number(second.as_bytes(), 1, 30)?,
        }),
        _ => None,
    }
}

/// The number from `least` to `most` that the word spells.
pub(crate) fn number(word: &[u8], least: u64, most: u64) -> Option<u64> {
    let text = std::str::from_utf8(word).ok()?;
    let value = text.parse::<u64>().ok()?;
    let is_padded = text.len() > 1 && text.starts_with('0');
    if is_padded || text.starts_with('+') || value < least || value > most {
        return None;
    }
    Some(value)
}

/// What the words of a line ask for, or what fails first in them.
pub(crate) fn request_of<'a>(kind: Kind, words: &[&'a [u8]]) -> Result<Request<'a>, &'static str> {
    let [name, parts @ ..] = words else {
        return no_command();
    };
    match *name {
        b"sample" => sample_of(kind, parts),
        b"add" => add_of(kind, parts),
        b"drop" => discard_of(parts),
        b"get" => get_of(parts),
        b"count" => count_of(parts),
        b"range" => range_of(kind, parts),
        b"near" => near_of(kind, parts),
        b"join" => join_of(parts),
        _ => no_command(),
    }
}

/// The answer if the name isn't a command's, or the number of words is wrong.
fn no_command<'a>() -> Result<Request<'a>, &'static str> {
    Err("command")
}

/// What `sample OBJ` asks for.
fn sample_of<'a>(kind: Kind, parts: &[&'a [u8]]) -> Result<Request<'a>, &'static str> {
    let [object] = parts else {
        return no_command();
    };
    Ok(Request::Sample(object_of(kind, object)?))
}

/// What `add C ID OBJ` asks for.
fn add_of<'a>(kind: Kind, parts: &[&'a [u8]]) -> Result<Request<'a>, &'static str> {
    let [collection, id, object] = parts else {
        return no_command();
    };
    Ok(Request::Add(Member {
        collection: collection_of(collection)?,
        id: id_of(id)?,
        object: object_of(kind, object)?,
    }))
}

/// What `drop C ID` asks for.
fn discard_of<'a>(parts: &[&'a [u8]]) -> Result<Request<'a>, &'static str> {
    let [collection, id] = parts else {
        return no_command();
    };
    Ok(Request::Discard {
        collection: collection_of(collection)?,
        id: id_of(id)?,
    })
}

/// What `get C ID` asks for.
fn get_of<'a>(parts: &[&'a [u8]]) -> Result<Request<'a>, &'static str> {
    let [collection, id] = parts else {
        return no_command();
    };
    Ok(Request::Get {
        collection: collection_of(collection)?,
        id: id_of(id)?,
    })
}

/// What `count C` asks for.
fn count_of<'a>(parts: &[&'a [u8]]) -> Result<Request<'a>, &'static str> {
    let [collection] = parts else {
        return no_command();
    };
    Ok(Request::Count {
        collection: collection_of(collection)?,
    })
}

/// What `range C R OBJ` asks for.
fn range_of<'a>(kind: Kind, parts: &[&'a [u8]]) -> Result<Request<'a>, &'static str> {
    let [collection, radius, query] = parts else {
        return no_command();
    };
    Ok(Request::Range {
        collection: collection_of(collection)?,
        radius: number(radius, 0, GREATEST).ok_or("number")?,
        query: object_of(kind, query)?,
    })
}

/// What `near C K OBJ` asks for.
fn near_of<'a>(kind: Kind, parts: &[&'a [u8]]) -> Result<Request<'a>, &'static str> {
    let [collection, many, query] = parts else {
        return no_command();
    };
    Ok(Request::Near {
        collection: collection_of(collection)?,
        many: number(many, 1, 65_536).ok_or("number")?,
        query: object_of(kind, query)?,
    })
}

/// What `join C D R` asks for.
fn join_of<'a>(parts: &[&'a [u8]]) -> Result<Request<'a>, &'static str> {
    let [left, right, radius] = parts else {
        return no_command();
    };
    Ok(Request::Join {
        left: collection_of(left)?,
        right: collection_of(right)?,
        radius: number(radius, 0, GREATEST).ok_or("number")?,
    })
}

/// The collection that the word names.
fn collection_of(word: &[u8]) -> Result<u64, &'static str> {
    number(word, 0, 3).ok_or("collection")
}

/// The id that the word spells.
fn id_of(word: &[u8]) -> Result<u64, &'static str> {
    number(word, 0, GREATEST).ok_or("id")
}

/// The word, if it is the text of an object.
fn object_of<'a>(kind: Kind, word: &'a [u8]) -> Result<&'a [u8], &'static str> {
    let is_object = match kind {
        Kind::L1 { components, most } | Kind::LInf { components, most } => {
            is_vector(word, components, most)
        }
        Kind::Hamming { bytes } => is_hexadecimal(word, bytes),
        Kind::Sets { universe, most } => word == b"-".as_slice() || is_set(word, universe, most),
    };
    if is_object { Ok(word) } else { Err("object") }
}

/// Whether the text is this many numbers up to `most`.
fn is_vector(text: &[u8], components: u64, most: u64) -> bool {
    let mut seen = 0u64;
    for part in text.split(|b| *b == b',') {
        if number(part, 0, most).is_none() {
            return false;
        }
        seen = seen.saturating_add(1);
    }
    seen == components
}

/// Whether the text is two digits for each of this many bytes.
fn is_hexadecimal(text: &[u8], bytes: u64) -> bool {
    for digit in text {
        if !b"0123456789abcdef".contains(digit) {
            return false;
        }
    }
    text.len() as u64 == bytes.saturating_mul(2)
}

/// Whether the text is at most this many numbers below `universe`, each above the one before.
fn is_set(text: &[u8], universe: u64, most: u64) -> bool {
    let mut seen = 0u64;
    let mut least = 0u64;
    for part in text.split(|b| *b == b',') {
        let Some(element) = number(part, least, GREATEST) else {
            return false;
        };
        if element >= universe {
            return false;
        }
        least = element.saturating_add(1);
        seen = seen.saturating_add(1);
    }
    seen <= most
}

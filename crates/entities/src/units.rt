ghost use Rattle.std.specs.Prelude.{◌≡◌, ◌+◌, ◌<◌, [], ◌∷◌, length, drop, MatchOption};
ghost use Rattle.entities.specs.Entities.{five, value, width, written};

// The byte that the front of a field stands for, and the rest of the field.
#[derive(Clone, Copy, Debug)]
pub struct Decoded<'a> {
    pub byte: u8,
    pub rest: &'a [u8],
}

// What the front of a field stands for; none where its `&` begins no entity, or where there is no byte.
pub fn unit(field: &[u8]) -> Option<Decoded<'_>>
    ensures { MatchOption result (width five field.now ≡ 0) (λ u. (0 < width five field.now) × (u.byte ≡ value five field.now) × (u.rest.now ≡ drop (width five field.now) field.now) × (length u.rest.now + width five field.now ≡ length field.now)) }
{
    let (byte, rest) = front(field)?;
    Some(Decoded { byte, rest })
}

// Apart from `unit`, so that a wrong `unit` is refused for its own contract.
fn front(field: &[u8]) -> Option<(u8, &[u8])>
    ensures { MatchOption result (width five field.now ≡ 0) (λ u. (0 < width five field.now) × (u.0 ≡ value five field.now) × (u.1.now ≡ drop (width five field.now) field.now) × (length u.1.now + width five field.now ≡ length field.now)) }
{
    match field {
        [b'&', b'a', b'm', b'p', b';', rest @ ..] => Some((b'&', rest)),
        [b'&', b'l', b't', b';', rest @ ..] => Some((b'<', rest)),
        [b'&', b'g', b't', b';', rest @ ..] => Some((b'>', rest)),
        [b'&', b'a', b'p', b'o', b's', b';', rest @ ..] => Some((b'\'', rest)),
        [b'&', b'q', b'u', b'o', b't', b';', rest @ ..] => Some((b'"', rest)),
        [b'&', ..] => None,
        [b, rest @ ..] => Some((*b, rest)),
        [] => None,
    }
}

// The entity that a character is written by, if it has one.
pub fn entity(c: char) -> Option<&'static str>
    ensures { MatchOption result (written c ≡ c ∷ []) (λ e. e.now ≡ written c) }
{
    match c {
        '&' => Some("&amp;"),
        '<' => Some("&lt;"),
        '>' => Some("&gt;"),
        '\'' => Some("&apos;"),
        '"' => Some("&quot;"),
        _ => None,
    }
}

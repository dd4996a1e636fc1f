ghost use Rattle.std.specs.Prelude.{◌≡◌, ◌+◌, ◌<◌, ◌≤◌, length, take, drop, IfSome, MatchOption};
ghost use Rattle.texts.specs.Lines.{beyond, reach};

// How many bytes come before the first `separator`; all of them where there is none. A loop, since a text is gone through by it
// byte by byte: by `position` a long line took up to twice the time.
fn offset(bytes: &[u8], separator: u8) -> usize
    ensures value { result ≡ reach separator bytes.now }
    ensures within { result ≤ length bytes.now }
{
    for (i, b) in bytes.iter().enumerate() {
        if *b == separator {
            return i;
        }
    }
    bytes.len()
}

// What stands before the first `separator`, and what follows it. It reads no further than the separator.
pub fn cut(bytes: &[u8], separator: u8) -> (&[u8], Option<&[u8]>)
    ensures front { result.0.now ≡ take (reach separator bytes.now) bytes.now }
    ensures start { result.0.ref_ptr ≡ bytes.entry.ref_ptr }
    ensures back { MatchOption result.1 (reach separator bytes.now ≡ length bytes.now) (λ t. (reach separator bytes.now < length bytes.now) × (t.now ≡ drop (reach separator bytes.now + 1) bytes.now)) }
    ensures after { IfSome result.1 (λ t. t.ref_ptr ≡ beyond bytes.entry.ref_ptr (reach separator bytes.now + 1)) }
{
    let end = offset(bytes, separator);
    if end < bytes.len() {
        (&bytes[..end], Some(&bytes[end + 1..]))
    } else {
        (bytes, None)
    }
}

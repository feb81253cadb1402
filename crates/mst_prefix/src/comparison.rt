//! The text of an entry, compared in place with one that is kept. It costs less than to spell it.
ghost use Rattle.std.specs.Prelude.{◌≡◌, ◌≤◌, true, ◌∷◌, ◌++◌, length, IfSome};
ghost use Rattle.mst_node.specs.Text.{child_text, counted};
ghost use Rattle.mst_prefix.specs.Texts.{ArePast};

/// Whether the bytes are the same.
#[inline(always)]
fn is_same_word(one: &[u8; 8], other: &[u8; 8]) -> bool
    ensures same { result ≡ true → one.now ≡ other.now }
{
    u64::from_le_bytes(*one) == u64::from_le_bytes(*other)
}

/// What follows on the first eight bytes in both texts, if these are the same.
#[inline(always)]
fn past_word<'a, 'b>(one: &'a [u8], other: &'b [u8]) -> Option<(&'a [u8], &'b [u8])>
    ensures past { IfSome result (λ rests. ArePast one.now other.now rests.0.now rests.1.now) }
{
    let (first, rest) = one.split_first_chunk::<8>()?;
    let (second, other_rest) = other.split_first_chunk::<8>()?;
    if is_same_word(first, second) {
        Some((rest, other_rest))
    } else {
        None
    }
}

/// What follows on these bytes, if the text begins with them. Eight at once are compared, which
/// costs less than a comparison of slices.
#[inline(always)]
fn after_words<'a>(text: &'a [u8], bytes: &[u8]) -> Option<&'a [u8]>
    ensures rest { IfSome result (λ rest. text.now ≡ bytes.now ++ rest.now) }
{
    // After this test the compiled code needs none before each word.
    if text.len() < bytes.len() {
        return None;
    }
    let (mut rest, mut left) = (text, bytes);
    for _ in 0..bytes.len() / 8 {
        let rests = past_word(rest, left)?;
        rest = rests.0;
        left = rests.1;
    }
    if left.is_empty() {
        return Some(rest);
    }
    rest.strip_prefix(left)
}

/// What follows on these bytes, if the text begins with them. Of the lengths that most keys and
/// values have, the compiled code then knows how many words it compares.
#[inline(always)]
pub(crate) fn after<'a>(text: &'a [u8], bytes: &[u8]) -> Option<&'a [u8]>
    ensures rest { IfSome result (λ rest. text.now ≡ bytes.now ++ rest.now) }
{
    match bytes.len() {
        0 => Some(text),
        16 => after_words(text, &bytes[..16]),
        32 => after_words(text, &bytes[..32]),
        _ => after_words(text, bytes),
    }
}

/// What follows on this byte, if the text begins with it.
#[inline(always)]
fn after_byte(text: &[u8], byte: u8) -> Option<&[u8]>
    ensures rest { IfSome result (λ rest. text.now ≡ byte ∷ rest.now) }
{
    let (first, rest) = text.split_first()?;
    if *first == byte { Some(rest) } else { None }
}

/// What follows on a child, if the text begins with it.
#[inline(always)]
pub(crate) fn after_child<'a>(text: &'a [u8], child: &Option<[u8; 32]>) -> Option<&'a [u8]>
    ensures rest { IfSome result (λ rest. text.now ≡ child_text child.now ++ rest.now) }
{
    match child {
        None => after_byte(text, 0),
        Some(digest) => after_words(after_byte(text, 1)?, digest.as_slice()),
    }
}

/// What follows on bytes after their number, if the text begins with them.
#[inline(always)]
pub(crate) fn after_counted<'a>(text: &'a [u8], bytes: &[u8]) -> Option<&'a [u8]>
    requires few { length bytes.now ≤ 255 }
    ensures rest { IfSome result (λ rest. text.now ≡ counted bytes.now ++ rest.now) }
{
    after(after_byte(text, bytes.len() as u8)?, bytes)
}

/// Whether the text is bytes after their number.
#[inline(always)]
pub(crate) fn is_counted(text: &[u8], bytes: &[u8]) -> bool
    requires few { length bytes.now ≤ 255 }
    ensures same { result ≡ true → text.now ≡ counted bytes.now }
{
    match after_counted(text, bytes) {
        Some(rest) => rest.is_empty(),
        None => false,
    }
}

/// Whether the text is this digest.
#[inline(always)]
pub(crate) fn is_digest(text: &[u8], digest: &[u8; 32]) -> bool
    ensures same { result ≡ true → text.now ≡ digest.now }
{
    match after_words(text, digest.as_slice()) {
        Some(rest) => rest.is_empty(),
        None => false,
    }
}

//! Strings without escapes, which are pieces of the document.

ghost use Rattle.std.specs.Prelude.{◌≡◌, ◌≤◌, ◌<◌, ◌+◌, Ok, length, take, drop, IfSome, IsUtf8};
ghost use Rattle.std.specs.List.{flat_map};
ghost use Rattle.pv_notation.specs.Strings.{escaped};
ghost use Rattle.pv_json_grammar.specs.Strings as spec;

/// How many bytes of ASCII stand for themselves from here on.
#[tactic(auto, using(crate::proofs::PlainTexts::ascii_text, crate::proofs::PlainTexts::plain_more), unfolding(pv_json_grammar::specs::Strings::plain))]
pub(crate) fn ascii_len(s: &[u8]) -> usize
    ensures value { result ≡ spec.plain s.now }
    ensures within { result ≤ length s.now }
    ensures plain { flat_map escaped (take result s.now) ≡ take result s.now }
    ensures utf8 { IsUtf8 (take result s.now) }
{
    let mut n = 0;
    for b in s {
        if *b < 0x20 || 0x80 <= *b || *b == b'"' || *b == b'\\' {
            return n;
        }
        n += 1;
    }
    n
}

/// How many bytes stand up to the next quote, backslash or control character.
#[tactic(auto, using(crate::proofs::PlainTexts::plain_more))]
fn raw_len(s: &[u8]) -> usize
    ensures within { result ≤ length s.now }
    ensures plain { flat_map escaped (take result s.now) ≡ take result s.now }
{
    let mut n = 0;
    for b in s {
        if *b < 0x20 || *b == b'"' || *b == b'\\' {
            return n;
        }
        n += 1;
    }
    n
}

/// The length of the string behind its opening quote, where it has no escape and its closing quote
/// follows.
#[tactic(auto, using(crate::proofs::PlainTexts::plain_string))]
pub(crate) fn plain_len(s: &[u8]) -> Option<usize>
    ensures within { IfSome result (λ n. n < length s.now) }
    ensures utf8 { IfSome result (λ n. IsUtf8 (take n s.now)) }
    ensures value { IfSome result (λ n. spec.string s.now ≡ Ok (take n s.now, drop (n + 1) s.now)) }
{
    let ascii = ascii_len(s);
    if ascii < s.len() && s[ascii] == b'"' {
        return Some(ascii);
    }
    if ascii == s.len() || s[ascii] < 0x80 {
        return None;
    }
    let raw = raw_len(s);
    if raw < s.len() && s[raw] == b'"' && str::from_utf8(&s[..raw]).is_ok() {
        return Some(raw);
    }
    None
}

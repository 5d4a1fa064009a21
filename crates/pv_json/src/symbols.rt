//! Single bytes, white space and words. An `Err` tells how many bytes are left at the first that
//! fits nowhere.

ghost use Rattle.std.specs.Prelude.{◌≡◌, ◌≤◌, length, drop};
ghost use Rattle.pv_json_grammar.specs.Reading as spec;
ghost use Rattle.pv_json.specs.Gives.{Gives};

use crate::fault::ReadError;
use crate::rest::Rest;

/// A byte of this range, and what follows it.
#[tactic(auto, unfolding(pv_json_grammar::specs::Reading::byte_in))]
pub(crate) fn byte_in(least: u8, most: u8, s: &[u8]) -> Result<(u8, &[u8]), ReadError>
    ensures { Gives (λ x. (x.0, x.1.now)) result (spec.byte_in least most s.now) }
{
    let [b, rest @ ..] = s else {
        return Err(ReadError::Fault(0));
    };
    if least <= *b && *b <= most {
        Ok((*b, rest))
    } else {
        Err(ReadError::Fault(s.len()))
    }
}

/// What follows this byte.
#[tactic(auto, unfolding(pv_json_grammar::specs::Reading::past))]
pub(crate) fn past<'a>(byte: u8, s: &Rest<'a>) -> Result<Rest<'a>, ReadError>
    ensures { Gives (λ x. x) result (spec.past byte s.now) }
{
    let [b, rest @ ..] = s.as_slice() else {
        return Err(ReadError::Fault(0));
    };
    if *b != byte {
        return Err(ReadError::Fault(rest.len() + 1));
    }
    Ok(s.after(1))
}

/// How many bytes of white space stand at the front.
#[tactic(auto, unfolding(pv_json_grammar::specs::Reading::skip))]
fn blank_len(s: &[u8]) -> usize
    ensures within { result ≤ length s.now }
    ensures value { drop result s.now ≡ spec.skip s.now }
{
    let mut n = 0;
    for b in s {
        if !matches!(b, b' ' | b'\t' | b'\n' | b'\r') {
            return n;
        }
        n += 1;
    }
    n
}

/// What follows the white space.
pub(crate) fn skip<'a>(s: &Rest<'a>) -> Rest<'a>
    ensures { result ≡ spec.skip s.now }
{
    s.after(blank_len(s.as_slice()))
}

/// What follows this word.
#[tactic(auto, unfolding(pv_json_grammar::specs::Reading::after))]
fn behind<'a>(mut word: &[u8], mut s: &'a [u8]) -> Result<&'a [u8], ReadError>
    ensures { Gives (λ x. x.now) result (spec.after word.entry.now s.entry.now) }
{
    while let [w, more @ ..] = word {
        let [b, rest @ ..] = s else {
            return Err(ReadError::Fault(0));
        };
        if *b != *w {
            return Err(ReadError::Fault(s.len()));
        }
        word = more;
        s = rest;
    }
    Ok(s)
}

/// What follows this word, where it stands there.
#[tactic(auto, using(crate::proofs::Suffixes::word_within, crate::proofs::Suffixes::word_behind))]
pub(crate) fn after<'a>(word: &[u8], s: &Rest<'a>) -> Result<Rest<'a>, ReadError>
    ensures { Gives (λ x. x) result (spec.after word.now s.now) }
{
    let _behind = behind(word, s.as_slice())?;
    Ok(s.after(word.len()))
}

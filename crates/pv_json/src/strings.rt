//! Strings (RFC 8259, section 7, and RFC 3629), a unit at a time. What is read are the bytes of the
//! text.

ghost use Rattle.std.specs.Prelude.{◌≡◌, ◌≤◌, ◌<◌, ◌+◌, ◌*◌, ◌==◌, if◌then◌else◌};
ghost use Rattle.std.specs.Prelude.{◌++◌, unwrap_or, IfOk, IfSome, encode_utf8};
ghost use Rattle.std.specs.Char.{InScalarRange};
ghost use Rattle.pv_json_grammar.specs.Reading.{onto};
ghost use Rattle.pv_json_grammar.specs.Strings as spec;
ghost use Rattle.pv_json.specs.Gives.{Gives};

use crate::fault::ReadError;
use crate::plain::{ascii_len, plain_len};
use crate::rest::Rest;
use crate::symbols::byte_in;
use pv_text::{ByteBuf, Memory, Text};
use std::alloc::Global;

/// The least second byte of a character that begins with this byte.
fn second_least(first: u8) -> u8
    ensures { result ≡ spec.second_least first }
{
    match first {
        0xe0 => 0xa0,
        0xf0 => 0x90,
        _ => 0x80,
    }
}

/// The greatest second byte of a character that begins with this byte.
fn second_most(first: u8) -> u8
    ensures { result ≡ spec.second_most first }
{
    match first {
        0xed => 0x9f,
        0xf4 => 0x8f,
        _ => 0xbf,
    }
}

/// Appends a character of two to four bytes of UTF-8.
#[tactic(auto, unfolding(pv_json_grammar::specs::Strings::raw))]
fn raw<'a>(out: &mut ByteBuf, s: &'a [u8]) -> Result<&'a [u8], ReadError>
    ensures { Gives (λ rest. (out.new, rest.now)) result (onto out.old (spec.raw s.now)) }
{
    let [b, rest @ ..] = s else {
        return Err(ReadError::Fault(0));
    };
    let b = *b;
    if b < 0xc2 || 0xf4 < b {
        return Err(ReadError::Fault(s.len()));
    }
    let (c, rest) = byte_in(second_least(b), second_most(b), rest)?;
    if b < 0xe0 {
        out.push_slice(&[b, c])?;
        return Ok(rest);
    }
    let (d, rest) = byte_in(0x80, 0xbf, rest)?;
    if b < 0xf0 {
        out.push_slice(&[b, c, d])?;
        return Ok(rest);
    }
    let (e, rest) = byte_in(0x80, 0xbf, rest)?;
    out.push_slice(&[b, c, d, e])?;
    Ok(rest)
}

/// What a hexadecimal digit counts.
#[tactic(auto, unfolding(pv_json_grammar::specs::Strings::hex_value))]
fn hex_value(b: u8) -> Option<u8>
    ensures value { unwrap_or result 16 ≡ spec.hex_value b }
    ensures small { IfSome result (λ value. value < 16) }
{
    match b {
        b'0'..=b'9' => Some(b - b'0'),
        b'A'..=b'F' => Some(b - b'A' + 10),
        b'a'..=b'f' => Some(b - b'a' + 10),
        _ => None,
    }
}

/// A hexadecimal digit that counts so much, and what follows it.
#[tactic(auto, unfolding(pv_json_grammar::specs::Strings::hex))]
fn hex(least: u8, most: u8, s: &[u8]) -> Result<(u32, &[u8]), ReadError>
    requires { most < 16 }
    ensures value { Gives (λ x. (x.0, x.1.now)) result (spec.hex least most s.now) }
    ensures within { IfOk result (λ x. (least ≤ x.0) × (x.0 ≤ most)) }
{
    let [b, rest @ ..] = s else {
        return Err(ReadError::Fault(0));
    };
    match hex_value(*b) {
        Some(value) if least <= value && value <= most => Ok((value as u32, rest)),
        _ => Err(ReadError::Fault(s.len())),
    }
}

/// The number of this one and two hexadecimal digits more.
#[tactic(auto, unfolding(pv_json_grammar::specs::Strings::two))]
fn two(n: u32, s: &[u8]) -> Result<(u32, &[u8]), ReadError>
    requires { n ≤ 255 }
    ensures value { Gives (λ x. (x.0, x.1.now)) result (spec.two n s.now) }
    ensures within { IfOk result (λ x. (256 * n ≤ x.0) × (x.0 ≤ 256 * n + 255)) }
{
    let (c, rest) = hex(0, 0xf, s)?;
    let (d, rest) = hex(0, 0xf, rest)?;
    Ok(((n * 16 + c) * 16 + d, rest))
}

/// The greatest second digit behind this first one of an escape that is no low surrogate.
fn second_digit_most(first: u32) -> u8
    ensures { result ≡ (if first == 13 then 11 else 15) }
{
    if first == 0xd { 0xb } else { 0xf }
}

/// Four hexadecimal digits that are no low surrogate.
#[tactic(auto, unfolding(pv_json_grammar::specs::Strings::first_code))]
fn first_code(s: &[u8]) -> Result<(u32, &[u8]), ReadError>
    ensures value { Gives (λ x. (x.0, x.1.now)) result (spec.first_code s.now) }
    ensures within { IfOk result (λ x. (x.0 < 65536) × (56320 ≤ x.0 → 57344 ≤ x.0)) }
{
    let (a, rest) = hex(0, 0xf, s)?;
    let (b, rest) = hex(0, second_digit_most(a), rest)?;
    let (code, rest) = two(a * 16 + b, rest)?;
    Ok((code, rest))
}

/// The escape of a low surrogate.
#[tactic(auto, unfolding(pv_json_grammar::specs::Strings::low_code))]
fn low_code(s: &[u8]) -> Result<(u32, &[u8]), ReadError>
    ensures value { Gives (λ x. (x.0, x.1.now)) result (spec.low_code s.now) }
    ensures within { IfOk result (λ x. (56320 ≤ x.0) × (x.0 < 57344)) }
{
    let (_, rest) = byte_in(b'\\', b'\\', s)?;
    let (_, rest) = byte_in(b'u', b'u', rest)?;
    let (_, rest) = hex(0xd, 0xd, rest)?;
    let (b, rest) = hex(0xc, 0xf, rest)?;
    let (code, rest) = two(0xd0 + b, rest)?;
    Ok((code, rest))
}

/// Appends the character of this code.
fn push_code(out: &mut ByteBuf, code: u32) -> Result<(), Memory>
    requires { InScalarRange code }
    ensures { IfOk result (λ _. out.new ≡ out.old ++ encode_utf8 code) }
{
    let c = char::from_u32(code).unwrap();
    let mut four = [0; 4];
    out.push_slice(c.encode_utf8(&mut four).as_bytes())?;
    Ok(())
}

/// What follows backslash and u.
#[tactic(auto, unfolding(pv_json_grammar::specs::Strings::unicode))]
fn unicode<'a>(out: &mut ByteBuf, s: &'a [u8]) -> Result<&'a [u8], ReadError>
    ensures { Gives (λ rest. (out.new, rest.now)) result (onto out.old (spec.unicode s.now)) }
{
    let (high, rest) = first_code(s)?;
    if 0xd800 <= high && high < 0xdc00 {
        let (low, rest) = low_code(rest)?;
        push_code(out, (high - 0xd800) * 0x400 + (low - 0xdc00) + 0x10000)?;
        return Ok(rest);
    }
    push_code(out, high)?;
    Ok(rest)
}

/// What one letter behind a backslash stands for.
#[tactic(auto, unfolding(pv_json_grammar::specs::Strings::escaped))]
fn escaped(b: u8) -> Option<u8>
    ensures value { unwrap_or result 0 ≡ spec.escaped b }
    ensures some { IfSome result (λ byte. 0 < byte) }
{
    match b {
        b'"' | b'\\' | b'/' => Some(b),
        b'b' => Some(0x08),
        b'f' => Some(0x0c),
        b'n' => Some(b'\n'),
        b'r' => Some(b'\r'),
        b't' => Some(b'\t'),
        _ => None,
    }
}

/// What follows a backslash.
#[tactic(auto, unfolding(pv_json_grammar::specs::Strings::escape))]
fn escape<'a>(out: &mut ByteBuf, s: &'a [u8]) -> Result<&'a [u8], ReadError>
    ensures { Gives (λ rest. (out.new, rest.now)) result (onto out.old (spec.escape s.now)) }
{
    let [b, rest @ ..] = s else {
        return Err(ReadError::Fault(0));
    };
    if *b == b'u' {
        return unicode(out, rest);
    }
    let Some(byte) = escaped(*b) else {
        return Err(ReadError::Fault(s.len()));
    };
    out.push(byte)?;
    Ok(rest)
}

/// The bytes that stand for themselves, and one unit more. `true` comes at the closing quote.
#[tactic(auto, unfolding(pv_json_grammar::specs::Strings::turn))]
fn turn<'a>(out: &mut ByteBuf, s: &'a [u8]) -> Result<(bool, &'a [u8]), ReadError>
    ensures { Gives (λ x. (x.0, out.new, x.1.now)) result (spec.turn out.old s.now) }
{
    let n = ascii_len(s);
    out.push_slice(&s[..n])?;
    let rest = &s[n..];
    let [b, more @ ..] = rest else {
        return Err(ReadError::Fault(0));
    };
    if *b == b'"' {
        return Ok((true, more));
    }
    if *b == b'\\' {
        let rest = escape(out, more)?;
        return Ok((false, rest));
    }
    let rest = raw(out, rest)?;
    Ok((false, rest))
}

/// The bytes of a text behind its opening quote, and what follows its closing quote.
#[tactic(auto, unfolding(pv_json_grammar::specs::Strings::string_from))]
fn characters(alloc: Global, s: &[u8]) -> Result<(ByteBuf, &[u8]), ReadError>
    ensures { Gives (λ x. (x.0, x.1.now)) result (spec.string s.now) }
{
    let mut out = ByteBuf::new(alloc);
    let mut rest = s;
    // Each turn takes a byte, so no more come than there are bytes.
    for i in 0..s.len() {
        let (closed, more) = turn(&mut out, rest)?;
        if closed {
            return Ok((out, more));
        }
        rest = more;
    }
    Err(ReadError::Fault(rest.len()))
}

/// A text behind its opening quote, and what follows its closing quote.
#[tactic(auto, using(crate::proofs::Suffixes::string_rest))]
pub(crate) fn text<'a>(alloc: Global, s: &Rest<'a>) -> Result<(Text, Rest<'a>), ReadError>
    ensures { Gives (λ x. (x.0, x.1)) result (spec.string s.now) }
{
    if let Some(len) = plain_len(s.as_slice()) {
        return Ok((s.text(len)?, s.after(len + 1)));
    }
    let (bytes, rest) = characters(alloc, s.as_slice())?;
    let text = Text::from_utf8(bytes.into_vec())?;
    Ok((text, s.after(s.len() - rest.len())))
}

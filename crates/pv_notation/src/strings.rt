//! JSON strings (RFC 8259, section 7).

ghost use Rattle.std.specs.Prelude.{◌≡◌, ◌<◌, [], ◌∷◌, ◌++◌, OnOk, OnErr};
ghost use Rattle.std.specs.Bool.{OnFalse};
ghost use Rattle.std.specs.List.{flat_map};
ghost use Rattle.pv_notation.specs.Strings as spec;
ghost use Rattle.pv_notation.specs.Strings.{escaped, quoted, hex_byte};
ghost use Rattle.pv_notation.specs.Fronts.{IsFront};

use pv_text::{ByteBuf, Memory};

fn hex_digit(d: u8) -> u8
    requires { d < 16 }
    ensures { result ≡ spec.hex_digit d }
{
    if d < 10 { d + 48 } else { d + 87 }
}

#[tactic(auto, unfolding(crate::specs::Strings::short_escape))]
fn short_escape(b: u8) -> u8
    ensures { result ≡ spec.short_escape b }
{
    match b {
        b'"' => b'"',
        b'\\' => b'\\',
        8 => b'b',
        12 => b'f',
        b'\n' => b'n',
        b'\r' => b'r',
        b'\t' => b't',
        _ => 0,
    }
}

#[tactic(auto, unfolding(crate::specs::Strings::escaped))]
fn write_escaped(b: u8, out: &mut ByteBuf) -> Result<(), Memory>
    ensures ok { OnOk result (out.new ≡ out.old ++ escaped b) }
    ensures err { OnErr result (out.new ≡ out.old) }
{
    let letter = short_escape(b);
    if letter != 0 {
        return out.push_slice(&[b'\\', letter]);
    }
    if b < 32 {
        return out.push_slice(&[
            b'\\',
            b'u',
            b'0',
            b'0',
            hex_digit(b / 16),
            hex_digit(b % 16),
        ]);
    }
    out.push(b)
}

/// Whether a byte does not stand for itself.
#[tactic(auto, using(crate::proofs::Escapes::plain_byte))]
fn is_escaped(b: u8) -> bool
    ensures { OnFalse result (escaped b ≡ b ∷ []) }
{
    b < 32 || b == b'"' || b == b'\\'
}

/// Appends a text as it stands between the quotes, a run of bytes that stand for themselves at a time.
#[tactic(auto, using(crate::proofs::Fronts::fronts, crate::proofs::Escapes::runs))]
fn append_escaped(text: &[u8], out: &mut ByteBuf) -> Result<(), Memory>
    ensures ok { OnOk result (out.new ≡ out.old ++ flat_map escaped text.now) }
    ensures err { OnErr result (IsFront out.old out.new) }
{
    let mut start = 0;
    for (place, b) in text.iter().enumerate() {
        if is_escaped(*b) {
            out.push_slice(&text[start..place])?;
            write_escaped(*b, out)?;
            start = place + 1;
        }
    }
    out.push_slice(&text[start..])?;
    Ok(())
}

#[tactic(auto, using(crate::proofs::Fronts::fronts))]
fn append_quoted(text: &[u8], out: &mut ByteBuf) -> Result<(), Memory>
    ensures ok { OnOk result (out.new ≡ out.old ++ quoted text.now) }
    ensures err { OnErr result (IsFront out.old out.new) }
{
    out.push(b'"')?;
    append_escaped(text, out)?;
    out.push(b'"')?;
    Ok(())
}

/// Appends a text as it stands between the quotes of a JSON string.
#[tactic(auto, using(crate::proofs::Fronts::fronts))]
pub fn write_all_escaped(text: &[u8], out: &mut ByteBuf) -> Result<(), Memory>
    ensures ok { OnOk result (out.new ≡ out.old ++ flat_map escaped text.now) }
    ensures err { OnErr result (out.new ≡ out.old) }
{
    let mark = out.len();
    match append_escaped(text, out) {
        Ok(()) => Ok(()),
        Err(e) => {
            out.cut(mark);
            Err(e)
        }
    }
}

/// Appends a text as a JSON string.
#[tactic(auto, using(crate::proofs::Fronts::fronts))]
pub fn write_quoted(text: &[u8], out: &mut ByteBuf) -> Result<(), Memory>
    ensures ok { OnOk result (out.new ≡ out.old ++ quoted text.now) }
    ensures err { OnErr result (out.new ≡ out.old) }
{
    let mark = out.len();
    match append_quoted(text, out) {
        Ok(()) => Ok(()),
        Err(e) => {
            out.cut(mark);
            Err(e)
        }
    }
}

/// Appends two hexadecimal digits for each byte, in lower case. After a refusal `out` may hold a part of them.
#[tactic(auto, using(crate::proofs::Fronts::fronts))]
pub(crate) fn write_bytes_hex(bytes: &[u8], out: &mut ByteBuf) -> Result<(), Memory>
    ensures ok { OnOk result (out.new ≡ out.old ++ flat_map hex_byte bytes.now) }
    ensures err { OnErr result (IsFront out.old out.new) }
{
    for b in bytes {
        let two = [hex_digit(*b / 16), hex_digit(*b % 16)];
        out.push_slice(&two)?;
    }
    Ok(())
}

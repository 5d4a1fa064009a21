//! The notation of values.

ghost use Rattle.std.specs.Prelude.{◌≡◌, [], ◌∷◌, ◌++◌, map, codes, OnOk, OnErr};
ghost use Rattle.std.specs.List.{flat_map};
ghost use Rattle.std.specs.Fmt.{signed_decimal};
ghost use Rattle.pv_notation.specs.Strings.{quoted, hex_byte};
ghost use Rattle.pv_notation.specs.Lists.{joined};
ghost use Rattle.pv_notation.specs.Notation.{atom_name, entry_notation, named_notation, notation, tagged};
ghost use Rattle.pv_notation.specs.Fronts.{IsFront};

use crate::strings::{write_bytes_hex, write_quoted};
use itoa::Buffer;
use pv_text::{ByteBuf, Memory, Text};
use pv_tree::{AtomKind, Value};

fn write_int(n: i128, out: &mut ByteBuf) -> Result<(), Memory>
    ensures ok { OnOk result (out.new ≡ out.old ++ signed_decimal n) }
    ensures err { OnErr result (out.new ≡ out.old) }
{
    let mut buffer = Buffer::new();
    out.push_slice(buffer.format(n).as_bytes())
}

/// An object's brace, its one name and the colon.
#[tactic(auto, using(crate::proofs::Fronts::fronts))]
fn open_tag(name: &str, out: &mut ByteBuf) -> Result<(), Memory>
    ensures ok { OnOk result (out.new ≡ out.old ++ (123 ∷ quoted name.now ++ 58 ∷ [])) }
    ensures err { OnErr result (IsFront out.old out.new) }
{
    out.push(b'{')?;
    write_quoted(name.as_bytes(), out)?;
    out.push(b':')?;
    Ok(())
}

/// The same, and the bracket of a list.
#[tactic(auto, using(crate::proofs::Fronts::fronts))]
fn open_list(name: &str, out: &mut ByteBuf) -> Result<(), Memory>
    ensures ok { OnOk result (out.new ≡ out.old ++ (123 ∷ quoted name.now ++ 58 ∷ 91 ∷ [])) }
    ensures err { OnErr result (IsFront out.old out.new) }
{
    open_tag(name, out)?;
    out.push(b'[')?;
    Ok(())
}

/// The same, and the first item, which is a text, with its comma.
#[tactic(auto, using(crate::proofs::Fronts::fronts))]
fn open_list_of(name: &str, first: &Text, out: &mut ByteBuf) -> Result<(), Memory>
    ensures ok { OnOk result (out.new ≡ out.old ++ (123 ∷ quoted name.now ++ 58 ∷ 91 ∷ quoted first.now ++ 44 ∷ [])) }
    ensures err { OnErr result (IsFront out.old out.new) }
{
    open_list(name, out)?;
    write_quoted(first.as_str().as_bytes(), out)?;
    out.push(b',')?;
    Ok(())
}

#[tactic(auto, using(crate::proofs::Fronts::fronts))]
fn write_tagged(name: &str, text: &[u8], out: &mut ByteBuf) -> Result<(), Memory>
    ensures ok { OnOk result (out.new ≡ out.old ++ tagged name.now (quoted text.now)) }
    ensures err { OnErr result (IsFront out.old out.new) }
{
    open_tag(name, out)?;
    write_quoted(text, out)?;
    out.push(b'}')?;
    Ok(())
}

#[tactic(auto, using(crate::proofs::Fronts::fronts))]
fn write_hex(bytes: &[u8], out: &mut ByteBuf) -> Result<(), Memory>
    ensures ok { OnOk result (out.new ≡ out.old ++ tagged (codes "bytes") (34 ∷ flat_map hex_byte bytes.now ++ 34 ∷ [])) }
    ensures err { OnErr result (IsFront out.old out.new) }
{
    open_tag("bytes", out)?;
    out.push(b'"')?;
    write_bytes_hex(bytes, out)?;
    out.push_slice(b"\"}")?;
    Ok(())
}

fn atom_name(kind: AtomKind) -> &'static str
    ensures { result.now ≡ atom_name kind }
{
    match kind {
        AtomKind::Uuid => "uuid",
        AtomKind::Url => "url",
        AtomKind::Date => "date",
        AtomKind::Time => "time",
        AtomKind::DateTime => "datetime",
        AtomKind::Decimal => "decimal",
    }
}

#[tactic(auto, using(crate::proofs::Fronts::fronts))]
fn write_names(names: &[Text], out: &mut ByteBuf) -> Result<(), Memory>
    ensures ok { OnOk result (out.new ≡ out.old ++ joined (map quoted names.now)) }
    ensures err { OnErr result (IsFront out.old out.new) }
{
    let Some((first, rest)) = names.split_first() else {
        return Ok(());
    };
    write_quoted(first.as_str().as_bytes(), out)?;
    for name in rest {
        out.push(b',')?;
        write_quoted(name.as_str().as_bytes(), out)?;
    }
    Ok(())
}

#[cycle(value)]
#[tactic(auto, using(crate::proofs::Fronts::fronts))]
fn write_named_value(name: &Text, value: &Value, out: &mut ByteBuf) -> Result<(), Memory>
    ensures ok { OnOk result (out.new ≡ out.old ++ named_notation (name.now, value.now)) }
    ensures err { OnErr result (IsFront out.old out.new) }
{
    out.push(b'[')?;
    write_quoted(name.as_str().as_bytes(), out)?;
    out.push(b',')?;
    write_part(value, out)?;
    out.push(b']')?;
    Ok(())
}

#[cycle(value)]
#[tactic(auto, using(crate::proofs::Fronts::fronts))]
fn write_values(values: &[Value], out: &mut ByteBuf) -> Result<(), Memory>
    ensures ok { OnOk result (out.new ≡ out.old ++ joined (map notation values.now)) }
    ensures err { OnErr result (IsFront out.old out.new) }
{
    let Some((first, rest)) = values.split_first() else {
        return Ok(());
    };
    write_part(first, out)?;
    for value in rest {
        out.push(b',')?;
        write_part(value, out)?;
    }
    Ok(())
}

#[cycle(value)]
#[tactic(auto, using(crate::proofs::Fronts::fronts))]
fn write_named(named: &[(Text, Value)], out: &mut ByteBuf) -> Result<(), Memory>
    ensures ok { OnOk result (out.new ≡ out.old ++ joined (map named_notation named.now)) }
    ensures err { OnErr result (IsFront out.old out.new) }
{
    let Some(((name, value), rest)) = named.split_first() else {
        return Ok(());
    };
    write_named_value(name, value, out)?;
    for (name, value) in rest {
        out.push(b',')?;
        write_named_value(name, value, out)?;
    }
    Ok(())
}

#[cycle(value)]
#[tactic(auto, using(crate::proofs::Fronts::fronts))]
fn write_entries(entries: &[(Value, Value)], out: &mut ByteBuf) -> Result<(), Memory>
    ensures ok { OnOk result (out.new ≡ out.old ++ joined (map entry_notation entries.now)) }
    ensures err { OnErr result (IsFront out.old out.new) }
{
    let Some(((key, value), rest)) = entries.split_first() else {
        return Ok(());
    };
    out.push(b'[')?;
    write_part(key, out)?;
    out.push(b',')?;
    write_part(value, out)?;
    out.push(b']')?;
    for (key, value) in rest {
        out.push_slice(b",[")?;
        write_part(key, out)?;
        out.push(b',')?;
        write_part(value, out)?;
        out.push(b']')?;
    }
    Ok(())
}

#[cycle(value)]
#[tactic(auto, using(crate::proofs::Fronts::fronts))]
fn write_tagged_values(name: &str, values: &[Value], out: &mut ByteBuf) -> Result<(), Memory>
    ensures ok { OnOk result (out.new ≡ out.old ++ (123 ∷ quoted name.now ++ 58 ∷ 91 ∷ joined (map notation values.now) ++ 93 ∷ 125 ∷ [])) }
    ensures err { OnErr result (IsFront out.old out.new) }
{
    open_list(name, out)?;
    write_values(values, out)?;
    out.push_slice(b"]}")?;
    Ok(())
}

#[cycle(value)]
#[tactic(auto, using(crate::proofs::Fronts::fronts))]
fn write_part(value: &Value, out: &mut ByteBuf) -> Result<(), Memory>
    ensures ok { OnOk result (out.new ≡ out.old ++ notation value.now) }
    ensures err { OnErr result (IsFront out.old out.new) }
{
    match value {
        Value::None => out.push_slice(b"null")?,
        Value::Bool(true) => out.push_slice(b"true")?,
        Value::Bool(false) => out.push_slice(b"false")?,
        Value::Int(n) => write_int(*n, out)?,
        Value::Lexeme(lexeme) => write_tagged("number", lexeme.as_slice(), out)?,
        Value::Str(text) => write_quoted(text.as_str().as_bytes(), out)?,
        Value::Bytes(bytes) => write_hex(bytes.as_slice(), out)?,
        Value::Atom { kind, text } => write_tagged(
            atom_name(*kind),
            text.as_str().as_bytes(),
            out,
        )?,
        Value::Enum { cls, name, value } => {
            open_list_of("enum", cls, out)?;
            write_quoted(name.as_str().as_bytes(), out)?;
            out.push(b',')?;
            write_part(value.get(), out)?;
            out.push_slice(b"]}")?;
        }
        Value::List(values) => {
            out.push(b'[')?;
            write_values(values.as_slice(), out)?;
            out.push(b']')?;
        }
        Value::Tuple(values) => write_tagged_values("tuple", values.as_slice(), out)?,
        Value::Set(values) => write_tagged_values("set", values.as_slice(), out)?,
        Value::Frozen(values) => write_tagged_values("frozenset", values.as_slice(), out)?,
        Value::Dict(entries) => {
            open_list("dict", out)?;
            write_entries(entries.as_slice(), out)?;
            out.push_slice(b"]}")?;
        }
        Value::Model {
            cls,
            fields,
            set,
            extra,
        } => {
            open_list_of("model", cls, out)?;
            out.push(b'[')?;
            write_named(fields.as_slice(), out)?;
            out.push_slice(b"],[")?;
            write_names(set.as_slice(), out)?;
            out.push_slice(b"],[")?;
            write_named(extra.as_slice(), out)?;
            out.push_slice(b"]]}")?;
        }
        Value::Root { cls, value } => {
            open_list_of("root", cls, out)?;
            write_part(value.get(), out)?;
            out.push_slice(b"]}")?;
        }
    }
    Ok(())
}

/// Appends the notation of a value.
#[tactic(auto, using(crate::proofs::Fronts::fronts))]
pub fn write_value(value: &Value, out: &mut ByteBuf) -> Result<(), Memory>
    ensures ok { OnOk result (out.new ≡ out.old ++ notation value.now) }
    ensures err { OnErr result (out.new ≡ out.old) }
{
    let mark = out.len();
    match write_part(value, out) {
        Ok(()) => Ok(()),
        Err(e) => {
            out.cut(mark);
            Err(e)
        }
    }
}

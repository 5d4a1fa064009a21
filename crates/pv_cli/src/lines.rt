//! The lines on standard error.

ghost use Rattle.std.specs.Prelude.{◌≡◌, ◌++◌, map, IfOk};
ghost use Rattle.pv_cli.specs.Lines as spec;
ghost use Rattle.pv_cli.specs.SchemaFiles as schema;
ghost use Rattle.pv_notation.specs.Strings.{quoted};

use itoa::Buffer;
use pv_notation::{write_loc, write_quoted};
use pv_schema_check::ShapeCode;
use pv_text::{ByteBuf, Memory, Text};
use pv_tree::{Loc, Names, Step};
use std::alloc::Global;

/// A line of these words and a name in quotes.
fn named_line(alloc: Global, words: &str, name: &Text) -> Result<ByteBuf, Memory>
    ensures { IfOk result (λ b. b ≡ spec.line (words.now ++ quoted name.now)) }
{
    let mut out = ByteBuf::new(alloc);
    out.push_slice(words.as_bytes())?;
    write_quoted(name.as_str().as_bytes(), &mut out)?;
    out.push(b'\n')?;
    Ok(out)
}

pub(crate) fn read_failed(alloc: Global, name: &Text) -> Result<ByteBuf, Memory>
    ensures { IfOk result (λ b. b ≡ spec.read_failed name.now) }
{
    named_line(alloc, "read failed: ", name)
}

pub(crate) fn too_large(alloc: Global, name: &Text) -> Result<ByteBuf, Memory>
    ensures { IfOk result (λ b. b ≡ spec.too_large name.now) }
{
    named_line(alloc, "too large: ", name)
}

/// The line for a schema file whose byte at the place `at` fits no JSON.
pub(crate) fn schema_not_json(alloc: Global, at: u64) -> Result<ByteBuf, Memory>
    ensures { IfOk result (λ b. b ≡
        spec.schema_refused (schema.refusal_text (schema.not_json at))) }
{
    let mut out = ByteBuf::new(alloc);
    let mut buffer = Buffer::new();
    out.push_slice(b"schema refused: not JSON at offset ")?;
    out.push_slice(buffer.format(at).as_bytes())?;
    out.push(b'\n')?;
    Ok(out)
}

pub(crate) fn schema_ends_early(alloc: Global) -> Result<ByteBuf, Memory>
    ensures { IfOk result (λ b. b ≡ spec.schema_refused (schema.refusal_text schema.ends_early)) }
{
    let mut out = ByteBuf::new(alloc);
    out.push_slice(b"schema refused: JSON ends early\n")?;
    Ok(out)
}

fn code_text(code: ShapeCode) -> &'static str
    ensures { result.now ≡ schema.code_text code }
{
    match code {
        ShapeCode::NotObject => "not_object",
        ShapeCode::MissingKey => "missing_key",
        ShapeCode::UnknownType => "unknown_type",
        ShapeCode::UnknownKey => "unknown_key",
        ShapeCode::BadValue => "bad_value",
    }
}

/// The line for what is wrong at a place of a schema.
fn schema_placed(alloc: Global, what: &str, path: &Loc) -> Result<ByteBuf, Memory>
    ensures { IfOk result (λ b. b ≡ spec.schema_refused (schema.placed_text what.now path.now)) }
{
    let mut out = ByteBuf::new(alloc);
    out.push_slice(b"schema refused: ")?;
    out.push_slice(what.as_bytes())?;
    out.push_slice(b" at ")?;
    write_loc(path, &mut out)?;
    out.push(b'\n')?;
    Ok(out)
}

pub(crate) fn bad_shape(alloc: Global, code: ShapeCode, path: &Loc) -> Result<ByteBuf, Memory>
    ensures { IfOk result (λ b. b ≡
        spec.schema_refused (schema.refusal_text (schema.misshapen code path.now))) }
{
    schema_placed(alloc, code_text(code), path)
}

pub(crate) fn bad_pattern(alloc: Global, path: &Loc) -> Result<ByteBuf, Memory>
    ensures { IfOk result (λ b. b ≡
        spec.schema_refused
        (schema.refusal_text (schema.not_built (schema.bad_pattern path.now)))) }
{
    schema_placed(alloc, "bad pattern", path)
}

/// The line for a schema of which two nodes have this name.
pub(crate) fn duplicate_ref(alloc: Global, name: &Text) -> Result<ByteBuf, Memory>
    ensures { IfOk result (λ b. b ≡
        spec.schema_refused
        (schema.refusal_text (schema.not_built (schema.duplicate_ref name.now)))) }
{
    named_line(alloc, "schema refused: duplicate ref ", name)
}

/// The line for a schema that refers to this name, which no node has.
pub(crate) fn undefined_ref(alloc: Global, name: &Text) -> Result<ByteBuf, Memory>
    ensures { IfOk result (λ b. b ≡
        spec.schema_refused
        (schema.refusal_text (schema.not_built (schema.undefined_ref name.now)))) }
{
    named_line(alloc, "schema refused: undefined ref ", name)
}

/// The names as steps, in their order.
fn steps_of(alloc: Global, names: &[Text]) -> Result<Loc, Memory>
    ensures { IfOk result (λ loc. loc ≡ map (λ name. Step.Name name) names.now) }
{
    let mut steps = Loc::new(alloc);
    for name in names {
        steps.push(Step::Name(name.share(alloc)?))?;
    }
    Ok(steps)
}

/// The line for a schema of which the nodes of these names lead back to themselves without entering
/// the input.
pub(crate) fn empty_cycle(alloc: Global, names: &Names) -> Result<ByteBuf, Memory>
    ensures { IfOk result (λ b. b ≡
        spec.schema_refused
        (schema.refusal_text (schema.not_built (schema.empty_cycle names.now)))) }
{
    let steps = steps_of(alloc, names.as_slice())?;
    let mut out = ByteBuf::new(alloc);
    out.push_slice(b"schema refused: empty cycle ")?;
    write_loc(&steps, &mut out)?;
    out.push(b'\n')?;
    Ok(out)
}

/// The line for a schema that names a function that is not there.
pub(crate) fn unknown_function(alloc: Global, name: &Text) -> Result<ByteBuf, Memory>
    ensures { IfOk result (λ b. b ≡
        spec.schema_refused
        (schema.refusal_text (schema.not_built (schema.unknown_function name.now)))) }
{
    named_line(alloc, "schema refused: unknown function ", name)
}

/// The line for a schema that names a function of another kind than its place takes.
pub(crate) fn wrong_kind_of_function(alloc: Global, name: &Text) -> Result<ByteBuf, Memory>
    ensures { IfOk result (λ b. b ≡
        spec.schema_refused
        (schema.refusal_text (schema.not_built (schema.wrong_kind_of_function name.now)))) }
{
    named_line(alloc, "schema refused: wrong kind of function ", name)
}

pub(crate) fn too_many_nodes(alloc: Global) -> Result<ByteBuf, Memory>
    ensures { IfOk result (λ b. b ≡
        spec.schema_refused (schema.refusal_text schema.too_many_nodes)) }
{
    let mut out = ByteBuf::new(alloc);
    out.push_slice(b"schema refused: more than 100000 nodes\n")?;
    Ok(out)
}

/// The line for words of which the one at the place `at`, from 1, cannot stand there.
pub(crate) fn words_refused(alloc: Global, at: u64) -> Result<ByteBuf, Memory>
    ensures { IfOk result (λ b. b ≡ spec.words_refused at) }
{
    let mut out = ByteBuf::new(alloc);
    let mut buffer = Buffer::new();
    out.push_slice(b"words refused at ")?;
    out.push_slice(buffer.format(at).as_bytes())?;
    out.push(b'\n')?;
    Ok(out)
}

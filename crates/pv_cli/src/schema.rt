//! From a schema file's bytes to its plan, or to the answer that refuses it.

ghost use Rattle.std.specs.Prelude.{◌≡◌, IfOk};
ghost use Rattle.pv_json_grammar.specs.Documents.{reading};
ghost use Rattle.pv_schema.specs.Reading.{schema_of};
ghost use Rattle.pv_cli.specs.Answering.{schema_or_answer};
ghost use Rattle.pv_cli.specs.SchemaFiles as spec;
ghost use Rattle.pv_cli.specs.SchemaFiles.{builds};
ghost use Rattle.pv_cli.specs.Documents as answer;
ghost use Rattle.pv_cli.specs.Steps.{shown};

use crate::answer::Answer;
use crate::lines;
use crate::status::Status;
use pv_func::Objects;
use pv_json::{ReadFault, read};
use pv_node::Schema;
use pv_plan::{BuildFault, Plan, build};
use pv_schema::{SchemaFault, read_schema};
use pv_text::{ByteBuf, Memory};
use pv_tree::Tree;
use std::alloc::Global;

/// What a schema file leads to: the plan to validate by, or the answer.
#[derive(Drop)]
pub(crate) enum SchemaStep {
    Served(Plan),
    Answered(Answer),
}

fn refused(line: ByteBuf, alloc: Global) -> SchemaStep
    ensures { result ≡ SchemaStep.Answered (answer.refused line Status.SchemaRefused) }
{
    SchemaStep::Answered(Answer::refused(alloc, line, Status::SchemaRefused))
}

fn build_schema<R: Objects>(
    alloc: Global,
    schema: &Schema,
    registry: &R,
) -> Result<SchemaStep, Memory>
    ensures { IfOk result (λ s. shown s ≡
        schema_or_answer (spec.file_of_schema schema.now
        (builds (R.functions registry.now) schema.now))) }
{
    match build(alloc, schema, registry) {
        Ok(plan) => Ok(SchemaStep::Served(plan)),
        Err(BuildFault::DuplicateRef { name }) => {
            let line = lines::duplicate_ref(alloc, &name)?;
            Ok(refused(line, alloc))
        }
        Err(BuildFault::UndefinedRef { name }) => {
            let line = lines::undefined_ref(alloc, &name)?;
            Ok(refused(line, alloc))
        }
        Err(BuildFault::EmptyCycle { names }) => {
            let line = lines::empty_cycle(alloc, &names)?;
            Ok(refused(line, alloc))
        }
        Err(BuildFault::UnknownFunction { name }) => {
            let line = lines::unknown_function(alloc, &name)?;
            Ok(refused(line, alloc))
        }
        Err(BuildFault::WrongFunctionKind { name }) => {
            let line = lines::wrong_kind_of_function(alloc, &name)?;
            Ok(refused(line, alloc))
        }
        Err(BuildFault::BadPattern { path }) => {
            let line = lines::bad_pattern(alloc, &path)?;
            Ok(refused(line, alloc))
        }
        Err(BuildFault::Memory) => Err(Memory),
    }
}

fn read_shape<R: Objects>(alloc: Global, tree: &Tree, registry: &R) -> Result<SchemaStep, Memory>
    ensures { IfOk result (λ s. shown s ≡
        schema_or_answer (spec.file_of_shape (R.functions registry.now) (schema_of tree.now))) }
{
    match read_schema(alloc, tree) {
        Ok(schema) => build_schema(alloc, &schema, registry),
        Err(SchemaFault::Shape { path, code }) => {
            let line = lines::bad_shape(alloc, code, &path)?;
            Ok(refused(line, alloc))
        }
        Err(SchemaFault::NotYet { .. }) => Ok(SchemaStep::Answered(Answer::not_built(alloc)?)),
        Err(SchemaFault::TooManyNodes { .. }) => {
            let line = lines::too_many_nodes(alloc)?;
            Ok(refused(line, alloc))
        }
        Err(SchemaFault::Memory) => Err(Memory),
    }
}

pub(crate) fn read_schema_file<R: Objects>(
    alloc: Global,
    bytes: &[u8],
    registry: &R,
) -> Result<SchemaStep, Memory>
    ensures { IfOk result (λ s. shown s ≡
        schema_or_answer (spec.schema_file (R.functions registry.now) (reading 128 bytes.now))) }
{
    match read(alloc, bytes) {
        Ok(tree) => read_shape(alloc, &tree, registry),
        Err(ReadFault::Bad { at }) => {
            let line = lines::schema_not_json(alloc, at)?;
            Ok(refused(line, alloc))
        }
        Err(ReadFault::End) => {
            let line = lines::schema_ends_early(alloc)?;
            Ok(refused(line, alloc))
        }
        Err(ReadFault::Memory) => Err(Memory),
    }
}

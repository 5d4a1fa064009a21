//! The settings that a model or a typed dict configures.

ghost use Rattle.std.specs.Prelude.{◌≡◌, IfOk};
ghost use Rattle.std.specs.Option.{option_map, option_or};
ghost use Rattle.pv_schema_values.specs.Values as value;
ghost use Rattle.pv_schema_check.specs.Find.{itself, tree_at};
ghost use Rattle.pv_schema.specs.Configs as spec;
ghost use Rattle.pv_schema.specs.Making.{made, part_at};
ghost use Rattle.pv_schema.specs.Written.{read};
ghost use Rattle.pv_schema_table.specs.declared.Kind.TheVariants as kinds;

use crate::written::{count_at, extra_behavior_at, flag_at, flag_or, text_at};
use pv_rules::{ExtraBehavior, Settings};
use pv_schema_check::find;
use pv_schema_table::Key;
use pv_text::{Memory, Text};
use pv_tree::Tree;
use std::alloc::Global;

/// Whether a field is read by its name where this is not written.
fn by_name(members: &[(Text, Tree)]) -> bool
    ensures { result ≡ spec.by_name (tree_at itself members.now) }
{
    flag_or(false, members, Key::PopulateByName)
        || flag_at(members, Key::ValidateByAlias) == Some(false)
}

/// The title that is written, or else the name of the class.
fn title(alloc: Global, members: &[(Text, Tree)], cls: Option<Text>) -> Result<Option<Text>, Memory>
    ensures { IfOk result (λ title. title
        ≡ option_or (read value.text_of (tree_at itself members.now Key.Title)) cls) }
{
    match text_at(alloc, members, Key::Title)? {
        Some(title) => Ok(Some(title)),
        None => Ok(cls),
    }
}

/// The settings of a config with these members, in a node of this class.
fn settings(alloc: Global, members: &[(Text, Tree)], cls: Option<Text>) -> Result<Settings, Memory>
    ensures { IfOk result (λ settings. settings
        ≡ spec.titled cls (spec.settings (tree_at itself members.now))) }
{
    let behavior = extra_behavior_at(members, Key::ExtraFieldsBehavior);
    Ok(Settings {
        title: title(alloc, members, cls)?,
        strict: flag_or(false, members, Key::Strict),
        extra_fields_behavior: behavior.unwrap_or(ExtraBehavior::Ignore),
        populate_by_name: flag_or(false, members, Key::PopulateByName),
        validate_by_alias: flag_or(true, members, Key::ValidateByAlias),
        validate_by_name: flag_or(by_name(members), members, Key::ValidateByName),
        serialize_by_alias: flag_or(false, members, Key::SerializeByAlias),
        loc_by_alias: flag_or(true, members, Key::LocByAlias),
        validate_default: flag_or(false, members, Key::ValidateDefault),
        str_strip_whitespace: flag_or(false, members, Key::StrStripWhitespace),
        str_min_length: count_at(members, Key::StrMinLength),
        str_max_length: count_at(members, Key::StrMaxLength),
    })
}

/// The settings that a tree is.
#[tactic(auto, using(crate::proofs::MakeOpens::config_opens))]
fn settings_of(alloc: Global, tree: &Tree, cls: Option<Text>) -> Result<Settings, Memory>
    ensures { IfOk result (λ settings. settings ≡ spec.titled cls (made tree.now kinds.Config)) }
{
    match tree.as_object() {
        Some(members) => settings(alloc, members, cls),
        None => settings(alloc, &[], cls),
    }
}

/// The settings that a node configures. Their title is the name of its class where they have none.
#[tactic(auto, using(crate::proofs::MakeOpens::part_found))]
pub(crate) fn config_at(alloc: Global, members: &[(Text, Tree)]) -> Result<Option<Settings>, Memory>
    ensures { IfOk result (λ config. config
        ≡ option_map (spec.titled (read value.text_of (tree_at itself members.now Key.Cls)))
        (part_at itself made members.now kinds.Config Key.Config)) }
{
    match find(members, Key::Config) {
        Some(tree) => {
            let cls = text_at(alloc, members, Key::Cls)?;
            Ok(Some(settings_of(alloc, tree, cls)?))
        }
        None => Ok(None),
    }
}

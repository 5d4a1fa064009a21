ghost use Rattle.std.specs.Prelude.{◌≡◌};
ghost use Rattle.pv_rules.specs.Settings.{plain};

use pv_text::Text;

/// What is done with the keys of an object that no field takes.
#[derive(Clone, Copy, Debug, PartialEq, Eq)]
pub enum ExtraBehavior {
    Ignore,
    Allow,
    Forbid,
}

/// What holds for all nodes under a model or a typed dict that configures it.
#[derive(Drop)]
pub struct Settings {
    pub title: Option<Text>,
    pub strict: bool,
    pub extra_fields_behavior: ExtraBehavior,
    pub populate_by_name: bool,
    /// Whether a field that has an alias is looked for under it.
    pub validate_by_alias: bool,
    /// Whether it is looked for under its name. Besides, `populate_by_name` says so too.
    pub validate_by_name: bool,
    /// Whether a field is written under its alias.
    pub serialize_by_alias: bool,
    pub loc_by_alias: bool,
    pub validate_default: bool,
    pub str_strip_whitespace: bool,
    pub str_min_length: Option<u64>,
    pub str_max_length: Option<u64>,
}

impl Settings {
    /// The settings of nodes that nothing configures.
    pub fn plain() -> Settings
        ensures { result ≡ plain }
    {
        Settings {
            title: None,
            strict: false,
            extra_fields_behavior: ExtraBehavior::Ignore,
            populate_by_name: false,
            validate_by_alias: true,
            validate_by_name: false,
            serialize_by_alias: false,
            loc_by_alias: true,
            validate_default: false,
            str_strip_whitespace: false,
            str_min_length: None,
            str_max_length: None,
        }
    }
}

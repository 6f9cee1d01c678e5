// The options under which the predicates of `cfg` are evaluated.
ghost use Rattle.std.specs.Prelude.{◌≡◌, Some, None};
ghost use Rattle.std.specs.List.{list_any};
ghost use Rattle.std.specs.Str.{bytes_eq};
ghost use Rattle.mbe_cfg.specs.CfgOptions.{is_name, is_name_with_value, is_set};

/// One option: a name, as `unix`, or a name with a value, as `target_os = "linux"`.
#[derive(Drop)]
pub struct CfgOption<'a> {
    pub name: &'a str,
    pub value: Option<&'a str>,
}

/// The options of a run: the target's options, the options of `--cfg`, the crate's features, and
/// whether its tests are compiled.
#[derive(Drop)]
pub struct CfgOptions<'a> {
    pub target: &'a [CfgOption<'a>],
    pub given: &'a [CfgOption<'a>],
    pub features: &'a [&'a str],
    pub test: bool,
}

// Returns whether an option is that name, without a value.
fn is_name(cfg: &CfgOption<'_>, name: &str) -> bool
    ensures { result ≡ is_name name.now cfg.now }
{
    cfg.value.is_none() && cfg.name == name
}

// Returns whether an option is that name with that value.
fn is_name_with_value(cfg: &CfgOption<'_>, name: &str, value: &str) -> bool
    ensures { result ≡ is_name_with_value name.now value.now cfg.now }
{
    match cfg.value {
        Some(own) => cfg.name == name && own == value,
        None => false,
    }
}

// Returns whether one of the options is that name.
fn any_name(cfgs: &[CfgOption<'_>], name: &str) -> bool
    ensures { result ≡ list_any (is_name name.now) cfgs.now }
{
    cfgs.iter().any(|c| is_name(c, name))
}

// Returns whether one of the options is that name with that value.
fn any_name_with_value(cfgs: &[CfgOption<'_>], name: &str, value: &str) -> bool
    ensures { result ≡ list_any (is_name_with_value name.now value.now) cfgs.now }
{
    cfgs.iter().any(|c| is_name_with_value(c, name, value))
}

// Returns whether one of the features is `value`.
fn any_feature(features: &[&str], value: &str) -> bool
    ensures { result ≡ list_any (λ f. bytes_eq value.now f.now) features.now }
{
    features.iter().any(|f| value == *f)
}

impl CfgOptions<'_> {
    /// Returns whether the name is set, by an option without a value. `test` is also set if tests
    /// are compiled.
    pub fn has_name(&self, name: &str) -> bool
        ensures { result ≡ is_set self.now name.now None }
    {
        any_name(self.target, name) || any_name(self.given, name) || (self.test && name == "test")
    }

    /// Returns whether the name is set with that value, by an option or as a feature.
    pub fn has_pair(&self, name: &str, value: &str) -> bool
        ensures { result ≡ is_set self.now name.now (Some value.now) }
    {
        any_name_with_value(self.target, name, value)
            || any_name_with_value(self.given, name, value)
            || (name == "feature" && any_feature(self.features, value))
    }
}

// The settings for reading source files.
use mbe_cfg::cfg_options::CfgOptions;
use mbe_grammar::tables::peg_table::RuleTable;
use mbe_tt::span::Edition;

/// The settings by which source files are read: the edition, the settings of `cfg`, and Rust's
/// grammar, which finds the extent of disabled code.
#[derive(Drop)]
pub struct SourceSettings<'r> {
    pub edition: Edition,
    pub conditions: CfgOptions<'r>,
    pub grammar: RuleTable<'r>,
}

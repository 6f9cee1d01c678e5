// Reports on a run for other programs: how often each rule of a macro is used, and a log of
// diagnostics for code hosts.
//
// - Coverage: `Coverage` counts for each rule how many calls it expanded, over one session or
//   several. `definitions` finds macros and rules in files, `rule_uses` the rules that expand
//   calls. `coverage_text`, `coverage_json` and `lcov` write the counts.
// - Diagnostics: `SarifLog` collects the messages of sessions and of lints. `messages` has them as
//   data, `regions` where they are.
#![tactic(auto)]

pub mod coverage;
pub mod coverage_json;
pub mod coverage_text;
mod definitions;
pub mod lcov;
mod messages;
mod regions;
mod rule_uses;
pub mod sarif;

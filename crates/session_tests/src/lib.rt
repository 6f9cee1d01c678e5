// Tests of sessions over texts in memory, by the calls that docs/RATTLE.md shows. What the program
// `expandm` makes of files is tested by tests/expandm.
#![tactic(auto)]

#[cfg(test)]
mod sessions;

// Coverage as text: a line for each rule, and the totals.
use crate::coverage::{Coverage, CoverageTotals, FileCoverage, MacroCoverage, RuleCoverage};
use mbe_diagnostics::renderer::visible;
use std::alloc::{AllocError, Global};

/// Writes a text. No character of it is obeyed by a terminal, and none ends the line.
pub(crate) fn push_visible(text: &mut String, shown: &str) -> Result<(), AllocError> {
    for char in shown.chars() {
        text.push(if char == '\n' { ' ' } else { visible(char) })?;
    }
    Ok(())
}

// Writes the line of a rule, except for the name of its file.
fn write_rule(
    alloc: Global,
    text: &mut String,
    name: &str,
    number: usize,
    rule: &RuleCoverage,
) -> Result<(), AllocError> {
    let (line, count) = (rule.line, rule.count);
    let mark = if count == 0 { " (never used)" } else { "" };
    let shown = format!(in alloc; ":{line}: {count}  rule {number} of `{name}!`{mark}\n")?;
    text.push_str(shown.as_str())
}

// Writes the lines of a macro's rules.
fn write_macro(
    alloc: Global,
    text: &mut String,
    file: &str,
    one: &MacroCoverage,
) -> Result<(), AllocError> {
    for (index, rule) in one.rules.iter().enumerate() {
        push_visible(text, file)?;
        let number = index.saturating_add(1);
        write_rule(alloc, text, one.name.as_str(), number, rule)?;
    }
    Ok(())
}

// Writes the lines of a file.
fn write_file(alloc: Global, text: &mut String, file: &FileCoverage) -> Result<(), AllocError> {
    for one in &file.macros {
        write_macro(alloc, text, file.name.as_str(), one)?;
    }
    Ok(())
}

// Returns the ending of a word for so many.
fn plural(count: usize) -> &'static str {
    if count == 1 { "" } else { "s" }
}

// Writes how many rules and macros are used.
fn write_totals(
    alloc: Global,
    text: &mut String,
    totals: CoverageTotals,
) -> Result<(), AllocError> {
    let (used, all, rules) = (totals.used_rules, totals.rules, plural(totals.rules));
    let (used_macros, all_macros) = (totals.used_macros, totals.macros);
    let macros = plural(all_macros);
    let shown = format!(in alloc;
        "{used} of {all} rule{rules} used ({used_macros} of {all_macros} macro{macros})\n"
    )?;
    text.push_str(shown.as_str())
}

/// Returns the coverage as text: a line for each rule, such as ``a.rs:3: 2  rule 1 of `m!` ``, and
/// a last line such as `7 of 9 rules used (3 of 3 macros)`. `AllocError` if out of memory.
pub fn coverage_text(alloc: Global, coverage: &Coverage) -> Result<String, AllocError> {
    let mut text = String::new(alloc);
    for file in &coverage.files {
        if file.is_own {
            write_file(alloc, &mut text, file)?;
        }
    }
    write_totals(alloc, &mut text, coverage.totals())?;
    Ok(text)
}

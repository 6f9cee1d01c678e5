// Coverage in the format of lcov: a record for each file, with its rules as lines and as functions.
use crate::coverage::{Coverage, FileCoverage, MacroCoverage, RuleCoverage};
use crate::coverage_text::push_visible;
use std::alloc::{AllocError, Global};

// A line on which rules begin, and how many calls these rules expanded.
type LineCount = (usize, usize);

// Which part of the record of a function is written.
#[derive(Clone, Copy, Drop)]
enum FunctionPart {
    // Its line.
    Line,
    // Its count.
    Count,
}

// How many macros of that name are in the list.
fn namesakes(macros: &[MacroCoverage], name: &str) -> usize {
    macros
        .iter()
        .filter(|one| one.name.as_str() == name)
        .count()
}

// Returns the name of a macro, with a number if it isn't the first one of that name: `m`, then
// `m.2`. `before` are the macros of the file before it.
fn function_name(
    alloc: Global,
    before: &[MacroCoverage],
    name: &str,
) -> Result<String, AllocError> {
    match namesakes(before, name) {
        0 => String::from_str(alloc, name),
        earlier => {
            let number = earlier.saturating_add(1);
            format!(in alloc; "{name}.{number}")
        }
    }
}

// Writes a part of the function that stands for a rule.
fn write_function(
    alloc: Global,
    text: &mut String,
    part: FunctionPart,
    name: &str,
    number: usize,
    rule: &RuleCoverage,
) -> Result<(), AllocError> {
    let (tag, value) = match part {
        FunctionPart::Line => ("FN", rule.line),
        FunctionPart::Count => ("FNDA", rule.count),
    };
    let shown = format!(in alloc; "{tag}:{value},{name}#{number}\n")?;
    text.push_str(shown.as_str())
}

// Writes a part of the functions of a macro's rules.
fn write_rules(
    alloc: Global,
    text: &mut String,
    part: FunctionPart,
    name: &str,
    rules: &[RuleCoverage],
) -> Result<(), AllocError> {
    for (index, rule) in rules.iter().enumerate() {
        let number = index.saturating_add(1);
        write_function(alloc, text, part, name, number, rule)?;
    }
    Ok(())
}

// Writes a part of the functions of the macro of that index.
fn write_macro(
    alloc: Global,
    text: &mut String,
    part: FunctionPart,
    macros: &[MacroCoverage],
    index: usize,
) -> Result<(), AllocError> {
    let (Some(one), Some(before)) = (macros.get(index), macros.get(..index)) else {
        return Ok(());
    };
    let name = function_name(alloc, before, one.name.as_str())?;
    write_rules(alloc, text, part, name.as_str(), one.rules.as_slice())
}

// Writes a part of the functions of a file.
fn write_functions(
    alloc: Global,
    text: &mut String,
    part: FunctionPart,
    macros: &[MacroCoverage],
) -> Result<(), AllocError> {
    for index in 0..macros.len() {
        write_macro(alloc, text, part, macros, index)?;
    }
    Ok(())
}

// Writes how many there are of something, and how many of these are used.
fn write_numbers(
    alloc: Global,
    text: &mut String,
    tag: &str,
    all: usize,
    used: usize,
) -> Result<(), AllocError> {
    let shown = format!(in alloc; "{tag}F:{all}\n{tag}H:{used}\n")?;
    text.push_str(shown.as_str())
}

// Writes how many functions a file has, and how many of these are used.
fn write_function_numbers(
    alloc: Global,
    text: &mut String,
    macros: &[MacroCoverage],
) -> Result<(), AllocError> {
    let (mut all, mut used) = (0usize, 0usize);
    for one in macros {
        all = all.saturating_add(one.rules.len());
        used = used.saturating_add(one.used_rules());
    }
    write_numbers(alloc, text, "FN", all, used)
}

// Adds the line of each rule of a macro, with its count.
fn push_rules(rules: &[RuleCoverage], found: &mut Vec<LineCount>) -> Result<(), AllocError> {
    for rule in rules {
        found.push((rule.line, rule.count))?;
    }
    Ok(())
}

// Returns the line of each rule with its count, in the order of the lines.
fn rule_lines(alloc: Global, macros: &[MacroCoverage]) -> Result<Vec<LineCount>, AllocError> {
    let mut found = Vec::new(alloc);
    for one in macros {
        push_rules(one.rules.as_slice(), &mut found)?;
    }
    found.sort_unstable();
    Ok(found)
}

// Adds the count of a line: to the last line, if it is the same one.
fn push_line(line: usize, count: usize, sums: &mut Vec<LineCount>) -> Result<(), AllocError> {
    let is_last = match sums.last() {
        Some((last, _)) => *last == line,
        None => false,
    };
    if !is_last {
        sums.push((line, 0))?;
    }
    if let Some((_, sum)) = sums.last_mut() {
        *sum = sum.saturating_add(count);
    }
    Ok(())
}

// Adds up the counts of equal lines, which stand side by side.
fn summed(alloc: Global, lines: &[LineCount]) -> Result<Vec<LineCount>, AllocError> {
    let mut sums = Vec::new(alloc);
    for (line, count) in lines {
        push_line(*line, *count, &mut sums)?;
    }
    Ok(sums)
}

// Writes the count of a line.
fn write_line(
    alloc: Global,
    text: &mut String,
    line: usize,
    count: usize,
) -> Result<(), AllocError> {
    let shown = format!(in alloc; "DA:{line},{count}\n")?;
    text.push_str(shown.as_str())
}

// Writes lines, how many there are, and how many of these are used.
fn write_lines(alloc: Global, text: &mut String, lines: &[LineCount]) -> Result<(), AllocError> {
    let mut used = 0usize;
    for (line, count) in lines {
        write_line(alloc, text, *line, *count)?;
        used = used.saturating_add(usize::from(*count > 0));
    }
    write_numbers(alloc, text, "L", lines.len(), used)
}

// Writes the lines of a file's rules.
fn write_rule_lines(
    alloc: Global,
    text: &mut String,
    macros: &[MacroCoverage],
) -> Result<(), AllocError> {
    let lines = rule_lines(alloc, macros)?;
    let sums = summed(alloc, lines.as_slice())?;
    write_lines(alloc, text, sums.as_slice())
}

// Writes the record of a file.
fn write_file(alloc: Global, text: &mut String, file: &FileCoverage) -> Result<(), AllocError> {
    let macros = file.macros.as_slice();
    text.push_str("TN:\nSF:")?;
    push_visible(text, file.name.as_str())?;
    text.push('\n')?;
    write_functions(alloc, text, FunctionPart::Line, macros)?;
    write_functions(alloc, text, FunctionPart::Count, macros)?;
    write_function_numbers(alloc, text, macros)?;
    write_rule_lines(alloc, text, macros)?;
    text.push_str("end_of_record\n")
}

/// Returns the coverage in the format of lcov. A file without a macro has no record. `AllocError`
/// if out of memory.
pub fn lcov_text(alloc: Global, coverage: &Coverage) -> Result<String, AllocError> {
    let mut text = String::new(alloc);
    for file in &coverage.files {
        if file.is_own && !file.macros.is_empty() {
            write_file(alloc, &mut text, file)?;
        }
    }
    Ok(text)
}

// Coverage as JSON: one object, in one line.
use crate::coverage::{Coverage, CoverageTotals, FileCoverage, MacroCoverage, RuleCoverage};
use mbe_markup::json::{Json, Piece};
use std::alloc::{AllocError, Global};

// The version of the data. It grows if a member is dropped, or has another meaning.
const VERSION: usize = 1;

// Returns what stands before the item of that index.
fn separator(index: usize) -> Piece<'static> {
    Piece::Mark(if index == 0 { "" } else { "," })
}

// Writes where something begins.
fn write_place(
    alloc: Global,
    json: &mut Json,
    line: usize,
    column: usize,
) -> Result<(), AllocError> {
    json.write(
        alloc,
        &[
            Piece::Mark(",\"line\":"),
            Piece::Number(line),
            Piece::Mark(",\"column\":"),
            Piece::Number(column),
        ],
    )
}

// Writes the rule of that index.
fn write_rule(
    alloc: Global,
    json: &mut Json,
    index: usize,
    rule: &RuleCoverage,
) -> Result<(), AllocError> {
    let number = index.saturating_add(1);
    json.write(
        alloc,
        &[
            separator(index),
            Piece::Mark("{\"rule\":"),
            Piece::Number(number),
        ],
    )?;
    write_place(alloc, json, rule.line, rule.column)?;
    write_count(alloc, json, rule.count)
}

// Writes the last member of a rule.
fn write_count(alloc: Global, json: &mut Json, count: usize) -> Result<(), AllocError> {
    json.write(
        alloc,
        &[
            Piece::Mark(",\"count\":"),
            Piece::Number(count),
            Piece::Mark("}"),
        ],
    )
}

// Writes the rules of a macro.
fn write_rules(alloc: Global, json: &mut Json, rules: &[RuleCoverage]) -> Result<(), AllocError> {
    for (index, rule) in rules.iter().enumerate() {
        write_rule(alloc, json, index, rule)?;
    }
    Ok(())
}

// Writes the macro of that index.
fn write_macro(
    alloc: Global,
    json: &mut Json,
    index: usize,
    one: &MacroCoverage,
) -> Result<(), AllocError> {
    json.write(
        alloc,
        &[
            separator(index),
            Piece::Mark("{\"name\":"),
            Piece::Text(one.name.as_str()),
        ],
    )?;
    write_place(alloc, json, one.line, one.column)?;
    json.write(alloc, &[Piece::Mark(",\"rules\":[")])?;
    write_rules(alloc, json, one.rules.as_slice())?;
    json.write(alloc, &[Piece::Mark("]}")])
}

// Writes the macros of a file.
fn write_macros(
    alloc: Global,
    json: &mut Json,
    macros: &[MacroCoverage],
) -> Result<(), AllocError> {
    for (index, one) in macros.iter().enumerate() {
        write_macro(alloc, json, index, one)?;
    }
    Ok(())
}

// Writes the file of that index.
fn write_file(
    alloc: Global,
    json: &mut Json,
    index: usize,
    file: &FileCoverage,
) -> Result<(), AllocError> {
    json.write(
        alloc,
        &[
            separator(index),
            Piece::Mark("{\"file\":"),
            Piece::Text(file.name.as_str()),
            Piece::Mark(",\"macros\":["),
        ],
    )?;
    write_macros(alloc, json, file.macros.as_slice())?;
    json.write(alloc, &[Piece::Mark("]}")])
}

// Writes the files of the run's own crates.
fn write_files(alloc: Global, json: &mut Json, files: &[FileCoverage]) -> Result<(), AllocError> {
    let mut index = 0usize;
    for file in files {
        if file.is_own {
            write_file(alloc, json, index, file)?;
            index = index.saturating_add(1);
        }
    }
    Ok(())
}

// Writes the version of the data, and how many rules and macros are used.
fn write_totals(alloc: Global, json: &mut Json, totals: CoverageTotals) -> Result<(), AllocError> {
    json.write(
        alloc,
        &[
            Piece::Mark("{\"version\":"),
            Piece::Number(VERSION),
            Piece::Mark(",\"rules\":"),
            Piece::Number(totals.rules),
            Piece::Mark(",\"used_rules\":"),
            Piece::Number(totals.used_rules),
            Piece::Mark(",\"macros\":"),
            Piece::Number(totals.macros),
            Piece::Mark(",\"used_macros\":"),
            Piece::Number(totals.used_macros),
        ],
    )
}

/// Returns the coverage as a JSON object, in one line. `AllocError` if out of memory.
pub fn coverage_json(alloc: Global, coverage: &Coverage) -> Result<String, AllocError> {
    let mut json = Json::new(alloc);
    write_totals(alloc, &mut json, coverage.totals())?;
    json.write(alloc, &[Piece::Mark(",\"files\":[")])?;
    write_files(alloc, &mut json, coverage.files.as_slice())?;
    json.write(alloc, &[Piece::Mark("]}\n")])?;
    Ok(json.into_text())
}

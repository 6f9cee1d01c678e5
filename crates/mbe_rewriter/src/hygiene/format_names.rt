// Finds the names that a format string mentions: in braces, as `{name}` and `{name:?}`, or as a
// width or a precision, as `{:name$}` and `{:.name$}`.
ghost use Rattle.std.specs.Prelude.{◌≡◌, IfOk, OnOk, drop, map, option_map, take};
ghost use Rattle.mbe_rewriter.specs.Hygiene.FormatNames as spec;

use std::alloc::{AllocError, Allocator};

// ---- parts of a text

// Returns the text after `prefix`, if the text begins with it.
fn after_prefix<'t>(prefix: &str, text: &'t str) -> Option<&'t str>
    ensures { option_map (λ t. t.now) result ≡ spec.after_prefix prefix.now text.now }
{
    text.strip_prefix(prefix)
}

fn begins_with(prefix: &str, text: &str) -> bool
    ensures { result ≡ spec.begins_with prefix.now text.now }
{
    after_prefix(prefix, text).is_some()
}

// Returns whether `byte` may be part of a name.
fn is_name_byte(byte: u8) -> bool
    ensures { result ≡ spec.is_name_byte byte }
{
    byte == b'_'
        || b'0' <= byte && byte <= b'9'
        || b'A' <= byte && byte <= b'Z'
        || b'a' <= byte && byte <= b'z'
        || 128 <= byte
}

// Returns how many such bytes are at the front.
fn run_len(text: &str) -> usize
    ensures { result ≡ spec.run_len text.now }
{
    text.as_bytes()
        .iter()
        .position(|byte| !is_name_byte(*byte))
        .unwrap_or(text.len())
}

// Splits the text after these bytes.
fn split_run(text: &str) -> (&str, &str)
    ensures run { result.0.now ≡ take (spec.run_len text.now) text.now }
    ensures after { result.1.now ≡ drop (spec.run_len text.now) text.now }
{
    text.split_at(run_len(text))
}

// Returns the first byte, which is no part of a name, and the text after it.
fn first_byte(text: &str) -> Option<(u8, &str)>
    ensures { option_map (λ p. (p.0, p.1.now)) result ≡ spec.first_byte text.now }
{
    let (byte, _more) = text.as_bytes().split_first()?;
    if is_name_byte(*byte) {
        return None;
    }
    let (_first, more) = text.split_at(1);
    Some((*byte, more))
}

// ---- what a run of such bytes names

// Returns the text after an escaped `{`. The run begins after the `\` of the escape.
fn after_escape(run: &str) -> &str
    ensures { result.now ≡ spec.after_escape run.now }
{
    match after_prefix("x7b", run) {
        Some(name) => name,
        None => after_prefix("x7B", run).unwrap_or(""),
    }
}

// Returns the run without the `0` that asks for zeros.
fn after_zero(run: &str) -> &str
    ensures { result.now ≡ spec.after_zero run.now }
{
    after_prefix("0", run).unwrap_or(run)
}

// Returns the name in a run, by the byte before the run.
fn name_of_run(before: u8, run: &str) -> &str
    ensures { result.now ≡ spec.name_of_run before run.now }
{
    if before == b'\\' {
        after_escape(run)
    } else {
        after_zero(run)
    }
}

// Returns whether a `$` is next, also if it is written as an escape.
fn is_dollar(after: &str) -> bool
    ensures { result ≡ spec.is_dollar after.now }
{
    begins_with("$", after) || begins_with("\\x24", after) || begins_with("\\u{24}", after)
}

// Returns whether a name between these is an argument's, or that of a number of characters.
fn is_format_name(before: u8, name: &str, after: &str) -> bool
    ensures { result ≡ spec.is_format_name before name.now after.now }
{
    !name.is_empty() && (before == b'{' || before == b'\\' || is_dollar(after))
}

// ---- all names

fn is_found(found: &[&str], name: &str) -> bool
    ensures { result ≡ spec.is_found (map (λ t. t.now) found.now) name.now }
{
    for one in found {
        if *one == name {
            return true;
        }
    }
    false
}

fn push_format_name<'t, A: Allocator>(
    found: &mut Vec<&'t str, A>,
    before: u8,
    run: &'t str,
    after: &str,
) -> Result<(), AllocError>
    ensures { OnOk result (map (λ t. t.now) found.new.items
        ≡ spec.found_at (map (λ t. t.now) found.old.items) before run.now after.now) }
{
    let name = name_of_run(before, run);
    if is_format_name(before, name, after) && !is_found(found.as_slice(), name) {
        found.push(name)?;
    }
    Ok(())
}

// Returns whether the run is the code of a `{`, as between the braces of `\u{7b}`.
fn is_brace_code(run: &str) -> bool
    ensures { result ≡ spec.is_brace_code run.now }
{
    run == "7b" || run == "7B"
}

// Returns the byte before the next run. An escape that ends there counts as the `{` that it writes.
fn next_before(run: &str, byte: u8) -> u8
    ensures { result ≡ spec.next_before run.now byte }
{
    if byte == b'}' && is_brace_code(run) {
        b'{'
    } else {
        byte
    }
}

/// Returns the names that a text mentions, each once. Returns `AllocError` if memory runs out.
pub(crate) fn format_names<'t, A: Allocator>(
    alloc: A,
    text: &'t str,
) -> Result<Vec<&'t str, A>, AllocError>
    ensures { IfOk result (λ v. map (λ t. t.now) v.items ≡ spec.format_names text.now) }
{
    let mut found = Vec::new(alloc);
    let mut before = 0;
    let mut rest = text;
    'runs: loop {
        let (run, after) = split_run(rest);
        push_format_name(&mut found, before, run, after)?;
        let Some((byte, more)) = first_byte(after) else {
            return Ok(found);
        };
        before = next_before(run, byte);
        rest = more;
    }
}

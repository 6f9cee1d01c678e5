// Definitions.
ghost use Rattle.std.specs.Prelude.{◌<◌, ◌^◌, length};

use bitflags::Flags;
use mbe::{DeclarativeMacro, MacroCallStyle, MacroCallStyles, ParseError};
use mbe_text::lexer::lex;
use mbe_tt::span::Edition;
use std::alloc::Global;

/// What is known of a definition before any call: its rules, their styles, and the first fault's
/// text.
pub fn describe(alloc: Global, rules: &str) -> anyhow::Result<(usize, MacroCallStyles, String)>
    requires { length rules.now < 2 ^ 32 }
{
    let rules = lex(alloc, rules, 0)?;
    let defined = DeclarativeMacro::parse_macro_rules(alloc, &rules, |_ctx| Edition::Edition2021)?;
    let fault = match defined.err() {
        Some(error) => format!(in alloc; "{error}")?,
        None => String::new(alloc),
    };
    Ok((defined.num_rules(), defined.rule_styles(), fault))
}

/// A `macro` with arguments, as `macro m($x:ident) { $x }`: the pattern, and the template.
pub fn read_macro(alloc: Global, args: &str, body: &str) -> anyhow::Result<DeclarativeMacro>
    requires args { length args.now < 2 ^ 32 }
    requires body { length body.now < 2 ^ 32 }
{
    let args = lex(alloc, args, 0)?;
    let body = lex(alloc, body, 0)?;
    let defined = DeclarativeMacro::parse_macro2(
        alloc,
        Some(&args),
        &body,
        |_ctx| Edition::Edition2024,
    )?;
    Ok(defined)
}

/// A macro whose definition wasn't found: each call has the error `NoMatchingRule`.
pub fn missing(alloc: Global) -> anyhow::Result<DeclarativeMacro> {
    let text = String::from_str(alloc, "expected macro definition")?;
    Ok(DeclarativeMacro::from_err(alloc, ParseError::Expected(text)))
}

/// Whether a definition has rules for a style of call.
pub fn has_style(defined: &DeclarativeMacro, style: MacroCallStyle) -> bool {
    defined.rule_styles().contains(MacroCallStyles::from(style))
}

pub mod tests {
    use super::{describe, has_style, missing, read_macro};
    use bitflags::Flags;
    use mbe::{DeclarativeMacro, MacroCallStyle};
    use std::alloc::Global;
    use test_rows::{number, rows};

    // Each row: rules, how many are kept, the bits of their styles, and the fault.
    pub const DESCRIBED: &str = rows![
        ("($x:ident) => {$x}; () => {}", 2, 1, ""),
        ("attr() ($i:item) => {$i}", 1, 2, ""),
        ("() => {}; ($x) => {}", 1, 1, "missing fragment specifier"),
        ("($($v:vis)*) => {}", 1, 1, "empty token tree in repetition"),
        ("", 0, 1, ""),
    ];

    /// Whether the rules are described as the row says.
    pub fn is_described(
        alloc: Global,
        rules: &str,
        (count, bits): (&str, &str),
        fault: &str,
    ) -> Option<bool> {
        if rules.len() > 1_000_000 {
            return None;
        }
        let (kept, styles, text) = describe(alloc, rules).ok()?;
        let counts = (kept, usize::from(styles.bits()));
        Some(counts == (number(count), number(bits)) && text.as_str() == fault)
    }

    // Whether a copy is equal, and a macro whose definition wasn't found isn't.
    fn is_copied(alloc: Global, defined: &DeclarativeMacro) -> Option<bool> {
        let copy = defined.try_clone(alloc).ok()?;
        let missing = missing(alloc).ok()?;
        Some(copy == *defined && *defined != missing)
    }

    pub fn is_read(alloc: Global) -> Option<bool> {
        let defined = read_macro(alloc, "$x:ident", "$x").ok()?;
        let is_without_fault = defined.err().is_none()
            && has_style(&defined, MacroCallStyle::FnLike)
            && !has_style(&defined, MacroCallStyle::Attr);
        Some(is_without_fault && is_copied(alloc, &defined)?)
    }
}

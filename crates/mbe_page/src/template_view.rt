// Writes the template of a rule as its file has it, with its variables in their colours.
use crate::call_view::CallView;
use crate::page_data::PageData;
use crate::token_writer::variable_class;
use mbe_markup::html::{Html, Part};
use mbe_markup::railroad::write_origin;
use mbe_markup::rule_sites::RuleSite;
use mbe_markup::token_text::{TextToken, source_tokens};
use std::alloc::{AllocError, Global};

// Returns the class of a token: that of a variable, if the token is its name after a `$`.
fn token_class(view: &CallView<'_>, is_after_dollar: bool, text: &str) -> &'static str {
    if is_after_dollar {
        for (index, variable) in view.variables.iter().enumerate() {
            if variable.name == text {
                return variable_class(index);
            }
        }
    }
    "t"
}

// Writes a token of a template, and the text before it from byte `at` on. Returns its text.
fn write_token<'t>(
    alloc: Global,
    html: &mut Html,
    text: &'t str,
    at: usize,
    token: TextToken,
    class: &'static str,
) -> Result<(), AllocError> {
    let gap = text.get(at..token.start).unwrap_or("");
    html.write(
        alloc,
        &[
            Part::Text(gap),
            Part::Markup("<i class="),
            Part::Markup(class),
        ],
    )?;
    write_origin(alloc, html, token.span)?;
    let word = text.get(token.start..token.end).unwrap_or("");
    html.write(
        alloc,
        &[Part::Markup(">"), Part::Text(word), Part::Markup("</i>")],
    )
}

// Writes the tokens of a template, and the text around them.
fn write_tokens(
    alloc: Global,
    html: &mut Html,
    text: &str,
    site: RuleSite<'_>,
    tokens: &[TextToken],
    view: &CallView<'_>,
) -> Result<(), AllocError> {
    let mut at = site.start;
    let mut is_after_dollar = false;
    for token in tokens {
        if token.start < at || token.end <= token.start {
            continue;
        }
        let word = text.get(token.start..token.end).unwrap_or("");
        let class = token_class(view, is_after_dollar, word);
        write_token(alloc, html, text, at, *token, class)?;
        is_after_dollar = word == "$";
        at = token.end;
    }
    html.write(alloc, &[Part::Text(text.get(at..site.end).unwrap_or(""))])
}

/// Writes the template of the rule that applies, if its file is known. `AllocError` if out of
/// memory.
pub fn write_template(
    alloc: Global,
    html: &mut Html,
    shown: &PageData<'_>,
    view: &CallView<'_>,
) -> Result<(), AllocError> {
    let (Some(site), Some(called)) = (view.site(), view.called) else {
        return Ok(());
    };
    let Some(name_span) = called.name_span else {
        return Ok(());
    };
    html.write(
        alloc,
        &[Part::Markup(
            "<div class=\"side\"><h4>Template</h4>\
                <div class=\"code\" tabindex=\"0\" role=\"group\" aria-label=\"Template\">",
        )],
    )?;
    let tokens = source_tokens(alloc, site.template)?;
    let text = shown.text_of(name_span.file);
    write_tokens(alloc, html, text, site, tokens.as_slice(), view)?;
    html.write(alloc, &[Part::Markup("</div></div>")])
}

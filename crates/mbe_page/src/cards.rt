// Writes calls with their cards. A card has the call's expansion with the calls in it, which have
// cards in turn; the template beside it; and how the rules match the call.
use crate::call_view::{CallView, call_view};
use crate::match_view::write_match;
use crate::page_data::PageData;
use crate::template_view::write_template;
use crate::token_writer::{TokenWriter, variable_class};
use mbe_markup::html::{Html, Part};
use mbe_markup::token_text::{TokenText, token_text};
use mbe_session::file_expander::call_steps::{CallState, CallStep};
use mbe_session::notes::Level;
use mbe_tt::tt::TopSubtree;
use std::alloc::{AllocError, Global};

/// Writes what opens a call, up to its text. `AllocError` if out of memory.
pub fn open_call(
    alloc: Global,
    html: &mut Html,
    index: usize,
    state: CallState,
) -> Result<(), AllocError> {
    let opening = match state {
        CallState::Expanded => "<details class=\"call ok\" id=\"c",
        CallState::Failed => "<details class=\"call bad\" open id=\"c",
        CallState::Unknown => "<details class=\"call\" id=\"c",
    };
    html.write(
        alloc,
        &[
            Part::Markup(opening),
            Part::Number(index),
            Part::Markup("\"><summary>"),
        ],
    )
}

// Writes a link to the card of a call that is in the list of deep calls.
fn open_link(
    alloc: Global,
    html: &mut Html,
    index: usize,
    state: CallState,
) -> Result<(), AllocError> {
    let opening = match state {
        CallState::Failed => "<a class=\"call bad deep\" href=\"#c",
        CallState::Expanded | CallState::Unknown => "<a class=\"call ok deep\" href=\"#c",
    };
    html.write(
        alloc,
        &[
            Part::Markup(opening),
            Part::Number(index),
            Part::Markup("\">"),
        ],
    )
}

// Writes the name of a rule that applies.
fn write_rule(alloc: Global, html: &mut Html, view: &CallView<'_>) -> Result<(), AllocError> {
    let Some(rule) = view.rule else {
        return Ok(());
    };
    let count = view.rules.map_or(0, |rules| rules.num_rules());
    html.write(
        alloc,
        &[
            Part::Markup(" by rule "),
            Part::Number(rule.saturating_add(1)),
            Part::Markup(" of "),
            Part::Number(count),
        ],
    )
}

// Writes a link to the macro of a call.
fn write_macro_link(
    alloc: Global,
    html: &mut Html,
    view: &CallView<'_>,
    name: &str,
) -> Result<(), AllocError> {
    match view.called {
        Some(called) => html.write(
            alloc,
            &[
                Part::Markup("<a href=\"#m"),
                Part::Number(called.number),
                Part::Markup("\"><code>"),
                Part::Text(name),
                Part::Markup("!</code></a>"),
            ],
        ),
        None => html.write(
            alloc,
            &[
                Part::Markup("<code>"),
                Part::Text(name),
                Part::Markup("!</code>"),
            ],
        ),
    }
}

// Writes the names of the variables, each in its colour.
fn write_variables(alloc: Global, html: &mut Html, view: &CallView<'_>) -> Result<(), AllocError> {
    for (index, variable) in view.variables.iter().enumerate() {
        html.write(
            alloc,
            &[
                Part::Markup(" <span class=\"chip "),
                Part::Markup(variable_class(index)),
                Part::Markup("\">$"),
                Part::Text(variable.name),
                Part::Markup("</span>"),
            ],
        )?;
    }
    Ok(())
}

// Writes the first line of a card.
fn write_head(
    alloc: Global,
    html: &mut Html,
    view: &CallView<'_>,
    step: &CallStep,
) -> Result<(), AllocError> {
    html.write(alloc, &[Part::Markup("<p class=\"head\">")])?;
    write_macro_link(alloc, html, view, step.name.as_str())?;
    match step.state {
        CallState::Expanded => write_rule(alloc, html, view)?,
        CallState::Failed => html.write(alloc, &[Part::Markup(" isn't expanded")])?,
        CallState::Unknown => html.write(alloc, &[Part::Markup(" has no definition here")])?,
    }
    write_variables(alloc, html, view)?;
    html.write(alloc, &[Part::Markup("</p>")])
}

// Writes the errors of a call.
fn write_errors(
    alloc: Global,
    html: &mut Html,
    shown: &PageData<'_>,
    step: &CallStep,
) -> Result<(), AllocError> {
    let (from, to) = step.notes;
    for note in shown.session.expander.notes.iter().take(to).skip(from) {
        if matches!(note.level, Level::Error) {
            html.write(
                alloc,
                &[
                    Part::Markup("<p class=\"error\">"),
                    Part::Text(note.message.as_str()),
                    Part::Markup("</p>"),
                ],
            )?;
        }
    }
    Ok(())
}

/// Writes the card of a step. Cards are nested up to that depth. `AllocError` if out of memory.
#[cycle(cards)]
pub fn write_card(
    alloc: Global,
    html: &mut Html,
    shown: &PageData<'_>,
    index: usize,
    levels: usize,
) -> Result<(), AllocError> {
    let Some(step) = shown.steps.get(index) else {
        return Ok(());
    };
    let view = call_view(alloc, &*shown, step)?;
    html.write(alloc, &[Part::Markup("<div class=\"card\">")])?;
    write_head(alloc, html, &view, step)?;
    write_errors(alloc, html, &*shown, step)?;
    if let Some(tree) = &step.expansion {
        html.write(alloc, &[Part::Markup("<div class=\"sides\">")])?;
        write_template(alloc, html, &*shown, &view)?;
        write_expansion(alloc, html, &*shown, index, tree, &view, levels)?;
        html.write(alloc, &[Part::Markup("</div>")])?;
    }
    write_match(alloc, html, &*shown, step, &view)?;
    html.write(alloc, &[Part::Markup("</div>")])
}

// Writes an expansion, with the calls in it.
#[cycle(cards)]
fn write_expansion(
    alloc: Global,
    html: &mut Html,
    shown: &PageData<'_>,
    index: usize,
    tree: &TopSubtree,
    view: &CallView<'_>,
    levels: usize,
) -> Result<(), AllocError> {
    let text = token_text(alloc, tree.iter().remaining())?;
    let mut writer = TokenWriter::new(&text, &*view, (&*shown).contexts(index));
    html.write(
        alloc,
        &[Part::Markup(
            "<div class=\"side\"><h4>Expansion</h4>\
                <div class=\"code\" tabindex=\"0\" role=\"group\" aria-label=\"Expansion\">",
        )],
    )?;
    let children = (&*shown).children(alloc, Some(index))?;
    let at = write_children(
        alloc,
        html,
        &*shown,
        &mut writer,
        children.as_slice(),
        levels,
    )?;
    writer.rest(alloc, html, at)?;
    html.write(alloc, &[Part::Markup("</div></div>")])
}

// Writes the calls of an expansion, and the tokens before each. Returns the index of the token
// after the last call.
#[cycle(cards)]
fn write_children(
    alloc: Global,
    html: &mut Html,
    shown: &PageData<'_>,
    writer: &mut TokenWriter<'_, '_>,
    children: &[usize],
    levels: usize,
) -> Result<usize, AllocError> {
    let mut at = 0usize;
    for child in children {
        at = write_child(alloc, html, &*shown, writer, *child, at, levels)?;
    }
    Ok(at)
}

// Writes a call of an expansion, and the tokens before it from the index `at` on. Returns the index
// of the token after the call.
#[cycle(cards)]
fn write_child(
    alloc: Global,
    html: &mut Html,
    shown: &PageData<'_>,
    writer: &mut TokenWriter<'_, '_>,
    child: usize,
    at: usize,
    levels: usize,
) -> Result<usize, AllocError> {
    let Some(step) = shown.steps.get(child) else {
        return Ok(at);
    };
    let tokens = ChildTokens {
        child,
        state: step.state,
        first: step.place.first,
        end: step.place.first.saturating_add(step.place.count),
    };
    if tokens.first < at {
        return Ok(at);
    }
    writer.tokens(alloc, html, at, tokens.first)?;
    writer.gap_before(alloc, html, tokens.first)?;
    if tokens.state == CallState::Unknown {
        return write_unknown(alloc, html, writer, tokens.first);
    }
    write_opened(alloc, html, writer, tokens, levels == 0)?;
    if levels > 0 {
        write_card(alloc, html, &*shown, child, levels - 1)?;
        html.write(alloc, &[Part::Markup("</details>")])?;
    }
    Ok(tokens.end)
}

// The tokens of a call in an expansion: the index of its step, its state, and the tokens from the
// first index on and before the second.
#[derive(Clone, Copy, Drop)]
struct ChildTokens {
    child: usize,
    state: CallState,
    first: usize,
    end: usize,
}

// Writes the tokens of a call: as a link to its card, or as what opens the card.
fn write_opened(
    alloc: Global,
    html: &mut Html,
    writer: &mut TokenWriter<'_, '_>,
    tokens: ChildTokens,
    is_link: bool,
) -> Result<(), AllocError> {
    let closing = if is_link {
        open_link(alloc, html, tokens.child, tokens.state)?;
        "</a>"
    } else {
        open_call(alloc, html, tokens.child, tokens.state)?;
        "</summary>"
    };
    writer.tokens(alloc, html, tokens.first, tokens.end)?;
    html.write(alloc, &[Part::Markup(closing)])
}

// Writes the first token of a call of an unknown macro, and returns the index of the token after
// it.
fn write_unknown(
    alloc: Global,
    html: &mut Html,
    writer: &mut TokenWriter<'_, '_>,
    first: usize,
) -> Result<usize, AllocError> {
    let end = first.saturating_add(1);
    html.write(
        alloc,
        &[Part::Markup("<span class=\"unknown\" title=\"no definition here\">")],
    )?;
    writer.tokens(alloc, html, first, end)?;
    html.write(alloc, &[Part::Markup("</span>")])?;
    Ok(end)
}

/// Writes the text of a call that is in the list of deep calls. `AllocError` if out of memory.
pub fn write_call_text(alloc: Global, html: &mut Html, step: &CallStep) -> Result<(), AllocError> {
    let TokenText { text, .. } = token_text(alloc, step.argument.iter().remaining())?;
    html.write(
        alloc,
        &[Part::Text(step.name.as_str()), Part::Markup("! { ")],
    )?;
    write_end(alloc, html, text.as_str())
}

// Writes the argument of a call, and the end of the call.
fn write_end(alloc: Global, html: &mut Html, argument: &str) -> Result<(), AllocError> {
    html.write(alloc, &[Part::Text(argument), Part::Markup(" }")])
}

// Writes how the rules of a macro match a call. First comes the argument, with the token where each
// rule stops. Then each rule has its verdict, its pattern, and what its variables are bound to.
ghost use Rattle.mbe_semantics.specs.Expansion.Macro.{IsChecked};
ghost use Rattle.mbe.specs.MacroViews.{macro_of};

use crate::call_view::CallView;
use crate::page_data::PageData;
use crate::rule_states::{are_shown, states_text};
use crate::token_writer::variable_class;
use mbe::{Binding, Bindings, DeclarativeMacro, MetaVarKind, Verdict};
use mbe_diagnostics::outcome::{MatchOutcome, message};
use mbe_diagnostics::rule_checks::variables::PatternVariable;
use mbe_diagnostics::rule_part::variable_text;
use mbe_markup::fragments::fragment_trees;
use mbe_markup::html::{Html, Part};
use mbe_markup::railroad::{draw_pattern, write_svg_open};
use mbe_markup::token_text::{TextToken, TokenText, token_text};
use mbe_session::explanation::outcome_of_rule;
use mbe_session::file_expander::call_steps::{CallState, CallStep};
use mbe_tt::grammar::FragmentGrammar;
use mbe_tt::span::Span;
use mbe_tt::symbol::Symbol;
use mbe_tt::tt::TokenTreesView;
use std::alloc::{AllocError, Global};

/// The greatest depth to which nested rounds are shown.
const LEVELS: u32 = 64;

// How a rule matches a call: the outcome, and the text of `states_text`.
#[derive(Drop)]
struct RuleMatch {
    outcome: MatchOutcome,
    states: String,
}

// Returns how each of the first `count` rules matches a call.
fn matches_of<G: FragmentGrammar>(
    alloc: Global,
    grammar: &G,
    rules: &DeclarativeMacro,
    step: &CallStep,
    count: usize,
) -> Result<Vec<RuleMatch>, AllocError>
    requires checked { IsChecked (macro_of rules.now) }
{
    let mut matches = Vec::new(alloc);
    for index in 0..rules.num_rules() {
        if index < count {
            matches.push(RuleMatch {
                outcome: outcome_of_rule(alloc, grammar, rules, &step.argument, index)?,
                states: states_text(alloc, grammar, rules, step, index)?,
            })?;
        }
    }
    Ok(matches)
}

// Returns the offset of the token where a rule stops, if it stops at one.
fn stop_of(tried: &RuleMatch) -> Option<usize> {
    match tried.outcome.verdict {
        Verdict::Stuck(offset) | Verdict::Ambiguous(offset) => Some(offset),
        Verdict::OneReading | Verdict::ManyReadings => None,
    }
}

// Writes the numbers of the rules that stop at an offset.
fn write_stops(
    alloc: Global,
    html: &mut Html,
    matches: &[RuleMatch],
    offset: usize,
) -> Result<(), AllocError> {
    for (index, tried) in matches.iter().enumerate() {
        if stop_of(tried) == Some(offset) {
            html.write(
                alloc,
                &[
                    Part::Markup(" <sup>rule "),
                    Part::Number(index.saturating_add(1)),
                    Part::Markup(" stops here</sup>"),
                ],
            )?;
        }
    }
    Ok(())
}

fn stops_at(matches: &[RuleMatch], offset: usize) -> bool {
    matches.iter().any(|one| stop_of(one) == Some(offset))
}

// Writes a token. The script counts these elements, and finds the token of an offset so. A token
// with an `offset` begins to count there, since tokens without a text have no element.
fn write_word(
    alloc: Global,
    html: &mut Html,
    token: &str,
    offset: Option<usize>,
) -> Result<(), AllocError> {
    match offset {
        Some(offset) => html.write(
            alloc,
            &[
                Part::Markup("<i data-n="),
                Part::Number(offset),
                Part::Markup(">"),
            ],
        )?,
        None => html.write(alloc, &[Part::Markup("<i>")])?,
    }
    html.write(alloc, &[Part::Text(token), Part::Markup("</i>")])
}

// Writes a token where rules stop.
fn write_mark(
    alloc: Global,
    html: &mut Html,
    matches: &[RuleMatch],
    offset: usize,
    token: &str,
) -> Result<(), AllocError> {
    html.write(alloc, &[Part::Markup("<mark>")])?;
    write_word(alloc, html, token, Some(offset))?;
    write_stops(alloc, html, matches, offset)?;
    html.write(alloc, &[Part::Markup("</mark>")])
}

// The tokens of an argument, of which some are written.
#[derive(Drop)]
struct ArgumentText<'a> {
    argument: &'a TokenText,
    // The byte up to which the text is written.
    at: usize,
    // The offset of the next element, as the script counts.
    next: usize,
}

impl<'a> ArgumentText<'a> {
    // Returns the text of the token at an offset, and writes what is before it.
    fn word(
        &mut self,
        alloc: Global,
        html: &mut Html,
        token: TextToken,
    ) -> Result<&'a str, AllocError> {
        let text = self.argument.text.as_str();
        html.write(
            alloc,
            &[Part::Text(text.get(self.at..token.start).unwrap_or(""))],
        )?;
        self.at = token.end;
        Ok(text.get(token.start..token.end).unwrap_or(""))
    }

    // Writes a token where no rule stops as an element. One without a text has none.
    fn write_token(
        &mut self,
        alloc: Global,
        html: &mut Html,
        offset: usize,
        token: TextToken,
    ) -> Result<(), AllocError> {
        let word = self.word(alloc, html, token)?;
        if word.is_empty() {
            return Ok(());
        }
        let is_next = offset == self.next;
        self.next = offset.saturating_add(1);
        write_word(alloc, html, word, if is_next { None } else { Some(offset) })
    }

    // Writes a token where rules stop.
    fn write_marked(
        &mut self,
        alloc: Global,
        html: &mut Html,
        matches: &[RuleMatch],
        offset: usize,
        token: TextToken,
    ) -> Result<(), AllocError> {
        let word = self.word(alloc, html, token)?;
        self.next = offset.saturating_add(1);
        write_mark(alloc, html, matches, offset, word)
    }
}

// Writes the tokens of an argument. Those where rules stop are marked. In a long argument only
// these are elements of their own.
fn write_tokens(
    alloc: Global,
    html: &mut Html,
    argument: &TokenText,
    matches: &[RuleMatch],
) -> Result<(), AllocError> {
    let is_short = are_shown(argument.tokens.len());
    let mut written = ArgumentText {
        argument,
        at: 0,
        next: 0,
    };
    for (offset, token) in argument.tokens.iter().enumerate() {
        if stops_at(matches, offset) {
            written.write_marked(alloc, html, matches, offset, *token)?;
        } else if is_short {
            written.write_token(alloc, html, offset, *token)?;
        }
    }
    let rest = argument.text.as_str().get(written.at..).unwrap_or("");
    html.write(alloc, &[Part::Text(rest)])
}

// Writes the end of an argument, if rules stop there.
fn write_end(
    alloc: Global,
    html: &mut Html,
    matches: &[RuleMatch],
    end: usize,
) -> Result<(), AllocError> {
    if !stops_at(matches, end) {
        return Ok(());
    }
    html.write(alloc, &[Part::Markup(" <mark class=\"end\">")])?;
    write_word(alloc, html, "end", Some(end))?;
    write_stops(alloc, html, matches, end)?;
    html.write(alloc, &[Part::Markup("</mark>")])
}

// Writes the argument of a call as a row of tokens.
fn write_argument(
    alloc: Global,
    html: &mut Html,
    step: &CallStep,
    matches: &[RuleMatch],
) -> Result<(), AllocError> {
    let argument = token_text(alloc, step.argument.iter().remaining())?;
    html.write(
        alloc,
        &[Part::Markup("<h4>Argument</h4><div class=\"code argument\">")],
    )?;
    write_tokens(alloc, html, &argument, matches)?;
    write_end(alloc, html, matches, argument.tokens.len())?;
    html.write(alloc, &[Part::Markup("</div>")])
}

// Returns the spans of what a rule expected.
fn expected_spans(alloc: Global, outcome: &MatchOutcome) -> Result<Vec<Span>, AllocError> {
    let mut spans = Vec::new(alloc);
    for part in &outcome.expected {
        if let Some(span) = part.span {
            spans.push(span)?;
        }
    }
    Ok(spans)
}

// Writes the pattern of a rule that fails, in which all that it expected is marked.
fn write_marked_pattern(
    alloc: Global,
    html: &mut Html,
    rules: &DeclarativeMacro,
    outcome: &MatchOutcome,
    index: usize,
) -> Result<(), AllocError> {
    if index >= rules.num_rules() {
        return Ok(());
    }
    let spans = expected_spans(alloc, outcome)?;
    let drawing = draw_pattern(alloc, rules.pattern(index), spans.as_slice())?;
    write_svg_open(alloc, html, &drawing, false)?;
    html.write(alloc, &[Part::Markup("<g class=\"rail\">")])?;
    drawing.write_to(html)?;
    html.write(alloc, &[Part::Markup("</g></svg>")])
}

// Writes the pattern of a rule by a reference to the list of macros.
fn write_pattern(
    alloc: Global,
    html: &mut Html,
    view: &CallView<'_>,
    index: usize,
) -> Result<(), AllocError> {
    let Some(called) = view.called else {
        return Ok(());
    };
    let Some(drawing) = called.drawings.get(index) else {
        return Ok(());
    };
    write_svg_open(alloc, html, drawing, true)?;
    html.write(
        alloc,
        &[
            Part::Markup("<use href=\"#m"),
            Part::Number(called.number),
            Part::Markup("r"),
            Part::Number(index),
            Part::Markup("\"/></svg>"),
        ],
    )
}

// ---- bindings

// Whether each round is bound to a fragment.
fn are_fragments(rounds: &[Binding<'_>]) -> bool {
    for inner in rounds {
        if !matches!(inner, Binding::Fragment(_)) {
            return false;
        }
    }
    true
}

// Writes the rounds of a `tt` in one row, and their number.
fn write_run(alloc: Global, html: &mut Html, rounds: &[Binding<'_>]) -> Result<(), AllocError> {
    for inner in rounds {
        if let Some(trees) = fragment_trees(inner) {
            write_fragment(alloc, html, trees)?;
            html.write(alloc, &[Part::Markup(" ")])?;
        }
    }
    html.write(
        alloc,
        &[
            Part::Markup("<em>rounds: "),
            Part::Number(rounds.len()),
            Part::Markup("</em>"),
        ],
    )
}

// Writes what a variable is bound to. Rounds are rows.
fn write_binding(
    alloc: Global,
    html: &mut Html,
    class: &'static str,
    kind: Option<MetaVarKind>,
    binding: &Binding<'_>,
    levels: u32,
) -> Result<(), AllocError> {
    if let Some(trees) = fragment_trees(binding) {
        return write_fragment(alloc, html, trees);
    }
    let Binding::Nested(rounds) = binding else {
        return write_no_fragment(alloc, html, binding);
    };
    if kind == Some(MetaVarKind::Tt) && are_fragments(rounds) {
        return write_run(alloc, html, rounds);
    }
    if levels == 0 {
        return html.write(alloc, &[Part::Text("…")]);
    }
    html.write(
        alloc,
        &[
            Part::Markup("<ol class="),
            Part::Markup(class),
            Part::Markup(">"),
        ],
    )?;
    for inner in rounds {
        html.write(alloc, &[Part::Markup("<li>")])?;
        write_binding(alloc, html, class, kind, inner, levels - 1)?;
        html.write(alloc, &[Part::Markup("</li>")])?;
    }
    html.write(alloc, &[Part::Markup("</ol>")])
}

// Writes what a variable without a fragment is bound to.
fn write_no_fragment(
    alloc: Global,
    html: &mut Html,
    binding: &Binding<'_>,
) -> Result<(), AllocError> {
    match binding {
        Binding::Empty => html.write(alloc, &[Part::Markup("<em>no round</em>")]),
        Binding::Fragment(_) | Binding::Nested(_) | Binding::Missing(_) => {
            html.write(alloc, &[Part::Markup("<em>nothing</em>")])
        }
    }
}

// Writes the text of a fragment.
fn write_fragment(
    alloc: Global,
    html: &mut Html,
    trees: TokenTreesView<'_>,
) -> Result<(), AllocError> {
    let TokenText { text, .. } = token_text(alloc, trees)?;
    if text.is_empty() {
        return html.write(alloc, &[Part::Markup("<em>nothing</em>")]);
    }
    html.write(alloc, &[Part::Text(text.as_str())])
}

// Writes a variable and what it is bound to.
fn write_variable(
    alloc: Global,
    html: &mut Html,
    index: usize,
    variable: PatternVariable<'_>,
    bindings: &Bindings<'_>,
) -> Result<(), AllocError> {
    let class = variable_class(index);
    let quoted = variable_text(alloc, variable.name, variable.kind)?;
    let name = quoted.as_str().trim_matches('`');
    html.write(
        alloc,
        &[
            Part::Markup("<li><span class=\"chip "),
            Part::Markup(class),
            Part::Markup("\">"),
            Part::Text(name),
            Part::Markup("</span> <div class=\"value "),
            Part::Markup(class),
            Part::Markup("\">"),
        ],
    )?;
    write_value(alloc, html, class, variable, bindings)?;
    html.write(alloc, &[Part::Markup("</div></li>")])
}

// Writes what the variable is bound to.
fn write_value(
    alloc: Global,
    html: &mut Html,
    class: &'static str,
    variable: PatternVariable<'_>,
    bindings: &Bindings<'_>,
) -> Result<(), AllocError> {
    let symbol = Symbol::intern(alloc, variable.name)?;
    match bindings.get(&symbol) {
        Some(binding) => write_binding(alloc, html, class, variable.kind, binding, LEVELS),
        None => html.write(alloc, &[Part::Markup("<em>nothing</em>")]),
    }
}

// Writes what the variables of the rule that applies are bound to.
fn write_bindings(alloc: Global, html: &mut Html, view: &CallView<'_>) -> Result<(), AllocError> {
    let Some(bindings) = &view.bindings else {
        return Ok(());
    };
    if view.variables.is_empty() {
        return Ok(());
    }
    html.write(alloc, &[Part::Markup("<ul class=\"bindings\">")])?;
    for (index, variable) in view.variables.iter().enumerate() {
        write_variable(alloc, html, index, *variable, bindings)?;
    }
    html.write(alloc, &[Part::Markup("</ul>")])
}

// ---- rules

// Writes the verdict of a rule.
fn write_verdict(
    alloc: Global,
    html: &mut Html,
    outcome: &MatchOutcome,
    index: usize,
) -> Result<(), AllocError> {
    let number = index.saturating_add(1);
    let rule = format!(in alloc; "rule {number}")?;
    let text = message(alloc, rule.as_str(), outcome)?;
    let opening = match outcome.verdict {
        Verdict::OneReading => "<div class=\"rule yes\"><h4>",
        Verdict::ManyReadings | Verdict::Ambiguous(_) | Verdict::Stuck(_) => {
            "<div class=\"rule no\"><h4>"
        }
    };
    html.write(
        alloc,
        &[
            Part::Markup(opening),
            Part::Text(text.as_str()),
            Part::Markup("</h4>"),
        ],
    )
}

// Writes the opening of the element around a pattern, with the states at each offset.
fn write_track(alloc: Global, html: &mut Html, states: &str) -> Result<(), AllocError> {
    if states.is_empty() {
        return html.write(alloc, &[Part::Markup("<div class=\"track\">")]);
    }
    html.write(
        alloc,
        &[
            Part::Markup("<div class=\"track\" data-states=\""),
            Part::Text(states),
            Part::Markup("\">"),
        ],
    )
}

// Writes a rule: its verdict, its pattern, and what its variables are bound to if it applies.
fn write_rule(
    alloc: Global,
    html: &mut Html,
    view: &CallView<'_>,
    rules: &DeclarativeMacro,
    tried: &RuleMatch,
    index: usize,
) -> Result<(), AllocError> {
    write_verdict(alloc, html, &tried.outcome, index)?;
    write_track(alloc, html, tried.states.as_str())?;
    match view.rule {
        Some(_) => write_pattern(alloc, html, view, index)?,
        None => write_marked_pattern(alloc, html, rules, &tried.outcome, index)?,
    }
    html.write(alloc, &[Part::Markup("</div>")])?;
    if view.rule == Some(index) {
        write_bindings(alloc, html, view)?;
    }
    html.write(alloc, &[Part::Markup("</div>")])
}

fn write_rules(
    alloc: Global,
    html: &mut Html,
    step: &CallStep,
    view: &CallView<'_>,
    rules: &DeclarativeMacro,
    matches: &[RuleMatch],
) -> Result<(), AllocError> {
    let opening = match step.state {
        CallState::Failed => "<details class=\"match\" open><summary>Match</summary>",
        CallState::Expanded | CallState::Unknown => {
            "<details class=\"match\"><summary>Match</summary>"
        }
    };
    html.write(alloc, &[Part::Markup(opening)])?;
    write_argument(alloc, html, step, matches)?;
    for (index, tried) in matches.iter().enumerate() {
        write_rule(alloc, html, view, rules, tried, index)?;
    }
    html.write(alloc, &[Part::Markup("</details>")])
}

/// Writes how the rules of the macro match a call, up to the rule that applies. `AllocError` if out
/// of memory.
pub fn write_match(
    alloc: Global,
    html: &mut Html,
    shown: &PageData<'_>,
    step: &CallStep,
    view: &CallView<'_>,
) -> Result<(), AllocError> {
    let Some(rules) = view.rules else {
        return Ok(());
    };
    if rules.err().is_some() {
        return Ok(());
    }
    let matches = matches_of(alloc, &shown.grammar, rules, step, view.tried())?;
    write_rules(alloc, html, step, view, rules, matches.as_slice())
}

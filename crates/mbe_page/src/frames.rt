// The steps of a call as text for a terminal: a frame for each call, with its rule, what its
// variables are bound to, and its expansion. Frames of calls in an expansion are further right.
use crate::call_view::{CallView, call_view};
use crate::page_data::{PageData, page_data};
use crate::rule_states::RuleStates;
use mbe::Binding;
use mbe_diagnostics::renderer::visible;
use mbe_diagnostics::rule_checks::variables::PatternVariable;
use mbe_diagnostics::rule_part::describe;
use mbe_markup::fragments::{TokenOrigin, fragment_trees};
use mbe_markup::token_text::{TextToken, TokenText, token_text};
use mbe_session::file_expander::call_steps::{CallState, CallStep};
use mbe_session::locations::CallPosition;
use mbe_session::notes::Level;
use mbe_session::session::Session;
use mbe_session::session_options::SessionOptions;
use mbe_tt::span::Span;
use mbe_tt::symbol::Symbol;
use std::alloc::{AllocError, Global};

/// The greatest depth to which nested rounds are written.
const LEVELS: u32 = 64;

// The white space before the deepest frames.
const SPACES: &str = "                                        ";

// A text of frames.
#[derive(Drop)]
struct Frames {
    text: String,
    is_coloured: bool,
    // The depth of the frame: the number of steps around its step.
    depth: usize,
}

// Returns the colour of a variable, by its index. Six colours alternate.
fn variable_colour(variable: usize) -> &'static str {
    match variable % 6 {
        0 => "\x1b[36m",
        1 => "\x1b[33m",
        2 => "\x1b[35m",
        3 => "\x1b[32m",
        4 => "\x1b[34m",
        _ => "\x1b[31m",
    }
}

// Returns the colour of a token, by its origin.
fn origin_colour(origin: TokenOrigin<'_>) -> &'static str {
    match origin {
        TokenOrigin::Template => "",
        TokenOrigin::Variable { variable, .. } => variable_colour(variable),
        TokenOrigin::Argument => "\x1b[4m",
        TokenOrigin::Added => "\x1b[2m",
    }
}

impl Frames {
    // Begins a line, `more` columns to the right of the frame.
    fn line(&mut self, more: usize) -> Result<(), AllocError> {
        if !self.text.is_empty() {
            self.text.push('\n')?;
        }
        let width = self.depth.saturating_mul(2).saturating_add(more);
        self.text.push_str(SPACES.get(..width).unwrap_or(SPACES))
    }

    // Writes a text. No character of it is obeyed by a terminal, and its lines are below each
    // other.
    fn word(&mut self, text: &str) -> Result<(), AllocError> {
        for char in text.chars() {
            match char {
                '\n' => self.line(4)?,
                _ => self.text.push(visible(char))?,
            }
        }
        Ok(())
    }

    // Writes a text in a colour.
    fn coloured(&mut self, colour: &'static str, text: &str) -> Result<(), AllocError> {
        if colour.is_empty() || !self.is_coloured {
            return self.word(text);
        }
        self.text.push_str(colour)?;
        self.word(text)?;
        self.text.push_str("\x1b[0m")
    }

    fn number(&mut self, alloc: Global, number: usize) -> Result<(), AllocError> {
        let digits = format!(in alloc; "{number}")?;
        self.text.push_str(digits.as_str())
    }

    // ---- what variables are bound to

    // Writes rounds, with a line between them.
    #[cycle(binding)]
    fn rounds(
        &mut self,
        alloc: Global,
        colour: &'static str,
        rounds: &[Binding<'_>],
        levels: u32,
    ) -> Result<(), AllocError> {
        for (index, inner) in rounds.iter().enumerate() {
            self.text.push_str(if index == 0 { "" } else { " | " })?;
            self.binding(alloc, colour, inner, levels)?;
        }
        Ok(())
    }

    // Writes what a variable is bound to. Rounds are in brackets.
    #[cycle(binding)]
    fn binding(
        &mut self,
        alloc: Global,
        colour: &'static str,
        binding: &Binding<'_>,
        levels: u32,
    ) -> Result<(), AllocError> {
        if let Some(trees) = fragment_trees(binding) {
            let TokenText { text, .. } = token_text(alloc, trees)?;
            return self.coloured(colour, text.as_str());
        }
        match binding {
            Binding::Nested(rounds) if levels > 0 => {
                self.text.push('[')?;
                self.rounds(alloc, colour, rounds, levels - 1)?;
                self.text.push(']')
            }
            Binding::Empty => self.text.push_str("[]"),
            Binding::Nested(_) | Binding::Fragment(_) | Binding::Missing(_) => {
                self.text.push_str("..")
            }
        }
    }

    // Writes a variable, and what it is bound to.
    fn variable(
        &mut self,
        alloc: Global,
        view: &CallView<'_>,
        index: usize,
        variable: PatternVariable<'_>,
    ) -> Result<(), AllocError> {
        let colour = variable_colour(index);
        self.line(4)?;
        self.text.push('$')?;
        self.word(variable.name)?;
        self.text.push_str(" = ")?;
        let name = Symbol::intern(alloc, variable.name)?;
        if let Some(bindings) = &view.bindings
            && let Some(binding) = bindings.get(&name)
        {
            return self.binding(alloc, colour, binding, LEVELS);
        }
        Ok(())
    }

    fn variables(&mut self, alloc: Global, view: &CallView<'_>) -> Result<(), AllocError> {
        for (index, variable) in view.variables.iter().enumerate() {
            self.variable(alloc, view, index, *variable)?;
        }
        Ok(())
    }

    // ---- calls

    // Writes a token, and the white space before it from byte `at` on.
    fn token(
        &mut self,
        view: &CallView<'_>,
        contexts: (u32, u32),
        text: &str,
        at: usize,
        token: TextToken,
    ) -> Result<(), AllocError> {
        self.word(text.get(at..token.start).unwrap_or(""))?;
        let word = text.get(token.start..token.end).unwrap_or("");
        let colour = origin_colour(view.origin_of(contexts, token.span, word));
        self.coloured(colour, word)
    }

    fn tokens(
        &mut self,
        view: &CallView<'_>,
        contexts: (u32, u32),
        written: &TokenText,
    ) -> Result<(), AllocError> {
        let mut at = 0usize;
        for token in &written.tokens {
            if at <= token.start && token.start < token.end {
                self.token(view, contexts, written.text.as_str(), at, *token)?;
                at = token.end;
            }
        }
        Ok(())
    }

    // Writes the expansion of a call.
    fn expansion(
        &mut self,
        alloc: Global,
        step: &CallStep,
        view: &CallView<'_>,
    ) -> Result<(), AllocError> {
        let Some(tree) = &step.expansion else {
            return Ok(());
        };
        let written = token_text(alloc, tree.iter().remaining())?;
        self.line(2)?;
        self.text.push_str("= ")?;
        self.tokens(view, step.contexts, &written)
    }

    // Writes where a call begins: its file, its line and its column.
    fn place(&mut self, alloc: Global, shown: &PageData<'_>, span: Span) -> Result<(), AllocError> {
        let Some(file) = shown.session.files.get(span.file as usize) else {
            return Ok(());
        };
        let found = file.lines.location_of(span.start as usize);
        self.word(file.name)?;
        self.text.push(':')?;
        self.number(alloc, found.line)?;
        self.text.push(':')?;
        self.number(alloc, found.column)?;
        self.text.push_str(": ")
    }

    // Writes a call as its file has it.
    fn call(&mut self, alloc: Global, step: &CallStep) -> Result<(), AllocError> {
        let TokenText { text, .. } = token_text(alloc, step.argument.iter().remaining())?;
        self.word(step.name.as_str())?;
        self.text.push_str("! { ")?;
        self.word(text.as_str())?;
        self.text.push_str(" }")
    }

    // Writes the rule that applies, or that there is none.
    fn rule(
        &mut self,
        alloc: Global,
        step: &CallStep,
        view: &CallView<'_>,
    ) -> Result<(), AllocError> {
        self.line(2)?;
        match (view.rule, step.state) {
            (Some(rule), _) => {
                self.text.push_str("rule ")?;
                self.number(alloc, rule.saturating_add(1))?;
                self.text.push_str(" of ")?;
                self.number(alloc, view.rules.map_or(0, |rules| rules.num_rules()))
            }
            (None, CallState::Unknown) => self.text.push_str("has no definition here"),
            (None, CallState::Failed | CallState::Expanded) => self.text.push_str("isn't expanded"),
        }
    }

    // Writes the errors of a call.
    fn errors(&mut self, shown: &PageData<'_>, step: &CallStep) -> Result<(), AllocError> {
        let (from, to) = step.notes;
        for note in shown.session.expander.notes.iter().take(to).skip(from) {
            if matches!(note.level, Level::Error) {
                self.line(2)?;
                self.text.push_str("error: ")?;
                self.word(note.message.as_str())?;
            }
        }
        Ok(())
    }

    // ---- matches

    // Writes what a rule can expect at an offset.
    fn expected(
        &mut self,
        alloc: Global,
        states: &RuleStates<'_>,
        numbers: &[usize],
    ) -> Result<(), AllocError> {
        for (index, number) in numbers.iter().enumerate() {
            if let Some(Some(part)) = states.expected.get(*number) {
                let part = describe(alloc, *part)?;
                self.text.push_str(if index == 0 { "" } else { " or " })?;
                self.word(part.text.as_str())?;
            }
        }
        Ok(())
    }

    // Writes a line for each offset at which a rule expects something. It has the tokens from there
    // up to the next such offset, and what the rule can expect.
    fn offsets(
        &mut self,
        alloc: Global,
        argument: &TokenText,
        states: &RuleStates<'_>,
    ) -> Result<(), AllocError> {
        let offsets = states.by_offset(alloc)?;
        for (offset, numbers) in offsets.iter().enumerate() {
            if !numbers.is_empty() {
                let next = next_offset(offsets.as_slice(), offset);
                self.line(6)?;
                self.word(text_between(argument, offset, next))?;
                self.text.push_str(" -- expects ")?;
                self.expected(alloc, states, numbers.as_slice())?;
            }
        }
        Ok(())
    }

    // Writes how each rule of a failing call goes through the argument.
    fn matches(
        &mut self,
        alloc: Global,
        shown: &PageData<'_>,
        step: &CallStep,
        view: &CallView<'_>,
    ) -> Result<(), AllocError> {
        let (CallState::Failed, Some(rules)) = (step.state, view.rules) else {
            return Ok(());
        };
        let argument = token_text(alloc, step.argument.iter().remaining())?;
        for index in 0..view.tried() {
            if let Some(states) = RuleStates::new(alloc, &shown.grammar, rules, step, index)? {
                self.line(4)?;
                self.text.push_str("rule ")?;
                self.number(alloc, index.saturating_add(1))?;
                self.offsets(alloc, &argument, &states)?;
            }
        }
        Ok(())
    }

    // Writes the frame of a call.
    fn frame(
        &mut self,
        alloc: Global,
        shown: &PageData<'_>,
        step: &CallStep,
        depth: usize,
    ) -> Result<(), AllocError> {
        let view = call_view(alloc, shown, step)?;
        self.depth = depth;
        self.line(0)?;
        self.place(alloc, shown, step.start)?;
        self.call(alloc, step)?;
        self.rule(alloc, step, &view)?;
        self.errors(shown, step)?;
        self.matches(alloc, shown, step, &view)?;
        self.variables(alloc, &view)?;
        self.expansion(alloc, step, &view)
    }

    // Writes the frames of the calls at a position, and of the calls in their expansions.
    fn calls(
        &mut self,
        alloc: Global,
        shown: &PageData<'_>,
        position: CallPosition,
    ) -> Result<(), AllocError> {
        let mut is_there = false;
        for (step, depth) in shown.steps.iter().zip(shown.depths.iter()) {
            if step.place.parent.is_none() {
                is_there = depth.is_some() && begins_at(shown, step, position);
            }
            if let Some(depth) = depth
                && is_there
            {
                self.frame(alloc, shown, step, *depth)?;
            }
        }
        Ok(())
    }
}

// Returns the next offset at which something is expected, or else the one after `offset`.
fn next_offset(offsets: &[Vec<usize>], offset: usize) -> usize {
    let after = offset.saturating_add(1);
    let rest = offsets.get(after..).unwrap_or(&[]);
    match rest.iter().position(|numbers| !numbers.is_empty()) {
        Some(skipped) => after.saturating_add(skipped),
        None => after,
    }
}

// Returns the text of the tokens between two offsets. It is `the end` at the end of the argument.
fn text_between(argument: &TokenText, from: usize, to: usize) -> &str {
    let Some(first) = argument.tokens.get(from) else {
        return "the end";
    };
    let last = argument.tokens.get(to.saturating_sub(1)).unwrap_or(first);
    argument
        .text
        .as_str()
        .get(first.start..last.end)
        .unwrap_or("")
}

// Whether a call of the file begins at a position.
fn begins_at(shown: &PageData<'_>, step: &CallStep, position: CallPosition) -> bool {
    position.is_at(shown.file.lines.location_of(step.start.start as usize))
}

/// Returns the frames of the calls of a file at a position, and of the calls in their expansions.
/// `Session::call_steps` returned `steps`, and the session was opened with `options`. `AllocError`
/// if out of memory.
pub fn frames_text(
    alloc: Global,
    options: &SessionOptions<'_>,
    session: &Session<'_>,
    steps: &[CallStep],
    file_number: usize,
    position: CallPosition,
    is_coloured: bool,
) -> Result<String, AllocError> {
    let mut frames = Frames {
        text: String::new(alloc),
        is_coloured,
        depth: 0,
    };
    if let Some(shown) = page_data(alloc, options, session, steps, file_number)? {
        frames.calls(alloc, &shown, position)?;
    }
    let Frames { mut text, .. } = frames;
    if !text.is_empty() {
        text.push('\n')?;
    }
    Ok(text)
}

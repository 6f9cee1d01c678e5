// Draws a pattern as a railroad diagram, in SVG.
//
// A piece of a diagram has its line at height 0: it begins at x = 0, and ends at x = `width`. What
// is above the line has negative heights. A repetition that may have no round has a track over its
// body, and one that may have several has a track back below it.
//
// A state of a pattern is a point in it: before an op, or at the end of a group, of a repetition's
// body, or of the pattern. The states are counted in the order of the pattern, from 0. Each box has
// the number of the state that its token or variable follows. So in `$($x:ident),* ;` the box of
// `$x` has the number 1, that of `,` has 2, and that of `;` has 3.
use crate::html::{Html, Part};
use mbe::Expected;
use mbe_diagnostics::rule_part::describe;
use mbe_ops::ops::{MetaTemplate, Op, Separator};
use mbe_semantics::fragment_kinds::RepeatKind;
use mbe_tt::span::Span;
use mbe_tt::tt::{Delimiter, DelimiterKind};
use std::alloc::{AllocError, Global};

/// The greatest depth to which groups and repetitions of a pattern are drawn.
const LEVELS: u32 = 64;

// Half the height of a box, the line between two pieces, and the margin beside a repetition.
const HALF: usize = 13;

const GAP: usize = 10;

const MARGIN: usize = 22;

/// A piece of a diagram. All lengths are in pixels.
#[derive(Drop)]
pub struct Drawing {
    svg: Html,
    pub width: usize,
    /// How far the piece is above its line, and below it.
    pub up: usize,
    pub down: usize,
}

impl Drawing {
    /// Writes the drawing. `AllocError` if out of memory.
    pub fn write_to(&self, html: &mut Html) -> Result<(), AllocError> {
        html.append(&self.svg)
    }
}

// The kind of a box.
#[derive(Clone, Copy, Drop)]
enum BoxKind {
    Token,
    Variable,
}

// Returns the attributes of a box. What a rule expected where a match stopped is marked.
fn box_class(kind: BoxKind, is_expected: bool) -> &'static str {
    match (kind, is_expected) {
        (BoxKind::Token, false) => "<g class=\"rt\"",
        (BoxKind::Token, true) => "<g class=\"rt want\"",
        (BoxKind::Variable, false) => "<g class=\"rv\"",
        (BoxKind::Variable, true) => "<g class=\"rv want\"",
    }
}

// What the boxes of a drawing get.
#[derive(Drop)]
struct Marks<'e> {
    // The spans of the parts that are marked.
    expected: &'e [Span],
    // The number of the next state; the greatest number if it isn't known.
    next: usize,
}

impl Marks<'_> {
    // Returns the number of the next state, and counts it.
    fn state(&mut self) -> usize {
        let state = self.next;
        self.next = state.saturating_add(1);
        state
    }

    // Some states are left out. So the numbers of all later ones aren't known.
    fn lose_count(&mut self) {
        self.next = usize::MAX;
    }
}

// Whether one of the spans begins where that one does.
fn contains_span(spans: &[Span], span: Span) -> bool {
    spans.iter().any(|one| one.file == span.file && one.start == span.start && one.end == span.end)
}

/// Writes the attribute that names the origin of a token: its byte in the first file, or the number
/// of its file and its byte. `AllocError` if out of memory.
pub fn write_origin(alloc: Global, html: &mut Html, span: Span) -> Result<(), AllocError> {
    html.write(alloc, &[Part::Markup(" data-o=")])?;
    if span.file != 0 {
        html.write(
            alloc,
            &[Part::Number(span.file as usize), Part::Markup(".")],
        )?;
    }
    html.write(alloc, &[Part::Number(span.start as usize)])
}

// Writes the attribute with the number of a box's state, if the number is known.
fn write_state(alloc: Global, svg: &mut Html, state: usize) -> Result<(), AllocError> {
    if state == usize::MAX {
        return Ok(());
    }
    svg.write(alloc, &[Part::Markup(" data-s="), Part::Number(state)])
}

// Draws a box with a text, at a state.
fn boxed(
    alloc: Global,
    kind: BoxKind,
    text: &str,
    span: Option<Span>,
    expected: &[Span],
    state: usize,
) -> Result<Drawing, AllocError> {
    let width = text.chars().count().saturating_mul(8).saturating_add(16);
    let is_expected = span.is_some_and(|span| contains_span(expected, span));
    let mut svg = Html::new(alloc);
    svg.write(alloc, &[Part::Markup(box_class(kind, is_expected))])?;
    write_state(alloc, &mut svg, state)?;
    if let Some(span) = span {
        write_origin(alloc, &mut svg, span)?;
    }
    write_box(alloc, &mut svg, kind, text, width)?;
    Ok(Drawing {
        svg,
        width,
        up: HALF,
        down: HALF,
    })
}

fn corner(kind: BoxKind) -> &'static str {
    match kind {
        BoxKind::Token => "\" height=\"26\" rx=\"3\"/><text y=\"4\" x=\"",
        BoxKind::Variable => "\" height=\"26\" rx=\"13\"/><text y=\"4\" x=\"",
    }
}

fn write_box(
    alloc: Global,
    svg: &mut Html,
    kind: BoxKind,
    text: &str,
    width: usize,
) -> Result<(), AllocError> {
    svg.write(
        alloc,
        &[
            Part::Markup("><rect y=\"-13\" width=\""),
            Part::Number(width),
            Part::Markup(corner(kind)),
            Part::Number(width / 2),
            Part::Markup("\">"),
            Part::Text(text),
            Part::Markup("</text></g>"),
        ],
    )
}

// Draws a text without its backquotes.
fn quoted(
    alloc: Global,
    kind: BoxKind,
    expected_part: Expected<'_>,
    expected: &[Span],
    state: usize,
) -> Result<Drawing, AllocError> {
    let part = describe(alloc, expected_part)?;
    let text = part.text.as_str();
    let text = text.strip_prefix('`').unwrap_or(text);
    let text = text.strip_suffix('`').unwrap_or(text);
    boxed(alloc, kind, text, part.span, expected, state)
}

// Pieces one after another, on one line.
#[derive(Drop)]
struct Line {
    drawing: Drawing,
    is_empty: bool,
}

impl Line {
    fn new(alloc: Global) -> Line {
        Line {
            drawing: Drawing {
                svg: Html::new(alloc),
                width: 0,
                up: HALF,
                down: HALF,
            },
            is_empty: true,
        }
    }

    // Draws a straight line from the end.
    fn straight(&mut self, alloc: Global, length: usize) -> Result<(), AllocError> {
        let start = self.drawing.width;
        self.drawing.width = start.saturating_add(length);
        self.drawing.svg.write(
            alloc,
            &[
                Part::Markup("<path d=\"M"),
                Part::Number(start),
                Part::Markup(" 0h"),
                Part::Number(length),
                Part::Markup("\"/>"),
            ],
        )
    }

    // Adds a piece.
    fn push(&mut self, alloc: Global, piece: &Drawing) -> Result<(), AllocError> {
        if !self.is_empty {
            self.straight(alloc, GAP)?;
        }
        self.is_empty = false;
        place(alloc, &mut self.drawing.svg, piece, self.drawing.width, 0)?;
        self.drawing.width = self.drawing.width.saturating_add(piece.width);
        self.drawing.up = self.drawing.up.max(piece.up);
        self.drawing.down = self.drawing.down.max(piece.down);
        Ok(())
    }

    // Returns the line. One without a piece is a short straight line.
    fn finish(mut self, alloc: Global) -> Result<Drawing, AllocError> {
        if self.is_empty {
            self.straight(alloc, MARGIN)?;
        }
        let Line { drawing, .. } = self;
        Ok(drawing)
    }
}

// Draws a piece so far to the right and so far down.
fn place(
    alloc: Global,
    svg: &mut Html,
    piece: &Drawing,
    right: usize,
    down: usize,
) -> Result<(), AllocError> {
    svg.write(
        alloc,
        &[
            Part::Markup("<g transform=\"translate("),
            Part::Number(right),
            Part::Markup(" "),
            Part::Number(down),
            Part::Markup(")\">"),
        ],
    )?;
    svg.append(&piece.svg)?;
    svg.write(alloc, &[Part::Markup("</g>")])
}

// Draws ops, one after another.
#[cycle(drawing)]
fn sequence(
    alloc: Global,
    ops: &MetaTemplate,
    marks: &mut Marks<'_>,
    levels: u32,
) -> Result<Drawing, AllocError> {
    let mut line = Line::new(alloc);
    if levels > 0 {
        for op in &ops.0 {
            add_op(alloc, &mut line, op, marks, levels - 1)?;
        }
    } else {
        marks.lose_count();
    }
    line.finish(alloc)
}

// Adds an op to a line.
#[cycle(drawing)]
fn add_op(
    alloc: Global,
    line: &mut Line,
    op: &Op,
    marks: &mut Marks<'_>,
    levels: u32,
) -> Result<(), AllocError> {
    let state = marks.state();
    match op {
        Op::Var { .. } => add_box(alloc, line, BoxKind::Variable, op, marks.expected, state),
        Op::Literal(_) | Op::Ident(_) | Op::Punct(_) | Op::Expression(_) => {
            add_box(alloc, line, BoxKind::Token, op, marks.expected, state)
        }
        Op::Subtree { tokens, delimiter } => {
            let inside = sequence(alloc, tokens, marks, levels)?;
            let states = (state, marks.state());
            add_group(
                alloc,
                line,
                delimiter.get(),
                &inside,
                marks.expected,
                states,
            )
        }
        Op::Repeat {
            tokens,
            kind,
            separator,
        } => {
            let body = sequence(alloc, tokens, marks, levels)?;
            let end = marks.state();
            let between = separator_box(alloc, separator.as_ref(), marks.expected, end)?;
            let piece = repetition(alloc, *kind, &body, between.as_ref())?;
            line.push(alloc, &piece)
        }
    }
}

// Adds an op that is one box.
fn add_box(
    alloc: Global,
    line: &mut Line,
    kind: BoxKind,
    op: &Op,
    expected: &[Span],
    state: usize,
) -> Result<(), AllocError> {
    let piece = quoted(alloc, kind, Expected::Op(op), expected, state)?;
    line.push(alloc, &piece)
}

// Adds a group: its opening, what is in it, and its closing. `states` are the states before the
// group and at its end.
fn add_group(
    alloc: Global,
    line: &mut Line,
    delimiter: Delimiter,
    inside: &Drawing,
    expected: &[Span],
    states: (usize, usize),
) -> Result<(), AllocError> {
    let (opening, closing) = (opening_of(delimiter.kind), closing_of(delimiter.kind));
    let span = Some(delimiter.opening);
    add_delimiter(alloc, line, opening, span, expected, states.0)?;
    line.push(alloc, inside)?;
    add_delimiter(alloc, line, closing, None, expected, states.1)
}

fn opening_of(kind: DelimiterKind) -> &'static str {
    match kind {
        DelimiterKind::Parenthesis => "(",
        DelimiterKind::Brace => "{",
        DelimiterKind::Bracket => "[",
        DelimiterKind::Invisible => "",
    }
}

fn closing_of(kind: DelimiterKind) -> &'static str {
    match kind {
        DelimiterKind::Parenthesis => ")",
        DelimiterKind::Brace => "}",
        DelimiterKind::Bracket => "]",
        DelimiterKind::Invisible => "",
    }
}

// Adds the opening or the closing of a group. An invisible group has none.
fn add_delimiter(
    alloc: Global,
    line: &mut Line,
    text: &str,
    span: Option<Span>,
    expected: &[Span],
    state: usize,
) -> Result<(), AllocError> {
    if text.is_empty() {
        return Ok(());
    }
    let piece = boxed(alloc, BoxKind::Token, text, span, expected, state)?;
    line.push(alloc, &piece)
}

fn separator_box(
    alloc: Global,
    separator: Option<&Separator>,
    expected: &[Span],
    state: usize,
) -> Result<Option<Drawing>, AllocError> {
    match separator {
        None => Ok(None),
        Some(separator) => {
            let part = Expected::Separator(separator);
            Ok(Some(quoted(alloc, BoxKind::Token, part, expected, state)?))
        }
    }
}

// Draws a repetition around its body. `between` is the separator.
fn repetition(
    alloc: Global,
    kind: RepeatKind,
    body: &Drawing,
    between: Option<&Drawing>,
) -> Result<Drawing, AllocError> {
    let inner = match between {
        Some(between) => body.width.max(between.width.saturating_add(GAP)),
        None => body.width,
    };
    let mut drawing = around(alloc, body, inner)?;
    match kind {
        RepeatKind::ZeroOrOne => add_bypass(alloc, &mut drawing, inner)?,
        RepeatKind::OneOrMore => add_loop(alloc, &mut drawing, inner, between)?,
        RepeatKind::ZeroOrMore => {
            add_bypass(alloc, &mut drawing, inner)?;
            add_loop(alloc, &mut drawing, inner, between)?;
        }
    }
    Ok(drawing)
}

// Draws a body in the middle of a line of the width `inner`, with a margin on each side.
fn around(alloc: Global, body: &Drawing, inner: usize) -> Result<Drawing, AllocError> {
    let side = MARGIN.saturating_add(inner.saturating_sub(body.width) / 2);
    let mut line = Line::new(alloc);
    line.straight(alloc, side)?;
    place(alloc, &mut line.drawing.svg, body, side, 0)?;
    line.drawing.width = side.saturating_add(body.width);
    let width = inner.saturating_add(MARGIN).saturating_add(MARGIN);
    let drawn = line.drawing.width;
    line.straight(alloc, width.saturating_sub(drawn))?;
    line.drawing.up = body.up;
    line.drawing.down = body.down;
    let Line { drawing, .. } = line;
    Ok(drawing)
}

// Adds the track over a body of the width `inner`.
fn add_bypass(alloc: Global, drawing: &mut Drawing, inner: usize) -> Result<(), AllocError> {
    let height = drawing.up.saturating_add(GAP);
    drawing.up = height.saturating_add(2);
    drawing.svg.write(
        alloc,
        &[
            Part::Markup("<path d=\"M0 0c11 0 11 -"),
            Part::Number(height),
            Part::Markup(" 22 -"),
            Part::Number(height),
            Part::Markup("h"),
            Part::Number(inner),
            Part::Markup("c11 0 11 "),
            Part::Number(height),
            Part::Markup(" 22 "),
            Part::Number(height),
            Part::Markup("\"/>"),
        ],
    )
}

// Adds the track back below a body of the width `inner`, with the separator on it.
fn add_loop(
    alloc: Global,
    drawing: &mut Drawing,
    inner: usize,
    between: Option<&Drawing>,
) -> Result<(), AllocError> {
    let separator = match between {
        Some(_) => HALF,
        None => 0,
    };
    let depth = drawing.down.saturating_add(GAP).saturating_add(separator);
    drawing.down = depth.saturating_add(separator).saturating_add(6);
    write_loop(alloc, &mut drawing.svg, inner, depth)?;
    write_arrow(alloc, &mut drawing.svg, depth)?;
    match between {
        Some(between) => {
            let left = MARGIN.saturating_add(inner.saturating_sub(between.width) / 2);
            place(alloc, &mut drawing.svg, between, left, depth)
        }
        None => Ok(()),
    }
}

fn write_loop(alloc: Global, svg: &mut Html, inner: usize, depth: usize) -> Result<(), AllocError> {
    svg.write(
        alloc,
        &[
            Part::Markup("<path d=\"M"),
            Part::Number(inner.saturating_add(MARGIN)),
            Part::Markup(" 0c20 0 20 "),
            Part::Number(depth),
            Part::Markup(" 0 "),
            Part::Number(depth),
            Part::Markup("h-"),
            Part::Number(inner),
            Part::Markup("c-20 0 -20 -"),
            Part::Number(depth),
            Part::Markup(" 0 -"),
            Part::Number(depth),
            Part::Markup("\"/>"),
        ],
    )
}

// Draws the head of an arrow at the left end of a track back.
fn write_arrow(alloc: Global, svg: &mut Html, depth: usize) -> Result<(), AllocError> {
    svg.write(
        alloc,
        &[
            Part::Markup("<path class=\"ra\" d=\"M20 "),
            Part::Number(depth),
            Part::Markup("l8 -4v8z\"/>"),
        ],
    )
}

/// Draws a pattern. The parts of it whose spans are in `expected` are marked. `AllocError` if out
/// of memory.
pub fn draw_pattern(
    alloc: Global,
    pattern: &MetaTemplate,
    expected: &[Span],
) -> Result<Drawing, AllocError> {
    let mut marks = Marks { expected, next: 0 };
    let body = sequence(alloc, pattern, &mut marks, LEVELS)?;
    let mut line = Line::new(alloc);
    line.straight(alloc, GAP)?;
    line.is_empty = true;
    line.push(alloc, &body)?;
    line.straight(alloc, GAP)?;
    let Line { drawing, .. } = line;
    Ok(drawing)
}

/// Writes the opening of an `svg` element for a drawing of that size. A screen reader reads the
/// boxes of a drawing. If an element only refers to a drawing, it reads the element's name.
/// `AllocError` if out of memory.
pub fn write_svg_open(
    alloc: Global,
    html: &mut Html,
    drawing: &Drawing,
    is_reference: bool,
) -> Result<(), AllocError> {
    let height = drawing.up.saturating_add(drawing.down).saturating_add(4);
    let role = if is_reference { "img" } else { "group" };
    html.write(
        alloc,
        &[
            Part::Markup("<svg role=\""),
            Part::Markup(role),
            Part::Markup("\" aria-label=\"Pattern\" width=\""),
            Part::Number(drawing.width),
            Part::Markup("\" height=\""),
            Part::Number(height),
            Part::Markup("\" viewBox=\"0 -"),
            Part::Number(drawing.up.saturating_add(2)),
            Part::Markup(" "),
            Part::Number(drawing.width),
            Part::Markup(" "),
            Part::Number(height),
            Part::Markup("\">"),
        ],
    )
}

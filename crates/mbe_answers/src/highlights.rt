// Semantic tokens: what the tokens of calls and definitions are.
//
// A token of a call's argument has the type of its role in the rule that expands the call. Other
// tokens are left to the editor, and so are tokens whose role says nothing, such as the operators
// in an expression.
use crate::answers::View;
use crate::completion::{is_expression_name, specifier_text};
use crate::expanded_calls::{ArgumentToken, TokenRole};
use crate::findings::{Extent, RuleSite};
use crate::shapes::number;
use crate::tokens::{FileTokens, is_name_text};
use mbe_protocol::positions::{LineTable, Position};
use serde_json::{Value, json};
use std::alloc::{AllocError, Global};

// The type of a token.
#[derive(Clone, Copy, Drop)]
enum TokenType {
    Macro,
    Parameter,
    Type,
    Function,
    Keyword,
    Operator,
    Variable,
    String,
    Number,
    TypeParameter,
    Modifier,
    Decorator,
}

/// The names of the types, in the order of their numbers.
pub const LEGEND: &[&str] = &[
    "macro",
    "parameter",
    "type",
    "function",
    "keyword",
    "operator",
    "variable",
    "string",
    "number",
    "typeParameter",
    "modifier",
    "decorator",
];

impl TokenType {
    // Returns the number of the type.
    fn code(self) -> u64 {
        match self {
            TokenType::Macro => 0,
            TokenType::Parameter => 1,
            TokenType::Type => 2,
            TokenType::Function => 3,
            TokenType::Keyword => 4,
            TokenType::Operator => 5,
            TokenType::Variable => 6,
            TokenType::String => 7,
            TokenType::Number => 8,
            TokenType::TypeParameter => 9,
            TokenType::Modifier => 10,
            TokenType::Decorator => 11,
        }
    }
}

// A token with its type.
#[derive(Clone, Copy, Drop)]
struct Highlight {
    extent: Extent,
    token_type: TokenType,
}

// The text of a token, as far as its type depends on it.
#[derive(Clone, Copy, Drop)]
enum TextKind {
    Name,
    Number,
    String,
    Punct,
    Comment,
}

// Returns what the text of a token is.
fn kind_of(text: &str) -> TextKind {
    if is_name_text(text)
        || text.starts_with("r#") && !text.ends_with('#') && !text.ends_with('"')
    {
        return TextKind::Name;
    }
    if text.starts_with(|char: char| char.is_ascii_digit()) {
        return TextKind::Number;
    }
    if text.len() < 2 {
        return TextKind::Punct;
    }
    if text.starts_with('/') {
        return TextKind::Comment;
    }
    TextKind::String
}

// Returns the type of a token with that role; `None` if the role says nothing.
fn type_of(role: TokenRole, kind: TextKind) -> Option<TokenType> {
    match (role, kind) {
        (_, TextKind::Comment) => None,
        (_, TextKind::Number) => Some(TokenType::Number),
        (_, TextKind::String) => Some(TokenType::String),
        (TokenRole::Literal, TextKind::Name) => Some(TokenType::Keyword),
        (TokenRole::Literal, TextKind::Punct) => Some(TokenType::Operator),
        (TokenRole::Name, TextKind::Name) => Some(TokenType::Variable),
        (TokenRole::Type, TextKind::Name) => Some(TokenType::Type),
        (TokenRole::Lifetime, _) => Some(TokenType::TypeParameter),
        (TokenRole::Visibility, TextKind::Name) => Some(TokenType::Modifier),
        (TokenRole::Attribute, TextKind::Name) => Some(TokenType::Decorator),
        (_, TextKind::Punct) | (TokenRole::Other, TextKind::Name) => None,
    }
}

// The tokens with types that are asked for.
#[derive(Drop)]
struct Highlights {
    // The bytes that are asked for.
    part: Extent,
    list: Vec<Highlight>,
    // The byte at which each one starts, and its index.
    starts: Vec<(usize, usize)>,
}

impl Highlights {
    // Adds a token, if it is asked for.
    fn add(&mut self, extent: Extent, token_type: TokenType) -> Result<(), AllocError> {
        if extent.end <= self.part.start || self.part.end <= extent.start {
            return Ok(());
        }
        self.starts.push((extent.start, self.list.len()))?;
        self.list.push(Highlight { extent, token_type })?;
        Ok(())
    }

    // Adds a token of an argument.
    fn add_argument(&mut self, text: &str, token: ArgumentToken) -> Result<(), AllocError> {
        let extent = token.extent;
        let shown = text.get(extent.start..extent.end).unwrap_or("");
        match type_of(token.role, kind_of(shown)) {
            Some(token_type) if !shown.is_empty() => self.add(extent, token_type),
            Some(_) | None => Ok(()),
        }
    }

    // Adds the variable whose name is the token at that index, with its `$`.
    fn add_variable(
        &mut self,
        tokens: FileTokens<'_>,
        at: usize,
        token_type: TokenType,
    ) -> Result<(), AllocError> {
        let (Some(dollar), Some(name)) = (
            tokens.list.get(at.saturating_sub(1)),
            tokens.list.get(at),
        ) else {
            return Ok(());
        };
        let (start, end) = (dollar.extent.start, name.extent.end);
        self.add(Extent { start, end }, token_type)
    }

    // Adds a token of a pattern, if it is a variable that the pattern binds; and its specifier.
    fn add_bound(&mut self, pattern: FileTokens<'_>, at: usize) -> Result<(), AllocError> {
        if !pattern.is_binding(at) {
            return Ok(());
        }
        self.add_variable(pattern, at, TokenType::Parameter)?;
        let specifier = at.saturating_add(2);
        match pattern.list.get(specifier) {
            Some(token) if specifier_text(pattern.text_at(specifier)).is_some() => {
                self.add(token.extent, TokenType::Type)
            }
            Some(_) | None => Ok(()),
        }
    }

    // Adds a token of a template, if it is `$crate`, a variable of the pattern, or the name of a
    // metavariable expression.
    fn add_used(
        &mut self,
        pattern: FileTokens<'_>,
        template: FileTokens<'_>,
        at: usize,
    ) -> Result<(), AllocError> {
        let name = template.text_at(at);
        if template.is_variable(at) && name == "crate" {
            return self.add_variable(template, at, TokenType::Keyword);
        }
        if template.is_variable(at) && pattern.binds(name) {
            return self.add_variable(template, at, TokenType::Parameter);
        }
        match template.list.get(at) {
            Some(token) if template.is_expression(at) && is_expression_name(name) => {
                self.add(token.extent, TokenType::Function)
            }
            Some(_) | None => Ok(()),
        }
    }

    // Adds the tokens of a rule.
    fn add_rule(&mut self, tokens: FileTokens<'_>, rule: RuleSite) -> Result<(), AllocError> {
        let (pattern, template) = (tokens.within(rule.pattern), tokens.within(rule.template()));
        for at in 0..pattern.list.len() {
            self.add_bound(pattern, at)?;
        }
        for at in 0..template.list.len() {
            self.add_used(pattern, template, at)?;
        }
        Ok(())
    }

    // Adds the tokens of rules.
    fn add_rules(&mut self, tokens: FileTokens<'_>, rules: &[RuleSite]) -> Result<(), AllocError> {
        for rule in rules {
            self.add_rule(tokens, *rule)?;
        }
        Ok(())
    }

    // Adds a token to the data of the answer, by where it is from the one before it. A token of
    // several lines is left out. Returns where the last token is.
    fn write(
        alloc: Global,
        before: Position,
        lines: &LineTable<'_>,
        token: Highlight,
        data: &mut Vec<Value>,
    ) -> Result<Position, AllocError> {
        let found = lines.range(token.extent.start, token.extent.end);
        let (start, end) = (found.start, found.end);
        if start.line != end.line {
            return Ok(before);
        }
        let skipped = start.line.saturating_sub(before.line);
        let from = if skipped == 0 { before.column } else { 0 };
        let (right, length) = (
            start.column.saturating_sub(from),
            end.column.saturating_sub(start.column),
        );
        let code = token.token_type.code();
        push_numbers(
            alloc,
            &[number(skipped), number(right), number(length), code, 0],
            data,
        )?;
        Ok(start)
    }

    // Returns the data of the answer. Of tokens that overlap the first is in it.
    fn data(&mut self, alloc: Global, lines: &LineTable<'_>) -> Result<Vec<Value>, AllocError> {
        let mut data = Vec::new(alloc);
        let (mut before, mut end) = (Position { line: 0, column: 0 }, 0usize);
        self.starts.sort_unstable();
        for (start, index) in self.starts.iter() {
            if end <= *start
                && let Some(token) = self.list.get(*index)
            {
                before = Highlights::write(alloc, before, lines, *token, &mut data)?;
                end = token.extent.end;
            }
        }
        Ok(data)
    }
}

// Adds numbers to data.
fn push_numbers(alloc: Global, numbers: &[u64], data: &mut Vec<Value>) -> Result<(), AllocError> {
    for count in numbers {
        data.push(json!(in alloc; *count)?)?;
    }
    Ok(())
}

impl View<'_> {
    // Adds the names of the macros that calls of the document name.
    fn add_called(self, found: &mut Highlights) -> Result<(), AllocError> {
        for call in self.found.calls.iter() {
            if call.file == self.found.number {
                found.add(call.name_at, TokenType::Macro)?;
            }
        }
        Ok(())
    }

    // Adds the tokens of the document's definitions.
    fn add_defined(self, found: &mut Highlights) -> Result<(), AllocError> {
        let tokens = self.found.tokens_of(self.found.number);
        for defined in self.found.definitions.iter() {
            if defined.file == self.found.number {
                found.add(defined.name_at, TokenType::Macro)?;
                found.add_rules(tokens, defined.rules.as_slice())?;
            }
        }
        Ok(())
    }

    // Adds the tokens of the arguments of the document's calls.
    fn add_arguments(self, found: &mut Highlights) -> Result<(), AllocError> {
        let Some(expanded) = &self.found.expanded else {
            return Ok(());
        };
        let text = self.found.text(self.found.number);
        for token in expanded.tokens.iter() {
            if token.file == self.found.number {
                found.add_argument(text, *token)?;
            }
        }
        Ok(())
    }

    // Adds the tokens of the document's calls and definitions.
    fn add_highlights(self, found: &mut Highlights) -> Result<(), AllocError> {
        self.add_called(found)?;
        self.add_defined(found)?;
        self.add_arguments(found)
    }

    /// Answers what the tokens of calls and definitions are in a part of the document. `AllocError`
    /// if out of memory.
    pub fn highlights(self, part: Extent) -> Result<Value, AllocError> {
        let alloc = self.writer.alloc;
        let mut found = Highlights {
            part,
            list: Vec::new(alloc),
            starts: Vec::new(alloc),
        };
        self.add_highlights(&mut found)?;
        let data = Value::Array(found.data(alloc, &self.lines()?)?);
        json!(in alloc; {"data": data})
    }
}

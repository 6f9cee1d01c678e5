// The reader makes nodes from the tokens of a grammar's text. It keeps the choice that it is in,
// and a stack of the choices around it. Each finished item, sequence and choice becomes a node at
// the end of the table. The first nodes are the rules themselves: each is set when its rule ends.
ghost use Rattle.std.specs.Prelude.{◌≡◌, IfOk, OnOk, map, length, option_map};
ghost use Rattle.mbe_grammar.specs.Peg.Grammar as spec;
ghost use Rattle.mbe_grammar.specs.Peg.Views.{IsRead, reader_model, names_model};
ghost use Rattle.mbe_grammar.specs.Peg.Views.{plain_node, plain_terminal, plain_token};

use crate::peg::partial_choice::{ChoiceOpening, Lookahead, PartialChoice};
use crate::peg::peg_error::{PegError, PegErrorKind, PegLocation};
use crate::peg::peg_token::PegToken;
use crate::peg::rule_names::{RuleNames, edition_of};
use crate::tables::node::{Keyword, Node, Terminal};
use crate::tables::peg_table::EntryRules;
use mbe_tt::span::Edition;
use mbe_tt::tt::DelimiterKind;
use std::alloc::{AllocError, Allocator};

/// The state of the reader: the nodes and keywords so far, and the open choices.
#[derive(Drop)]
pub struct PegReader<'t, A: Allocator> {
    pub names: RuleNames<'t, A>,
    pub nodes: Vec<Node<'t>, A>,
    pub keywords: Vec<Keyword<'t>, A>,
    pub choice: PartialChoice,
    /// The choices around the current one, the innermost last.
    pub around: Vec<PartialChoice, A>,
}

// The terminal with this name.
fn terminal_of<'t>(name: &str) -> Option<Terminal<'t>>
    ensures { option_map plain_terminal result ≡ spec.terminal_named name.now }
{
    match name {
        "NAME" => Some(Terminal::Name),
        "IDENT" => Some(Terminal::Identifier),
        "LITERAL" => Some(Terminal::Literal),
        "POINTED" => Some(Terminal::Pointed),
        "ANY" => Some(Terminal::Any),
        "END" => Some(Terminal::End),
        "PAREN" => Some(Terminal::Group(&[DelimiterKind::Parenthesis])),
        "BRACE" => Some(Terminal::Group(&[DelimiterKind::Brace])),
        "BRACKET" => Some(Terminal::Group(&[DelimiterKind::Bracket])),
        "INVISIBLE" => Some(Terminal::Group(&[DelimiterKind::Invisible])),
        "VISIBLE" => Some(Terminal::Group(&[
            DelimiterKind::Parenthesis,
            DelimiterKind::Brace,
            DelimiterKind::Bracket,
        ])),
        "SINCE_2018" => Some(Terminal::Since(Edition::Edition2018)),
        "SINCE_2021" => Some(Terminal::Since(Edition::Edition2021)),
        "SINCE_2024" => Some(Terminal::Since(Edition::Edition2024)),
        _ => None,
    }
}

impl<'t, A: Allocator + Copy> PegReader<'t, A> {
    /// The reader before the first token. The first indices are reserved for the rules.
    #[tactic(auto, using(crate::proofs::ReadText::ReadingLemmas::map_replicate))]
    pub fn new(alloc: A, names: RuleNames<'t, A>) -> Result<PegReader<'t, A>, AllocError>
        ensures { IfOk result (λ r. reader_model r ≡ spec.first_state (names_model names.entry)) }
    {
        let nodes = vec![in alloc; Node::Terminal(Terminal::End); names.len()]?;
        Ok(PegReader {
            names,
            nodes,
            keywords: Vec::new(alloc),
            choice: PartialChoice::new(ChoiceOpening::Nothing, PegLocation { line: 1, column: 1 }),
            around: Vec::new(alloc),
        })
    }

    // Adds a node. Returns its index.
    fn push(&mut self, node: Node<'t>) -> Result<usize, AllocError>
        ensures position { IfOk result (λ x. x ≡ length (reader_model self.old).nodes) }
        ensures pushed { OnOk result (reader_model self.new
            ≡ spec.with_node (plain_node node.entry) (reader_model self.old)) }
    {
        let position = self.nodes.len();
        self.nodes.push(node)?;
        Ok(position)
    }

    // Adds an item to the end of the current sequence.
    fn add_to_sequence(&mut self, item: usize) -> Result<(), AllocError>
        ensures { OnOk result (reader_model self.new
            ≡ spec.in_sequence self.old.choice.sequence item (reader_model self.old)) }
    {
        let sequence = match self.choice.sequence {
            None => item,
            Some(first) => self.push(Node::Then(first, item))?,
        };
        self.choice.sequence = Some(sequence);
        self.choice.lookahead = None;
        self.choice.item = None;
        Ok(())
    }

    // Ends the last item, if there is one, and adds it to the sequence. `location` is the location
    // of
    // what comes after it.
    #[tactic(auto, unfolding(crate::specs::Peg::Grammar::end_item))]
    fn end_item(&mut self, location: PegLocation) -> Result<(), PegError<'t>>
        ensures { IsRead (λ _. reader_model self.new) result
            (spec.end_item location (reader_model self.old)) }
    {
        match (self.choice.item, self.choice.lookahead) {
            (None, None) => Ok(()),
            (None, Some(_)) => Err(PegError::At(location, PegErrorKind::ExpectedRule)),
            (Some(item), None) => Ok(self.add_to_sequence(item)?),
            (Some(item), Some(Lookahead::Positive)) => {
                let item = self.push(Node::Ahead(item))?;
                Ok(self.add_to_sequence(item)?)
            }
            (Some(item), Some(Lookahead::Negative)) => {
                let item = self.push(Node::NotAhead(item))?;
                Ok(self.add_to_sequence(item)?)
            }
        }
    }

    // Ends the current alternative. Returns the choice up to it.
    #[tactic(auto, using(crate::proofs::ReadText::StepLemmas::steps), unfolding(crate::specs::Peg::Grammar::end_sequence))]
    fn end_sequence(&mut self, location: PegLocation) -> Result<usize, PegError<'t>>
        ensures { IsRead (λ x. (x, reader_model self.new)) result
            (spec.end_sequence location (reader_model self.old)) }
    {
        self.end_item(location)?;
        match (self.choice.sequence, self.choice.others) {
            (None, _) => Err(PegError::At(location, PegErrorKind::ExpectedRule)),
            (Some(sequence), None) => Ok(sequence),
            (Some(sequence), Some(others)) => Ok(self.push(Node::Or(others, sequence))?),
        }
    }

    // Begins the next item of the current alternative.
    #[tactic(auto, using(crate::proofs::ReadText::StepLemmas::steps), unfolding(crate::specs::Peg::Grammar::item))]
    fn item(&mut self, location: PegLocation, node: Node<'t>) -> Result<(), PegError<'t>>
        ensures { IsRead (λ _. reader_model self.new) result
            (spec.item location (plain_node node.entry) (reader_model self.old)) }
    {
        if self.choice.item.is_some() {
            self.end_item(location)?;
        }
        self.choice.item = Some(self.push(node)?);
        Ok(())
    }

    // Begins an item that is a name: a rule or a terminal.
    #[tactic(auto, unfolding(crate::specs::Peg::Grammar::name))]
    fn name(&mut self, location: PegLocation, name: &'t str) -> Result<(), PegError<'t>>
        ensures { IsRead (λ _. reader_model self.new) result
            (spec.name location name.now (reader_model self.old)) }
    {
        match (self.names.get(&name).copied(), terminal_of(name)) {
            (Some(position), _) => self.item(location, Node::Part(position)),
            (None, Some(terminal)) => self.item(location, Node::Terminal(terminal)),
            (None, None) => Err(PegError::At(location, PegErrorKind::Unknown(name))),
        }
    }

    // Applies `?`, `*`, `+` or `!` to the last item.
    #[tactic(auto, unfolding(crate::specs::Peg::Grammar::postfix))]
    fn postfix(&mut self, location: PegLocation, mark: char) -> Result<(), PegError<'t>>
        ensures { IsRead (λ _. reader_model self.new) result
            (spec.postfix location mark (reader_model self.old)) }
    {
        let Some(item) = self.choice.item else {
            return Err(PegError::At(location, PegErrorKind::NothingToRepeat));
        };
        let item = match mark {
            '?' => self.push(Node::Maybe(item))?,
            '*' => self.push(Node::Repeated(item))?,
            '+' => {
                let more = self.push(Node::Repeated(item))?;
                self.push(Node::Then(item, more))?
            }
            _ => self.push(Node::Needed(item))?,
        };
        self.choice.item = Some(item);
        Ok(())
    }

    // Begins a lookahead, `&` or `~`.
    #[tactic(auto, using(crate::proofs::ReadText::StepLemmas::steps), unfolding(crate::specs::Peg::Grammar::set_lookahead))]
    fn lookahead(&mut self, location: PegLocation, lookahead: Lookahead) -> Result<(), PegError<'t>>
        ensures { IsRead (λ _. reader_model self.new) result
            (spec.set_lookahead location lookahead (reader_model self.old)) }
    {
        self.end_item(location)?;
        self.choice.lookahead = Some(lookahead);
        Ok(())
    }

    // Begins the next alternative, after `|`.
    #[tactic(auto, using(crate::proofs::ReadText::StepLemmas::steps), unfolding(crate::specs::Peg::Grammar::alternative))]
    fn alternative(&mut self, location: PegLocation) -> Result<(), PegError<'t>>
        ensures { IsRead (λ _. reader_model self.new) result
            (spec.alternative location (reader_model self.old)) }
    {
        let choice = self.end_sequence(location)?;
        self.choice.others = Some(choice);
        self.choice.sequence = None;
        Ok(())
    }

    // Opens a choice in parentheses or in a group.
    fn open(&mut self, location: PegLocation, opening: ChoiceOpening) -> Result<(), PegError<'t>>
        ensures { IsRead (λ _. reader_model self.new) result
            (Ok (spec.opened location opening (reader_model self.old))) }
    {
        self.around.push(self.choice).map_err(AllocError::from)?;
        self.choice = PartialChoice::new(opening, location);
        Ok(())
    }

    // Closes a choice, at `)` or `]`.
    #[tactic(auto, using(crate::proofs::ReadText::StepLemmas::steps), unfolding(crate::specs::Peg::Grammar::close))]
    fn close(&mut self, location: PegLocation, mark: char) -> Result<(), PegError<'t>>
        ensures { IsRead (λ _. reader_model self.new) result
            (spec.close location mark (reader_model self.old)) }
    {
        let choice = self.end_sequence(location)?;
        let node = match (self.choice.opening, mark) {
            (ChoiceOpening::Parenthesis, ')') => Node::Part(choice),
            (ChoiceOpening::Inside(kind), ']') => Node::Inside(kind, choice),
            _ => return Err(PegError::At(location, PegErrorKind::Unopened)),
        };
        let Some(around) = self.around.pop() else {
            return Err(PegError::At(location, PegErrorKind::Unopened));
        };
        self.choice = around;
        self.item(location, node)
    }

    // Sets the node of a rule: `position` is the index of the rule, and `rule` that of its choice.
    #[tactic(auto, using(crate::proofs::ReadText::ReadingLemmas::nodes_set, std::proofs::lemmas::List::set_past))]
    fn set_rule(&mut self, position: usize, rule: usize)
        ensures { reader_model self.new ≡ spec.with_rule position rule (reader_model self.old) }
    {
        if let Some(node) = self.nodes.get_mut(position) {
            *node = Node::Part(rule);
        }
    }

    /// Ends the current rule or list of keywords. Faults if parentheses or a group are open.
    /// `location` is the location of what comes after it.
    #[tactic(auto, using(crate::proofs::ReadText::StepLemmas::steps), unfolding(crate::specs::Peg::Grammar::end_rule))]
    pub fn end_rule(&mut self, location: PegLocation) -> Result<(), PegError<'t>>
        ensures { IsRead (λ _. reader_model self.new) result
            (spec.end_rule location (reader_model self.old)) }
    {
        match self.choice.opening {
            ChoiceOpening::Nothing | ChoiceOpening::Keywords(_) => Ok(()),
            ChoiceOpening::Parenthesis | ChoiceOpening::Inside(_) => {
                Err(PegError::At(self.choice.location, PegErrorKind::Unclosed))
            }
            ChoiceOpening::Rule(position) => {
                let choice = self.end_sequence(location)?;
                self.set_rule(position, choice);
                Ok(())
            }
        }
    }

    // Begins a rule or a list of keywords, at a name and `=`.
    #[tactic(auto, using(crate::proofs::ReadText::StepLemmas::steps), unfolding(crate::specs::Peg::Grammar::define))]
    fn define(&mut self, location: PegLocation, name: &'t str) -> Result<(), PegError<'t>>
        ensures { IsRead (λ _. reader_model self.new) result
            (spec.define location name.now (reader_model self.old)) }
    {
        self.end_rule(location)?;
        let opening = match (edition_of(name), self.names.get(&name).copied()) {
            (Some(since), _) => ChoiceOpening::Keywords(since),
            (None, Some(position)) => ChoiceOpening::Rule(position),
            (None, None) => return Err(PegError::At(location, PegErrorKind::Unknown(name))),
        };
        self.choice = PartialChoice::new(opening, location);
        Ok(())
    }

    // Reads a mark in a rule.
    fn mark(&mut self, location: PegLocation, mark: char) -> Result<(), PegError<'t>>
        ensures { IsRead (λ _. reader_model self.new) result
            (spec.marked location mark (reader_model self.old)) }
    {
        match mark {
            '(' => self.open(location, ChoiceOpening::Parenthesis),
            '&' => self.lookahead(location, Lookahead::Positive),
            '~' => self.lookahead(location, Lookahead::Negative),
            '|' => self.alternative(location),
            ')' => self.close(location, ')'),
            ']' => self.close(location, ']'),
            _ => self.postfix(location, mark),
        }
    }

    // Reads a token in a rule.
    #[tactic(auto, unfolding(crate::specs::Peg::Grammar::part))]
    fn part(&mut self, location: PegLocation, token: PegToken<'t>) -> Result<(), PegError<'t>>
        ensures { IsRead (λ _. reader_model self.new) result
            (spec.part location (plain_token token.entry) (reader_model self.old)) }
    {
        match token {
            PegToken::Define(name) => self.define(location, name),
            PegToken::Name(name) => self.name(location, name),
            PegToken::Word(text) => self.item(location, Node::Terminal(Terminal::Word(text))),
            PegToken::Operator(text) => self.item(
                location,
                Node::Terminal(Terminal::Operator(text)),
            ),
            PegToken::Sign(char) => self.item(location, Node::Terminal(Terminal::Sign(char))),
            PegToken::Inside(kind) => self.open(location, ChoiceOpening::Inside(kind)),
            PegToken::Mark(mark) => self.mark(location, mark),
        }
    }

    // Reads a token in a list of keywords.
    #[tactic(auto, unfolding(crate::specs::Peg::Grammar::keyword))]
    fn keyword(
        &mut self,
        location: PegLocation,
        since: Edition,
        token: PegToken<'t>,
    ) -> Result<(), PegError<'t>>
        ensures { IsRead (λ _. reader_model self.new) result
            (spec.keyword location since (plain_token token.entry) (reader_model self.old)) }
    {
        match token {
            PegToken::Define(name) => self.define(location, name),
            PegToken::Word(text) => {
                let keyword = Keyword { text, since };
                self.keywords.push(keyword).map_err(AllocError::from)?;
                Ok(())
            }
            _ => Err(PegError::At(location, PegErrorKind::ExpectedKeyword)),
        }
    }

    /// Reads the next token.
    #[tactic(auto, unfolding(crate::specs::Peg::Grammar::read_token, crate::specs::Peg::Grammar::before_rules))]
    pub fn read_token(
        &mut self,
        location: PegLocation,
        token: PegToken<'t>,
    ) -> Result<(), PegError<'t>>
        ensures { IsRead (λ _. reader_model self.new) result
            (spec.read_token location (plain_token token.entry) (reader_model self.old)) }
    {
        match (self.choice.opening, token) {
            (ChoiceOpening::Nothing, PegToken::Define(name)) => self.define(location, name),
            (ChoiceOpening::Nothing, _) => Err(PegError::At(
                location,
                PegErrorKind::ExpectedDefinition,
            )),
            (ChoiceOpening::Keywords(since), _) => self.keyword(location, since, token),
            _ => self.part(location, token),
        }
    }

    // The index of the rule with this name. It is beyond the end of the table if there is no such
    // rule.
    fn start(&self, name: &'t str) -> usize
        ensures { result ≡ spec.start (reader_model self.now) name.now }
    {
        self.names.get(&name).copied().unwrap_or(self.nodes.len())
    }

    /// The rules of the entry points.
    pub fn starts(&self) -> EntryRules
        ensures { result ≡ spec.starts (reader_model self.now) }
    {
        EntryRules {
            path: self.start("path"),
            expr: self.start("expr"),
            ty: self.start("ty"),
            pat_top: self.start("pat"),
            pat: self.start("pat_param"),
            stmt: self.start("stmt"),
            block: self.start("block"),
            meta: self.start("meta"),
            item: self.start("item"),
            vis: self.start("vis"),
        }
    }
}

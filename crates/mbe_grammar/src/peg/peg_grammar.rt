// Reads a grammar's text. The result is the rules as data, which `RuleTable` borrows.
ghost use Rattle.std.specs.Prelude.{◌≡◌, map, None};
ghost use Rattle.mbe_tt.specs.declared.grammar.Dialect.TheVariants.{RustAnalyzer};
ghost use Rattle.mbe_grammar.specs.Peg.Grammar.{read_text};
ghost use Rattle.mbe_grammar.specs.Peg.Grammar as spec;
ghost use Rattle.mbe_grammar.specs.Peg.Views.{IsRead, plain_word, reader_model, grammar_model};

use crate::peg::peg_error::{PegError, PegLocation};
use crate::peg::peg_lexer::tokenize;
use crate::peg::peg_reader::PegReader;
use crate::peg::peg_token::PegToken;
use crate::peg::rule_names::names_in;
use crate::tables::node::{Keyword, Node};
use crate::tables::peg_table::{EntryRules, RuleTable};
use mbe_tt::grammar::Dialect;
use mbe_tt::span::Edition;
use std::alloc::{Allocator, Global};

/// The rules of a grammar. They borrow the text that they were read from.
#[derive(Drop)]
pub struct PegGrammar<'t, A: Allocator = Global> {
    pub nodes: Vec<Node<'t>, A>,
    pub keywords: Vec<Keyword<'t>, A>,
    pub starts: EntryRules,
}

// Reads tokens, one after another.
fn read_tokens<'t, A: Allocator + Copy>(
    reader: &mut PegReader<'t, A>,
    words: &[(PegLocation, PegToken<'t>)],
) -> Result<(), PegError<'t>>
    ensures { IsRead (λ _. reader_model reader.new) result
        (spec.words (map plain_word words.now) (reader_model reader.old)) }
{
    for (location, token) in words {
        reader.read_token(*location, *token)?;
    }
    Ok(())
}

impl<'t, A: Allocator + Copy> PegGrammar<'t, A> {
    /// Reads a grammar's text. Each rule is a name, a `=` and a choice; docs/RATTLE.md describes
    /// the form. An entry point calls the rule of its name (`path`, `expr`, `ty`, `pat`,
    /// `pat_param`, `stmt`, `block`, `meta`, `item`, `vis`), and faults if there is none.
    ///
    /// Returns `PegError::At` with the location and the reason if the text has an error, and
    /// `PegError::OutOfMemory` if an allocation fails.
    pub fn read(alloc: A, text: &'t str) -> Result<PegGrammar<'t, A>, PegError<'t>>
        ensures { IsRead (λ rules. grammar_model rules) result (read_text text.now) }
    {
        let words = tokenize(alloc, text)?;
        let names = names_in(alloc, words.words.as_slice())?;
        if let Some(reason) = words.wrong {
            return Err(PegError::At(words.end, reason));
        }
        let mut reader = PegReader::new(alloc, names)?;
        read_tokens(&mut reader, words.words.as_slice())?;
        reader.end_rule(words.end)?;
        let starts = reader.starts();
        let PegReader {
            nodes,
            keywords,
            ..
        } = reader;
        Ok(PegGrammar {
            nodes,
            keywords,
            starts,
        })
    }

    /// The table of these rules. `editions[n]` is the edition of syntax context `n`, and `edition`
    /// that of all other contexts.
    pub fn table<'g>(&'g self, edition: Edition, editions: &'g [Edition]) -> RuleTable<'g>
        ensures nodes { result.nodes.now ≡ self.now.nodes.items }
        ensures keywords { result.keywords.now ≡ self.now.keywords.items }
        ensures starts { result.starts ≡ self.now.starts }
        ensures begins { result.begins ≡ None }
        ensures dialect { result.dialect ≡ RustAnalyzer }
        ensures edition { result.edition ≡ edition }
        ensures editions { result.editions.now ≡ editions.now }
    {
        RuleTable {
            nodes: self.nodes.as_slice(),
            keywords: self.keywords.as_slice(),
            starts: self.starts,
            begins: None,
            dialect: Dialect::RustAnalyzer,
            edition,
            editions,
        }
    }
}

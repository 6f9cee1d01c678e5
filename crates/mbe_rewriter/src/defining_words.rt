// Decides whether a macro may define other macros, by the words of its rules.
//
// A call of such a macro may bring a definition into the scope of later names. No rule is matched
// or expanded here. A word such as `macro_rules` counts anywhere in the rules.
ghost use Rattle.std.specs.Prelude.{◌≡◌, IfOk, map};
ghost use Rattle.mbe_tt.specs.Views.LeafViews.{leaf_of};
ghost use Rattle.mbe_tt.specs.Views.View.{trees};
ghost use Rattle.mbe_rewriter.specs.DefiningWords as spec;
ghost use Rattle.mbe_rewriter.specs.Hygiene.EventViews.{event_of};

use crate::hygiene::tree_events::{TreeEvent, events_of};
use mbe_tt::tt::{Leaf, TokenTreesView};
use std::alloc::{AllocError, Allocator};

/// The words of a macro's rules that may define other macros.
#[derive(Clone, Copy, Drop)]
pub struct DefiningWords {
    // Whether `macro_rules` is among them.
    has_rules: bool,
    // Whether `macro` is.
    has_item: bool,
    // Whether `use` or `macro_export` is.
    has_use: bool,
    // Whether `macro_use` is.
    has_macro_use: bool,
    // Whether a call is among them: a `!` before a group.
    has_call: bool,
    // Whether the last tree was a `!`.
    is_after_mark: bool,
}

impl DefiningWords {
    fn none() -> DefiningWords
        ensures { result ≡ spec.no_words }
    {
        DefiningWords {
            has_rules: false,
            has_item: false,
            has_use: false,
            has_macro_use: false,
            has_call: false,
            is_after_mark: false,
        }
    }

    // Returns the words with one more.
    fn with_word(self, word: &str) -> DefiningWords
        ensures { result ≡ spec.with_word word.now self }
    {
        DefiningWords {
            has_rules: self.has_rules || word == "macro_rules",
            has_item: self.has_item || word == "macro",
            has_use: self.has_use || word == "use" || word == "macro_export",
            has_macro_use: self.has_macro_use || word == "macro_use",
            is_after_mark: false,
            ..self
        }
    }

    // Returns the words with one more leaf.
    fn with_leaf<A: Allocator>(self, leaf: &Leaf<A>) -> DefiningWords
        ensures { result ≡ spec.with_leaf self (leaf_of leaf.now) }
    {
        match leaf {
            Leaf::Ident(ident) => self.with_word(ident.sym.as_str()),
            Leaf::Punct(punct) => DefiningWords {
                is_after_mark: punct.char == '!',
                ..self
            },
            Leaf::Literal(_) => DefiningWords {
                is_after_mark: false,
                ..self
            },
        }
    }

    // Returns the words with one more event.
    fn with_event<A: Allocator>(self, event: TreeEvent<'_, A>) -> DefiningWords
        ensures { result ≡ spec.with_event self (event_of event.entry) }
    {
        match event {
            TreeEvent::Leaf(leaf, _) => self.with_leaf(leaf),
            TreeEvent::Open(..) => DefiningWords {
                has_call: self.has_call || self.is_after_mark,
                is_after_mark: false,
                ..self
            },
            TreeEvent::Close(..) => DefiningWords {
                is_after_mark: false,
                ..self
            },
        }
    }

    /// Whether a call of the macro may define a macro that paths find, or that names after a group
    /// with the call find.
    pub fn may_define(self) -> bool
        ensures { result ≡ spec.may_define self }
    {
        self.has_item || (self.has_rules && (self.has_use || self.has_macro_use))
    }

    /// Whether names after a call of the macro, or in its expansion, may mean another macro than
    /// the last visible one. `is_item` says whether the macro is a `macro` item. The names in its
    /// expansion are resolved at its definition.
    pub fn may_shadow(self, is_item: bool) -> bool
        ensures { result ≡ spec.may_shadow is_item self }
    {
        self.has_item || (self.has_rules && self.has_macro_use) || (is_item && self.has_call)
    }
}

fn words_of<A: Allocator>(events: &[TreeEvent<'_, A>]) -> DefiningWords
    ensures { result ≡ spec.words_from spec.no_words (map event_of events.now) }
{
    let mut words = DefiningWords::none();
    for event in events {
        words = words.with_event(*event);
    }
    words
}

/// Returns the words of a macro's rules that may define other macros. Returns `AllocError` if
/// memory runs out.
pub fn defining_words<A: Allocator + Copy>(
    alloc: A,
    rules: TokenTreesView<'_, A>,
) -> Result<DefiningWords, AllocError>
    ensures { IfOk result (λ d. d ≡ spec.defining_words (trees rules.entry)) }
{
    let events = events_of(alloc, rules)?;
    Ok(words_of(events.as_slice()))
}

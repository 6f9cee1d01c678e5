// Notes the origin of each token of an expansion: a span in the definition or in the call.
ghost use Rattle.std.specs.Prelude.{◌≡◌, OnOk};
ghost use Rattle.mbe_session.specs.SessionViews.{setting_of, state_of};

use crate::file_expander::FileExpander;
use crate::notes::{Level, Note};
use mbe_rewriter::macro_items::MacroCall;
use mbe_tt::tt::{DelimiterKind, Leaf, TokenTreesView, TopSubtree, TtElement};
use std::alloc::{AllocError, Allocator};

fn opening_of(kind: DelimiterKind) -> &'static str {
    match kind {
        DelimiterKind::Parenthesis => "(",
        DelimiterKind::Brace => "{",
        DelimiterKind::Bracket => "[",
        DelimiterKind::Invisible => "",
    }
}

// Returns the first token of a tree, as text.
fn text_of<A: Allocator + Copy>(alloc: A, tree: TtElement<'_, A>) -> Result<String<A>, AllocError> {
    match tree {
        TtElement::Leaf(Leaf::Ident(ident)) => format!(in alloc; "{ident}"),
        TtElement::Leaf(Leaf::Literal(literal)) => format!(in alloc; "{literal}"),
        TtElement::Leaf(Leaf::Punct(punct)) => {
            let char = punct.char;
            format!(in alloc; "{char}")
        }
        TtElement::Subtree(group, _) => String::from_str(alloc, opening_of(group.delimiter.kind)),
    }
}

// Notes each token at its span. For a group, this is its opening delimiter.
fn note_tokens<A: Allocator + Copy>(
    alloc: A,
    notes: &mut Vec<Note<A>, A>,
    called: &str,
    trees: TokenTreesView<'_, A>,
) -> Result<(), AllocError> {
    let mut cursor = trees.cursor();
    for _ in 0..trees.flat_len() {
        if let Some(tree) = cursor.token_tree() {
            let span = tree.first_span();
            let text = text_of(alloc, tree)?;
            if !text.is_empty() {
                notes.push(Note {
                    level: Level::Note,
                    span,
                    message: format!(in alloc; "`{text}` in the expansion of `{called}!`")?,
                    is_child: false,
                })?;
            }
        }
        cursor.bump_or_end();
    }
    Ok(())
}

impl<A: Allocator + Copy> FileExpander<'_, A> {
    // Notes the origin of each token of an expansion, if the settings ask for it.
    pub(crate) fn note_origins(
        &mut self,
        call: MacroCall<'_, A>,
        tree: &TopSubtree<A>,
    ) -> Result<(), AllocError>
        ensures setting { OnOk result (setting_of self.new ≡ setting_of self.old) }
        ensures state { OnOk result (state_of self.new ≡ state_of self.old) }
    {
        if !self.settings.is_origin_noted {
            return Ok(());
        }
        let called = call.name.sym.as_str();
        note_tokens(self.alloc, &mut self.notes, called, tree.iter().remaining())
    }
}

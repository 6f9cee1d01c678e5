// The locals and the patterns that are in scope at a call of a file.
//
// The locals of the text are sorted by their names and scopes, so a name is looked up without a
// walk over all locals. The locals that expansions bind are in a list. A local leaves the list when
// its scope has ended, because calls are visited in the order of the text.
use crate::captures::local_scopes::{
    LocalScope, PatternPart, begins_in, group_index, local_scopes, pattern_parts, spanned_tokens,
};
use crate::captures::span_index::{Entry, SpanIndex, entry};
use mbe_tt::span::Span;
use mbe_tt::tt::{Ident, TokenTreesView};
use std::alloc::{AllocError, Allocator};

// The locals, the patterns and the groups of a file.
#[derive(Drop)]
pub(crate) struct FileLocals<A: Allocator> {
    locals: Vec<LocalScope<A>, A>,
    // The numbers of the locals, sorted by name.
    by_name: Vec<usize, A>,
    // The scopes of the locals. The group of a name is its first index in `by_name`.
    scopes: SpanIndex<A>,
    // The scopes of the locals, all in one group.
    all_scopes: SpanIndex<A>,
    patterns: Vec<PatternPart, A>,
    pattern_spans: SpanIndex<A>,
    groups: SpanIndex<A>,
    // The locals that expansions bind.
    added: Vec<LocalScope<A>, A>,
}

// Whether the local of that number has a name before this one.
fn precedes<A: Allocator>(locals: &[LocalScope<A>], number: usize, name: &str) -> bool {
    match locals.get(number) {
        Some(local) => local.name.as_str() < name,
        None => false,
    }
}

// Returns the numbers of the locals, sorted by name.
fn name_order<A: Allocator + Copy>(
    alloc: A,
    locals: &[LocalScope<A>],
) -> Result<Vec<usize, A>, AllocError> {
    let mut keys = Vec::new(alloc);
    for (number, local) in locals.iter().enumerate() {
        keys.push((local.name.as_str(), number))?;
    }
    keys.sort_unstable();
    let mut order = Vec::new(alloc);
    for (_, number) in &keys {
        order.push(*number)?;
    }
    Ok(order)
}

// Whether the local at that index has the same name as the local before it.
fn has_name_before<A: Allocator>(locals: &[LocalScope<A>], order: &[usize], at: usize) -> bool {
    let Some(index) = at.checked_sub(1) else {
        return false;
    };
    let (Some(first), Some(second)) = (order.get(index), order.get(at)) else {
        return false;
    };
    match (locals.get(*first), locals.get(*second)) {
        (Some(one), Some(other)) => one.name.as_str() == other.name.as_str(),
        _ => false,
    }
}

// Returns the index of the scopes by names.
fn name_index<A: Allocator + Copy>(
    alloc: A,
    locals: &[LocalScope<A>],
    order: &[usize],
) -> Result<SpanIndex<A>, AllocError> {
    let mut entries: Vec<Entry, A> = Vec::new(alloc);
    let mut group = 0usize;
    for (at, number) in order.iter().enumerate() {
        if !has_name_before(locals, order, at) {
            group = at;
        }
        if let Some(local) = locals.get(*number) {
            entries.push(entry(group, local.scope, *number))?;
        }
    }
    SpanIndex::new(alloc, entries)
}

// Returns the index of all scopes.
fn scope_index<A: Allocator + Copy>(
    alloc: A,
    locals: &[LocalScope<A>],
) -> Result<SpanIndex<A>, AllocError> {
    let mut entries: Vec<Entry, A> = Vec::new(alloc);
    for (number, local) in locals.iter().enumerate() {
        entries.push(entry(0, local.scope, number))?;
    }
    SpanIndex::new(alloc, entries)
}

// Returns the index of the patterns.
fn pattern_index<A: Allocator + Copy>(
    alloc: A,
    patterns: &[PatternPart],
) -> Result<SpanIndex<A>, AllocError> {
    let mut entries: Vec<Entry, A> = Vec::new(alloc);
    for (number, part) in patterns.iter().enumerate() {
        entries.push(entry(0, part.pattern, number))?;
    }
    SpanIndex::new(alloc, entries)
}

impl<A: Allocator + Copy> FileLocals<A> {
    // Returns the locals and the patterns of no file.
    pub(crate) fn empty(alloc: A) -> FileLocals<A> {
        FileLocals {
            locals: Vec::new(alloc),
            by_name: Vec::new(alloc),
            scopes: SpanIndex::empty(alloc),
            all_scopes: SpanIndex::empty(alloc),
            patterns: Vec::new(alloc),
            pattern_spans: SpanIndex::empty(alloc),
            groups: SpanIndex::empty(alloc),
            added: Vec::new(alloc),
        }
    }

    // Returns the locals and the patterns of a file.
    pub(crate) fn of_file(
        alloc: A,
        trees: TokenTreesView<'_, A>,
    ) -> Result<FileLocals<A>, AllocError> {
        let texts = spanned_tokens(alloc, trees)?;
        let locals = local_scopes(alloc, &texts)?;
        let patterns = pattern_parts(alloc, &texts)?;
        let by_name = name_order(alloc, locals.as_slice())?;
        Ok(FileLocals {
            scopes: name_index(alloc, locals.as_slice(), by_name.as_slice())?,
            all_scopes: scope_index(alloc, locals.as_slice())?,
            pattern_spans: pattern_index(alloc, patterns.as_slice())?,
            groups: group_index(alloc, &texts)?,
            locals,
            by_name,
            patterns,
            added: Vec::new(alloc),
        })
    }
}

impl<A: Allocator> FileLocals<A> {
    // Whether a local may be in scope at a call.
    pub(crate) fn has_local_around(&self, call: Span) -> bool {
        !self.added.is_empty() || self.all_scopes.is_any_around(0, call)
    }

    // Whether a call is in a pattern.
    pub(crate) fn is_in_pattern(&self, call: Span) -> bool {
        self.pattern_spans.is_any_around(0, call)
    }

    // Returns the outermost pattern that a call is in.
    pub(crate) fn pattern_around(&self, call: Span) -> Option<&PatternPart> {
        let mut found = None;
        let mut next = self.pattern_spans.last_around(0, call);
        for _ in 0..self.patterns.len() {
            let Some(number) = next else {
                break;
            };
            found = self.pattern_spans.item(number);
            next = self.pattern_spans.next_around(0, call, number);
        }
        self.patterns.get(found?)
    }

    // Returns the end of the group around a call. Outside of any group this is the greatest offset.
    pub(crate) fn group_end(&self, call: Span) -> u32 {
        match self.groups.item_around(0, call) {
            Some(end) => u32::try_from(end).unwrap_or(u32::MAX),
            None => u32::MAX,
        }
    }

    // Returns the innermost local of the text that has that name and is in scope at a call, but not
    // at the name itself.
    fn text_local(&self, call: Span, name: &Ident<A>) -> Option<&LocalScope<A>> {
        let (locals, word) = (self.locals.as_slice(), name.sym.as_str());
        let group = self
            .by_name
            .as_slice()
            .partition_point(|number| precedes(locals, *number, word));
        let mut next = self.scopes.last_around(group, call);
        for _ in 0..locals.len() {
            let number = next?;
            let local = locals.get(self.scopes.item(number)?)?;
            if local.name.as_str() != word {
                return None;
            }
            if !begins_in(name.span, local.scope) {
                return Some(local);
            }
            next = self.scopes.next_around(group, call, number);
        }
        None
    }

    // Returns the last local of an expansion that has that name and is in scope at a call, but not
    // at the name itself.
    fn added_local(&self, call: Span, name: &Ident<A>) -> Option<&LocalScope<A>> {
        for local in self.added.iter().rev() {
            if local.name.as_str() == name.sym.as_str()
                && begins_in(call, local.scope)
                && !begins_in(name.span, local.scope)
            {
                return Some(local);
            }
        }
        None
    }

    // Returns where the innermost local of that name is bound that is in scope at a call, but not
    // at the name itself.
    pub(crate) fn bound_around(&self, call: Span, name: &Ident<A>) -> Option<Span> {
        match (self.added_local(call, name), self.text_local(call, name)) {
            (Some(added), Some(local)) if added.scope.start < local.scope.start => {
                Some(local.bound)
            }
            (Some(added), _) => Some(added.bound),
            (None, Some(local)) => Some(local.bound),
            (None, None) => None,
        }
    }

    // Removes the last local of expansions, if its scope ends before that of another one begins.
    // Returns whether it did.
    fn remove_ended(&mut self, scope: Span) -> bool {
        let is_ended = match self.added.last() {
            Some(last) => last.scope.file == scope.file && last.scope.end <= scope.start,
            None => false,
        };
        if is_ended {
            self.added.pop();
        }
        is_ended
    }

    // Adds a local that an expansion binds.
    pub(crate) fn add(&mut self, local: LocalScope<A>) -> Result<(), AllocError> {
        for _ in 0..self.added.len() {
            if !self.remove_ended(local.scope) {
                break;
            }
        }
        self.added.push(local)?;
        Ok(())
    }
}

// The log of bindings, without the matcher.
use mbe::{Binding, BindingLog, Bindings, Fragment, MetaVarKind, TokensOrigin};
use mbe_tt::symbol::Symbol;
use mbe_tt::tt::TokenTreesView;
use std::alloc::{AllocError, Allocator};

/// Binds a name in a repetition, once in each round: to this tree, and to nothing in a second
/// round.
pub fn bind_rounds<'a, A: Allocator + Copy>(
    alloc: A,
    name: &Symbol<A>,
    tree: TokenTreesView<'a, A>,
) -> Result<Bindings<'a, A>, AllocError> {
    let mut log = BindingLog::new(alloc);
    let mut rounds = log.alloc()?;
    log.push_fragment(&mut rounds, name, Fragment::Expr(tree))?;
    log.push_default(&mut rounds)?;
    log.push_optional(&mut rounds, name)?;
    let mut whole = log.alloc()?;
    log.push_nested(&mut whole, &rounds)?;
    let bindings = Bindings::build(&log, &whole)?;
    Ok(bindings)
}

/// The bindings of a handle and of its copy. The copy doesn't see what the handle pushes later.
pub fn part_ways<'a, A: Allocator + Copy>(
    alloc: A,
    name: &Symbol<A>,
) -> Result<(Bindings<'a, A>, Bindings<'a, A>), AllocError> {
    let mut log = BindingLog::new(alloc);
    let mut one = log.alloc()?;
    let two = log.copy(&one)?;
    log.push_empty(&mut one, name)?;
    let with_name = Bindings::build(&log, &one)?;
    let without = Bindings::build(&log, &two)?;
    Ok((with_name, without))
}

/// Pushes a missing variable, as a thread does when its match fails. Returns the numbers of the
/// handle's entries.
pub fn bind_missing<A: Allocator + Copy>(
    log: &mut BindingLog<'_, A>,
    name: &Symbol<A>,
) -> Result<(usize, usize), AllocError> {
    let mut handle = log.alloc()?;
    log.push_missing(&mut handle, name, MetaVarKind::Ident)?;
    Ok(log.entries_of(&handle))
}

/// Bindings that no match made.
pub fn bind_by_hand<'a, A: Allocator + Copy>(
    alloc: A,
    name: &Symbol<A>,
    tree: TokenTreesView<'a, A>,
) -> Result<Bindings<'a, A>, AllocError> {
    let fragment = Fragment::Tokens {
        tree,
        origin: TokensOrigin::Raw,
    };
    let mut bindings = Bindings::new(alloc);
    bindings.insert(name, Binding::Fragment(fragment.try_clone()?))?;
    Ok(bindings)
}

/// How many rounds a name is bound in; `None` where it isn't bound in a repetition.
pub fn rounds_of<A: Allocator>(bindings: &Bindings<'_, A>, name: &Symbol<A>) -> Option<usize> {
    match bindings.get(name)? {
        Binding::Nested(rounds) => Some(rounds.len()),
        Binding::Fragment(_) | Binding::Empty | Binding::Missing(_) => None,
    }
}

pub mod tests {
    use super::{bind_by_hand, bind_missing, bind_rounds, part_ways, rounds_of};
    use mbe::BindingLog;
    use mbe_text::lexer::lex;
    use mbe_tt::symbol::Symbol;
    use std::alloc::Global;

    fn are_rounds_bound(alloc: Global, name: &Symbol) -> Option<bool> {
        let tree = lex(alloc, "1 + 2", 1).ok()?;
        let bindings = bind_rounds(alloc, name, tree.view()).ok()?;
        let counts = (bindings.len(), bindings.count());
        Some(rounds_of(&bindings, name) == Some(2) && counts == (1, 2))
    }

    fn is_bound_by_hand(alloc: Global, name: &Symbol) -> Option<bool> {
        let tree = lex(alloc, "1", 1).ok()?;
        let bindings = bind_by_hand(alloc, name, tree.view()).ok()?;
        Some(rounds_of(&bindings, name).is_none() && bindings.len() == 1)
    }

    fn do_copies_part(alloc: Global, name: &Symbol) -> Option<bool> {
        let (with_name, without) = part_ways(alloc, name).ok()?;
        let counts = (with_name.len(), without.len());
        Some(rounds_of(&with_name, name).is_none() && counts == (1, 0))
    }

    fn is_missing_counted(alloc: Global, name: &Symbol) -> Option<bool> {
        let mut log = BindingLog::new(alloc);
        Some(bind_missing(&mut log, name).ok()? == (1, 0))
    }

    pub fn is_bound_each_way(alloc: Global) -> Option<bool> {
        let name = Symbol::intern(alloc, "x").ok()?;
        Some(
            are_rounds_bound(alloc, &name)?
                && is_bound_by_hand(alloc, &name)?
                && do_copies_part(alloc, &name)?
                && is_missing_counted(alloc, &name)?,
        )
    }
}

// Finds a cycle among the dependencies of packages.
use crate::features::Edge;
use std::alloc::{AllocError, Global};

// Whether every path of dependencies from package `number` is known to end.
fn is_ended(ends: &[bool], number: usize) -> bool {
    ends.get(number) == Some(&true)
}

// Returns a dependency of package `from` that doesn't end.
fn next_edge(edges: &[Edge], ends: &[bool], from: usize) -> Option<Edge> {
    for edge in edges {
        if edge.from == from && !is_ended(ends, edge.to) {
            return Some(*edge);
        }
    }
    None
}

// Whether all dependencies of package `number` end.
fn all_end(edges: &[Edge], ends: &[bool], number: usize) -> bool {
    next_edge(edges, ends, number).is_none()
}

// Marks the packages whose dependencies all end. Returns whether there were any.
fn mark_round(edges: &[Edge], ends: &mut Vec<bool>) -> bool {
    let mut is_changed = false;
    for number in 0..ends.len() {
        if !is_ended(ends, number) && all_end(edges, ends, number) {
            if let Some(mark) = ends.get_mut(number) {
                *mark = true;
                is_changed = true;
            }
        }
    }
    is_changed
}

// Returns the first package whose dependencies don't all end.
fn first_open(ends: &[bool]) -> Option<usize> {
    for (number, ended) in ends.iter().enumerate() {
        if !*ended {
            return Some(number);
        }
    }
    None
}

/// Returns a dependency that is part of a cycle; `None` if there is no cycle. `count` is the number
/// of packages.
pub fn find_cycle(alloc: Global, edges: &[Edge], count: usize) -> Result<Option<Edge>, AllocError> {
    let mut ends = vec![in alloc; false; count]?;
    for _ in 0..count {
        if !mark_round(edges, &mut ends) {
            break;
        }
    }
    match first_open(&ends) {
        Some(first) => Ok(edge_in_cycle(edges, &ends, first)),
        None => Ok(None),
    }
}

// Follows dependencies that don't end, from a package on, until they are in a cycle.
fn edge_in_cycle(edges: &[Edge], ends: &[bool], first: usize) -> Option<Edge> {
    let mut found = next_edge(edges, ends, first)?;
    for _ in 0..ends.len() {
        found = next_edge(edges, ends, found.to)?;
    }
    Some(found)
}

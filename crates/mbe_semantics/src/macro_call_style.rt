// The three styles of macro calls.
/// The style of a macro call. Each rule of a definition is for one style (as in rust-analyzer).
#[derive(Clone, Copy, Debug, Drop, PartialEq, Eq)]
pub enum MacroCallStyle {
    /// `name!(..)`.
    FnLike,
    /// `#[name]`.
    Attr,
    /// `#[derive(Name)]`.
    Derive,
}

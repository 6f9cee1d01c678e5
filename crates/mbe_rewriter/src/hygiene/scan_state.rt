// Tracks where a token is, by the tokens before it.
//
// A scan passes the tokens of a group from the front. Its state is a `ScanState`: the last token,
// what the group holds, and which part of a statement or closure the scan is in.
ghost use Rattle.std.specs.Prelude.{◌≡◌};
ghost use Rattle.mbe_tt.specs.Trees.Leaf.{ident};
ghost use Rattle.mbe_tt.specs.Views.LeafViews.{ident_of, leaf_of};
ghost use Rattle.mbe_tt.specs.Views.View.{trees};
ghost use Rattle.mbe_rewriter.specs.Hygiene.ScanState as spec;

use crate::hygiene::lookahead::{bang_follows, front_sign, has_in, is_equals};
use crate::hygiene::regions::{
    ends_arrow, is_semicolon, part_after, region_after, region_after_group, region_inside,
};
use crate::hygiene::token_classes::{Sign, WordClass, is_text_macro, sign_of, word_class_of};
use mbe_tt::tt::{DelimiterKind, Ident, Leaf, TokenTreesView};
use std::alloc::Allocator;

/// The last token before a point of a group.
#[derive(Clone, Copy, Drop)]
pub(crate) enum PreviousToken {
    // No token.
    Start,
    // A word that may end an operand or a path.
    Name,
    // A `>` that ends no `=>`.
    Angle,
    // Any other token that may end an operand.
    Operand,
    // A `|` after an operand.
    Or,
    // A keyword.
    Word,
    // A keyword before an item's name.
    Item,
    // `break` or `continue`.
    Jump,
    Dot,
    // `..`, `...` or `..=`.
    Dots,
    // A `:` that ends no `::`.
    Colon,
    Colons,
    Quote,
    // A `'` after `break` or `continue`.
    JumpQuote,
    Dollar,
    // A `#` or a `#!`.
    Hash,
    // The `!` of a macro.
    Bang,
    // The name after the `!` of a macro, as in `macro_rules! name`.
    Named,
    // The name of a macro that takes its argument as text, before its `!`, and that `!`.
    TextMacro,
    TextBang,
    Equals,
    // `=>`.
    Arrow,
    // A `,` or a `;`.
    Mark,
    // Any other punct.
    Sign,
}

/// The kind of content that a group holds at a point of it.
#[derive(Clone, Copy, Drop)]
pub(crate) enum Region {
    // Items, statements and expressions.
    Code,
    // The argument of a macro.
    Arguments,
    // An attribute, or the argument of a macro that takes it as text.
    Opaque,
    // The rules of a macro.
    Rules,
    // The arms of a `match`: `Arm` is the pattern, `Guard` follows its `if`, and `Body` follows its
    // `=>`.
    Arm,
    Guard,
    Body,
    // A part of a pattern.
    Pattern,
    // Fields: `Fields` is a name, and `Value` follows its `:`.
    Fields,
    Value,
    // Fields in a pattern: the name, and what follows its `:`.
    FieldPatterns,
    FieldPattern,
}

/// The part of a statement or closure that a scan is in.
#[derive(Clone, Copy, Drop)]
pub(crate) enum StatementPart {
    // None of the others.
    Whole,
    LetPattern,
    LetType,
    ForPattern,
    Parameters,
    ParameterType,
}

/// The state of a scan.
#[derive(Clone, Copy, Drop)]
pub(crate) struct ScanState {
    pub(crate) before: PreviousToken,
    pub(crate) region: Region,
    pub(crate) part: StatementPart,
    // Whether the next braces are a block, as after an `if`, a `while` or an `fn`.
    pub(crate) is_head: bool,
    // Whether the scan is in the value of a `let` statement, or in that of an `if let`, a
    // `while let` or a `for`.
    pub(crate) in_let: bool,
    pub(crate) in_head_let: bool,
    // Whether bindings of the group hold only after such a value.
    pub(crate) is_late: bool,
}

/// The roles that a token may have for locals and labels.
#[derive(Clone, Copy, Drop)]
pub enum TokenRole {
    /// No local and no label.
    Other,
    /// It may be a local, and isn't bound here.
    Used,
    /// A local that is bound here.
    Bound,
    /// A local that is bound after the value that belongs to this pattern.
    Late,
    /// A local that is bound here, and also the name of its field.
    Shorthand,
    /// It may be a local, and also the name of a field or of an argument.
    Unsure,
    /// A label before its loop or block.
    Label,
    /// A label after `break` or `continue`.
    Jump,
    /// A string that may name locals in braces, or such a name.
    Text,
    /// A word that may be a local, in the rules of a macro or in a step of such a macro.
    Inner,
    /// Such a word that may be a label.
    InnerLabel,
    /// A `let` or a `for`, before a pattern.
    Begin,
    /// The end of the value that belongs to a `let`.
    End,
    /// The opening of a group. A local that the group binds is bound up to its closing.
    Enter,
    /// Such an opening that ends the value of an `if let`, a `while let` or a `for`.
    Body,
    /// The closing of such a group.
    Leave,
    /// A `,` after an arm of a `match`.
    Next,
}

pub(crate) fn is_dots(before: PreviousToken) -> bool
    ensures { result ≡ spec.is_dots before }
{
    matches!(before, PreviousToken::Dots)
}

/// Returns whether the scan is among statements and expressions.
pub(crate) fn is_open(scan: ScanState) -> bool
    ensures { result ≡ spec.is_open scan }
{
    match scan.part {
        StatementPart::Whole => is_code(scan.region),
        _ => false,
    }
}

pub(crate) fn is_code(region: Region) -> bool
    ensures { result ≡ spec.is_code region }
{
    matches!(
        region,
        Region::Code | Region::Arguments | Region::Guard | Region::Body | Region::Value
    )
}

fn is_pattern_region(region: Region) -> bool
    ensures { result ≡ spec.is_pattern_region region }
{
    matches!(
        region,
        Region::Arm | Region::Pattern | Region::FieldPatterns | Region::FieldPattern
    )
}

/// Returns whether the scan is in a pattern.
pub(crate) fn is_pattern(scan: ScanState) -> bool
    ensures { result ≡ spec.is_pattern scan scan.part }
{
    match scan.part {
        StatementPart::LetPattern | StatementPart::ForPattern | StatementPart::Parameters => true,
        StatementPart::LetType | StatementPart::ParameterType => false,
        StatementPart::Whole => is_pattern_region(scan.region),
    }
}

// Returns whether a group is the argument of a macro. A local that the group binds may be bound
// after it too.
fn is_argument(before: PreviousToken) -> bool
    ensures { result ≡ spec.is_argument before }
{
    matches!(
        before,
        PreviousToken::Bang | PreviousToken::TextBang | PreviousToken::Named
    )
}

/// Returns whether what a group binds is bound up to its closing. A group in a pattern is no such
/// group.
pub(crate) fn is_scope(scan: ScanState, kind: DelimiterKind) -> bool
    ensures { result ≡ spec.is_scope scan kind }
{
    !is_pattern(scan) && !is_argument(scan.before) && !matches!(kind, DelimiterKind::Invisible)
}

fn is_arm(scan: ScanState) -> bool
    ensures { result ≡ spec.is_arm scan.part scan.region }
{
    match scan.part {
        StatementPart::Whole => matches!(scan.region, Region::Arm),
        _ => false,
    }
}

/// Returns whether braces hold statements and expressions.
pub(crate) fn is_body(scan: ScanState, kind: DelimiterKind) -> bool
    ensures { result ≡ spec.is_body scan kind }
{
    is_brace(kind) && is_open(scan)
}

pub(crate) fn is_brace(kind: DelimiterKind) -> bool
    ensures { result ≡ spec.is_brace kind }
{
    matches!(kind, DelimiterKind::Brace)
}

// ---- the state after a word

fn after_in(scan: ScanState) -> ScanState
    ensures { result ≡ spec.after_in scan scan.part }
{
    match scan.part {
        StatementPart::ForPattern => ScanState {
            before: PreviousToken::Word,
            part: StatementPart::Whole,
            is_head: true,
            ..scan
        },
        _ => after_keyword(scan, PreviousToken::Word, scan.is_head),
    }
}

fn after_keyword(scan: ScanState, before: PreviousToken, is_head: bool) -> ScanState
    ensures { result ≡ spec.after_keyword scan before is_head }
{
    ScanState {
        before,
        is_head,
        ..scan
    }
}

// Begins a pattern, if `is_one`.
fn with_pattern(scan: ScanState, part: StatementPart, is_one: bool, is_statement: bool) -> ScanState
    ensures { result ≡ spec.with_pattern scan part is_one is_statement }
{
    ScanState {
        before: PreviousToken::Word,
        part: if is_one { part } else { scan.part },
        in_let: scan.in_let || is_one && is_statement,
        in_head_let: scan.in_head_let || is_one && !is_statement,
        ..scan
    }
}

fn after_if(scan: ScanState) -> ScanState
    ensures { result ≡ spec.after_if scan }
{
    ScanState {
        before: PreviousToken::Word,
        region: if is_arm(scan) {
            Region::Guard
        } else {
            scan.region
        },
        is_head: true,
        ..scan
    }
}

fn after_word_class<A: Allocator>(
    scan: ScanState,
    sort: WordClass,
    rest: TokenTreesView<'_, A>,
) -> ScanState
    ensures { result ≡ spec.after_word_class scan sort (trees rest.entry) }
{
    match sort {
        WordClass::Let => with_pattern(
            scan,
            StatementPart::LetPattern,
            is_open(scan),
            !scan.is_head,
        ),
        WordClass::For => with_pattern(
            scan,
            StatementPart::ForPattern,
            is_open(scan) && has_in(rest),
            false,
        ),
        WordClass::In => after_in(scan),
        WordClass::If => after_if(scan),
        WordClass::Head | WordClass::Loop => after_keyword(scan, PreviousToken::Word, true),
        WordClass::Header => after_keyword(scan, PreviousToken::Item, true),
        WordClass::Item => after_keyword(scan, PreviousToken::Item, scan.is_head),
        WordClass::Jump => after_keyword(scan, PreviousToken::Jump, scan.is_head),
        WordClass::Keyword => after_keyword(scan, PreviousToken::Word, scan.is_head),
        WordClass::Value | WordClass::Name => after_keyword(
            scan,
            PreviousToken::Name,
            scan.is_head,
        ),
    }
}

// Returns whether a word is the name of a macro that takes its argument as text.
fn is_text_call<A: Allocator>(ident: &Ident<A>, rest: TokenTreesView<'_, A>) -> bool
    ensures { result ≡ spec.is_text_call (ident_of ident.now) (trees rest.entry) }
{
    is_text_macro(ident.sym.as_str()) && bang_follows(rest)
}

fn after_segment<A: Allocator>(
    scan: ScanState,
    ident: &Ident<A>,
    rest: TokenTreesView<'_, A>,
) -> ScanState
    ensures { result ≡ spec.after_segment scan (ident_of ident.now) (trees rest.entry) }
{
    if is_text_call(ident, rest) {
        after_keyword(scan, PreviousToken::TextMacro, scan.is_head)
    } else {
        after_keyword(scan, PreviousToken::Name, scan.is_head)
    }
}

fn after_front_word<A: Allocator>(
    scan: ScanState,
    ident: &Ident<A>,
    rest: TokenTreesView<'_, A>,
) -> ScanState
    ensures { result ≡ spec.after_front_word scan (ident_of ident.now) (trees rest.entry) }
{
    if is_text_call(ident, rest) {
        after_keyword(scan, PreviousToken::TextMacro, scan.is_head)
    } else {
        after_word_class(scan, word_class_of(ident), rest)
    }
}

fn after_ident<A: Allocator>(
    scan: ScanState,
    ident: &Ident<A>,
    rest: TokenTreesView<'_, A>,
) -> ScanState
    ensures { result ≡ spec.after_ident scan scan.before (ident_of ident.now) (trees rest.entry) }
{
    match scan.before {
        PreviousToken::Colons => after_segment(scan, ident, rest),
        PreviousToken::Dot | PreviousToken::Dollar => {
            after_keyword(scan, PreviousToken::Name, scan.is_head)
        }
        PreviousToken::Quote | PreviousToken::JumpQuote => after_keyword(
            scan,
            PreviousToken::Sign,
            scan.is_head,
        ),
        PreviousToken::Bang => after_keyword(scan, PreviousToken::Named, scan.is_head),
        _ => after_front_word(scan, ident, rest),
    }
}

// ---- the state after a punct

fn after_dot(before: PreviousToken) -> PreviousToken
    ensures { result ≡ spec.after_dot before }
{
    match before {
        PreviousToken::Dot | PreviousToken::Dots => PreviousToken::Dots,
        _ => PreviousToken::Dot,
    }
}

fn after_colon(before: PreviousToken) -> PreviousToken
    ensures { result ≡ spec.after_colon before }
{
    match before {
        PreviousToken::Colon => PreviousToken::Colons,
        _ => PreviousToken::Colon,
    }
}

fn after_quote(before: PreviousToken) -> PreviousToken
    ensures { result ≡ spec.after_quote before }
{
    match before {
        PreviousToken::Jump => PreviousToken::JumpQuote,
        _ => PreviousToken::Quote,
    }
}

fn after_bang(before: PreviousToken, next: Option<Sign>) -> PreviousToken
    ensures { result ≡ spec.after_bang before next }
{
    match before {
        PreviousToken::Hash => PreviousToken::Hash,
        PreviousToken::TextMacro => PreviousToken::TextBang,
        PreviousToken::Name => {
            if is_equals(next) {
                PreviousToken::Sign
            } else {
                PreviousToken::Bang
            }
        }
        _ => PreviousToken::Sign,
    }
}

fn after_equals(before: PreviousToken) -> PreviousToken
    ensures { result ≡ spec.after_equals before }
{
    match before {
        PreviousToken::Dots => PreviousToken::Dots,
        _ => PreviousToken::Equals,
    }
}

fn after_angle(before: PreviousToken) -> PreviousToken
    ensures { result ≡ spec.after_angle before }
{
    match before {
        PreviousToken::Equals => PreviousToken::Arrow,
        _ => PreviousToken::Angle,
    }
}

fn after_bar(before: PreviousToken) -> PreviousToken
    ensures { result ≡ spec.after_bar before }
{
    match before {
        PreviousToken::Name | PreviousToken::Angle | PreviousToken::Operand => PreviousToken::Or,
        _ => PreviousToken::Sign,
    }
}

fn before_after(before: PreviousToken, sign: Sign, next: Option<Sign>) -> PreviousToken
    ensures { result ≡ spec.before_after before sign next }
{
    match sign {
        Sign::Dot => after_dot(before),
        Sign::Colon => after_colon(before),
        Sign::Quote => after_quote(before),
        Sign::Dollar => PreviousToken::Dollar,
        Sign::Hash => PreviousToken::Hash,
        Sign::Bang => after_bang(before, next),
        Sign::Equals => after_equals(before),
        Sign::Angle => after_angle(before),
        Sign::Comma | Sign::Semicolon => PreviousToken::Mark,
        Sign::Bar => after_bar(before),
        Sign::Question => PreviousToken::Operand,
        Sign::At | Sign::Other => PreviousToken::Sign,
    }
}

fn head_after(scan: ScanState, sign: Sign) -> bool
    ensures { result ≡ spec.head_after scan sign }
{
    match sign {
        Sign::Semicolon => false,
        _ => scan.is_head && !ends_arrow(scan.before, sign),
    }
}

fn after_punct<A: Allocator>(scan: ScanState, sign: Sign, rest: TokenTreesView<'_, A>) -> ScanState
    ensures { result ≡ spec.after_punct scan sign (trees rest.entry) }
{
    let next = front_sign(rest);
    ScanState {
        before: before_after(scan.before, sign, next),
        region: region_after(scan, sign, rest),
        part: part_after(scan, sign, next),
        is_head: head_after(scan, sign),
        in_let: scan.in_let && !is_semicolon(sign),
        in_head_let: scan.in_head_let && !is_semicolon(sign),
        is_late: scan.is_late,
    }
}

/// Returns the state after a leaf, before `rest`.
pub(crate) fn after_leaf<A: Allocator>(
    scan: ScanState,
    leaf: &Leaf<A>,
    rest: TokenTreesView<'_, A>,
) -> ScanState
    ensures { result ≡ spec.after_leaf scan (leaf_of leaf.now) (trees rest.entry) }
{
    match leaf {
        Leaf::Ident(ident) => after_ident(scan, ident, rest),
        Leaf::Punct(punct) => after_punct(scan, sign_of(punct.char), rest),
        Leaf::Literal(_) => after_keyword(scan, PreviousToken::Operand, scan.is_head),
    }
}

// ---- groups

// Returns whether bindings of a pattern in a group hold only after a value.
fn late_inside(scan: ScanState) -> bool
    ensures { result ≡ spec.late_inside scan scan.part }
{
    match scan.part {
        StatementPart::LetPattern | StatementPart::ForPattern => true,
        StatementPart::Whole => scan.is_late,
        _ => false,
    }
}

/// Returns the state at the start of a group, from the state before the group.
pub(crate) fn inside_group<A: Allocator>(
    scan: ScanState,
    kind: DelimiterKind,
    inside: TokenTreesView<'_, A>,
) -> ScanState
    ensures { result ≡ spec.inside_group scan kind (trees inside.entry) }
{
    ScanState {
        before: PreviousToken::Start,
        region: region_inside(scan, kind, inside),
        part: StatementPart::Whole,
        is_head: false,
        in_let: false,
        in_head_let: false,
        is_late: late_inside(scan),
    }
}

fn after_brackets(before: PreviousToken) -> PreviousToken
    ensures { result ≡ spec.after_brackets before }
{
    match before {
        PreviousToken::Hash => PreviousToken::Mark,
        _ => PreviousToken::Operand,
    }
}

/// Returns the state after a group, before `rest`.
pub(crate) fn after_group<A: Allocator>(
    scan: ScanState,
    kind: DelimiterKind,
    rest: TokenTreesView<'_, A>,
) -> ScanState
    ensures { result ≡ spec.after_group scan kind (trees rest.entry) }
{
    ScanState {
        before: after_brackets(scan.before),
        region: region_after_group(scan, kind, rest),
        part: scan.part,
        is_head: scan.is_head && !is_body(scan, kind),
        in_let: scan.in_let,
        in_head_let: scan.in_head_let && !(scan.is_head && is_body(scan, kind)),
        is_late: scan.is_late,
    }
}

// Decides what a word may be: a local, a label, or neither.
ghost use Rattle.std.specs.Prelude.{◌≡◌};
ghost use Rattle.mbe_tt.specs.Trees.Leaf.{ident};
ghost use Rattle.mbe_tt.specs.Views.LeafViews.{ident_of};
ghost use Rattle.mbe_tt.specs.Views.View.{trees};
ghost use Rattle.mbe_rewriter.specs.Hygiene.TokenClasses.{word_class_of};
ghost use Rattle.mbe_rewriter.specs.Hygiene.ScanState as spec;
ghost use Rattle.mbe_rewriter.specs.Hygiene.Roles as roles;

use crate::hygiene::lookahead::{
    bang_follows, begins_arm, binds_before, colon_follows, comma_or_end_follows, equals_follows,
    has_in, is_label, is_lowercase_name, path_follows,
};
use crate::hygiene::scan_state::{
    PreviousToken, Region, ScanState, StatementPart, TokenRole, is_body, is_dots, is_open, is_scope,
};
use crate::hygiene::token_classes::{Sign, WordClass, word_class_of};
use mbe_tt::tt::{DelimiterKind, Ident, TokenTreesView};
use std::alloc::Allocator;

fn binding_role(is_late: bool) -> TokenRole
    ensures { result ≡ roles.binding_role is_late }
{
    if is_late {
        TokenRole::Late
    } else {
        TokenRole::Bound
    }
}

fn pattern_role<A: Allocator>(
    before: PreviousToken,
    is_late: bool,
    ident: &Ident<A>,
    rest: TokenTreesView<'_, A>,
) -> TokenRole
    ensures { result ≡ roles.pattern_role before is_late (ident_of ident.now) (trees rest.entry) }
{
    if is_lowercase_name(ident.sym.as_str()) && binds_before(rest) && !is_dots(before) {
        binding_role(is_late)
    } else {
        TokenRole::Used
    }
}

fn begins_field(before: PreviousToken) -> bool
    ensures { result ≡ spec.begins_field before }
{
    matches!(before, PreviousToken::Start | PreviousToken::Mark)
}

fn field_role<A: Allocator>(before: PreviousToken, rest: TokenTreesView<'_, A>) -> TokenRole
    ensures { result ≡ roles.field_role before (trees rest.entry) }
{
    if colon_follows(rest) {
        TokenRole::Other
    } else if begins_field(before) && comma_or_end_follows(rest) {
        TokenRole::Unsure
    } else {
        TokenRole::Used
    }
}

fn field_pattern_role<A: Allocator>(rest: TokenTreesView<'_, A>) -> TokenRole
    ensures { result ≡ roles.field_pattern_role (trees rest.entry) }
{
    if colon_follows(rest) {
        TokenRole::Other
    } else {
        TokenRole::Shorthand
    }
}

fn argument_role<A: Allocator>(rest: TokenTreesView<'_, A>) -> TokenRole
    ensures { result ≡ roles.argument_role (trees rest.entry) }
{
    if colon_follows(rest) || equals_follows(rest) {
        TokenRole::Unsure
    } else {
        TokenRole::Used
    }
}

fn code_role<A: Allocator>(rest: TokenTreesView<'_, A>) -> TokenRole
    ensures { result ≡ roles.code_role (trees rest.entry) }
{
    if colon_follows(rest) {
        TokenRole::Unsure
    } else {
        TokenRole::Used
    }
}

fn region_role<A: Allocator>(
    scan: ScanState,
    ident: &Ident<A>,
    rest: TokenTreesView<'_, A>,
) -> TokenRole
    ensures { result ≡ roles.region_role scan scan.region (ident_of ident.now) (trees rest.entry) }
{
    match scan.region {
        Region::Arm | Region::Pattern | Region::FieldPattern => {
            pattern_role(scan.before, scan.is_late, ident, rest)
        }
        Region::FieldPatterns => field_pattern_role(rest),
        Region::Fields => field_role(scan.before, rest),
        Region::Arguments => argument_role(rest),
        Region::Code | Region::Guard | Region::Body | Region::Value => code_role(rest),
        Region::Rules => TokenRole::Used,
        Region::Opaque => TokenRole::Other,
    }
}

fn part_role<A: Allocator>(
    scan: ScanState,
    ident: &Ident<A>,
    rest: TokenTreesView<'_, A>,
) -> TokenRole
    ensures { result ≡ roles.part_role scan (ident_of ident.now) (trees rest.entry) }
{
    match scan.part {
        StatementPart::LetPattern | StatementPart::ForPattern => pattern_role(
            scan.before,
            true,
            ident,
            rest,
        ),
        StatementPart::Parameters => pattern_role(scan.before, false, ident, rest),
        StatementPart::LetType | StatementPart::ParameterType => TokenRole::Other,
        StatementPart::Whole => region_role(scan, ident, rest),
    }
}

fn alone_role<A: Allocator>(
    scan: ScanState,
    ident: &Ident<A>,
    rest: TokenTreesView<'_, A>,
) -> TokenRole
    ensures { result ≡ roles.alone_role scan (ident_of ident.now) (trees rest.entry) }
{
    if path_follows(rest) || bang_follows(rest) {
        TokenRole::Other
    } else {
        part_role(scan, ident, rest)
    }
}

fn label_role<A: Allocator>(rest: TokenTreesView<'_, A>) -> TokenRole
    ensures { result ≡ roles.label_role (trees rest.entry) }
{
    if is_label(rest) {
        TokenRole::Label
    } else {
        TokenRole::Other
    }
}

fn name_role<A: Allocator>(
    scan: ScanState,
    ident: &Ident<A>,
    rest: TokenTreesView<'_, A>,
) -> TokenRole
    ensures { result ≡ roles.name_role scan (ident_of ident.now) (trees rest.entry) }
{
    match scan.before {
        PreviousToken::Quote => label_role(rest),
        PreviousToken::JumpQuote => TokenRole::Jump,
        PreviousToken::Dot
        | PreviousToken::Colons
        | PreviousToken::Dollar
        | PreviousToken::Item
        | PreviousToken::Bang => TokenRole::Other,
        _ => alone_role(scan, ident, rest),
    }
}

/// Returns the role of a word, at `scan` and before `rest`.
pub(crate) fn role_of<A: Allocator>(
    scan: ScanState,
    ident: &Ident<A>,
    rest: TokenTreesView<'_, A>,
) -> TokenRole
    ensures { result ≡ roles.role_of scan (ident_of ident.now) (trees rest.entry) }
{
    match scan.region {
        Region::Opaque => TokenRole::Other,
        Region::Rules => inner_role(role_by(scan, ident, rest)),
        _ => role_by(scan, ident, rest),
    }
}

fn role_by<A: Allocator>(
    scan: ScanState,
    ident: &Ident<A>,
    rest: TokenTreesView<'_, A>,
) -> TokenRole
    ensures { result ≡ roles.role_by scan (word_class_of (ident_of ident.now)) (ident_of ident.now)
        (trees rest.entry) }
{
    match word_class_of(ident) {
        WordClass::Name => name_role(scan, ident, rest),
        WordClass::Let => begin_role(is_open(scan)),
        WordClass::For => begin_role(is_open(scan) && has_in(rest)),
        _ => TokenRole::Other,
    }
}

/// Returns the role that a word of a macro's rules, or of a step of that macro, has for the step
/// that wrote the macro.
pub(crate) fn inner_role(role: TokenRole) -> TokenRole
    ensures { result ≡ roles.inner_role role }
{
    match role {
        TokenRole::Used | TokenRole::Unsure | TokenRole::Text | TokenRole::Inner =>
            TokenRole::Inner,
        TokenRole::Jump | TokenRole::InnerLabel => TokenRole::InnerLabel,
        _ => TokenRole::Other,
    }
}

fn begin_role(is_one: bool) -> TokenRole
    ensures { result ≡ roles.begin_role is_one }
{
    if is_one {
        TokenRole::Begin
    } else {
        TokenRole::Other
    }
}

fn end_role(is_one: bool) -> TokenRole
    ensures { result ≡ roles.end_role is_one }
{
    if is_one {
        TokenRole::End
    } else {
        TokenRole::Other
    }
}

// Returns whether the scan is in the expression of an arm.
fn is_arm_body(scan: ScanState) -> bool
    ensures { result ≡ roles.is_arm_body scan.part scan.region }
{
    match scan.part {
        StatementPart::Whole => matches!(scan.region, Region::Body),
        _ => false,
    }
}

fn comma_role<A: Allocator>(scan: ScanState, rest: TokenTreesView<'_, A>) -> TokenRole
    ensures { result ≡ roles.comma_role scan (trees rest.entry) }
{
    if is_arm_body(scan) && begins_arm(rest) {
        TokenRole::Next
    } else {
        TokenRole::Other
    }
}

/// Returns the role of a punct before `rest`. A `;` may end the value of a `let`, and a `,` an arm.
pub(crate) fn punct_role<A: Allocator>(
    scan: ScanState,
    sign: Sign,
    rest: TokenTreesView<'_, A>,
) -> TokenRole
    ensures { result ≡ roles.punct_role scan sign (trees rest.entry) }
{
    match sign {
        Sign::Semicolon => end_role(scan.in_let),
        Sign::Comma => comma_role(scan, rest),
        _ => TokenRole::Other,
    }
}

// Returns the role of an opening that ends no value.
fn enter_role(is_scope: bool) -> TokenRole
    ensures { result ≡ roles.enter_role is_scope }
{
    if is_scope {
        TokenRole::Enter
    } else {
        TokenRole::Other
    }
}

// Returns the role of an opening that ends a value.
fn body_role(is_scope: bool) -> TokenRole
    ensures { result ≡ roles.body_role is_scope }
{
    if is_scope {
        TokenRole::Body
    } else {
        TokenRole::End
    }
}

/// Returns the role of an opening. Braces may end the value of an `if let`, a `while let` or a
/// `for`.
pub(crate) fn group_role(scan: ScanState, kind: DelimiterKind) -> TokenRole
    ensures { result ≡ roles.group_role scan kind }
{
    if scan.in_head_let && scan.is_head && is_body(scan, kind) {
        body_role(is_scope(scan, kind))
    } else {
        enter_role(is_scope(scan, kind))
    }
}

/// Returns the role of the closing of a group, by the state before the group.
pub(crate) fn close_role(scan: ScanState, kind: DelimiterKind) -> TokenRole
    ensures { result ≡ roles.close_role scan kind }
{
    if is_scope(scan, kind) {
        TokenRole::Leave
    } else {
        TokenRole::Other
    }
}

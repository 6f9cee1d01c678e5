// Computes the state of a scan after a token: what the group holds there, and which part of a
// statement or closure comes next.
ghost use Rattle.std.specs.Prelude.{◌≡◌};
ghost use Rattle.mbe_tt.specs.Views.View.{trees};
ghost use Rattle.mbe_rewriter.specs.Hygiene.ScanState as spec;

use crate::hygiene::lookahead::{begins_arm, begins_fields, front_sign, is_colon};
use crate::hygiene::scan_state::{
    PreviousToken, Region, ScanState, StatementPart, is_brace, is_code, is_dots,
};
use crate::hygiene::token_classes::Sign;
use mbe_tt::tt::{DelimiterKind, TokenTreesView};
use std::alloc::Allocator;

// ---- after a punct

// Returns whether a `:` is no part of a `::`.
fn is_single_colon(before: PreviousToken, next: Option<Sign>) -> bool
    ensures { result ≡ spec.is_single_colon before next }
{
    match before {
        PreviousToken::Colon => false,
        _ => !is_colon(next),
    }
}

// Returns whether a `|` begins the parameters of a closure.
fn begins_closure(before: PreviousToken) -> bool
    ensures { result ≡ spec.begins_closure before }
{
    matches!(
        before,
        PreviousToken::Start
            | PreviousToken::Word
            | PreviousToken::Equals
            | PreviousToken::Arrow
            | PreviousToken::Mark
            | PreviousToken::Sign
    )
}

fn part_after_let(before: PreviousToken, sign: Sign, next: Option<Sign>) -> StatementPart
    ensures { result ≡ spec.part_after_let before sign next }
{
    match sign {
        Sign::Equals => {
            if is_dots(before) {
                StatementPart::LetPattern
            } else {
                StatementPart::Whole
            }
        }
        Sign::Semicolon => StatementPart::Whole,
        Sign::Colon => {
            if is_single_colon(before, next) {
                StatementPart::LetType
            } else {
                StatementPart::LetPattern
            }
        }
        _ => StatementPart::LetPattern,
    }
}

fn part_after_let_type(sign: Sign) -> StatementPart
    ensures { result ≡ spec.part_after_let_type sign }
{
    match sign {
        Sign::Equals | Sign::Semicolon => StatementPart::Whole,
        _ => StatementPart::LetType,
    }
}

fn part_after_parameters(before: PreviousToken, sign: Sign, next: Option<Sign>) -> StatementPart
    ensures { result ≡ spec.part_after_parameters before sign next }
{
    match sign {
        Sign::Bar => StatementPart::Whole,
        Sign::Colon => {
            if is_single_colon(before, next) {
                StatementPart::ParameterType
            } else {
                StatementPart::Parameters
            }
        }
        _ => StatementPart::Parameters,
    }
}

fn part_after_parameter_type(sign: Sign) -> StatementPart
    ensures { result ≡ spec.part_after_parameter_type sign }
{
    match sign {
        Sign::Bar => StatementPart::Whole,
        Sign::Comma => StatementPart::Parameters,
        _ => StatementPart::ParameterType,
    }
}

fn part_after_whole(scan: ScanState, sign: Sign) -> StatementPart
    ensures { result ≡ spec.part_after_whole scan sign }
{
    match sign {
        Sign::Bar => {
            if is_code(scan.region) && begins_closure(scan.before) {
                StatementPart::Parameters
            } else {
                StatementPart::Whole
            }
        }
        _ => StatementPart::Whole,
    }
}

pub(crate) fn part_after(scan: ScanState, sign: Sign, next: Option<Sign>) -> StatementPart
    ensures { result ≡ spec.part_after scan scan.part sign next }
{
    match scan.part {
        StatementPart::Whole => part_after_whole(scan, sign),
        StatementPart::LetPattern => part_after_let(scan.before, sign, next),
        StatementPart::LetType => part_after_let_type(sign),
        StatementPart::ForPattern => StatementPart::ForPattern,
        StatementPart::Parameters => part_after_parameters(scan.before, sign, next),
        StatementPart::ParameterType => part_after_parameter_type(sign),
    }
}

/// Returns whether a punct ends an `=>`.
pub(crate) fn ends_arrow(before: PreviousToken, sign: Sign) -> bool
    ensures { result ≡ spec.ends_arrow before sign }
{
    match sign {
        Sign::Angle => matches!(before, PreviousToken::Equals),
        _ => false,
    }
}

pub(crate) fn is_semicolon(sign: Sign) -> bool
    ensures { result ≡ spec.is_semicolon sign }
{
    matches!(sign, Sign::Semicolon)
}

fn is_comma(sign: Sign) -> bool
    ensures { result ≡ spec.is_comma sign }
{
    matches!(sign, Sign::Comma)
}

// Returns whether a punct is a `:` that is no part of a `::`.
fn is_colon_alone(before: PreviousToken, sign: Sign, next: Option<Sign>) -> bool
    ensures { result ≡ spec.is_colon_alone before sign next }
{
    match sign {
        Sign::Colon => is_single_colon(before, next),
        _ => false,
    }
}

fn arm_region<A: Allocator>(scan: ScanState, sign: Sign, rest: TokenTreesView<'_, A>) -> Region
    ensures { result ≡ spec.arm_region scan.region scan.before sign (trees rest.entry) }
{
    match scan.region {
        Region::Body => {
            if is_comma(sign) && begins_arm(rest) {
                Region::Arm
            } else {
                Region::Body
            }
        }
        region => {
            if ends_arrow(scan.before, sign) {
                Region::Body
            } else {
                region
            }
        }
    }
}

// Returns `value` after the `:` of a field, and `region` before it.
fn field_region(
    scan: ScanState,
    sign: Sign,
    next: Option<Sign>,
    region: Region,
    value: Region,
) -> Region
    ensures { result ≡ spec.field_region scan.before sign next region value }
{
    if is_colon_alone(scan.before, sign, next) {
        value
    } else {
        region
    }
}

fn value_region(sign: Sign, region: Region, value: Region) -> Region
    ensures { result ≡ spec.value_region sign region value }
{
    if is_comma(sign) { region } else { value }
}

fn whole_region<A: Allocator>(scan: ScanState, sign: Sign, rest: TokenTreesView<'_, A>) -> Region
    ensures { result ≡ spec.whole_region scan.region scan.before sign (trees rest.entry) }
{
    let next = front_sign(rest);
    match scan.region {
        Region::Arm | Region::Guard | Region::Body => arm_region(scan, sign, rest),
        Region::Fields => field_region(scan, sign, next, Region::Fields, Region::Value),
        Region::Value => value_region(sign, Region::Fields, Region::Value),
        Region::FieldPatterns => field_region(
            scan,
            sign,
            next,
            Region::FieldPatterns,
            Region::FieldPattern,
        ),
        Region::FieldPattern => { value_region(sign, Region::FieldPatterns, Region::FieldPattern) }
        Region::Code => Region::Code,
        Region::Arguments => Region::Arguments,
        Region::Opaque => Region::Opaque,
        Region::Rules => Region::Rules,
        Region::Pattern => Region::Pattern,
    }
}

pub(crate) fn region_after<A: Allocator>(
    scan: ScanState,
    sign: Sign,
    rest: TokenTreesView<'_, A>,
) -> Region
    ensures { result ≡ spec.region_after scan scan.part sign (trees rest.entry) }
{
    match scan.part {
        StatementPart::Whole => whole_region(scan, sign, rest),
        _ => scan.region,
    }
}

// ---- groups

fn pattern_group(kind: DelimiterKind) -> Region
    ensures { result ≡ spec.pattern_group kind }
{
    match kind {
        DelimiterKind::Brace => Region::FieldPatterns,
        _ => Region::Pattern,
    }
}

// Returns whether braces may hold the fields of a struct.
fn may_have_fields(scan: ScanState) -> bool
    ensures { result ≡ spec.may_have_fields scan.before scan.is_head }
{
    match scan.before {
        PreviousToken::Name | PreviousToken::Angle => !scan.is_head,
        _ => false,
    }
}

fn braces_region<A: Allocator>(scan: ScanState, inside: TokenTreesView<'_, A>) -> Region
    ensures { result ≡ spec.braces_region scan (trees inside.entry) }
{
    if begins_arm(inside) {
        Region::Arm
    } else if may_have_fields(scan) && begins_fields(inside) {
        Region::Fields
    } else {
        Region::Code
    }
}

fn code_group<A: Allocator>(
    scan: ScanState,
    kind: DelimiterKind,
    inside: TokenTreesView<'_, A>,
) -> Region
    ensures { result ≡ spec.code_group scan kind (trees inside.entry) }
{
    match kind {
        DelimiterKind::Brace => braces_region(scan, inside),
        _ => Region::Code,
    }
}

fn whole_group<A: Allocator>(
    scan: ScanState,
    kind: DelimiterKind,
    inside: TokenTreesView<'_, A>,
) -> Region
    ensures { result ≡ spec.whole_group scan scan.region kind (trees inside.entry) }
{
    match scan.region {
        Region::Arm | Region::Pattern | Region::FieldPatterns | Region::FieldPattern => {
            pattern_group(kind)
        }
        Region::Opaque => Region::Opaque,
        Region::Rules => Region::Rules,
        _ => code_group(scan, kind, inside),
    }
}

fn part_group<A: Allocator>(
    scan: ScanState,
    kind: DelimiterKind,
    inside: TokenTreesView<'_, A>,
) -> Region
    ensures { result ≡ spec.part_group scan scan.part kind (trees inside.entry) }
{
    match scan.part {
        StatementPart::LetPattern | StatementPart::ForPattern | StatementPart::Parameters =>
            pattern_group(kind),
        StatementPart::LetType | StatementPart::ParameterType => Region::Code,
        StatementPart::Whole => whole_group(scan, kind, inside),
    }
}

pub(crate) fn region_inside<A: Allocator>(
    scan: ScanState,
    kind: DelimiterKind,
    inside: TokenTreesView<'_, A>,
) -> Region
    ensures { result ≡ spec.region_inside scan scan.region kind (trees inside.entry) }
{
    match scan.region {
        Region::Opaque => Region::Opaque,
        Region::Rules => Region::Rules,
        _ => group_after(scan, kind, inside),
    }
}

fn group_after<A: Allocator>(
    scan: ScanState,
    kind: DelimiterKind,
    inside: TokenTreesView<'_, A>,
) -> Region
    ensures { result ≡ spec.group_after scan scan.before kind (trees inside.entry) }
{
    match scan.before {
        PreviousToken::Hash | PreviousToken::TextBang => Region::Opaque,
        PreviousToken::Named => Region::Rules,
        PreviousToken::Bang => Region::Arguments,
        _ => part_group(scan, kind, inside),
    }
}

// Returns whether braces may be the whole body of an arm, after its `=>`.
fn may_end_arm(scan: ScanState, kind: DelimiterKind) -> bool
    ensures { result ≡ spec.may_end_arm scan.region scan.before kind }
{
    match scan.region {
        Region::Body => matches!(scan.before, PreviousToken::Arrow) && is_brace(kind),
        _ => false,
    }
}

pub(crate) fn region_after_group<A: Allocator>(
    scan: ScanState,
    kind: DelimiterKind,
    rest: TokenTreesView<'_, A>,
) -> Region
    ensures { result ≡ spec.region_after_group scan kind (trees rest.entry) }
{
    if may_end_arm(scan, kind) && begins_arm(rest) {
        Region::Arm
    } else {
        scan.region
    }
}

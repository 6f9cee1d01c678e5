// A dump of trees as lines of text, one for each group and leaf.
//
// The form is near to that of rust-analyzer's tests.
ghost use Rattle.std.specs.Prelude.{◌≡◌, ◌++◌, ◌<◌, ◌^◌, codes, option_map};
ghost use Rattle.mbe_tt.specs.Trees.Literals.{raw_prefix};
ghost use Rattle.mbe_tt.specs.Views.Element.{element_tree};
ghost use Rattle.mbe_tt.specs.Views.LeafViews.{leaf_of, ident_of, literal_of};
ghost use Rattle.mbe_text.specs.TreeDump as spec;
ghost use Rattle.mbe_text.specs.WriterBytes.{Writes};
ghost use Rattle.mbe_text.specs.TreeDump.{first_line, depth_after};

use crate::output::write_line;
use arrayvec::ArrayString;
use itoa::Buffer;
use mbe_tt::span::Span;
use mbe_tt::tt::{
    Delimiter, DelimiterKind, Ident, IdentIsRaw, Leaf, LitKind, Literal, Punct, Spacing,
    TopSubtree, TtElement,
};
use std::alloc::Allocator;
use std::io::Write;
use std::{fmt, io};

/// A span that `Display` writes as its file, `@`, its start, `..` and its end, all in decimal. The
/// start and the end are byte offsets. The form is the project's own.
#[derive(Clone, Copy)]
pub struct DisplaySpan(pub Span);

impl fmt::Display for DisplaySpan {
    ghost use Rattle.std.specs.Prelude.{Some};
    ghost use Rattle.mbe_text.specs.TreeDump.{span_text};

    ghost output = { λ s. Some (span_text s.0) };

    fn fmt<W: fmt::Write>(&self, f: &mut fmt::Formatter<W>) -> fmt::Result {
        let Span {
            file,
            start,
            end,
            ..
        } = self.0;
        write!(f, "{file}@{start}..{end}")
    }
}

// The text has three numbers of at most ten digits each, and three other chars.
fn span_text(span: Span) -> ArrayString<33>
    ensures { result.bytes ≡ spec.span_text span }
{
    let mut text = ArrayString::new();
    let mut digits = Buffer::new();
    text.push_str(digits.format(span.file));
    text.push_str("@");
    text.push_str(digits.format(span.start));
    text.push_str("..");
    text.push_str(digits.format(span.end));
    text
}

fn delimiter_text(kind: DelimiterKind) -> &'static str
    ensures { result.now ≡ spec.sign kind }
{
    match kind {
        DelimiterKind::Parenthesis => "()",
        DelimiterKind::Brace => "{}",
        DelimiterKind::Bracket => "[]",
        DelimiterKind::Invisible => "$$",
    }
}

fn spacing_text(spacing: Spacing) -> &'static str
    ensures { result.now ≡ spec.spacing_word spacing }
{
    match spacing {
        Spacing::Alone => "alone",
        Spacing::Joint => "joint",
    }
}

fn raw_prefix_text(is_raw: IdentIsRaw) -> &'static str
    ensures { result.now ≡ raw_prefix is_raw }
{
    match is_raw {
        IdentIsRaw::No => "",
        IdentIsRaw::Yes => "r#",
    }
}

// The sample dialect has the first four kinds alone.
fn kind_text(kind: LitKind) -> &'static str
    ensures { result.now ≡ spec.kind_name kind }
{
    match kind {
        LitKind::Integer => "Integer",
        LitKind::Float => "Float",
        LitKind::Str => "Str",
        LitKind::Char => "Char",
        LitKind::Byte => "Byte",
        LitKind::StrRaw(_) => "StrRaw",
        LitKind::ByteStr => "ByteStr",
        LitKind::ByteStrRaw(_) => "ByteStrRaw",
        LitKind::CStr => "CStr",
        LitKind::CStrRaw(_) => "CStrRaw",
        LitKind::Err => "Err",
    }
}

fn print_group<W: Write>(delimiter: Delimiter, depth: usize, out: &mut W) -> io::Result<()>
    ensures { Writes (W.contents out.old) (W.contents out.new) result
        (spec.line depth (spec.group_line delimiter)) }
{
    let opening = span_text(delimiter.opening);
    let close = span_text(delimiter.close);
    let sign = delimiter_text(delimiter.kind);
    let texts = ["SUBTREE ", sign, " ", opening.as_str(), " ", close.as_str()];
    write_line(depth, &texts, out)
}

fn print_name<'t, W: Write>(
    prefix: &'t str,
    name: &'t str,
    printed_span: &'t str,
    depth: usize,
    out: &mut W,
) -> io::Result<()>
    ensures { Writes (W.contents out.old) (W.contents out.new) result (spec.line depth
        (codes "IDENT   " ++ ((prefix.now ++ name.now) ++ (codes " " ++ printed_span.now)))) }
{
    write_line(depth, &["IDENT   ", prefix, name, " ", printed_span], out)
}

fn print_ident<A: Allocator, W: Write>(
    ident: &Ident<A>,
    depth: usize,
    out: &mut W,
) -> io::Result<()>
    ensures { Writes (W.contents out.old) (W.contents out.new) result
        (spec.line depth (spec.ident_line (ident_of ident.now))) }
{
    let printed_span = span_text(ident.span);
    print_name(
        raw_prefix_text(ident.is_raw),
        ident.sym.as_str(),
        printed_span.as_str(),
        depth,
        out,
    )
}

fn print_punct<W: Write>(punct: Punct, depth: usize, out: &mut W) -> io::Result<()>
    ensures { Writes (W.contents out.old) (W.contents out.new) result
        (spec.line depth (spec.punct_line punct)) }
{
    let printed_span = span_text(punct.span);
    let mut room = [0; 4];
    let char = punct.char.encode_utf8(&mut room);
    let spacing = spacing_text(punct.spacing);
    let texts = ["PUNCH   ", char, " [", spacing, "] ", printed_span.as_str()];
    write_line(depth, &texts, out)
}

fn print_text<'t, W: Write>(
    kind: &'t str,
    text: &'t str,
    printed_span: &'t str,
    depth: usize,
    out: &mut W,
) -> io::Result<()>
    ensures { Writes (W.contents out.old) (W.contents out.new) result (spec.line depth
        (codes "LITERAL " ++ (kind.now ++ (codes " " ++ (text.now ++ (codes " " ++ printed_span.now)))))) }
{
    write_line(
        depth,
        &["LITERAL ", kind, " ", text, " ", printed_span],
        out,
    )
}

fn print_literal<A: Allocator, W: Write>(
    literal: &Literal<A>,
    depth: usize,
    out: &mut W,
) -> io::Result<()>
    ensures { Writes (W.contents out.old) (W.contents out.new) result
        (spec.line depth (spec.literal_line (literal_of literal.now))) }
{
    let printed_span = span_text(literal.span);
    let text = literal.text_and_suffix.as_str();
    print_text(
        kind_text(literal.kind),
        text,
        printed_span.as_str(),
        depth,
        out,
    )
}

fn print_leaf<A: Allocator, W: Write>(leaf: &Leaf<A>, depth: usize, out: &mut W) -> io::Result<()>
    ensures { Writes (W.contents out.old) (W.contents out.new) result
        (spec.line depth (spec.leaf_line (leaf_of leaf.now))) }
{
    match leaf {
        Leaf::Ident(ident) => print_ident(ident, depth, out),
        Leaf::Punct(punct) => print_punct(*punct, depth, out),
        Leaf::Literal(literal) => print_literal(literal, depth, out),
    }
}

// Writes the line of the next flat token. Without a tree, that is a closing, which has no line.
fn print_flat_token<A: Allocator, W: Write>(
    tree: &Option<TtElement<'_, A>>,
    depth: usize,
    out: &mut W,
) -> io::Result<()>
    ensures { Writes (W.contents out.old) (W.contents out.new) result
        (first_line depth (option_map element_tree tree.now)) }
{
    match tree {
        Some(TtElement::Leaf(leaf)) => print_leaf(leaf, depth, out),
        Some(TtElement::Subtree(subtree, _inside)) => print_group(subtree.delimiter, depth, out),
        None => Ok(()),
    }
}

// Returns the number of groups around the offset after that flat token.
fn next_depth<A: Allocator>(tree: &Option<TtElement<'_, A>>, depth: usize) -> usize
    requires { depth_after (option_map element_tree tree.now) depth < 2 ^ 64 }
    ensures { result ≡ depth_after (option_map element_tree tree.now) depth }
{
    match tree {
        Some(TtElement::Leaf(_)) => depth,
        Some(TtElement::Subtree(_, _)) => depth + 1,
        None => depth.saturating_sub(1),
    }
}

/// Writes a line for each group and leaf. A line has two spaces for each group around it.
///
/// - A group: `SUBTREE`, the delimiters (`$$` if they are invisible), and the spans of both.
/// - An identifier: `IDENT`, the name, and the span.
/// - A punct: `PUNCH`, the char, its spacing, and the span.
/// - A literal: `LITERAL`, the kind, the text with its suffix and without quotes, and the span.
///
/// Returns the writer's first error. Then what was written is a prefix of the lines. A line of at
/// most 128 bytes, with its indentation and line feed, is one call of the writer.
pub fn print_tree<A: Allocator, W: Write>(tree: &TopSubtree<A>, out: &mut W) -> io::Result<()>
    ensures { Writes (W.contents out.old) (W.contents out.new) result (spec.tree_text tree.now) }
{
    let view = tree.view();
    let mut cursor = view.cursor();
    let mut depth = 0;
    'tokens: for _offset in 0..view.flat_len() {
        let tree = cursor.token_tree();
        print_flat_token(&tree, depth, out)?;
        depth = next_depth(&tree, depth);
        cursor.bump_or_end();
    }
    Ok(())
}

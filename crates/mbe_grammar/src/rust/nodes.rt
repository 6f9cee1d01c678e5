// The rules of Rust, as a table. `tools/rust-rules` writes it from `rust.peg`.
use crate::rust::positions::*;
use crate::tables::node::{Node, Terminal};
use mbe_tt::fragment_group::FragmentGroup;
use mbe_tt::span::Edition;
use mbe_tt::tt::DelimiterKind;

pub const NODES: &[Node<'static>] = &[
    Node::Terminal(Terminal::Group(&[DelimiterKind::Brace])), // brace
    Node::Terminal(Terminal::End), // end
    Node::Terminal(Terminal::Fragment(&[FragmentGroup::Block])), // fragment_block
    Node::Terminal(Terminal::Fragment(&[FragmentGroup::Expr])), // fragment_expr
    Node::Terminal(Terminal::Fragment(&[FragmentGroup::Item])), // fragment_item
    Node::Terminal(Terminal::Fragment(&[FragmentGroup::Meta])), // fragment_meta
    Node::Terminal(Terminal::Fragment(&[FragmentGroup::Pat])), // fragment_pat
    Node::Terminal(Terminal::Fragment(&[FragmentGroup::Path])), // fragment_path
    Node::Terminal(Terminal::Fragment(&[FragmentGroup::Stmt])), // fragment_stmt
    Node::Terminal(Terminal::Fragment(&[FragmentGroup::Ty])), // fragment_ty
    Node::Terminal(Terminal::Fragment(&[FragmentGroup::Vis])), // fragment_vis
    Node::Terminal(Terminal::Identifier), // ident
    Node::Terminal(Terminal::Group(&[DelimiterKind::Invisible])), // invisible
    Node::Terminal(Terminal::Literal), // literal
    Node::Terminal(Terminal::Name), // name
    Node::Terminal(Terminal::Operator("@")), // operator_at
    Node::Terminal(Terminal::Operator("!")), // operator_bang
    Node::Terminal(Terminal::Operator("|")), // operator_bar
    Node::Terminal(Terminal::Operator(":")), // operator_colon
    Node::Terminal(Terminal::Operator("::")), // operator_colon_colon
    Node::Terminal(Terminal::Operator(",")), // operator_comma
    Node::Terminal(Terminal::Operator(".")), // operator_dot
    Node::Terminal(Terminal::Operator("..")), // operator_dot_dot
    Node::Terminal(Terminal::Operator("..=")), // operator_dot_dot_equal
    Node::Terminal(Terminal::Operator("=")), // operator_equal
    Node::Terminal(Terminal::Operator("#")), // operator_hash
    Node::Terminal(Terminal::Operator("-")), // operator_minus
    Node::Terminal(Terminal::Operator("->")), // operator_minus_more
    Node::Terminal(Terminal::Operator("?")), // operator_question
    Node::Terminal(Terminal::Operator(";")), // operator_semicolon
    Node::Terminal(Terminal::Operator("*")), // operator_star
    Node::Terminal(Terminal::Operator("~")), // operator_tilde
    Node::Terminal(Terminal::Group(&[DelimiterKind::Parenthesis])), // paren
    Node::Terminal(Terminal::Pointed), // pointed
    Node::Terminal(Terminal::Sign('&')), // sign_and
    Node::Terminal(Terminal::Sign('|')), // sign_bar
    Node::Terminal(Terminal::Sign(',')), // sign_comma
    Node::Terminal(Terminal::Sign('=')), // sign_equal
    Node::Terminal(Terminal::Sign('<')), // sign_less
    Node::Terminal(Terminal::Sign('>')), // sign_more
    Node::Terminal(Terminal::Sign('+')), // sign_plus
    Node::Terminal(Terminal::Sign('\'')), // sign_quote
    Node::Terminal(Terminal::Since(Edition::Edition2018)), // since_2018
    Node::Terminal(Terminal::Since(Edition::Edition2024)), // since_2024
    Node::Terminal(Terminal::Word("as")), // word_as
    Node::Terminal(Terminal::Word("async")), // word_async
    Node::Terminal(Terminal::Word("auto")), // word_auto
    Node::Terminal(Terminal::Word("await")), // word_await
    Node::Terminal(Terminal::Word("become")), // word_become
    Node::Terminal(Terminal::Word("box")), // word_box
    Node::Terminal(Terminal::Word("break")), // word_break
    Node::Terminal(Terminal::Word("const")), // word_const
    Node::Terminal(Terminal::Word("continue")), // word_continue
    Node::Terminal(Terminal::Word("crate")), // word_crate
    Node::Terminal(Terminal::Word("default")), // word_default
    Node::Terminal(Terminal::Word("do")), // word_do
    Node::Terminal(Terminal::Word("dyn")), // word_dyn
    Node::Terminal(Terminal::Word("else")), // word_else
    Node::Terminal(Terminal::Word("enum")), // word_enum
    Node::Terminal(Terminal::Word("extern")), // word_extern
    Node::Terminal(Terminal::Word("fn")), // word_fn
    Node::Terminal(Terminal::Word("for")), // word_for
    Node::Terminal(Terminal::Word("gen")), // word_gen
    Node::Terminal(Terminal::Word("if")), // word_if
    Node::Terminal(Terminal::Word("impl")), // word_impl
    Node::Terminal(Terminal::Word("in")), // word_in
    Node::Terminal(Terminal::Word("let")), // word_let
    Node::Terminal(Terminal::Word("loop")), // word_loop
    Node::Terminal(Terminal::Word("macro")), // word_macro
    Node::Terminal(Terminal::Word("macro_rules")), // word_macro_rules
    Node::Terminal(Terminal::Word("match")), // word_match
    Node::Terminal(Terminal::Word("mod")), // word_mod
    Node::Terminal(Terminal::Word("mut")), // word_mut
    Node::Terminal(Terminal::Word("pin")), // word_pin
    Node::Terminal(Terminal::Word("pub")), // word_pub
    Node::Terminal(Terminal::Word("ref")), // word_ref
    Node::Terminal(Terminal::Word("self")), // word_self_value
    Node::Terminal(Terminal::Word("static")), // word_static
    Node::Terminal(Terminal::Word("struct")), // word_struct
    Node::Terminal(Terminal::Word("super")), // word_super
    Node::Terminal(Terminal::Word("trait")), // word_trait
    Node::Terminal(Terminal::Word("try")), // word_try
    Node::Terminal(Terminal::Word("type")), // word_type
    Node::Terminal(Terminal::Word("_")), // word_underscore
    Node::Terminal(Terminal::Word("union")), // word_union
    Node::Terminal(Terminal::Word("unsafe")), // word_unsafe
    Node::Terminal(Terminal::Word("use")), // word_use
    Node::Terminal(Terminal::Word("where")), // word_where
    Node::Terminal(Terminal::Word("while")), // word_while
    Node::Terminal(Terminal::Word("yeet")), // word_yeet
    Node::Ahead(FRAGMENT_TY), // ahead_fragment_ty
    Node::Ahead(SIGN_MORE), // ahead_sign_more
    Node::Ahead(START), // ahead_start
    Node::Ahead(START_HEAD), // ahead_start_head
    Node::Repeated(ATTRIBUTE), // many_attribute
    Node::Repeated(POSTFIX), // many_postfix
    Node::Maybe(ABI), // maybe_abi
    Node::Maybe(BOUND), // maybe_bound
    Node::Maybe(BOUNDS), // maybe_bounds
    Node::Maybe(CAPTURE), // maybe_capture
    Node::Maybe(FOR_LIFETIMES), // maybe_for_lifetimes
    Node::Maybe(GENERIC_PARAMS), // maybe_generic_params
    Node::Maybe(LIFETIME), // maybe_lifetime
    Node::Maybe(MACRO_END), // maybe_macro_end
    Node::Maybe(OPERATOR_COLON_COLON), // maybe_operator_colon_colon
    Node::Maybe(OPERATOR_MINUS), // maybe_operator_minus
    Node::Maybe(RANGE_END), // maybe_range_end
    Node::Maybe(RETURN_TYPE), // maybe_return_type
    Node::Maybe(VALUE), // maybe_value
    Node::Maybe(WHERE_CLAUSE), // maybe_where_clause
    Node::Maybe(WORD_CONST), // maybe_word_const
    Node::Maybe(WORD_MUT), // maybe_word_mut
    Node::Maybe(WORD_UNSAFE), // maybe_word_unsafe
    Node::Needed(ARMS), // needed_arms
    Node::Needed(BLOCK), // needed_block
    Node::Needed(EXPR), // needed_expr
    Node::Needed(EXPR_SEGMENT), // needed_expr_segment
    Node::Needed(HEAD), // needed_head
    Node::Needed(HEAD_TERM), // needed_head_term
    Node::Needed(PATTERN), // needed_pattern
    Node::Needed(PATTERN_TOP), // needed_pattern_top
    Node::Needed(RANGE_END), // needed_range_end
    Node::Needed(TERM), // needed_term
    Node::Needed(TYPE), // needed_type
    Node::Needed(TYPE_ONE), // needed_type_one
    Node::Needed(TYPE_SEGMENT), // needed_type_segment
    Node::NotAhead(OPERATOR_MINUS_MORE), // no_operator_minus_more
    Node::NotAhead(SIGN_PLUS), // no_sign_plus
    Node::Terminal(Terminal::Group(&[DelimiterKind::Parenthesis])), // tuple_types
    Node::Terminal(Terminal::Group(&[DelimiterKind::Parenthesis])), // pointer_parameters
    Node::Terminal(Terminal::Group(&[DelimiterKind::Bracket])), // array_type
    Node::Terminal(Terminal::Group(&[DelimiterKind::Bracket])), // attribute_group
    Node::Terminal(Terminal::Group(&[DelimiterKind::Parenthesis])), // unsafe_meta
    Node::Terminal(Terminal::Group(&[DelimiterKind::Parenthesis])), // tuple_pattern
    Node::Terminal(Terminal::Group(&[DelimiterKind::Bracket])), // slice_pattern
    Node::Terminal(Terminal::Group(&[DelimiterKind::Brace])), // struct_pattern
    Node::Terminal(Terminal::Group(&[DelimiterKind::Parenthesis])), // arguments
    Node::Terminal(Terminal::Group(&[DelimiterKind::Bracket])), // array
    Node::Terminal(Terminal::Group(&[DelimiterKind::Bracket])), // index
    Node::Terminal(Terminal::Group(&[DelimiterKind::Brace])), // struct_literal
    Node::Terminal(Terminal::Group(&[DelimiterKind::Brace])), // arms
    Node::Terminal(Terminal::Group(&[DelimiterKind::Brace])), // braces
    Node::Terminal(Terminal::Group(&[
        DelimiterKind::Parenthesis,
        DelimiterKind::Brace,
        DelimiterKind::Bracket,
    ])), // macro_argument
    Node::Terminal(Terminal::Group(&[DelimiterKind::Brace])), // macro_braces
    Node::Terminal(Terminal::Group(&[DelimiterKind::Parenthesis, DelimiterKind::Bracket])), // macro_other
    Node::Terminal(Terminal::Group(&[DelimiterKind::Brace])), // items_group
    Node::Terminal(Terminal::Group(&[DelimiterKind::Brace])), // foreign_items
    Node::Terminal(Terminal::Group(&[DelimiterKind::Parenthesis])), // tuple_fields
    Node::Terminal(Terminal::Group(&[DelimiterKind::Brace])), // fields
    Node::Terminal(Terminal::Group(&[DelimiterKind::Brace])), // variants
    Node::Terminal(Terminal::Group(&[DelimiterKind::Parenthesis])), // parameters
    Node::Terminal(Terminal::Group(&[DelimiterKind::Brace])), // use_group
    Node::Terminal(Terminal::Fragment(&[
        FragmentGroup::Path,
        FragmentGroup::Ty,
        FragmentGroup::Pat,
        FragmentGroup::Stmt,
        FragmentGroup::Block,
        FragmentGroup::Meta,
        FragmentGroup::Item,
        FragmentGroup::Vis,
        FragmentGroup::Expr,
        FragmentGroup::LiteralExpr,
        FragmentGroup::Literal,
    ])), // fragment
    Node::Then(OPEN_GROUP + 1, INVISIBLE), // open_group
    Node::NotAhead(FRAGMENT),
    Node::Or(FRAGMENT_PATH, TYPE_PATH_GROUP + 1), // type_path_group
    Node::Then(AHEAD_FRAGMENT_TY, TYPE_PATH_GROUP + 2),
    Node::Inside(DelimiterKind::Invisible, TYPE_PATH),
    Node::Or(FRAGMENT_PATH, MOD_PATH_GROUP + 1), // mod_path_group
    Node::Then(AHEAD_FRAGMENT_TY, MOD_PATH_GROUP + 2),
    Node::Inside(DelimiterKind::Invisible, MOD_PATH),
    Node::Terminal(Terminal::Fragment(&[FragmentGroup::LiteralExpr, FragmentGroup::Literal])), // literal_group
    Node::Then(SIGN_QUOTE, IDENT), // lifetime
    Node::Or(NAME, SEGMENT_NAME + 1), // segment_name
    Node::Terminal(Terminal::Words(&["self", "super", "crate", "Self"])),
    Node::Then(OPERATOR_COLON_COLON, PATH_SEP + 1), // path_sep
    Node::NotAhead(PATH_SEP + 2),
    Node::Or(OPERATOR_STAR, BRACE),
    Node::Or(MOD_PATH + 1, MOD_PATH_GROUP), // mod_path
    Node::Then(MAYBE_OPERATOR_COLON_COLON, MOD_PATH + 2),
    Node::Then(SEGMENT_NAME, MOD_PATH + 3),
    Node::Repeated(MOD_PATH + 4),
    Node::Then(PATH_SEP, MOD_PATH + 5),
    Node::Needed(SEGMENT_NAME),
    Node::Then(LESS + 1, SIGN_LESS), // less
    Node::Ahead(LESS + 2),
    Node::Terminal(Terminal::Operators(&["<", "<<", "<-"])),
    Node::Then(LESS, ANGLE + 1), // angle
    Node::Needed(ANGLE_REST),
    Node::Then(ANGLE_REST + 1, SIGN_MORE), // angle_rest
    Node::Repeated(ANGLE_REST + 2),
    Node::Then(GENERIC_ARG, ANGLE_REST + 3),
    Node::Or(SIGN_COMMA, AHEAD_SIGN_MORE),
    Node::Or(GENERIC_ARG + 1, GENERIC_ARG + 2), // generic_arg
    Node::Then(LIFETIME, NO_SIGN_PLUS),
    Node::Or(CONST_ARG, GENERIC_ARG + 3),
    Node::Or(GENERIC_ARG + 4, GENERIC_ARG + 5),
    Node::Terminal(Terminal::Fragment(&[FragmentGroup::Expr, FragmentGroup::Block])),
    Node::Then(TYPE, GENERIC_ARG + 6),
    Node::Maybe(GENERIC_ARG + 7),
    Node::Or(GENERIC_ARG + 8, GENERIC_ARG + 10),
    Node::Then(SIGN_EQUAL, GENERIC_ARG + 9),
    Node::Or(CONST_ARG, TYPE),
    Node::Then(OPERATOR_COLON, MAYBE_BOUNDS),
    Node::Or(CONST_ARG + 1, CONST_ARG + 3), // const_arg
    Node::Then(MAYBE_OPERATOR_MINUS, CONST_ARG + 2),
    Node::Or(LITERAL, LITERAL_GROUP),
    Node::Or(CONST_ARG + 4, BRACES),
    Node::Terminal(Terminal::Words(&["true", "false"])),
    Node::Then(TUPLE_TYPES, MAYBE_RETURN_TYPE), // fn_sugar
    Node::Or(ANGLE, FN_SUGAR), // path_args
    Node::Then(OPERATOR_COLON_COLON, TURBOFISH + 1), // turbofish
    Node::Then(TURBOFISH + 2, PATH_ARGS),
    Node::Ahead(TURBOFISH + 3),
    Node::Or(LESS, PAREN),
    Node::Then(SEGMENT_NAME, TYPE_SEGMENT + 1), // type_segment
    Node::Maybe(TYPE_SEGMENT + 2),
    Node::Or(TURBOFISH, PATH_ARGS),
    Node::Or(TYPE_PATH + 1, TYPE_PATH_GROUP), // type_path
    Node::Then(TYPE_PATH + 2, TYPE_PATH + 4),
    Node::Or(TYPE_PATH + 3, OPEN_GROUP),
    Node::Then(MAYBE_OPERATOR_COLON_COLON, TYPE_SEGMENT),
    Node::Repeated(TYPE_PATH + 5),
    Node::Then(PATH_SEP, NEEDED_TYPE_SEGMENT),
    Node::Then(SEGMENT_NAME, EXPR_SEGMENT + 1), // expr_segment
    Node::Maybe(TURBOFISH),
    Node::Or(EXPR_PATH + 1, EXPR_PATH + 6), // expr_path
    Node::Then(EXPR_PATH + 2, EXPR_PATH + 4),
    Node::Or(EXPR_PATH + 3, OPEN_GROUP),
    Node::Then(MAYBE_OPERATOR_COLON_COLON, EXPR_SEGMENT),
    Node::Repeated(EXPR_PATH + 5),
    Node::Then(PATH_SEP, NEEDED_EXPR_SEGMENT),
    Node::Then(QSELF, EXPR_PATH + 7),
    Node::Then(EXPR_PATH + 8, EXPR_PATH + 9),
    Node::Then(OPERATOR_COLON_COLON, NEEDED_EXPR_SEGMENT),
    Node::Repeated(EXPR_PATH + 10),
    Node::Then(OPERATOR_COLON_COLON, NEEDED_EXPR_SEGMENT),
    Node::Then(LESS, QSELF + 1), // qself
    Node::Needed(QSELF + 2),
    Node::Then(TYPE, QSELF + 3),
    Node::Then(QSELF + 4, SIGN_MORE),
    Node::Maybe(QSELF + 5),
    Node::Then(WORD_AS, TYPE_PATH),
    Node::Then(OPERATOR_BANG, MACRO_END + 1), // macro_end
    Node::Needed(MACRO_ARGUMENT),
    Node::Then(TYPE_ONE, TYPE + 1), // type
    Node::Repeated(TYPE + 2),
    Node::Then(SIGN_PLUS, MAYBE_BOUND),
    Node::Then(TYPE_ONE + 1, TYPE_BASE), // type_one
    Node::Repeated(TYPE_PREFIX),
    Node::Or(TYPE_PREFIX + 1, TYPE_PREFIX + 5), // type_prefix
    Node::Then(SIGN_AND, TYPE_PREFIX + 2),
    Node::Then(MAYBE_LIFETIME, TYPE_PREFIX + 3),
    Node::Maybe(TYPE_PREFIX + 4),
    Node::Or(PINNED, WORD_MUT),
    Node::Then(OPERATOR_STAR, TYPE_PREFIX + 6),
    Node::Terminal(Terminal::Words(&["const", "mut"])),
    Node::Then(WORD_PIN, PINNED + 1), // pinned
    Node::Terminal(Terminal::Words(&["const", "mut"])),
    Node::Or(TYPE_BASE + 1, TYPE_BASE + 2), // type_base
    Node::Then(DYN_2015, BOUNDS),
    Node::Or(TYPE_BASE + 3, TYPE_BASE + 4),
    Node::Then(TYPE_PATH, MAYBE_MACRO_END),
    Node::Or(FRAGMENT_TY, TYPE_BASE + 5),
    Node::Or(TUPLE_TYPES, TYPE_BASE + 6),
    Node::Or(ARRAY_TYPE, TYPE_BASE + 7),
    Node::Or(TYPE_WORD, TYPE_BASE + 8),
    Node::Or(OPERATOR_BANG, TYPE_BASE + 9),
    Node::Or(TYPE_BASE + 10, BARE_BOUNDS),
    Node::Then(QSELF, TYPE_BASE + 11),
    Node::Then(TYPE_BASE + 12, TYPE_BASE + 13),
    Node::Then(OPERATOR_COLON_COLON, NEEDED_TYPE_SEGMENT),
    Node::Repeated(TYPE_BASE + 14),
    Node::Then(OPERATOR_COLON_COLON, NEEDED_TYPE_SEGMENT),
    Node::Or(WORD_UNDERSCORE, TYPE_WORD + 1), // type_word
    Node::Or(TYPE_WORD + 2, TYPE_WORD + 4),
    Node::Then(TYPE_WORD + 3, MAYBE_BOUNDS),
    Node::Terminal(Terminal::Words(&["impl", "dyn"])),
    Node::Or(TYPE_WORD + 5, TYPE_WORD + 7),
    Node::Then(FOR_LIFETIMES, TYPE_WORD + 6),
    Node::Or(FN_POINTER, TYPE_PATH),
    Node::Or(FN_POINTER, UNSAFE_BINDER),
    Node::Then(WORD_DYN, DYN_2015 + 1), // dyn_2015
    Node::Ahead(DYN_2015 + 2),
    Node::Or(SEGMENT_NAME, DYN_2015 + 3),
    Node::Or(WORD_FOR, DYN_2015 + 4),
    Node::Or(SIGN_QUOTE, DYN_2015 + 5),
    Node::Or(OPERATOR_QUESTION, PAREN),
    Node::Then(MAYBE_WORD_UNSAFE, FN_POINTER + 1), // fn_pointer
    Node::Then(FN_POINTER + 2, FN_POINTER + 4),
    Node::Maybe(FN_POINTER + 3),
    Node::Then(WORD_EXTERN, MAYBE_ABI),
    Node::Then(WORD_FN, FN_POINTER + 5),
    Node::Then(POINTER_PARAMETERS, MAYBE_RETURN_TYPE),
    Node::Or(LITERAL, ABI + 1), // abi
    Node::Or(OPEN_GROUP, LITERAL_GROUP),
    Node::Then(OPERATOR_MINUS_MORE, TYPE_ONE), // return_type
    Node::Then(WORD_UNSAFE, UNSAFE_BINDER + 1), // unsafe_binder
    Node::Then(GENERIC_PARAMS, TYPE),
    Node::Then(BARE_BOUNDS + 1, BOUNDS), // bare_bounds
    Node::Ahead(BARE_BOUNDS + 2),
    Node::Or(BARE_BOUNDS + 3, BARE_BOUNDS + 4),
    Node::Then(LIFETIME, SIGN_PLUS),
    Node::Terminal(Terminal::Operators(&["?", "~"])),
    Node::Then(BOUND, BOUNDS + 1), // bounds
    Node::Repeated(BOUNDS + 2),
    Node::Then(SIGN_PLUS, MAYBE_BOUND),
    Node::Or(LIFETIME, BOUND + 1), // bound
    Node::Or(PAREN_BOUND, BOUND + 2),
    Node::Or(BOUND + 3, BOUND + 4),
    Node::Then(WORD_USE, ANGLE),
    Node::Then(MAYBE_FOR_LIFETIMES, BOUND + 5),
    Node::Then(BOUND + 6, BOUND + 7),
    Node::Repeated(BOUND_MARK),
    Node::Then(MAYBE_FOR_LIFETIMES, TYPE_PATH),
    Node::Terminal(Terminal::Group(&[DelimiterKind::Parenthesis])), // paren_bound
    Node::Or(BOUND_MARK + 1, BOUND_MARK + 2), // bound_mark
    Node::Terminal(Terminal::Operators(&["?", "!"])),
    Node::Or(BOUND_MARK + 3, BOUND_MARK + 4),
    Node::Then(OPERATOR_TILDE, WORD_CONST),
    Node::Or(WORD_CONST, BOUND_MARK + 5),
    Node::Or(BOUND_MARK + 6, BOUND_MARK + 7),
    Node::Inside(DelimiterKind::Bracket, WORD_CONST),
    Node::Then(SINCE_2018, WORD_ASYNC),
    Node::Then(WORD_FOR, GENERIC_PARAMS), // for_lifetimes
    Node::Then(LESS, GENERIC_PARAMS + 1), // generic_params
    Node::Then(GENERIC_PARAMS + 2, SIGN_MORE),
    Node::Repeated(GENERIC_PARAMS + 3),
    Node::Then(GENERIC_PARAM, GENERIC_PARAMS + 4),
    Node::Or(SIGN_COMMA, AHEAD_SIGN_MORE),
    Node::Then(MANY_ATTRIBUTE, GENERIC_PARAM + 1), // generic_param
    Node::Or(GENERIC_PARAM + 2, GENERIC_PARAM + 5),
    Node::Then(LIFETIME, GENERIC_PARAM + 3),
    Node::Maybe(GENERIC_PARAM + 4),
    Node::Then(OPERATOR_COLON, MAYBE_BOUNDS),
    Node::Or(CONST_PARAM, GENERIC_PARAM + 6),
    Node::Then(NAME, GENERIC_PARAM + 7),
    Node::Then(GENERIC_PARAM + 8, GENERIC_PARAM + 10),
    Node::Maybe(GENERIC_PARAM + 9),
    Node::Then(OPERATOR_COLON, MAYBE_BOUNDS),
    Node::Maybe(GENERIC_PARAM + 11),
    Node::Then(SIGN_EQUAL, TYPE),
    Node::Then(WORD_CONST, CONST_PARAM + 1), // const_param
    Node::Then(NAME, CONST_PARAM + 2),
    Node::Then(OPERATOR_COLON, CONST_PARAM + 3),
    Node::Then(TYPE, CONST_PARAM + 4),
    Node::Maybe(CONST_PARAM + 5),
    Node::Then(SIGN_EQUAL, CONST_PARAM + 6),
    Node::Or(CONST_ARG, TYPE),
    Node::Then(WORD_WHERE, WHERE_CLAUSE + 1), // where_clause
    Node::Then(WHERE_CLAUSE + 2, WHERE_CLAUSE + 4),
    Node::Repeated(WHERE_CLAUSE + 3),
    Node::Then(WHERE_BOUND, SIGN_COMMA),
    Node::Maybe(WHERE_BOUND),
    Node::Then(MANY_ATTRIBUTE, WHERE_BOUND + 1), // where_bound
    Node::Or(WHERE_BOUND + 2, WHERE_BOUND + 6),
    Node::Then(LIFETIME, WHERE_BOUND + 3),
    Node::Then(NO_SIGN_PLUS, WHERE_BOUND + 4),
    Node::Then(WHERE_BOUND + 5, MAYBE_BOUNDS),
    Node::Needed(OPERATOR_COLON),
    Node::Then(MAYBE_FOR_LIFETIMES, WHERE_BOUND + 7),
    Node::Then(TYPE, WHERE_BOUND + 8),
    Node::Or(WHERE_BOUND + 9, WHERE_BOUND + 10),
    Node::Then(OPERATOR_COLON, MAYBE_BOUNDS),
    Node::Then(WHERE_BOUND + 11, NEEDED_TYPE),
    Node::Terminal(Terminal::Operators(&["=", "=="])),
    Node::Then(OPERATOR_HASH, ATTRIBUTE_GROUP), // attribute
    Node::Then(PAT_TOP_FRAGMENT + 1, PATTERN_TOP), // pat_top_fragment
    Node::NotAhead(PAT_TOP_FRAGMENT + 2),
    Node::Terminal(Terminal::Operators(&["..=", "!"])),
    Node::Then(PAT_FRAGMENT + 1, PATTERN), // pat_fragment
    Node::NotAhead(PAT_FRAGMENT + 2),
    Node::Terminal(Terminal::Operators(&["..=", "!"])),
    Node::Then(PATTERN_TOP + 1, PATTERN_TOP + 2), // pattern_top
    Node::Maybe(OPERATOR_BAR),
    Node::Then(PATTERN, PATTERN_TOP + 3),
    Node::Repeated(PATTERN_TOP + 4),
    Node::Then(OPERATOR_BAR, NEEDED_PATTERN),
    Node::Then(PATTERN + 1, PATTERN_BASE), // pattern
    Node::Repeated(PATTERN_PREFIX),
    Node::Or(PATTERN_PREFIX + 1, WORD_BOX), // pattern_prefix
    Node::Then(SIGN_AND, PATTERN_PREFIX + 2),
    Node::Maybe(PATTERN_PREFIX + 3),
    Node::Or(PINNED, WORD_MUT),
    Node::Or(PATTERN_BASE + 1, PATTERN_BASE + 2), // pattern_base
    Node::Then(NAME, AT_PATTERN),
    Node::Or(PATH_PATTERN, PATTERN_BASE + 3),
    Node::Or(FRAGMENT_PAT, PATTERN_BASE + 4),
    Node::Or(WORD_UNDERSCORE, PATTERN_BASE + 5),
    Node::Or(TUPLE_PATTERN, PATTERN_BASE + 6),
    Node::Or(SLICE_PATTERN, OTHER_PATTERN),
    Node::Then(PATH_PATTERN + 1, PATH_PATTERN + 2), // path_pattern
    Node::Or(EXPR_PATH, FRAGMENT_PATH),
    Node::Maybe(PATH_PATTERN + 3),
    Node::Or(MACRO_END, PATH_PATTERN + 4),
    Node::Or(TUPLE_PATTERN, PATH_PATTERN + 5),
    Node::Or(STRUCT_PATTERN, RANGE_TAIL),
    Node::Or(OTHER_PATTERN + 1, OTHER_PATTERN + 3), // other_pattern
    Node::Then(PATTERN_LITERAL, OTHER_PATTERN + 2),
    Node::Maybe(RANGE_TAIL),
    Node::Or(OTHER_PATTERN + 4, OTHER_PATTERN + 7),
    Node::Then(BINDING_MODE, OTHER_PATTERN + 5),
    Node::Then(NAME, OTHER_PATTERN + 6),
    Node::Maybe(AT_PATTERN),
    Node::Or(RANGE_TO, OPERATOR_BANG),
    Node::Then(OPERATOR_AT, NEEDED_PATTERN), // at_pattern
    Node::Or(BINDING_MODE + 1, BINDING_MODE + 4), // binding_mode
    Node::Then(WORD_REF, BINDING_MODE + 2),
    Node::Maybe(BINDING_MODE + 3),
    Node::Or(PINNED, WORD_MUT),
    Node::Then(WORD_MUT, BINDING_MODE + 5),
    Node::Maybe(BINDING_MODE + 6),
    Node::Then(WORD_REF, MAYBE_WORD_MUT),
    Node::Or(PATTERN_LITERAL + 1, PATTERN_LITERAL + 3), // pattern_literal
    Node::Then(MAYBE_OPERATOR_MINUS, PATTERN_LITERAL + 2),
    Node::Or(LITERAL, LITERAL_GROUP),
    Node::Or(PATTERN_LITERAL + 4, FRAGMENT_EXPR),
    Node::Terminal(Terminal::Words(&["true", "false"])),
    Node::Or(RANGE_TAIL + 1, RANGE_TAIL + 2), // range_tail
    Node::Then(OPERATOR_DOT_DOT, MAYBE_RANGE_END),
    Node::Then(RANGE_TAIL + 3, NEEDED_RANGE_END),
    Node::Terminal(Terminal::Operators(&["..=", "..."])),
    Node::Or(RANGE_TO + 1, RANGE_TO + 2), // range_to
    Node::Then(OPERATOR_DOT_DOT, MAYBE_RANGE_END),
    Node::Then(OPERATOR_DOT_DOT_EQUAL, NEEDED_RANGE_END),
    Node::Or(PATTERN_LITERAL, RANGE_END + 1), // range_end
    Node::Or(EXPR_PATH, FRAGMENT_PATH),
    Node::Then(EXPR_FRAGMENT + 1, EXPR), // expr_fragment
    Node::NotAhead(EXPR_FRAGMENT + 2),
    Node::Terminal(Terminal::Words(&["use", "become"])),
    Node::Then(MANY_ATTRIBUTE, EXPR + 1), // expr
    Node::Or(RANGE, EXPR + 2),
    Node::Then(TERM, EXPR + 3),
    Node::Then(EXPR + 4, EXPR + 6),
    Node::Repeated(EXPR + 5),
    Node::Then(ASSIGNMENT, NEEDED_EXPR),
    Node::Maybe(RANGE),
    Node::Terminal(Terminal::Operators(&[
        "=", "+=", "-=", "*=", "/=", "%=", "^=", "&=", "|=", "<<=", ">>=",
    ])), // assignment
    Node::Or(RANGE + 1, RANGE + 4), // range
    Node::Then(OPERATOR_DOT_DOT, RANGE + 2),
    Node::Maybe(RANGE + 3),
    Node::Then(AHEAD_START, NEEDED_TERM),
    Node::Then(OPERATOR_DOT_DOT_EQUAL, NEEDED_TERM),
    Node::Then(UNARY, TERM + 1), // term
    Node::Repeated(BINARY),
    Node::Or(BINARY + 1, BINARY + 2), // binary
    Node::Then(WORD_AS, NEEDED_TYPE_ONE),
    Node::Then(OPERATOR, BINARY + 3),
    Node::Needed(BINARY + 4),
    Node::Then(MANY_ATTRIBUTE, UNARY),
    Node::Or(ARITHMETIC, COMPARISON), // operator
    Node::Terminal(Terminal::Operators(&[
        "+", "-", "*", "/", "%", "^", "&", "|", "<<", ">>", "&&", "||",
    ])), // arithmetic
    Node::Terminal(Terminal::Operators(&["==", "!=", "<", ">", "<=", ">="])), // comparison
    Node::Then(UNARY + 1, UNARY + 2), // unary
    Node::Repeated(PREFIX),
    Node::Or(RANGE, UNARY + 3),
    Node::Then(ATOM, MANY_POSTFIX),
    Node::Or(PREFIX + 1, PREFIX + 2), // prefix
    Node::Terminal(Terminal::Operators(&["-", "!", "*"])),
    Node::Or(ATTRIBUTE, PREFIX + 3),
    Node::Then(SIGN_AND, PREFIX + 4),
    Node::Maybe(PREFIX + 5),
    Node::Or(PREFIX + 6, WORD_MUT),
    Node::Then(PREFIX + 7, PREFIX + 8),
    Node::Terminal(Terminal::Words(&["raw", "pin"])),
    Node::Terminal(Terminal::Words(&["const", "mut"])),
    Node::Or(OPERATOR_QUESTION, POSTFIX + 1), // postfix
    Node::Or(POSTFIX + 2, POSTFIX + 6),
    Node::Then(OPERATOR_DOT, POSTFIX + 3),
    Node::Then(POSTFIX + 4, POSTFIX + 5),
    Node::Repeated(POINTED),
    Node::Needed(MEMBER),
    Node::Or(ARGUMENTS, INDEX),
    Node::Or(MEMBER + 1, MEMBER + 6), // member
    Node::Then(SEGMENT_NAME, MEMBER + 2),
    Node::Maybe(MEMBER + 3),
    Node::Then(TURBOFISH, MEMBER + 4),
    Node::Needed(MEMBER + 5),
    Node::Ahead(PAREN),
    Node::Or(LITERAL, MEMBER + 7),
    Node::Or(MEMBER + 8, MEMBER + 9),
    Node::Then(WORD_MATCH, NEEDED_ARMS),
    Node::Terminal(Terminal::Words(&["await", "use", "yield"])),
    Node::Or(ATOM + 1, ATOM + 4), // atom
    Node::Then(EXPR_PATH, ATOM + 2),
    Node::Maybe(ATOM + 3),
    Node::Or(MACRO_END, STRUCT_LITERAL),
    Node::Or(PLAIN_ATOM, ATOM + 5),
    Node::Or(ATOM + 6, ATOM + 7),
    Node::Then(CLOSURE_HEAD, CLOSURE_BODY),
    Node::Then(WORD_BREAK, ATOM + 8),
    Node::Then(MAYBE_LIFETIME, MAYBE_VALUE),
    Node::Or(LITERAL, PLAIN_ATOM + 1), // plain_atom
    Node::Or(LITERAL_GROUP, PLAIN_ATOM + 2),
    Node::Or(PLAIN_ATOM + 3, PLAIN_ATOM + 4),
    Node::Terminal(Terminal::Fragment(&[FragmentGroup::Expr, FragmentGroup::Path])),
    Node::Or(PLAIN_ATOM + 5, PLAIN_ATOM + 6),
    Node::Terminal(Terminal::Words(&["true", "false", "_"])),
    Node::Or(ARGUMENTS, PLAIN_ATOM + 7),
    Node::Or(ARRAY, PLAIN_ATOM + 8),
    Node::Or(JUMP, PLAIN_ATOM + 9),
    Node::Or(PLAIN_ATOM + 10, OWN_BLOCK),
    Node::Then(CLOSURE_HEAD, PLAIN_ATOM + 11),
    Node::Then(OPERATOR_MINUS_MORE, PLAIN_ATOM + 12),
    Node::Then(TYPE, BRACES),
    Node::Then(NO_OPERATOR_MINUS_MORE, NEEDED_EXPR), // closure_body
    Node::Then(CLOSURE_HEAD + 1, CLOSURE_PARAMS), // closure_head
    Node::Repeated(CLOSURE_WORD),
    Node::Or(FOR_LIFETIMES, CLOSURE_WORD + 1), // closure_word
    Node::Or(CLOSURE_WORD + 2, CLOSURE_WORD + 3),
    Node::Terminal(Terminal::Words(&["const", "static"])),
    Node::Or(CLOSURE_WORD + 4, CLOSURE_WORD + 5),
    Node::Then(SINCE_2018, WORD_ASYNC),
    Node::Terminal(Terminal::Words(&["move", "use"])),
    Node::Then(SIGN_BAR, CLOSURE_PARAMS + 1), // closure_params
    Node::Then(CLOSURE_PARAMS + 2, SIGN_BAR),
    Node::Repeated(CLOSURE_PARAMS + 3),
    Node::Then(CLOSURE_PARAM, CLOSURE_PARAMS + 4),
    Node::Or(SIGN_COMMA, CLOSURE_PARAMS + 5),
    Node::Ahead(SIGN_BAR),
    Node::Then(MANY_ATTRIBUTE, CLOSURE_PARAM + 1), // closure_param
    Node::Then(PATTERN, CLOSURE_PARAM + 2),
    Node::Maybe(CLOSURE_PARAM + 3),
    Node::Then(OPERATOR_COLON, TYPE),
    Node::Or(JUMP + 1, JUMP + 3), // jump
    Node::Then(JUMP + 2, MAYBE_VALUE),
    Node::Terminal(Terminal::Words(&["return", "yield"])),
    Node::Or(JUMP + 4, JUMP + 5),
    Node::Then(WORD_BECOME, VALUE),
    Node::Or(JUMP + 6, JUMP + 8),
    Node::Then(WORD_DO, JUMP + 7),
    Node::Then(WORD_YEET, MAYBE_VALUE),
    Node::Then(WORD_CONTINUE, MAYBE_LIFETIME),
    Node::Then(AHEAD_START, NEEDED_EXPR), // value
    Node::Or(BLOCK_LIKE, OWN_BLOCK + 1), // own_block
    Node::Or(OWN_BLOCK + 2, OWN_BLOCK + 8),
    Node::Then(SINCE_2018, OWN_BLOCK + 3),
    Node::Then(WORD_ASYNC, OWN_BLOCK + 4),
    Node::Then(OWN_BLOCK + 5, OWN_BLOCK + 7),
    Node::Maybe(OWN_BLOCK + 6),
    Node::Then(SINCE_2024, WORD_GEN),
    Node::Then(MAYBE_CAPTURE, BLOCK),
    Node::Then(SINCE_2024, OWN_BLOCK + 9),
    Node::Then(WORD_GEN, OWN_BLOCK + 10),
    Node::Then(MAYBE_CAPTURE, BLOCK),
    Node::Terminal(Terminal::Words(&["move", "use"])), // capture
    Node::Or(BRACE, START_HEAD), // start
    Node::Or(NAME, START_HEAD + 1), // start_head
    Node::Or(LITERAL, START_HEAD + 2),
    Node::Or(START_HEAD + 3, START_HEAD + 4),
    Node::Terminal(Terminal::Group(&[DelimiterKind::Parenthesis, DelimiterKind::Bracket])),
    Node::Or(START_GROUP, START_HEAD + 5),
    Node::Or(START_WORD, START_HEAD + 6),
    Node::Or(START_SIGN, SIGN_QUOTE),
    Node::Or(OPEN_GROUP, START_GROUP + 1), // start_group
    Node::Terminal(Terminal::Fragment(&[
        FragmentGroup::Expr,
        FragmentGroup::LiteralExpr,
        FragmentGroup::Literal,
        FragmentGroup::Path,
        FragmentGroup::Block,
    ])),
    Node::Or(PATH_WORD, START_WORD + 1), // start_word
    Node::Or(FLOW_WORD, START_WORD + 2),
    Node::Or(BLOCK_WORD, START_WORD + 3),
    Node::Terminal(Terminal::Words(&["true", "false", "let", "move", "static", "box"])),
    Node::Terminal(Terminal::Words(&["self", "super", "crate", "Self"])), // path_word
    Node::Terminal(Terminal::Words(&[
        "break", "continue", "do", "for", "if", "loop", "match", "return", "while", "yield",
    ])), // flow_word
    Node::Terminal(Terminal::Words(&["async", "const", "gen", "safe", "try", "unsafe"])), // block_word
    Node::Terminal(Terminal::Operators(&[
        "!", "-", "*", "|", "||", "&", "&&", "..", "..=", "...", "<", "<<", "::", "#",
    ])), // start_sign
    Node::Then(MANY_ATTRIBUTE, HEAD + 1), // head
    Node::Or(HEAD_RANGE, HEAD + 2),
    Node::Then(HEAD_TERM, HEAD + 3),
    Node::Then(HEAD + 4, HEAD + 6),
    Node::Repeated(HEAD + 5),
    Node::Then(ASSIGNMENT, NEEDED_HEAD),
    Node::Maybe(HEAD_RANGE),
    Node::Or(HEAD_RANGE + 1, HEAD_RANGE + 4), // head_range
    Node::Then(OPERATOR_DOT_DOT, HEAD_RANGE + 2),
    Node::Maybe(HEAD_RANGE + 3),
    Node::Then(AHEAD_START_HEAD, NEEDED_HEAD_TERM),
    Node::Then(OPERATOR_DOT_DOT_EQUAL, NEEDED_HEAD_TERM),
    Node::Then(HEAD_UNARY, HEAD_TERM + 1), // head_term
    Node::Repeated(HEAD_BINARY),
    Node::Or(HEAD_BINARY + 1, HEAD_BINARY + 2), // head_binary
    Node::Then(WORD_AS, NEEDED_TYPE_ONE),
    Node::Then(OPERATOR, HEAD_BINARY + 3),
    Node::Needed(HEAD_BINARY + 4),
    Node::Then(MANY_ATTRIBUTE, HEAD_UNARY),
    Node::Then(HEAD_UNARY + 1, HEAD_UNARY + 6), // head_unary
    Node::Repeated(HEAD_UNARY + 2),
    Node::Or(PREFIX, HEAD_UNARY + 3),
    Node::Then(WORD_LET, HEAD_UNARY + 4),
    Node::Then(NEEDED_PATTERN_TOP, HEAD_UNARY + 5),
    Node::Needed(SIGN_EQUAL),
    Node::Or(HEAD_RANGE, HEAD_UNARY + 7),
    Node::Then(HEAD_ATOM, MANY_POSTFIX),
    Node::Or(HEAD_ATOM + 1, HEAD_ATOM + 2), // head_atom
    Node::Then(EXPR_PATH, MAYBE_MACRO_END),
    Node::Or(PLAIN_ATOM, HEAD_ATOM + 3),
    Node::Or(HEAD_ATOM + 4, HEAD_ATOM + 5),
    Node::Then(CLOSURE_HEAD, HEAD_CLOSURE_BODY),
    Node::Then(WORD_BREAK, HEAD_ATOM + 6),
    Node::Then(MAYBE_LIFETIME, HEAD_ATOM + 7),
    Node::Maybe(HEAD_VALUE),
    Node::Then(NO_OPERATOR_MINUS_MORE, NEEDED_HEAD), // head_closure_body
    Node::Then(AHEAD_START_HEAD, NEEDED_EXPR), // head_value
    Node::Or(BRACES, BLOCK_LIKE + 1), // block_like
    Node::Or(FRAGMENT_BLOCK, BLOCK_LIKE + 2),
    Node::Or(BLOCK_LIKE + 3, BLOCK_LIKE + 5),
    Node::Then(BLOCK_LIKE + 4, OWN_BRACES),
    Node::Terminal(Terminal::Words(&["unsafe", "const"])),
    Node::Or(BLOCK_LIKE + 6, BLOCK_LIKE + 8),
    Node::Then(SINCE_2018, BLOCK_LIKE + 7),
    Node::Then(WORD_TRY, BLOCK),
    Node::Or(BLOCK_LIKE + 9, BLOCK_LIKE + 10),
    Node::Then(LABEL, OWN_BRACES),
    Node::Or(BLOCK_LIKE + 11, BLOCK_LIKE + 13),
    Node::Then(BLOCK_LIKE + 12, LOOP),
    Node::Maybe(LABEL),
    Node::Or(IF, MATCH),
    Node::Then(LIFETIME, OPERATOR_COLON), // label
    Node::Or(LOOP + 1, LOOP + 2), // loop
    Node::Then(WORD_LOOP, NEEDED_BLOCK),
    Node::Or(LOOP + 3, LOOP + 5),
    Node::Then(WORD_WHILE, LOOP + 4),
    Node::Then(NEEDED_HEAD, NEEDED_BLOCK),
    Node::Then(LOOP + 6, LOOP + 7),
    Node::NotAhead(FOR_LIFETIMES),
    Node::Then(WORD_FOR, LOOP + 8),
    Node::Then(LOOP + 9, LOOP + 11),
    Node::Maybe(LOOP + 10),
    Node::Then(SINCE_2018, WORD_AWAIT),
    Node::Then(NEEDED_PATTERN_TOP, LOOP + 12),
    Node::Then(LOOP + 13, LOOP + 14),
    Node::Needed(WORD_IN),
    Node::Then(NEEDED_HEAD, NEEDED_BLOCK),
    Node::Then(WORD_IF, IF + 1), // if
    Node::Then(NEEDED_HEAD, IF + 2),
    Node::Then(NEEDED_BLOCK, IF + 3),
    Node::Then(IF + 4, IF + 8),
    Node::Repeated(IF + 5),
    Node::Then(WORD_ELSE, IF + 6),
    Node::Then(WORD_IF, IF + 7),
    Node::Then(NEEDED_HEAD, NEEDED_BLOCK),
    Node::Maybe(IF + 9),
    Node::Then(WORD_ELSE, NEEDED_BLOCK),
    Node::Then(WORD_MATCH, MATCH + 1), // match
    Node::Then(NEEDED_HEAD, NEEDED_ARMS),
    Node::Or(OPERATOR_SEMICOLON, STMT + 1), // stmt
    Node::Or(FRAGMENT_STMT, STMT + 2),
    Node::Or(STMT + 3, STMT + 10),
    Node::Then(MANY_ATTRIBUTE, STMT + 4),
    Node::Or(FRAGMENT_ITEM, STMT + 5),
    Node::Or(LET, STMT + 6),
    Node::Or(STMT + 7, OWN_STMT),
    Node::Then(STMT + 8, STMT + 9),
    Node::Ahead(ITEM_WORD),
    Node::Then(VIS, ITEM_KIND),
    Node::Then(STMT + 11, EXPR),
    Node::NotAhead(STMT + 12),
    Node::Then(WORD_ASYNC, WORD_FN),
    Node::Or(OWN_STMT + 1, OWN_STMT + 7), // own_stmt
    Node::Then(OWN_STMT + 2, OWN_STMT + 5),
    Node::Or(BLOCK_LIKE, OWN_STMT + 3),
    Node::Then(EXPR_PATH, OWN_STMT + 4),
    Node::Then(OPERATOR_BANG, MACRO_BRACES),
    Node::NotAhead(OWN_STMT + 6),
    Node::Terminal(Terminal::Operators(&[".", "?"])),
    Node::Then(FRAGMENT_PATH, OWN_STMT + 8),
    Node::Or(MACRO_END, STRUCT_LITERAL),
    Node::Then(LET + 1, LET + 2), // let
    Node::Maybe(WORD_SUPER),
    Node::Then(WORD_LET, LET + 3),
    Node::Then(NEEDED_PATTERN, LET + 4),
    Node::Then(LET + 5, LET + 7),
    Node::Needed(LET + 6),
    Node::NotAhead(OPERATOR_BAR),
    Node::Then(LET + 8, LET + 10),
    Node::Maybe(LET + 9),
    Node::Then(OPERATOR_COLON, NEEDED_TYPE),
    Node::Maybe(LET + 11),
    Node::Then(SIGN_EQUAL, LET + 12),
    Node::Then(NEEDED_EXPR, LET + 13),
    Node::Maybe(LET + 14),
    Node::Then(WORD_ELSE, NEEDED_BLOCK),
    Node::Or(ITEM_BEGIN, ITEM_WORD + 1), // item_word
    Node::Or(ITEM_MARK, ITEM_WORD + 2),
    Node::Terminal(Terminal::Words(&["union", "macro_rules", "macro"])),
    Node::Or(FRAGMENT_VIS, ITEM_BEGIN + 1), // item_begin
    Node::Terminal(Terminal::Words(&[
        "use", "fn", "mod", "type", "enum", "struct", "trait", "impl", "pub",
    ])),
    Node::Terminal(Terminal::Words(&[
        "const", "static", "unsafe", "extern", "async", "gen", "auto",
    ])), // item_mark
    Node::Or(OWN_BRACES, FRAGMENT_BLOCK), // block
    Node::Or(BRACES, OPEN_GROUP), // own_braces
    Node::Or(FRAGMENT_META, META + 1), // meta
    Node::Or(META + 2, META + 3),
    Node::Then(WORD_UNSAFE, UNSAFE_META),
    Node::Then(MOD_PATH, META + 4),
    Node::Maybe(META + 5),
    Node::Or(MACRO_ARGUMENT, META + 6),
    Node::Then(OPERATOR_EQUAL, NEEDED_EXPR),
    Node::Maybe(VIS + 1), // vis
    Node::Or(FRAGMENT_VIS, VIS + 2),
    Node::Then(WORD_PUB, VIS + 3),
    Node::Maybe(SCOPE),
    Node::Inside(DelimiterKind::Parenthesis, SCOPE + 1), // scope
    Node::Or(SCOPE + 2, SCOPE + 3),
    Node::Terminal(Terminal::Words(&["crate", "self", "super"])),
    Node::Then(WORD_IN, SCOPE + 4),
    Node::Needed(SCOPE + 5),
    Node::Then(MOD_PATH, END),
    Node::Then(MANY_ATTRIBUTE, ITEM + 1), // item
    Node::Or(FRAGMENT_ITEM, ITEM + 2),
    Node::Or(ITEM + 3, ITEM_CALL),
    Node::Then(VIS, ITEM + 4),
    Node::Then(ITEM + 5, ITEM_KIND),
    Node::Maybe(ITEM + 6),
    Node::Then(WORD_DEFAULT, ITEM + 7),
    Node::Then(ITEM + 8, ITEM + 9),
    Node::NotAhead(WORD_AS),
    Node::Ahead(IDENT),
    Node::Or(FUNCTION, ITEM_KIND + 1), // item_kind
    Node::Or(USE, ITEM_KIND + 2),
    Node::Or(TYPE_ITEM, OTHER_ITEM),
    Node::Or(STRUCT, TYPE_ITEM + 1), // type_item
    Node::Or(ENUM, TYPE_ITEM + 2),
    Node::Or(UNION, TYPE_ITEM + 3),
    Node::Or(ALIAS, TYPE_ITEM + 4),
    Node::Or(TRAIT, IMPLEMENTATION),
    Node::Or(MODULE, OTHER_ITEM + 1), // other_item
    Node::Or(CONSTANT, OTHER_ITEM + 2),
    Node::Or(STATIC, OTHER_ITEM + 3),
    Node::Or(EXTERN_CRATE, OTHER_ITEM + 4),
    Node::Or(FOREIGN, OTHER_ITEM + 5),
    Node::Or(RULES, MACRO),
    Node::Then(WORD_USE, USE + 1), // use
    Node::Then(USE + 2, USE + 3),
    Node::NotAhead(SIGN_BAR),
    Node::Then(USE + 4, USE + 5),
    Node::Needed(USE_TREE),
    Node::Needed(OPERATOR_SEMICOLON),
    Node::Or(USE_TREE + 1, USE_TREE + 8), // use_tree
    Node::Then(MOD_PATH, USE_TREE + 2),
    Node::Maybe(USE_TREE + 3),
    Node::Or(USE_TREE + 4, USE_TREE + 6),
    Node::Then(OPERATOR_COLON_COLON, USE_TREE + 5),
    Node::Or(OPERATOR_STAR, USE_GROUP),
    Node::Then(WORD_AS, USE_TREE + 7),
    Node::Or(NAME, WORD_UNDERSCORE),
    Node::Then(MAYBE_OPERATOR_COLON_COLON, USE_TREE + 9),
    Node::Or(OPERATOR_STAR, USE_GROUP),
    Node::Then(MAYBE_WORD_UNSAFE, MODULE + 1), // module
    Node::Then(WORD_MOD, MODULE + 2),
    Node::Then(NAME, MODULE + 3),
    Node::Or(OPERATOR_SEMICOLON, ITEMS_GROUP),
    Node::Then(WORD_STRUCT, STRUCT + 1), // struct
    Node::Then(NAME, STRUCT + 2),
    Node::Then(MAYBE_GENERIC_PARAMS, STRUCT + 3),
    Node::Or(STRUCT + 4, STRUCT + 6),
    Node::Then(TUPLE_FIELDS, STRUCT + 5),
    Node::Then(MAYBE_WHERE_CLAUSE, OPERATOR_SEMICOLON),
    Node::Then(MAYBE_WHERE_CLAUSE, STRUCT + 7),
    Node::Or(FIELDS, OPERATOR_SEMICOLON),
    Node::Then(WORD_UNION, UNION + 1), // union
    Node::Then(NAME, UNION + 2),
    Node::Then(MAYBE_GENERIC_PARAMS, UNION + 3),
    Node::Then(MAYBE_WHERE_CLAUSE, FIELDS),
    Node::Then(WORD_ENUM, ENUM + 1), // enum
    Node::Then(NAME, ENUM + 2),
    Node::Then(MAYBE_GENERIC_PARAMS, ENUM + 3),
    Node::Then(MAYBE_WHERE_CLAUSE, VARIANTS),
    Node::Then(WORD_TYPE, ALIAS + 1), // alias
    Node::Then(NAME, ALIAS + 2),
    Node::Then(MAYBE_GENERIC_PARAMS, ALIAS + 3),
    Node::Then(ALIAS + 4, ALIAS + 6),
    Node::Maybe(ALIAS + 5),
    Node::Then(OPERATOR_COLON, MAYBE_BOUNDS),
    Node::Then(MAYBE_WHERE_CLAUSE, ALIAS + 7),
    Node::Then(ALIAS + 8, ALIAS + 10),
    Node::Maybe(ALIAS + 9),
    Node::Then(SIGN_EQUAL, TYPE),
    Node::Then(MAYBE_WHERE_CLAUSE, OPERATOR_SEMICOLON),
    Node::Then(WORD_CONST, CONSTANT + 1), // constant
    Node::Then(CONSTANT + 2, CONSTANT + 3),
    Node::Or(NAME, WORD_UNDERSCORE),
    Node::Then(MAYBE_GENERIC_PARAMS, CONSTANT + 4),
    Node::Then(OPERATOR_COLON, CONSTANT + 5),
    Node::Then(TYPE, CONSTANT + 6),
    Node::Then(CONSTANT + 7, CONSTANT + 9),
    Node::Maybe(CONSTANT + 8),
    Node::Then(SIGN_EQUAL, NEEDED_EXPR),
    Node::Then(MAYBE_WHERE_CLAUSE, OPERATOR_SEMICOLON),
    Node::Then(STATIC + 1, STATIC + 3), // static
    Node::Maybe(STATIC + 2),
    Node::Terminal(Terminal::Words(&["unsafe", "safe"])),
    Node::Then(WORD_STATIC, STATIC + 4),
    Node::Then(MAYBE_WORD_MUT, STATIC + 5),
    Node::Then(NAME, STATIC + 6),
    Node::Then(OPERATOR_COLON, STATIC + 7),
    Node::Then(TYPE, STATIC + 8),
    Node::Then(STATIC + 9, OPERATOR_SEMICOLON),
    Node::Maybe(STATIC + 10),
    Node::Then(SIGN_EQUAL, NEEDED_EXPR),
    Node::Then(FN_MARKS, FUNCTION + 1), // function
    Node::Then(WORD_FN, FUNCTION + 2),
    Node::Then(NAME, FUNCTION + 3),
    Node::Then(MAYBE_GENERIC_PARAMS, FUNCTION + 4),
    Node::Then(PARAMETERS, FUNCTION + 5),
    Node::Then(FUNCTION + 6, FUNCTION + 7),
    Node::Maybe(FN_RETURN),
    Node::Then(MAYBE_WHERE_CLAUSE, FUNCTION + 8),
    Node::Or(BRACES, OPERATOR_SEMICOLON),
    Node::Then(MAYBE_WORD_CONST, FN_MARKS + 1), // fn_marks
    Node::Then(FN_MARKS + 2, FN_MARKS + 4),
    Node::Maybe(FN_MARKS + 3),
    Node::Then(SINCE_2018, WORD_ASYNC),
    Node::Then(FN_MARKS + 5, FN_MARKS + 7),
    Node::Maybe(FN_MARKS + 6),
    Node::Then(SINCE_2024, WORD_GEN),
    Node::Then(FN_MARKS + 8, FN_MARKS + 10),
    Node::Maybe(FN_MARKS + 9),
    Node::Terminal(Terminal::Words(&["unsafe", "safe"])),
    Node::Maybe(FN_MARKS + 11),
    Node::Then(WORD_EXTERN, MAYBE_ABI),
    Node::Then(OPERATOR_MINUS_MORE, TYPE), // fn_return
    Node::Then(MAYBE_WORD_CONST, TRAIT + 1), // trait
    Node::Then(MAYBE_WORD_UNSAFE, TRAIT + 2),
    Node::Then(TRAIT + 3, TRAIT + 4),
    Node::Maybe(WORD_AUTO),
    Node::Then(WORD_TRAIT, TRAIT + 5),
    Node::Then(NAME, TRAIT + 6),
    Node::Then(MAYBE_GENERIC_PARAMS, TRAIT + 7),
    Node::Or(TRAIT_ALIAS, TRAIT_REST),
    Node::Then(SIGN_EQUAL, TRAIT_ALIAS + 1), // trait_alias
    Node::Then(MAYBE_BOUNDS, TRAIT_ALIAS + 2),
    Node::Then(MAYBE_WHERE_CLAUSE, OPERATOR_SEMICOLON),
    Node::Then(TRAIT_REST + 1, TRAIT_REST + 3), // trait_rest
    Node::Maybe(TRAIT_REST + 2),
    Node::Then(OPERATOR_COLON, MAYBE_BOUNDS),
    Node::Then(MAYBE_WHERE_CLAUSE, ITEMS_GROUP),
    Node::Then(MAYBE_WORD_CONST, IMPLEMENTATION + 1), // implementation
    Node::Then(MAYBE_WORD_UNSAFE, IMPLEMENTATION + 2),
    Node::Then(WORD_IMPL, IMPLEMENTATION + 3),
    Node::Or(IMPLEMENTATION + 4, IMPL_REST),
    Node::Then(GENERIC_PARAMS, IMPL_REST),
    Node::Then(MAYBE_WORD_CONST, IMPL_REST + 1), // impl_rest
    Node::Then(IMPL_REST + 2, IMPL_REST + 5),
    Node::Maybe(IMPL_REST + 3),
    Node::Then(OPERATOR_BANG, IMPL_REST + 4),
    Node::NotAhead(BRACE),
    Node::Then(TYPE, IMPL_REST + 6),
    Node::Then(IMPL_REST + 7, IMPL_REST + 10),
    Node::Maybe(IMPL_REST + 8),
    Node::Then(WORD_FOR, IMPL_REST + 9),
    Node::Or(OPERATOR_DOT_DOT, TYPE),
    Node::Then(MAYBE_WHERE_CLAUSE, ITEMS_GROUP),
    Node::Then(WORD_EXTERN, EXTERN_CRATE + 1), // extern_crate
    Node::Then(WORD_CRATE, EXTERN_CRATE + 2),
    Node::Then(EXTERN_CRATE + 3, EXTERN_CRATE + 4),
    Node::Or(NAME, WORD_SELF_VALUE),
    Node::Then(EXTERN_CRATE + 5, OPERATOR_SEMICOLON),
    Node::Maybe(EXTERN_CRATE + 6),
    Node::Then(WORD_AS, EXTERN_CRATE + 7),
    Node::Or(NAME, WORD_UNDERSCORE),
    Node::Then(MAYBE_WORD_UNSAFE, FOREIGN + 1), // foreign
    Node::Then(WORD_EXTERN, FOREIGN + 2),
    Node::Then(MAYBE_ABI, FOREIGN_ITEMS),
    Node::Then(WORD_MACRO_RULES, RULES + 1), // rules
    Node::Then(OPERATOR_BANG, RULES + 2),
    Node::Then(NAME, RULES + 3),
    Node::Needed(MACRO_REST),
    Node::Then(WORD_MACRO, MACRO + 1), // macro
    Node::Then(NAME, MACRO + 2),
    Node::Then(MACRO + 3, MACRO_BRACES),
    Node::Maybe(PAREN),
    Node::Then(MOD_PATH, ITEM_CALL + 1), // item_call
    Node::Then(OPERATOR_BANG, MACRO_REST),
    Node::Or(MACRO_BRACES, MACRO_REST + 1), // macro_rest
    Node::Then(MACRO_OTHER, OPERATOR_SEMICOLON),
    Node::Terminal(Terminal::Any), // begin_any
    Node::Or(OPERATOR_COLON_COLON, BEGIN_PATH + 1), // begin_path
    Node::Or(IDENT, BEGIN_PATH + 2),
    Node::Terminal(Terminal::Fragment(&[
        FragmentGroup::Path,
        FragmentGroup::Ty,
        FragmentGroup::Pat,
        FragmentGroup::Stmt,
        FragmentGroup::Meta,
        FragmentGroup::Expr,
        FragmentGroup::LiteralExpr,
        FragmentGroup::Literal,
    ])),
    Node::Or(NAME, BEGIN_TYPE + 1), // begin_type
    Node::Or(PATH_WORD, BEGIN_TYPE + 2),
    Node::Or(BEGIN_TYPE_WORD, BEGIN_TYPE + 3),
    Node::Or(BEGIN_TYPE + 4, BEGIN_TYPE + 5),
    Node::Terminal(Terminal::Group(&[DelimiterKind::Parenthesis, DelimiterKind::Bracket])),
    Node::Or(BEGIN_TYPE_SIGN, BEGIN_TYPE + 6),
    Node::Or(SIGN_QUOTE, BEGIN_TYPE + 7),
    Node::Or(OPEN_GROUP, BEGIN_TYPE + 8),
    Node::Terminal(Terminal::Fragment(&[FragmentGroup::Path, FragmentGroup::Ty])),
    Node::Terminal(Terminal::Words(&[
        "_", "impl", "dyn", "for", "fn", "unsafe", "extern", "typeof",
    ])), // begin_type_word
    Node::Terminal(Terminal::Operators(&["!", "*", "&", "&&", "?", "<", "<<", "::"])), // begin_type_sign
    Node::Or(OPERATOR_BAR, BEGIN_PAT), // begin_pat_top
    Node::Or(IDENT, BEGIN_PAT + 1), // begin_pat
    Node::Or(LITERAL, BEGIN_PAT + 2),
    Node::Or(BEGIN_PAT + 3, BEGIN_PAT + 4),
    Node::Terminal(Terminal::Group(&[DelimiterKind::Parenthesis, DelimiterKind::Bracket])),
    Node::Or(BEGIN_PAT_SIGN, BEGIN_PAT + 5),
    Node::Or(OPEN_GROUP, BEGIN_PAT + 6),
    Node::Terminal(Terminal::Fragment(&[
        FragmentGroup::Path,
        FragmentGroup::Ty,
        FragmentGroup::Pat,
        FragmentGroup::Meta,
        FragmentGroup::Expr,
        FragmentGroup::LiteralExpr,
        FragmentGroup::Literal,
    ])),
    Node::Terminal(Terminal::Operators(&["-", "&", "&&", "..", "...", "::", "<", "<<"])), // begin_pat_sign
    Node::Or(START, WORD_UNDERSCORE), // begin_expr
    Node::Or(BRACE, BEGIN_BLOCK + 1), // begin_block
    Node::Or(OPEN_GROUP, BEGIN_BLOCK + 2),
    Node::Terminal(Terminal::Fragment(&[
        FragmentGroup::Block,
        FragmentGroup::Stmt,
        FragmentGroup::Expr,
        FragmentGroup::LiteralExpr,
        FragmentGroup::Literal,
    ])),
    Node::Or(OPERATOR_COMMA, BEGIN_VIS + 1), // begin_vis
    Node::Or(IDENT, BEGIN_VIS + 2),
    Node::Or(FRAGMENT, BEGIN_TYPE),
];

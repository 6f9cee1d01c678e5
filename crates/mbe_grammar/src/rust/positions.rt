// The positions of Rust's rules in their table. `tools/rust-rules` writes it from `rust.peg`.

pub const BRACE: usize = 0;

pub const END: usize = 1;

pub const FRAGMENT_BLOCK: usize = 2;

pub const FRAGMENT_EXPR: usize = 3;

pub const FRAGMENT_ITEM: usize = 4;

pub const FRAGMENT_META: usize = 5;

pub const FRAGMENT_PAT: usize = 6;

pub const FRAGMENT_PATH: usize = 7;

pub const FRAGMENT_STMT: usize = 8;

pub const FRAGMENT_TY: usize = 9;

pub const FRAGMENT_VIS: usize = 10;

pub const IDENT: usize = 11;

pub const INVISIBLE: usize = 12;

pub const LITERAL: usize = 13;

pub const NAME: usize = 14;

pub const OPERATOR_AT: usize = 15;

pub const OPERATOR_BANG: usize = 16;

pub const OPERATOR_BAR: usize = 17;

pub const OPERATOR_COLON: usize = 18;

pub const OPERATOR_COLON_COLON: usize = 19;

pub const OPERATOR_COMMA: usize = 20;

pub const OPERATOR_DOT: usize = 21;

pub const OPERATOR_DOT_DOT: usize = 22;

pub const OPERATOR_DOT_DOT_EQUAL: usize = 23;

pub const OPERATOR_EQUAL: usize = 24;

pub const OPERATOR_HASH: usize = 25;

pub const OPERATOR_MINUS: usize = 26;

pub const OPERATOR_MINUS_MORE: usize = 27;

pub const OPERATOR_QUESTION: usize = 28;

pub const OPERATOR_SEMICOLON: usize = 29;

pub const OPERATOR_STAR: usize = 30;

pub const OPERATOR_TILDE: usize = 31;

pub const PAREN: usize = 32;

pub const POINTED: usize = 33;

pub const SIGN_AND: usize = 34;

pub const SIGN_BAR: usize = 35;

pub const SIGN_COMMA: usize = 36;

pub const SIGN_EQUAL: usize = 37;

pub const SIGN_LESS: usize = 38;

pub const SIGN_MORE: usize = 39;

pub const SIGN_PLUS: usize = 40;

pub const SIGN_QUOTE: usize = 41;

pub const SINCE_2018: usize = 42;

pub const SINCE_2024: usize = 43;

pub const WORD_AS: usize = 44;

pub const WORD_ASYNC: usize = 45;

pub const WORD_AUTO: usize = 46;

pub const WORD_AWAIT: usize = 47;

pub const WORD_BECOME: usize = 48;

pub const WORD_BOX: usize = 49;

pub const WORD_BREAK: usize = 50;

pub const WORD_CONST: usize = 51;

pub const WORD_CONTINUE: usize = 52;

pub const WORD_CRATE: usize = 53;

pub const WORD_DEFAULT: usize = 54;

pub const WORD_DO: usize = 55;

pub const WORD_DYN: usize = 56;

pub const WORD_ELSE: usize = 57;

pub const WORD_ENUM: usize = 58;

pub const WORD_EXTERN: usize = 59;

pub const WORD_FN: usize = 60;

pub const WORD_FOR: usize = 61;

pub const WORD_GEN: usize = 62;

pub const WORD_IF: usize = 63;

pub const WORD_IMPL: usize = 64;

pub const WORD_IN: usize = 65;

pub const WORD_LET: usize = 66;

pub const WORD_LOOP: usize = 67;

pub const WORD_MACRO: usize = 68;

pub const WORD_MACRO_RULES: usize = 69;

pub const WORD_MATCH: usize = 70;

pub const WORD_MOD: usize = 71;

pub const WORD_MUT: usize = 72;

pub const WORD_PIN: usize = 73;

pub const WORD_PUB: usize = 74;

pub const WORD_REF: usize = 75;

pub const WORD_SELF_VALUE: usize = 76;

pub const WORD_STATIC: usize = 77;

pub const WORD_STRUCT: usize = 78;

pub const WORD_SUPER: usize = 79;

pub const WORD_TRAIT: usize = 80;

pub const WORD_TRY: usize = 81;

pub const WORD_TYPE: usize = 82;

pub const WORD_UNDERSCORE: usize = 83;

pub const WORD_UNION: usize = 84;

pub const WORD_UNSAFE: usize = 85;

pub const WORD_USE: usize = 86;

pub const WORD_WHERE: usize = 87;

pub const WORD_WHILE: usize = 88;

pub const WORD_YEET: usize = 89;

pub const AHEAD_FRAGMENT_TY: usize = 90;

pub const AHEAD_SIGN_MORE: usize = 91;

pub const AHEAD_START: usize = 92;

pub const AHEAD_START_HEAD: usize = 93;

pub const MANY_ATTRIBUTE: usize = 94;

pub const MANY_POSTFIX: usize = 95;

pub const MAYBE_ABI: usize = 96;

pub const MAYBE_BOUND: usize = 97;

pub const MAYBE_BOUNDS: usize = 98;

pub const MAYBE_CAPTURE: usize = 99;

pub const MAYBE_FOR_LIFETIMES: usize = 100;

pub const MAYBE_GENERIC_PARAMS: usize = 101;

pub const MAYBE_LIFETIME: usize = 102;

pub const MAYBE_MACRO_END: usize = 103;

pub const MAYBE_OPERATOR_COLON_COLON: usize = 104;

pub const MAYBE_OPERATOR_MINUS: usize = 105;

pub const MAYBE_RANGE_END: usize = 106;

pub const MAYBE_RETURN_TYPE: usize = 107;

pub const MAYBE_VALUE: usize = 108;

pub const MAYBE_WHERE_CLAUSE: usize = 109;

pub const MAYBE_WORD_CONST: usize = 110;

pub const MAYBE_WORD_MUT: usize = 111;

pub const MAYBE_WORD_UNSAFE: usize = 112;

pub const NEEDED_ARMS: usize = 113;

pub const NEEDED_BLOCK: usize = 114;

pub const NEEDED_EXPR: usize = 115;

pub const NEEDED_EXPR_SEGMENT: usize = 116;

pub const NEEDED_HEAD: usize = 117;

pub const NEEDED_HEAD_TERM: usize = 118;

pub const NEEDED_PATTERN: usize = 119;

pub const NEEDED_PATTERN_TOP: usize = 120;

pub const NEEDED_RANGE_END: usize = 121;

pub const NEEDED_TERM: usize = 122;

pub const NEEDED_TYPE: usize = 123;

pub const NEEDED_TYPE_ONE: usize = 124;

pub const NEEDED_TYPE_SEGMENT: usize = 125;

pub const NO_OPERATOR_MINUS_MORE: usize = 126;

pub const NO_SIGN_PLUS: usize = 127;

pub const TUPLE_TYPES: usize = 128;

pub const POINTER_PARAMETERS: usize = 129;

pub const ARRAY_TYPE: usize = 130;

pub const ATTRIBUTE_GROUP: usize = 131;

pub const UNSAFE_META: usize = 132;

pub const TUPLE_PATTERN: usize = 133;

pub const SLICE_PATTERN: usize = 134;

pub const STRUCT_PATTERN: usize = 135;

pub const ARGUMENTS: usize = 136;

pub const ARRAY: usize = 137;

pub const INDEX: usize = 138;

pub const STRUCT_LITERAL: usize = 139;

pub const ARMS: usize = 140;

pub const BRACES: usize = 141;

pub const MACRO_ARGUMENT: usize = 142;

pub const MACRO_BRACES: usize = 143;

pub const MACRO_OTHER: usize = 144;

pub const ITEMS_GROUP: usize = 145;

pub const FOREIGN_ITEMS: usize = 146;

pub const TUPLE_FIELDS: usize = 147;

pub const FIELDS: usize = 148;

pub const VARIANTS: usize = 149;

pub const PARAMETERS: usize = 150;

pub const USE_GROUP: usize = 151;

pub const FRAGMENT: usize = 152;

pub const OPEN_GROUP: usize = 153;

pub const TYPE_PATH_GROUP: usize = 155;

pub const MOD_PATH_GROUP: usize = 158;

pub const LITERAL_GROUP: usize = 161;

pub const LIFETIME: usize = 162;

pub const SEGMENT_NAME: usize = 163;

pub const PATH_SEP: usize = 165;

pub const MOD_PATH: usize = 168;

pub const LESS: usize = 174;

pub const ANGLE: usize = 177;

pub const ANGLE_REST: usize = 179;

pub const GENERIC_ARG: usize = 183;

pub const CONST_ARG: usize = 194;

pub const FN_SUGAR: usize = 199;

pub const PATH_ARGS: usize = 200;

pub const TURBOFISH: usize = 201;

pub const TYPE_SEGMENT: usize = 205;

pub const TYPE_PATH: usize = 208;

pub const EXPR_SEGMENT: usize = 214;

pub const EXPR_PATH: usize = 216;

pub const QSELF: usize = 227;

pub const MACRO_END: usize = 233;

pub const TYPE: usize = 235;

pub const TYPE_ONE: usize = 238;

pub const TYPE_PREFIX: usize = 240;

pub const PINNED: usize = 247;

pub const TYPE_BASE: usize = 249;

pub const TYPE_WORD: usize = 264;

pub const DYN_2015: usize = 272;

pub const FN_POINTER: usize = 278;

pub const ABI: usize = 284;

pub const RETURN_TYPE: usize = 286;

pub const UNSAFE_BINDER: usize = 287;

pub const BARE_BOUNDS: usize = 289;

pub const BOUNDS: usize = 294;

pub const BOUND: usize = 297;

pub const PAREN_BOUND: usize = 305;

pub const BOUND_MARK: usize = 306;

pub const FOR_LIFETIMES: usize = 314;

pub const GENERIC_PARAMS: usize = 315;

pub const GENERIC_PARAM: usize = 320;

pub const CONST_PARAM: usize = 332;

pub const WHERE_CLAUSE: usize = 339;

pub const WHERE_BOUND: usize = 344;

pub const ATTRIBUTE: usize = 356;

pub const PAT_TOP_FRAGMENT: usize = 357;

pub const PAT_FRAGMENT: usize = 360;

pub const PATTERN_TOP: usize = 363;

pub const PATTERN: usize = 368;

pub const PATTERN_PREFIX: usize = 370;

pub const PATTERN_BASE: usize = 374;

pub const PATH_PATTERN: usize = 381;

pub const OTHER_PATTERN: usize = 387;

pub const AT_PATTERN: usize = 395;

pub const BINDING_MODE: usize = 396;

pub const PATTERN_LITERAL: usize = 403;

pub const RANGE_TAIL: usize = 408;

pub const RANGE_TO: usize = 412;

pub const RANGE_END: usize = 415;

pub const EXPR_FRAGMENT: usize = 417;

pub const EXPR: usize = 420;

pub const ASSIGNMENT: usize = 427;

pub const RANGE: usize = 428;

pub const TERM: usize = 433;

pub const BINARY: usize = 435;

pub const OPERATOR: usize = 440;

pub const ARITHMETIC: usize = 441;

pub const COMPARISON: usize = 442;

pub const UNARY: usize = 443;

pub const PREFIX: usize = 447;

pub const POSTFIX: usize = 456;

pub const MEMBER: usize = 463;

pub const ATOM: usize = 473;

pub const PLAIN_ATOM: usize = 482;

pub const CLOSURE_BODY: usize = 495;

pub const CLOSURE_HEAD: usize = 496;

pub const CLOSURE_WORD: usize = 498;

pub const CLOSURE_PARAMS: usize = 504;

pub const CLOSURE_PARAM: usize = 510;

pub const JUMP: usize = 514;

pub const VALUE: usize = 523;

pub const OWN_BLOCK: usize = 524;

pub const CAPTURE: usize = 535;

pub const START: usize = 536;

pub const START_HEAD: usize = 537;

pub const START_GROUP: usize = 544;

pub const START_WORD: usize = 546;

pub const PATH_WORD: usize = 550;

pub const FLOW_WORD: usize = 551;

pub const BLOCK_WORD: usize = 552;

pub const START_SIGN: usize = 553;

pub const HEAD: usize = 554;

pub const HEAD_RANGE: usize = 561;

pub const HEAD_TERM: usize = 566;

pub const HEAD_BINARY: usize = 568;

pub const HEAD_UNARY: usize = 573;

pub const HEAD_ATOM: usize = 581;

pub const HEAD_CLOSURE_BODY: usize = 589;

pub const HEAD_VALUE: usize = 590;

pub const BLOCK_LIKE: usize = 591;

pub const LABEL: usize = 605;

pub const LOOP: usize = 606;

pub const IF: usize = 621;

pub const MATCH: usize = 631;

pub const STMT: usize = 633;

pub const OWN_STMT: usize = 646;

pub const LET: usize = 655;

pub const ITEM_WORD: usize = 670;

pub const ITEM_BEGIN: usize = 673;

pub const ITEM_MARK: usize = 675;

pub const BLOCK: usize = 676;

pub const OWN_BRACES: usize = 677;

pub const META: usize = 678;

pub const VIS: usize = 685;

pub const SCOPE: usize = 689;

pub const ITEM: usize = 695;

pub const ITEM_KIND: usize = 705;

pub const TYPE_ITEM: usize = 708;

pub const OTHER_ITEM: usize = 713;

pub const USE: usize = 719;

pub const USE_TREE: usize = 725;

pub const MODULE: usize = 735;

pub const STRUCT: usize = 739;

pub const UNION: usize = 747;

pub const ENUM: usize = 751;

pub const ALIAS: usize = 755;

pub const CONSTANT: usize = 766;

pub const STATIC: usize = 776;

pub const FUNCTION: usize = 787;

pub const FN_MARKS: usize = 796;

pub const FN_RETURN: usize = 808;

pub const TRAIT: usize = 809;

pub const TRAIT_ALIAS: usize = 817;

pub const TRAIT_REST: usize = 820;

pub const IMPLEMENTATION: usize = 824;

pub const IMPL_REST: usize = 829;

pub const EXTERN_CRATE: usize = 840;

pub const FOREIGN: usize = 848;

pub const RULES: usize = 851;

pub const MACRO: usize = 855;

pub const ITEM_CALL: usize = 859;

pub const MACRO_REST: usize = 861;

pub const BEGIN_ANY: usize = 863;

pub const BEGIN_PATH: usize = 864;

pub const BEGIN_TYPE: usize = 867;

pub const BEGIN_TYPE_WORD: usize = 876;

pub const BEGIN_TYPE_SIGN: usize = 877;

pub const BEGIN_PAT_TOP: usize = 878;

pub const BEGIN_PAT: usize = 879;

pub const BEGIN_PAT_SIGN: usize = 886;

pub const BEGIN_EXPR: usize = 887;

pub const BEGIN_BLOCK: usize = 888;

pub const BEGIN_VIS: usize = 891;

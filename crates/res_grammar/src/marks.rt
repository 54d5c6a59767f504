//! The numbers of the grammar's actions, as `grammar/write_tables.py` writes them.

pub const COMPONENT: u8 = 0;

pub const KEEP: u8 = 1;

pub const HEADINGS: u8 = 2;

pub const CONCEPT: u8 = 3;

pub const ADD_HEADING: u8 = 4;

pub const ENHANCEMENT: u8 = 5;

pub const REALIZATION: u8 = 6;

pub const FACS: u8 = 7;

pub const LOCALS: u8 = 8;

pub const MODULE: u8 = 9;

pub const OF_CONCEPT: u8 = 10;

pub const NO_REP: u8 = 11;

pub const PROCEDURES: u8 = 12;

pub const FOR_CONCEPT: u8 = 13;

pub const FORMALS: u8 = 14;

pub const TYPE_FORMAL: u8 = 15;

pub const INTEGER_FORMAL: u8 = 16;

pub const NAMES: u8 = 17;

pub const ADD_NAME: u8 = 18;

pub const SOME_CLAUSE: u8 = 19;

pub const NO_CLAUSE: u8 = 20;

pub const FAMILY: u8 = 21;

pub const NO_FAMILY: u8 = 22;

pub const MODEL_Z: u8 = 23;

pub const MODEL_B: u8 = 24;

pub const MODEL_STR: u8 = 25;

pub const FACTORS: u8 = 26;

pub const ADD_FACTOR: u8 = 27;

pub const MODEL_PRODUCT: u8 = 28;

pub const MODEL_PARAM: u8 = 29;

pub const PARAMS: u8 = 30;

pub const HEADING: u8 = 31;

pub const BEGIN: u8 = 32;

pub const OPERATOR: u8 = 33;

pub const RESULT_EQUALS: u8 = 34;

pub const OPERATED: u8 = 35;

pub const FINISH: u8 = 36;

pub const RESULT_CLAUSE: u8 = 37;

pub const NO_RESULT: u8 = 38;

pub const RESULT_TYPE: u8 = 39;

pub const ADD_PARAMS: u8 = 40;

pub const MODE_ALTERS: u8 = 41;

pub const MODE_CLEARS: u8 = 42;

pub const MODE_EVALUATES: u8 = 43;

pub const MODE_PRESERVES: u8 = 44;

pub const MODE_REPLACES: u8 = 45;

pub const MODE_RESTORES: u8 = 46;

pub const MODE_UPDATES: u8 = 47;

pub const TYPE_WORD: u8 = 48;

pub const TYPE_ALONE: u8 = 49;

pub const TYPE_OF: u8 = 50;

pub const ADD_FAC: u8 = 51;

pub const ARGS: u8 = 52;

pub const REALIZED_BY: u8 = 53;

pub const PAIRS: u8 = 54;

pub const NOT_REALIZED: u8 = 55;

pub const TYPE_ARG: u8 = 56;

pub const NUMBER_ARG: u8 = 57;

pub const MINUS_ARG: u8 = 58;

pub const ADD_PAIR: u8 = 59;

pub const TYPED_NAMES: u8 = 60;

pub const REP: u8 = 61;

pub const ADD_TYPED_NAMES: u8 = 62;

pub const ADD_LOCAL: u8 = 63;

pub const ADD_PROCEDURE: u8 = 64;

pub const SIGNATURE: u8 = 65;

pub const ENTER: u8 = 66;

pub const BLOCK: u8 = 67;

pub const LEAVE: u8 = 68;

pub const EXPRS: u8 = 69;

pub const CALL_BUILTIN: u8 = 70;

pub const IF: u8 = 71;

pub const PLACES: u8 = 72;

pub const ADD_PLACE: u8 = 73;

pub const WHILE: u8 = 74;

pub const PLACE_ALONE: u8 = 75;

pub const SWAP: u8 = 76;

pub const ASSIGN: u8 = 77;

pub const CALL_LOCAL: u8 = 78;

pub const CALL_OF: u8 = 79;

pub const PLACE_FIELD: u8 = 80;

pub const ADD_EXPR: u8 = 81;

pub const IMPLIES: u8 = 82;

pub const OR: u8 = 83;

pub const AND: u8 = 84;

pub const NOT: u8 = 85;

pub const EQUAL: u8 = 86;

pub const NOT_EQUAL: u8 = 87;

pub const LESS: u8 = 88;

pub const LESS_EQUAL: u8 = 89;

pub const GREATER: u8 = 90;

pub const GREATER_EQUAL: u8 = 91;

pub const CAT: u8 = 92;

pub const ADD: u8 = 93;

pub const SUB: u8 = 94;

pub const MUL: u8 = 95;

pub const DIV: u8 = 96;

pub const MOD: u8 = 97;

pub const LITERAL: u8 = 98;

pub const MINUS: u8 = 99;

pub const MINUS_LITERAL: u8 = 100;

pub const TRUE: u8 = 101;

pub const FALSE: u8 = 102;

pub const MIN_INT: u8 = 103;

pub const MAX_INT: u8 = 104;

pub const EMPTY_STRING: u8 = 105;

pub const BUILTIN_EXPR: u8 = 106;

pub const BARS: u8 = 107;

pub const SINGLE: u8 = 108;

pub const PARENTHESES: u8 = 109;

pub const ADD_FIRST: u8 = 110;

pub const TUPLE: u8 = 111;

pub const OLD_DOT: u8 = 112;

pub const OLD: u8 = 113;

pub const CALL_EXPR: u8 = 114;

pub const WORD: u8 = 115;

pub const CALL_OF_EXPR: u8 = 116;

pub const IS_INITIAL: u8 = 117;

pub const DOT: u8 = 118;

pub const OPEN_COMPONENT: u8 = 119;

pub const CLOSE_COMPONENT: u8 = 120;

pub const CLOSE_OPERATION: u8 = 121;

pub const OPEN_OPERATION: u8 = 122;

pub const SAME: u8 = 123;

pub const HEAD: u8 = 124;

//! The classes of tokens, as `grammar/write_tables.py` writes them.

/// An identifier that is not reserved.
pub const ID: u8 = 0;

/// A literal.
pub const LITERAL: u8 = 1;

/// The first symbol; the others follow in the order of their numbers.
pub const FIRST_SYMBOL: u8 = 2;

/// How many symbols there are.
pub const SYMBOLS: u8 = 19;

/// The first reserved word; the others follow in the order of `RESERVED`.
pub const FIRST_WORD: u8 = 21;

/// No class of the grammar.
pub const NONE: u8 = 127;

/// The reserved words.
pub const RESERVED: [&[u8]; 74] = [
    b"Concept",
    b"type",
    b"evaluates",
    b"Integer",
    b"uses",
    b"requires",
    b"end",
    b"Type",
    b"Family",
    b"is",
    b"modeled",
    b"by",
    b"exemplar",
    b"constraint",
    b"initialization",
    b"ensures",
    b"Z",
    b"B",
    b"Str",
    b"Cart_Prod",
    b"Operation",
    b"Boolean",
    b"In_Stream",
    b"Out_Stream",
    b"alters",
    b"clears",
    b"preserves",
    b"replaces",
    b"restores",
    b"updates",
    b"Enhancement",
    b"for",
    b"Realization",
    b"of",
    b"Procedure",
    b"Facility",
    b"Static_Array_Template",
    b"realized",
    b"enhanced",
    b"represented",
    b"Record",
    b"convention",
    b"correspondence",
    b"Conc",
    b"decreasing",
    b"Var",
    b"If",
    b"then",
    b"else",
    b"While",
    b"changing",
    b"maintaining",
    b"do",
    b"implies",
    b"or",
    b"and",
    b"not",
    b"o",
    b"div",
    b"mod",
    b"true",
    b"false",
    b"min_int",
    b"max_int",
    b"Empty_String",
    b"Reverse",
    b"Prt_Btwn",
    b"Is_Initial",
    b"Read",
    b"Write",
    b"At_End",
    b"Remaining",
    b"Swap_Entry",
    b"Static_Array",
];

//! The reserved words.

ghost use Rattle.std.specs.Prelude.{◌≡◌, ◌↔◌, IsTrue};
ghost use Rattle.std.specs.List.{list_any};
ghost use Rattle.res_lexer.specs.Pieces.{same_bytes};
ghost use Rattle.res_lexer.specs.Reserved.{is_reserved};

static RESERVED: [&[u8]; 74] = [
    b"Concept",
    b"type",
    b"evaluates",
    b"Integer",
    b"uses",
    b"requires",
    b"end",
    b"Type",
    b"Family",
    b"is",
    b"modeled",
    b"by",
    b"exemplar",
    b"constraint",
    b"initialization",
    b"ensures",
    b"Z",
    b"B",
    b"Str",
    b"Cart_Prod",
    b"Operation",
    b"Boolean",
    b"In_Stream",
    b"Out_Stream",
    b"alters",
    b"clears",
    b"preserves",
    b"replaces",
    b"restores",
    b"updates",
    b"Enhancement",
    b"for",
    b"Realization",
    b"of",
    b"Procedure",
    b"Facility",
    b"Static_Array_Template",
    b"realized",
    b"enhanced",
    b"represented",
    b"Record",
    b"convention",
    b"correspondence",
    b"Conc",
    b"decreasing",
    b"Var",
    b"If",
    b"then",
    b"else",
    b"While",
    b"changing",
    b"maintaining",
    b"do",
    b"implies",
    b"or",
    b"and",
    b"not",
    b"o",
    b"div",
    b"mod",
    b"true",
    b"false",
    b"min_int",
    b"max_int",
    b"Empty_String",
    b"Reverse",
    b"Prt_Btwn",
    b"Is_Initial",
    b"Read",
    b"Write",
    b"At_End",
    b"Remaining",
    b"Swap_Entry",
    b"Static_Array",
];

fn equal(a: &[u8], b: &[u8]) -> bool
    ensures { IsTrue result ↔ (a.now ≡ b.now) }
{
    a == b
}

fn is_one_of(name: &[u8], words: &[&[u8]]) -> bool
    ensures { result ≡ list_any (λ w. same_bytes name.now w.now) words.now }
{
    for word in words {
        if equal(name, *word) {
            return true;
        }
    }
    false
}

/// Whether the word is reserved: one of the language's own words, and no name of a program.
pub fn is_reserved(word: &[u8]) -> bool
    ensures { result ≡ is_reserved word.now }
{
    is_one_of(word, &RESERVED)
}

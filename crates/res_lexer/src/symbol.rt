//! The numbers of the symbols, in the order in which they are looked for.

/// `:=:`
pub const SWAP: u8 = 1;

/// `:=`
pub const ASSIGN: u8 = 2;

/// `<=`
pub const LESS_EQUAL: u8 = 3;

/// `>=`
pub const GREATER_EQUAL: u8 = 4;

/// `/=`
pub const NOT_EQUAL: u8 = 5;

/// `<`
pub const LESS: u8 = 6;

/// `>`
pub const GREATER: u8 = 7;

/// `=`
pub const EQUAL: u8 = 8;

/// `+`
pub const PLUS: u8 = 9;

/// `-`
pub const MINUS: u8 = 10;

/// `*`
pub const TIMES: u8 = 11;

/// `(`
pub const OPENING: u8 = 12;

/// `)`
pub const CLOSING: u8 = 13;

/// `,`
pub const COMMA: u8 = 14;

/// `;`
pub const SEMICOLON: u8 = 15;

/// `:`
pub const COLON: u8 = 16;

/// `.`
pub const DOT: u8 = 17;

/// `|`
pub const BAR: u8 = 18;

/// `#`
pub const HASH: u8 = 19;

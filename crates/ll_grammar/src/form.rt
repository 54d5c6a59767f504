//! Symbols, grammars and the moves of a derivation.

/// What a way is written in: a word of a class, a part of the text, or an action, which no word stands for and which
/// tells whoever follows the derivation what to do.
#[derive(Clone, Copy)]
pub enum Symbol {
    Terminal(u8),
    Nonterminal(u8),
    Action(u8),
}

/// A grammar. Its nonterminals are called parts, and a part's productions its ways.
///
/// All ways stand one behind the other: way `k` has the symbols from where the way before ends up to place `ends[k]`, and the
/// reader takes it at the classes of the set `lookaheads[k]`, by its bits. Part `n` has the ways from where those of the part
/// before end up to `parts[n]`. A text is one of the part `start`, and the class `end_mark` stands for the end of its words.
#[derive(Clone, Copy)]
pub struct Grammar<'a> {
    pub symbols: &'a [Symbol],
    pub ends: &'a [u16],
    pub parts: &'a [u16],
    pub lookaheads: &'a [u128],
    pub start: u8,
    pub end_mark: u8,
}

/// A step of a leftmost derivation: the next word is taken; the first part, of this number, is spelled in its way of this
/// number, from 0; or an action is met.
#[derive(Clone, Copy, Debug, PartialEq, Eq)]
pub enum Move {
    Shift,
    Expand(u8, u16),
    Act(u8),
}

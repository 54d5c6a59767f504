//! The grammar of texts, and the same grammar from expressions on.

ghost use Rattle.std.specs.Prelude.{◌≡◌};
ghost use Rattle.ll_grammar.specs.Reader.{IsFlat, rules_of, table_of};
ghost use Rattle.res_grammar.specs.Expressions.{expression_table};
ghost use Rattle.res_grammar.specs.Language.{language_certificate, language_rules, language_table};

use crate::tables::{EXPRESSION, LANGUAGE};
use ll_grammar::Grammar;

/// The grammar of texts.
#[tactic(auto, unfolding(crate::specs::Language::language_rules, crate::specs::Language::language_table))]
pub fn grammar_of_texts() -> Grammar<'static>
    ensures flat { IsFlat result }
    ensures rules { rules_of result ≡ language_rules }
    ensures table { table_of result language_certificate ≡ language_table }
    ensures start { result.start ≡ language_table.start }
{
    LANGUAGE
}

/// The same grammar, from expressions on.
#[tactic(auto, unfolding(crate::specs::Language::language_rules, crate::specs::Language::language_table))]
pub fn grammar_of_expressions() -> Grammar<'static>
    ensures flat { IsFlat result }
    ensures rules { rules_of result ≡ language_rules }
    ensures table { table_of result language_certificate ≡ expression_table }
    ensures start { result.start ≡ expression_table.start }
{
    Grammar {
        start: EXPRESSION,
        ..LANGUAGE
    }
}

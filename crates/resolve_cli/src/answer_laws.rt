//! Laws of answers: that the words have one, and what it says of a run. The functions do nothing: their contracts are what is proved.

ghost use Rattle.resolve_cli.specs.Headline.{Headline};
ghost use Rattle.resolve_cli.specs.Resolves.{OneAnswer};

use main_form::built_is_formed;
use main_prover::laws::{modules_are_formed, none_first, one_first, proved_is_valid};
use main_vcs::laws::{conditions_are_sound, events_are_good};
use module_parser::one_spelling;
use res_lexer::{one_refusal, read_or_refused};
use stack_machine::laws::code_simulates;

/// Over given files and a given input the words have at most one answer: one status, and one list of bytes for out.
pub fn one_answer()
    ensures { OneAnswer }
{
    read_or_refused();
    one_refusal();
    one_spelling();
    one_first();
    none_first();
}

/// Where words are answered as `Done`, or as `StepsSpent`, they run a file whose text spells components that are a module without a
/// mistake, with valid conditions. On every input the machine is never stuck on its code and writes what the module means and what Main
/// claims, and all events are good. The bytes are the lines of what the machine has written on the numbers of this input after so many
/// instructions as the words allow: at `Done` the run is over, and else it goes on.
pub fn headline()
    ensures { Headline }
{
    built_is_formed();
    proved_is_valid();
    conditions_are_sound();
    events_are_good();
    modules_are_formed();
    code_simulates();
}

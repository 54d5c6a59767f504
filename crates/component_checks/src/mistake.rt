//! What can be wrong with a component.

use facility_bind::ArgError;
use math_types::SortError;
use module_table::NameError;
use type_modes::ModeError;

/// What is wrong with a component, and where: a name of another component, an argument of a declaration, a clause without its
/// sort, or a rule of types and modes that is broken. Places are offsets in the component's file, from 0.
#[derive(Debug, Drop)]
pub enum Mistake {
    Names(NameError),
    Args(ArgError),
    Sorts(SortError),
    Modes(ModeError),
}

//! Laws of the definitions. The functions do nothing: their contracts are what is proved.

ghost use Rattle.math_types.specs.Laws.{AcceptedHaveSorts};

/// The term of an accepted expression has the sort of the expression, where its names mean terms of the sorts that are known of them.
pub fn accepted_have_sorts()
    ensures { AcceptedHaveSorts }
{}

//! Laws of answers. Every function here has an empty body, and its clauses are about the definitions alone.
ghost use Rattle.cg_map.specs.Laws.{IsOneAnswer, IsAlwaysAnswered, IsLegalAnswer, IsMappedByHub};

/// States that there is one answer, except for the certificate that is shown.
pub fn one_answer()
    ensures { IsOneAnswer }
{}

/// States that there is always an answer, by definitions alone, and that a mapping in an answer is legal.
pub fn always_answered()
    ensures some { IsAlwaysAnswered }
    ensures legal { IsLegalAnswer }
{}

/// States that the answer is a mapping where the hub suffices at the last interval that is tried: the search doesn't
/// spend its moves without a result.
pub fn complete_by_hub()
    ensures { IsMappedByHub }
{}

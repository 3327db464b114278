//! What the grammar says of all texts.
ghost use Rattle.cg_c_syntax.specs.Source.{OneSource, NoFault, OneFault, NoneGoesOn, SomeGoesOn};

/// States that the grammar gives bytes one tree or one fault, that no source goes on with the token of a fault, and that
/// but for the limit of open constructs some source begins with the tokens before it.
pub fn one_reading()
    ensures source { OneSource }
    ensures none { NoFault }
    ensures fault { OneFault }
    ensures ends { NoneGoesOn }
    ensures begins { SomeGoesOn }
{}

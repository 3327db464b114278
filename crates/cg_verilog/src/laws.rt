//! Laws of modules and their texts. Every function here has an empty body, and its clauses are about the definitions
//! alone.
ghost use Rattle.cg_verilog.specs.Laws.{AreOne, AreOneInPrint, AreWritten, IsPrinted};

/// States that the printed text of a module has the module's tokens, so it is read as that module.
pub fn printed()
    ensures { IsPrinted }
{}

/// States that a module is determined by its tokens, and by its printed text.
pub fn one_module()
    ensures tokens { AreOne }
    ensures text { AreOneInPrint }
{}

/// States that the tokens of any module are those of some bytes.
pub fn written()
    ensures { AreWritten }
{}

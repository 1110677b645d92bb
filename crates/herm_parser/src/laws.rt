//! Laws of the parser's answers. No function here does any work: each states a law, which the check proves.
ghost use Rattle.herm_parser.specs.Laws.{HasOneParse, ParsedHasNoFault, HasOneFault};

/// For each list of tokens `parse` has one answer, but for want of memory: one program, with one numbering of its statements, or
/// one fault at one place.
pub fn has_one_answer()
    ensures parse { HasOneParse }
    ensures parsed { ParsedHasNoFault }
    ensures fault { HasOneFault }
{}

//! Laws over the definitions of texts: each is the contract of a function that does nothing, so that it is proved.

ghost use Rattle.pim_base.specs.Texts.{IsTrace};
ghost use Rattle.pim_base.specs.Scripts.{IsScript};
ghost use Rattle.pim_text.specs.Laws.{AtMostOneIsFirst, ValidHasNone};

/// At most one line of a text is the first that is invalid in a trace, and a trace has none.
pub fn first_bad_line_law()
    ensures at_most_one { AtMostOneIsFirst IsTrace }
    ensures valid { ValidHasNone IsTrace }
{}

/// At most one line of a text is the first that is invalid in a script, and a script has none.
pub fn first_bad_script_line_law()
    ensures at_most_one { AtMostOneIsFirst IsScript }
    ensures valid { ValidHasNone IsScript }
{}

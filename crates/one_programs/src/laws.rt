// The laws of one program.
ghost use Rattle.one_programs.specs.Laws.{OneSide, OneOutline, OneSideReport, OneOutlineReport};

/// A side has one frame and one program.
pub fn one_side_law()
    ensures { OneSide }
{}

/// An outline has one frame and one program.
pub fn one_outline_law()
    ensures { OneOutline }
{}

/// What is reported of a side is one: its frame, counts and groups; and so are the numbers of its islands.
pub fn one_side_report_law()
    ensures { OneSideReport }
{}

/// What is reported of an outline is one: its frame, its counts and its bridges.
pub fn one_outline_report_law()
    ensures { OneOutlineReport }
{}

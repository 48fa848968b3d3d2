// The laws of drill lists.
ghost use Rattle.drill_plan.specs.Laws.{EntriesLaw, LimitsLaw, OnePlan};
ghost use Rattle.drill_plan.specs.Limits.{FewDiametersLaw};

use excellon::keeps_pace;

/// A file has one drill list.
pub fn one_plan_law()
    ensures { OnePlan }
{}

/// Each hole and each slot of a file stands in its drill list once, under the tool for its diameter, a slot of no
/// length as a hole, and nothing else does.
pub fn entries_law()
    ensures { EntriesLaw }
{}

/// A drill list has at most 9,999 tools and 10,000 holes and slots, all of them on the board, where the file has no
/// more diameters and holes and slots, and these are on the board.
pub fn limits_law()
    ensures { LimitsLaw }
{}

/// The holes and slots of a file that was read have at most 9,999 diameters.
pub fn few_diameters_law()
    ensures { FewDiametersLaw }
{
    keeps_pace();
}

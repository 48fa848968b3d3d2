// The law of the spelling.
ghost use Rattle.ngc_writer.specs.Spelled.{SpellingLaw};

/// The text of lines that have a spelling stands for these lines.
pub fn spelling_law()
    ensures { SpellingLaw }
{}

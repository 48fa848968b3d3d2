// The laws of the spelling.
ghost use Rattle.grid_writer.specs.Laws.{PlainTextLaw, SpellingOverLaw};

/// Plain lines are spelled as where there is no surface.
pub fn plain_text_law()
    ensures { PlainTextLaw }
{}

/// The text of a program that is written stands for its lines, with or without a grid of probes.
pub fn spelling_over_law()
    ensures { SpellingOverLaw }
{}

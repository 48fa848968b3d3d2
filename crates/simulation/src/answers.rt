// The answers of a probe.
ghost use Rattle.std.specs.Prelude.{◌≡◌, ◌⊎◌, ◌<◌, ◌^◌, ◌++◌, [], length, true, false, MatchResult, IfOk};
ghost use Rattle.std.specs.List.{cons_option};
ghost use Rattle.std.specs.Str.Lines.{lines};
ghost use Rattle.fixed_num.specs.Values.{read_at};
ghost use Rattle.simulation.specs.Answers.{within_reach, answer_of, is_wrong, answers_of, GivesAnswers, SpellAnswers, AnswersLaw};

use board_base::is_coordinate;
use fixed_num::read_decimal;
use ngc_reader::{NgcError, NgcKind};
use std::alloc::Global;
use text_cut::{next_line, trimmed};

/// Bytes are read as the answers that their lines spell, and as no others.
pub fn answers_law()
    ensures { AnswersLaw }
{}

// The answer that a text is, in nanometres.
fn answer_in(text: &[u8]) -> Option<i64>
    ensures { result ≡ within_reach (read_at 6 text.now) }
{
    let Ok(answer) = read_decimal(text, 6) else {
        return None;
    };
    if is_coordinate(answer) {
        Some(answer as i64)
    } else {
        None
    }
}

// Adds the answer that a line is, unless the line is passed over.
#[tactic(auto, using(crate::proofs::AnswerLaws::nothing_answered))]
fn add_answer(answers: &mut Vec<i64>, line: &[u8]) -> Result<(), NgcKind>
    ensures { MatchResult result
        (λ _. (is_wrong line.now ≡ false) × (answers.new.items ≡ answers.old.items ++ cons_option (answer_of line.now) []))
        (λ kind. (kind ≡ NgcKind.Memory) ⊎ ((kind ≡ NgcKind.BadNumber) × (is_wrong line.now ≡ true))) }
{
    let text = trimmed(line);
    if text.is_empty() {
        return Ok(());
    }
    let Some(answer) = answer_in(text) else {
        return Err(NgcKind::BadNumber);
    };
    match answers.push(answer) {
        Ok(()) => Ok(()),
        Err(_) => Err(NgcKind::Memory),
    }
}

// The answers of all lines, in their order.
#[tactic(auto, unfolding(crate::specs::Answers::answers_of))]
fn all_answers(alloc: Global, bytes: &[u8]) -> Result<Vec<i64>, NgcError>
    requires { length bytes.now < 2 ^ 32 }
    ensures { GivesAnswers result (answers_of bytes.now) }
{
    let mut answers = Vec::new(alloc);
    let mut rest = bytes;
    let mut line: u32 = 0;
    while let Some((text, behind)) = next_line(rest) {
        line += 1;
        match add_answer(&mut answers, text) {
            Ok(()) => {}
            Err(kind) => return Err(NgcError { kind, line }),
        }
        rest = behind;
    }
    Ok(answers)
}

/// The answers that the lines of a file are, in nanometres. A line that is empty or has spaces alone is passed over.
///
/// # Errors
///
/// `BadNumber` and the number of the first line that, without the spaces at its ends, isn't one decimal in millimetres,
/// at most 500 in size, whose digits past the sixth are 0. Want of memory may come at any line.
pub fn read_probes(alloc: Global, bytes: &[u8]) -> Result<Vec<i64>, NgcError>
    requires { length bytes.now < 2 ^ 32 }
    // The lines are read as the answers that they spell.
    ensures spelled { IfOk result (λ answers. SpellAnswers (lines bytes.now) answers.items) }
    // Which line is the first that is none.
    ensures exact { GivesAnswers result (answers_of bytes.now) }
{
    answers_law();
    all_answers(alloc, bytes)
}

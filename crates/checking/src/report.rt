// The lines of the islands that are left joined.
ghost use Rattle.std.specs.Prelude.{◌≡◌, map, string_bytes, IfOk};
ghost use Rattle.mill_outputs.specs.Report.{numbers_text as numbers_text_of};
ghost use Rattle.checking.specs.Checked.{joined_line as joined_line_of, joined_lines as joined_lines_of};

use separation_check::Group;
use std::alloc::{AllocError, Global};

// The numbers of a group, each behind a space.
#[tactic(auto, unfolding(mill_outputs::specs::Report::numbers_text))]
fn numbers_text(alloc: Global, group: &Group) -> Result<String, AllocError>
    ensures { IfOk result (λ text. string_bytes text ≡ numbers_text_of group.now) }
{
    let mut text = String::new(alloc);
    for k in 0..group.len() {
        let n = *group.at(k);
        let number = format!(in alloc; " {n}")?;
        text.push_str(&number)?;
    }
    Ok(text)
}

// The line of a group.
#[tactic(auto, unfolding(crate::specs::Checked::joined_line))]
fn joined_line(alloc: Global, group: &Group) -> Result<String, AllocError>
    ensures { IfOk result (λ text. string_bytes text ≡ joined_line_of group.now) }
{
    let numbers = numbers_text(alloc, group)?;
    Ok(format!(in alloc; "joined{numbers}\n")?)
}

/// A line for each group of islands that are left joined. The only error is want of memory.
#[tactic(auto, unfolding(crate::specs::Checked::joined_lines))]
pub fn joined_lines(alloc: Global, groups: &Vec<Group>) -> Result<String, AllocError>
    ensures { IfOk result (λ text. string_bytes text ≡ joined_lines_of groups.now.items) }
{
    let mut text = String::new(alloc);
    for group in groups {
        let line = joined_line(alloc, group)?;
        text.push_str(&line)?;
    }
    Ok(text)
}

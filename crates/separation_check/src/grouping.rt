// The groups of islands that stand in one class.
ghost use Rattle.std.specs.Prelude.{◌≡◌, ◌<◌, ◌≤◌, ℕ, true, false, not, List, IfOk, length, replicate};
ghost use Rattle.board_base.specs.declared.places.Cell.{Cell};
ghost use Rattle.cell_sets.specs.Chains.{IsClasses};
ghost use Rattle.cell_sets.specs.Groups.{AreGroups};
ghost use Rattle.separation_check.specs.Unswept.{is_unswept, island_of, class_of};
ghost use Rattle.separation_check.specs.Meetings.{islands_of, classes_of};
ghost use Rattle.separation_check.specs.Grouping.{at, AreSome, IsTable, IsListed, IsMembers, AreInOrder, AreAllFound};

use crate::meetings::{Meeting, meetings_of};
use board_base::Items;
use cell_grid::Workbench;
use std::alloc::{AllocError, Global};

// How many islands make a group.
const SMALLEST_GROUP: usize = 2;

/// The numbers of the islands that stand in one class, ascending.
pub type Group = Items<u16>;

// So many marks, none set.
fn marks(alloc: Global, n: usize) -> Result<Vec<bool>, AllocError>
    ensures { IfOk result (λ v. v.items ≡ replicate n false) }
{
    vec![in alloc; false; n]
}

// Takes all marks away.
fn clear(table: &mut [bool])
    ensures { table.new ≡ replicate (length table.old) false }
{
    table.fill(false);
}

// One more than the greatest island number.
fn islands_end(meetings: &[Meeting]) -> usize
    ensures each { (a : ℕ) → at (islands_of meetings.now) a < result }
    ensures small { result ≤ 65536 }
{
    let mut end = 1;
    'meetings: for meeting in meetings {
        if end <= meeting.island as usize {
            end = meeting.island as usize + 1;
        }
    }
    end
}

// One more than the greatest class number.
fn classes_end(meetings: &[Meeting]) -> usize
    ensures { (a : ℕ) → at (classes_of meetings.now) a < result }
{
    let mut end = 1;
    'meetings: for meeting in meetings {
        if end <= meeting.class as usize {
            end = meeting.class as usize + 1;
        }
    }
    end
}

// Marks the islands of one class.
fn mark(meetings: &[Meeting], class: u32, table: &mut [bool])
    requires some { AreSome (islands_of meetings.now) }
    requires few { (a : ℕ) → at (islands_of meetings.now) a < length table.old }
    ensures table { IsTable (islands_of meetings.now) (classes_of meetings.now) class table.new (length meetings.now) }
    ensures len { length table.new ≡ length table.old }
{
    clear(table);
    'meetings: for meeting in meetings {
        if meeting.class == class {
            table[meeting.island as usize] = true;
        }
    }
}

// The numbers from 1 on that have a mark, ascending.
fn listed(alloc: Global, table: &[bool]) -> Result<Vec<u16>, AllocError>
    requires { length table.now ≤ 65536 }
    ensures { IfOk result (λ v. IsListed table.now (length table.now) v.items) }
{
    let mut list = Vec::new(alloc);
    'islands: for u in 0..table.len() {
        if u != 0 && table[u] {
            list.push(u as u16)?;
        }
    }
    Ok(list)
}

// The islands of one class, ascending.
fn members(
    alloc: Global,
    meetings: &[Meeting],
    class: u32,
    table: &mut [bool],
) -> Result<Vec<u16>, AllocError>
    requires some { AreSome (islands_of meetings.now) }
    requires few { (a : ℕ) → at (islands_of meetings.now) a < length table.old }
    requires small { length table.old ≤ 65536 }
    ensures { IfOk result (λ v. IsMembers (islands_of meetings.now) (classes_of meetings.now) class v.items) }
{
    mark(meetings, class, table);
    let found = listed(alloc, table)?;
    Ok(found)
}

// The classes, in the order of their first meetings.
fn classes_in_order(
    alloc: Global,
    meetings: &[Meeting],
    seen: &mut [bool],
) -> Result<Vec<u32>, AllocError>
    requires some_islands { AreSome (islands_of meetings.now) }
    requires some_classes { AreSome (classes_of meetings.now) }
    requires few { (a : ℕ) → at (classes_of meetings.now) a < length seen.old }
    ensures { IfOk result (λ v. AreInOrder (islands_of meetings.now) (classes_of meetings.now) v.items (length meetings.now)) }
{
    clear(seen);
    let mut list = Vec::new(alloc);
    'meetings: for meeting in meetings {
        let class = meeting.class;
        if !seen[class as usize] {
            seen[class as usize] = true;
            list.push(class)?;
        }
    }
    Ok(list)
}

// The groups of the classes that hold two or more islands, by the list of all classes.
fn groups_by(
    alloc: Global,
    meetings: &[Meeting],
    list: &[u32],
    table: &mut [bool],
) -> Result<Vec<Group>, AllocError>
    requires some { AreSome (islands_of meetings.now) }
    requires few { (a : ℕ) → at (islands_of meetings.now) a < length table.old }
    requires small { length table.old ≤ 65536 }
    requires order { AreInOrder (islands_of meetings.now) (classes_of meetings.now) list.now (length meetings.now) }
    ensures { IfOk result (λ v. AreAllFound (islands_of meetings.now) (classes_of meetings.now) v.items) }
{
    let mut groups = Vec::new(alloc);
    'classes: for class in list {
        let islands = members(alloc, meetings, *class, table)?;
        if islands.len() >= SMALLEST_GROUP {
            groups.push(Items::of(islands))?;
        }
    }
    Ok(groups)
}

// The groups of the meetings.
fn groups_of(alloc: Global, meetings: &[Meeting]) -> Result<Vec<Group>, AllocError>
    requires some_islands { AreSome (islands_of meetings.now) }
    requires some_classes { AreSome (classes_of meetings.now) }
    ensures { IfOk result (λ v. AreAllFound (islands_of meetings.now) (classes_of meetings.now) v.items) }
{
    let mut seen = marks(alloc, classes_end(meetings))?;
    let list = classes_in_order(alloc, meetings, seen.as_mut_slice())?;
    let mut table = marks(alloc, islands_end(meetings))?;
    let groups = groups_by(alloc, meetings, list.as_slice(), table.as_mut_slice())?;
    Ok(groups)
}

/// The groups of the islands: for each class of cells outside Swept that has kept cells of two or more
/// islands, the numbers of those, in the order of the classes' first kept cells. The labels are the
/// islands' numbers, and the working labels those of the classes. An error where memory is wanting.
pub fn groups(alloc: Global, bench: &Workbench) -> Result<Vec<Group>, AllocError>
    requires { IsClasses (is_unswept bench.now) (class_of bench.now) }
    ensures { IfOk result (λ v. AreGroups (λ c. is_unswept bench.now c ≡ true) (island_of bench.now) v.items) }
{
    let meetings = meetings_of(alloc, bench)?;
    let found = groups_of(alloc, meetings.as_slice())?;
    Ok(found)
}

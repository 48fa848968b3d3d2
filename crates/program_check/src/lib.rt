//! The laws on which a check of any program against its board stands: which kept cells low moves hit and which one
//! is named, which cells deep moves mark, and which groups are printed. All of it is over definitions: no code of a
//! check belongs here, and no file says again what cells, cuttings and moves are in the crates below.
#![tactic(auto)]

mod laws;

pub use laws::{
    along_law, clear_law, flat_law, mark_law, one_hit_law, own_chain_law, own_clear_law,
    own_frame_law, own_law, own_mark_law, parts_law, plane_law, rising_law, scan_law, unit_law,
    whole_law,
};

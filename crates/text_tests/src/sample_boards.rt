// Sample boards, worked out by hand.

use board_gen::sample_board;
use std::test::*;

#[test]
fn five_pads_have_two_tracks(rt: HostRuntime) -> Result<(), Fail> {
    let board = sample_board(rt.alloc(), 5)?;
    let front = b"%FSLAX46Y46*%
%MOMM*%
%ADD10C,1.600000*%
%ADD11C,0.400000*%
D10*
X0Y0D03*
X2540000Y0D03*
X5080000Y0D03*
X7620000Y0D03*
X10160000Y0D03*
D11*
X0Y0D02*
X2540000Y0D01*
X7620000Y0D02*
X10160000Y0D01*
M02*
";
    assert_eq!(rt; board.front.as_slice(), front.as_slice());
    Ok(())
}

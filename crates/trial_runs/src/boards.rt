// Layers that were worked out by hand.

/// Two discs, 1.2 mm apart.
pub const TWO_DISCS: &[u8] =
    b"%FSLAX46Y46*%\n%MOMM*%\n%ADD10C,0.100000*%\nD10*\nX100000Y100000D03*\nX1300000Y100000D03*\nM02*\n";

/// One small disc.
pub const ONE_DISC: &[u8] =
    b"%FSLAX46Y46*%\n%MOMM*%\n%ADD10C,0.000001*%\nD10*\nX100000Y100000D03*\nM02*\n";

/// A flash of an aperture without a size.
pub const POINT: &[u8] = b"%FSLAX46Y46*%\n%MOMM*%\n%ADD10C,0*%\nD10*\nX100000Y100000D03*\nM02*\n";

/// Two discs near each other: no allowed centre lies between these two.
pub const NEAR_DISCS: &[u8] =
    b"%FSLAX46Y46*%\n%MOMM*%\n%ADD10C,0.100000*%\nD10*\nX100000Y100000D03*\nX500000Y100000D03*\nM02*\n";

/// Two pads and a track between them.
pub const TRACK: &[u8] = b"%TF.GenerationSoftware,KiCad,Pcbnew,7.0.0*%\n%FSLAX46Y46*%\n\
    G04 Gerber Fmt 4.6, Leading zero omitted, Abs format (unit mm)*\n%MOMM*%\n%LPD*%\nG01*\n\
    %TA.AperFunction,ComponentPad*%\n%ADD10C,1.600000*%\n%TD*%\n%ADD11C,0.400000*%\nD10*\n\
    X1000000Y-1000000D03*\nX3540000Y-1000000D03*\nD11*\nX1000000Y-1000000D02*\n\
    X3540000Y-1000000D01*\nM02*\n";

/// Two squares of copper, 0.2 mm apart.
pub const SEPARATED_REGIONS: &[u8] =
    b"%FSLAX46Y46*%%MOMM*%G36*X-400000Y0D02*X0D01*Y400000D01*X-400000D01*Y0D01*G37*\
    G36*X200000Y0D02*X600000D01*Y400000D01*X200000D01*Y0D01*G37*M02*";

/// Two squares of copper, 0.16 mm apart.
pub const JOINED_REGIONS: &[u8] =
    b"%FSLAX46Y46*%%MOMM*%G36*X-400000Y0D02*X0D01*Y400000D01*X-400000D01*Y0D01*\
    X160000D02*X560000D01*Y400000D01*X160000D01*Y0D01*G37*M02*";

/// A ring of copper, whose contour leads to its inner side and back along one line.
pub const CONTOUR_THROUGH_A_CORNER: &[u8] =
    b"%FSLAX46Y46*%%MOMM*%G36*X0Y0D02*X4000000D01*Y4000000D01*X0D01*Y1000000D01*X1000000D01*\
    Y3000000D01*X3000000D01*Y1000000D01*X1000000D01*X0D01*Y0D01*G37*M02*";

/// A square of copper with a round hole, and a pad in the hole.
pub const HOLE_WITH_A_LONE_PAD: &[u8] =
    b"%FSLAX46Y46*%%MOMM*%%ADD10C,5*%%ADD11C,0.5*%G36*X0Y0D02*X6000000D01*Y6000000D01*X0D01*\
    Y0D01*G37*%LPC*%D10*X3000000Y3000000D03*%LPD*%D11*X3000000Y3000000D03*M02*";

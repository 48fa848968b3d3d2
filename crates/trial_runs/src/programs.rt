// Sizes of commands, and parts of the programs that they write.

/// The pitch, the diameter and the tolerance of some commands.
pub const USUAL: [&str; 3] = ["--pitch=0.2", "--mill-diameters=0.4", "--tolerance=0.14"];

/// The same in finer cells.
pub const FINE: [&str; 3] = ["--pitch=0.02", "--mill-diameters=0.2", "--tolerance=0.055"];

/// The lines of a program before its cuts.
pub const HEAD: &str =
    "G17 G21 G61 G90 G94\nG0 Z10.000000\nM5\nT1 M6\nS10000 M3\nG4 P1.000000\nG0 Z2.000000\n";

/// The lines behind them.
pub const FOOT: &str = "G0 Z10.000000\nM5\nM2\n";

/// Round one disc and then round the other.
pub const CUTS_OF_TWO_DISCS: &str = "G0 X-0.300000 Y-0.300000\nG1 Z-0.100000 F100.000000\n\
    G1 X0.500000 Y-0.300000 F200.000000\nG1 X0.500000 Y0.500000\nG1 X-0.300000 Y0.500000\n\
    G1 X-0.300000 Y-0.100000\nG0 Z2.000000\n\
    G0 X0.900000 Y-0.300000\nG1 Z-0.100000 F100.000000\n\
    G1 X1.700000 Y-0.300000 F200.000000\nG1 X1.700000 Y0.500000\nG1 X0.900000 Y0.500000\n\
    G1 X0.900000 Y-0.100000\nG0 Z2.000000\n";

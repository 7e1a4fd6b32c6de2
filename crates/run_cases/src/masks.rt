//! CIF texts: what they draw, their faults, the rules that their boxes break, and the boxes that are no transistors.

use crate::cases::SHIPPED;
use crate::faults::BURIED;

const CHECK: &str = "check d --tech t";

const EXTRACT: &str = "extract d --tech t";

/// Texts of the program's own form, and the boxes that they draw: in grains, in the order of the file.
pub const OWN: [(&str, &str); 3] = [
    (
        "DS 1 1 1; L NM; B 1200 1800 600 900; DF; C 1 T 100 0; E",
        "NM 200 0 2400 3600",
    ),
    ("DS 7 3 2; L ND; B 4 2 0 -6; DF; C 7; E", "ND -6 -21 12 6"),
    (
        "L NB; B 2 2 1 1; (DS) DS 1; L NG; B 1 1 0 0; L NP; B 2 4 0 0; DF; 9 a (b ;B 4 4 2 2; C 1 T 3 0 T 2 -1; L X; B 1 1 0 0; E ",
        "NB 0 0 4 4, NB 0 0 8 8, NP 8 -6 4 8",
    ),
];

/// Texts of other tools: all eight turns; calls in definitions; and whole files in the manner of three tools.
pub const FOREIGN: [(&str, &str); 9] = [
    ("DS 1; DF; C 1 T 1073741824 0 T 1 0 T -1 0; E", ""),
    ("DS 1; DF; DS 2 3 2; C 1 T 4 -2 T 0 8; DF; E", ""),
    (
        "DS 1; L NM; B 4 2 12 21; DF; C 1; C 1 R 0 1; C 1 R -5 0; C 1 R 0 -1; C 1 M X; C 1 M X R 0 9; C 1 M Y; C 1 M X R 0 -1; E",
        "NM 20 40 8 4, NM -44 20 4 8, NM -28 -44 8 4, NM 40 -28 4 8, NM -28 40 8 4, NM -44 -28 4 8, NM 20 -44 8 4, NM 40 20 4 8",
    ),
    (
        "DS 1 1 1; L NM; B 1200 1800 600 900; DF; DS 2 1 1; C 1 M X T 3000 0; C 1 R 0 1; DF; C 2 T 100 0; E",
        "NM 3800 0 2400 3600, NM -3400 0 3600 2400",
    ),
    (
        "DS 1 2 1; L ND; B 2 2 1 1; DF; DS 2 3 2; C 1 T 2 0; DF; C 2 T 10 0; E",
        "ND 26 0 8 8",
    ),
    (
        "(a pair of cells, one of them mirrored);\nDS 1 1 1;\n9 via;\nL NC;\nB 400 400 0,0;\nL NM;\nB 800 800 0,0;\nDF;\nDS 2 1 1;\n9 pair;\nC1 T1000,2000;\nC1 MX T-1000,2000;\nL NP;\nB 200 600 0,300;\nDF;\n9 TOP;\nC2 R0,1 T5000,0;\nE\n",
        "NC 5600 1600 800 800, NM 5200 1200 1600 1600, NC 5600 -2400 800 800, NM 5200 -2800 1600 1600, NP 8800 -200 1200 400",
    ),
    (
        "DS 1 25 2;\n9 contact;\nL NM;\n    B 32 32 16 16;\nL NC;\n    B 16 16 16 16;\nDF;\nDS 2 50 2;\n9 row;\n94 out 0 0 NM;\nL NM;\n    B 40 8 20 4;\nC 1 T 48 0;\nC 1 R -1 0 T 8 16;\nDF;\nC 2;\nEnd\n",
        "NM 0 0 2000 400, NM 2400 0 800 800, NC 2600 200 400 400, NM -400 0 800 800, NC -200 200 400 400",
    ),
    (
        "DS1 2 1; 9 leg; LND; B8x24y4 12; LNP; B16x8y4 12; DF;\nDS2; C1 T100 0 MY; C1 R0-1 MX T-100 50; DF; DS3 1 1; LXX; B2 2 0 0; DF;\nC2; C3 MX; C2 MX MX R-1 0; LNI; B20 20 10 10; E (done)\n",
        "ND 200 -96 32 96, NP 184 -64 64 32, ND -296 68 96 32, NP -264 52 32 64, ND -232 0 32 96, NP -248 32 64 32, ND 200 -100 96 32, NP 232 -116 32 64, NI 0 0 40 40",
    ),
    (
        "DS 1;L NM;B 2 2 0 0;DF;$1-64 DS ^;C @;DF;$C 64 M Y;E",
        "NM -2 -2 4 4",
    ),
];

/// Faults of texts, and broken rules.
pub const VERDICTS: [([&str; 4], &str); 6] = [
    ([CHECK, SHIPPED, "%", ""], TEXTS),
    ([CHECK, SHIPPED, "%", ""], RULES),
    ([CHECK, SHIPPED, "%", ""], SEVERAL),
    ([CHECK, BURIED, "%", ""], WINDOWS),
    ([CHECK, SHORT, "%", ""], OTHERS),
    ([EXTRACT, BURIED, "%", ""], CROSSED),
];

// The faults in the order of their kinds, with those of calls; numbers at their limits; and symbols that are called 64
// deep and one deeper, and such as have no boxes, too many, and as many as there may be.
const TEXTS: &str = "
12 sticks: byte 0: BadCommand = B 1 2
12 sticks: byte 0: BadCommand = B 1 (x
12 sticks: byte 0: BadCommand = DF; E
12 sticks: byte 6: BadNumber = L NM; B 0 1 0 0
12 sticks: byte 0: BadNumber = C 1 T 1073741825 0;E
12 sticks: byte 0: BadNumber = DS 1 65537 1;E
12 sticks: byte 6: NestedDefinition = DS 1;/DS 2; DF; E
12 sticks: byte 6: NestedDefinition = DS 1; E
12 sticks: byte 10: RepeatedSymbol = DS 1; DF; DS 1; DF; E
12 sticks: byte 0: UnknownSymbol = C 1; DS 1; DF; E
12 sticks: byte 12: NoLayer = L NM; DS 1; B 2 2 0 0; DF; E
12 sticks: byte 16: OddScale = DS 1 3 2; L NM; B 3 2 0 0; DF; E
12 sticks: byte 15: NoEnd = L NM; B 1 1 0 0
12 sticks: byte 7: NoEnd = L NM (x
12 sticks: byte 6: NoEnd = L NM; 
12 sticks: byte 4: NoEnd = E (x
12 sticks: byte 2: AfterEnd = E/L NM;
12 sticks: byte 10: BadCommand = DS 1; DF; C 1 M Z; E
12 sticks: byte 10: BadCommand = DS 1; DF; C 1 R 1; E
12 sticks: byte 31: BadNumber = DS 1; L NM; B 900 900 0 0; DF; C 1 R 1 1; E
12 sticks: byte 10: BadNumber = DS 1; DF; C 1 R 0 0
12 sticks: byte 10: BadNumber = DS 1; DF; C 1 T 1073741824 0 M X T -1 0; E
12 sticks: byte 6: UnknownSymbol = DS 1; C 1; DF; E
12 sticks: byte 20: OddScale = DS 1; DF; DS 2 1 2; C 1 T 0 1; DF; E
12 sticks: byte 17: OddScale = DS 1;DF;DS 2 1 2;C 1 T 1 0 T 1 0;DF;E
12 sticks: byte 17: OddScale = DS 1;DF;DS 2 1 2;C 1 T 1 0 M X T 1 0;DF;E
12 sticks: byte 17: NoEnd = DS 1; DF; C 1 M X
12 sticks: byte 52: NoLayer = DS 1 2 1; L ND; B 2 2 1 1; DF; DS 2 3 2; C 1 T 2 0; B 2 2 0 0; DF; E
# Numbers of a CIF text, the sum of a call's shifts, a scale, and the name of a layer.
0 = L NM; B 1200 1200 1073741824 -1073741824; E
12 sticks: byte 6: BadNumber = L NM; B 1200 1200 1073741825 -1073741824; E
0 = DS 1; DF; C 1 T 1073741824 0; E
12 sticks: byte 10: BadNumber = DS 1; DF; C 1 T 1073741824 0 T 1 0; E
0 = DS 1 65536 65536; DF; E
12 sticks: byte 0: BadNumber = DS 1 65537 65536; DF; E
0 = L NM01; E
12 sticks: byte 0: BadCommand = L NM012; E
# Symbols.
12 sticks: byte 883: TooDeep = DS 1;DF;$1-64 DS ^;C @;DF;$DS 65 1 2;C 64;DF;E
12 sticks: byte 883: OddScale = DS 1;DF;$1-64 DS ^;C @;DF;$DS 65 1 2;C 64 T 1 0;DF;E
0 = DS 1;DF;$1-64 DS ^;C @;C @;DF;$C 64;E
";

// Each rule at its limit and next to it. A unit of the technologies is 150 in CIF.
const RULES: &str = "
# Widths of 4, 4 and 6 units.
0 = L ND; B 600 600 300 300; L NP; B 600 600 4800 300; L NM; B 900 900 9450 450; E
13 sticks: rule 1: boxes 1 1 = L ND; B 600 600 300 300; L NP; B 600 599 4800 300; L NM; B 899 900 9450 450; E
# A cut of 4 units, with an enclosure of 2 units in metal, and in poly or in diffusion.
0 = L NC; B 600 600 600 600; L NM; B 1200 1200 600 600; L NP; B 1200 1200 600 600; E
0 = L ND; B 1200 1200 600 600; L NM; B 1200 1200 600 600; L NC; B 600 600 600 600; E
13 sticks: rule 2: boxes 2 2 = L NM; B 1200 1200 600 600; L NP; B 1200 1200 600 600; L NC; B 600 601 600 600; E
13 sticks: rule 5: boxes 0 0 = L NC; B 600 600 600 600; L NM; B 1199 1200 600 600; L NP; B 1200 1200 600 600; E
13 sticks: rule 5: boxes 1 1 = L NM; B 1200 1200 600 600; L NC; B 600 600 600 600; L NP; B 1200 1199 600 600; L ND; B 1200 1200 5100 600; E
# Poly and diffusion go past one another by 4 units.
0 = L ND; B 600 1800 1500 1800; L NP; B 1800 600 1500 1800; E
13 sticks: rule 3: boxes 0 1 = L ND; B 600 1800 1500 1800; L NP; B 1801 600 1501 1800; E
0 = L ND; B 1800 600 1800 1500; L NP; B 600 1800 1800 1500; E
13 sticks: rule 3: boxes 0 1 = L ND; B 1801 600 1801 1500; L NP; B 600 1800 1800 1500; E
# Neither crosses a second box.
13 sticks: rule 3: boxes 0 1 = L ND; B 600 4800 1500 3300; L NP; B 1800 600 1500 1800; B 1800 600 1500 3600; E
# Poly and diffusion keep 2 units.
0 = L ND; B 600 600 300 300; L NP; B 600 600 1200 300; E
13 sticks: rule 4: boxes 0 1 = L NP; B 601 600 1200 300; L ND; B 600 600 300 300; E
13 sticks: rule 4: boxes 0 1 = L ND; B 600 600 300 300; L NP; B 600 600 900 900; E
# Metal of different nets keeps 6 units, on the diagonal too.
0 = L NM; B 900 900 450 450; B 900 901 2250 2250; E
13 sticks: rule 6: boxes 0 1 = L NM; B 900 900 450 450; B 901 901 2250 2250; E
0 = L NM; B 900 900 450 450; B 901 900 2250 450; B 2699 900 1350 1350; E
# Metal that touches at a corner, or that poly joins through cuts, is of one net.
0 = L NM; B 900 900 450 450; B 900 900 1350 1350; E
13 sticks: rule 6: boxes 0 1 = L NM; B 900 900 450 450; B 901 900 1351 1350; E
0 = L NP; B 2700 1200 1350 600; L NM; B 1200 1200 600 600; B 1200 1200 2100 600; L NC; B 600 600 600 600; B 600 600 2100 600; E
13 sticks: rule 6: boxes 1 2 = L NP; B 2700 1200 1350 600; L NM; B 1200 1200 600 600; B 1200 1200 2100 600; L NC; B 600 600 600 600; E
# Poly of different nets keeps 4 units.
0 = L NP; B 600 600 300 300; B 600 600 1500 300; E
13 sticks: rule 7: boxes 0 1 = L NP; B 600 600 300 300; B 601 600 1500 300; E
# Diffusion of different nets keeps 6 units.
0 = L ND; B 600 600 300 300; B 600 600 300 1800; E
13 sticks: rule 8: boxes 0 1 = L ND; B 600 600 300 300; B 600 601 300 1800; E
# Two cuts keep 4 units.
0 = L NC; B 600 600 600 600; B 600 600 1800 600; L NM; B 2400 1200 1200 600; L NP; B 2400 1200 1200 600; E
13 sticks: rule 9: boxes 0 2 = L NC; B 600 600 600 600; L NM; B 2400 1200 1200 600; L NC; B 600 600 1799 600; L NP; B 2400 1200 1200 600; E
13 sticks: rule 9: boxes 0 1 = L NC; B 600 600 600 600; B 600 600 600 600; L NM; B 1200 1200 600 600; L NP; B 1200 1200 600 600; E
# A cut keeps 4 units from a channel.
0 = L ND; B 1200 2700 1800 2250; L NP; B 2400 600 1800 1800; L NC; B 600 600 1800 3000; L NM; B 1200 1200 1800 3000; E
13 sticks: rule 10: boxes 0 2 = L ND; B 1200 2700 1800 2250; L NP; B 2400 600 1800 1800; L NC; B 600 600 1800 2999; L NM; B 1200 1200 1800 2999; E
# An implant goes past a channel by 3 units, or keeps 3 units from it.
0 = L ND; B 600 1800 1500 1800; L NP; B 1800 600 1500 1800; L NI; B 1500 1500 1500 1800; E
0 = L ND; B 600 1800 1500 1800; L NP; B 1800 600 1500 1800; L NI; B 300 300 2400 1650; E
13 sticks: rule 11: boxes 0 2 = L ND; B 600 1800 1500 1800; L NP; B 1800 600 1500 1800; L NI; B 1501 1500 1501 1800; E
13 sticks: rule 11: boxes 0 1 = L NI; B 301 300 2400 1650; L ND; B 600 1800 1500 1800; L NP; B 1800 600 1500 1800; E
# A window counts only where there are buried contacts.
0 = L ND; B 600 1800 1500 1800; L NP; B 1800 600 1500 1800; L NB; B 301 300 2550 1650; E
";

// Boxes of which several break rules, and none.
const SEVERAL: &str = "
# The least pair, which is no pair of neighbours.
13 sticks: rule 6: boxes 0 4 = L NM; B 900 900 450 450; B 900 900 10450 450; L NP; B 600 600 300 4800; L NM; B 900 901 10450 2250; B 901 900 2250 450; B 901 900 -1349 450; E
# Nets are looked at only where no rule before is broken.
13 sticks: rule 5: boxes 2 2 = L NM; B 900 900 450 450; B 901 900 2250 450; L NC; B 600 600 4800 300; E
# Poly before diffusion, and both before cuts.
13 sticks: rule 7: boxes 2 3 = L ND; B 600 600 300 300; B 600 601 300 1800; L NP; B 600 600 4800 300; B 600 601 4800 1500; E
# No box.
0 = E
";

// Where there are buried contacts.
const WINDOWS: &str = "
# A window keeps 4 units from a channel.
0 = L ND; B 600 1800 1500 1800; L NP; B 1800 600 1500 1800; L NB; B 300 300 2550 1650; E
13 sticks: rule 12: boxes 0 2 = L ND; B 600 1800 1500 1800; L NP; B 1800 600 1500 1800; L NB; B 301 300 2550 1650; E
# Poly and diffusion are a buried pair under a window that goes past what they have in common by 4 units.
0 = L ND; B 1200 1200 0 0; L NP; B 1200 1200 300 0; L NB; B 2100 2400 150 0; E
13 sticks: rule 3: boxes 0 1 = L ND; B 1200 1200 0 0; L NP; B 1200 1200 300 0; L NB; B 2101 2400 151 0; E
";

// Buried contacts, wider spacings, and an implant that goes less far past a channel than it keeps off one.
const SHORT: &str =
    "version = 2/unit = 150/[width]/diffusion = 4/poly = 4/metal = 6/[spacing]/diffusion = 6/poly = 4/metal = 8/poly_diffusion = 2/cut = 4/cut_channel = 5/implant_channel = 5/buried_channel = 4/[extension]/poly = 4/diffusion = 4/implant = 2/buried = 3/[cut]/size = 4/enclosure = 2/";

// With these numbers.
const OTHERS: &str = "
# Metal keeps 8 units.
0 = L NM; B 900 900 450 450; B 900 900 2550 450; E
13 sticks: rule 6: boxes 0 1 = L NM; B 900 900 450 450; B 901 900 2550 450; E
# A cut keeps 5 units from a channel.
0 = L ND; B 1200 2850 1800 2325; L NP; B 2400 600 1800 1800; L NC; B 600 600 1800 3150; L NM; B 1200 1200 1800 3150; E
13 sticks: rule 10: boxes 0 2 = L ND; B 1200 2850 1800 2325; L NP; B 2400 600 1800 1800; L NC; B 600 600 1800 3149; L NM; B 1200 1200 1800 3149; E
# An implant goes past a channel by 2 units, or keeps 5 units from it.
0 = L ND; B 600 1800 1500 1800; L NP; B 1800 600 1500 1800; L NI; B 1200 1200 1500 1800; E
13 sticks: rule 11: boxes 0 2 = L ND; B 600 1800 1500 1800; L NP; B 1800 600 1500 1800; L NI; B 1201 1200 1501 1800; E
0 = L ND; B 600 1800 1500 1800; L NP; B 1800 600 1500 1800; L NI; B 300 300 2700 1650; E
13 sticks: rule 11: boxes 0 2 = L ND; B 600 1800 1500 1800; L NP; B 1800 600 1500 1800; L NI; B 301 300 2700 1650; E
# A window goes past a buried pair by 3 units.
0 = L ND; B 1200 1200 0 0; L NP; B 1200 1200 300 0; L NB; B 1800 2100 150 0; E
13 sticks: rule 3: boxes 0 1 = L ND; B 1200 1200 0 0; L NP; B 1200 1200 300 0; L NB; B 1801 2100 151 0; E
";

// A window that is too narrow, and piles under one window, of which one box goes too far.
const CROSSED: &str = "
14 sticks: not proper: boxes 0 1 = L ND; B 1200 1200 0 0; L NP; B 1200 1200 300 0; L NB; B 2098 2400 150 0; E
14 sticks: not proper: boxes 1 5 = L ND; B 1200 1200 0 0; L NP; B 1200 1200 300 0; L ND; B 1200 1200 0 0; L NB; B 2100 2400 150 0; L NP; B 1200 1200 300 0; L ND; B 1200 1200 900 0; E
";

//! Work that is split into shares: the answers stay, and the shares meet.

/// Four inverters in a row: one master.
pub const FOUR: &str = "
text: sticks 1/cell inv/contact g diff 0 0/fet d enh h 0 1 8 4/contact o diff 0 2/fet l dep h 0 3 4 8/contact v diff 0 4/contact p poly 1 3/joint m metal 1 2/contact q poly 1 1/port gl left metal 0/port gr right metal 0/port in left poly 1/port out right poly 1/port vl left metal 4/port vr right metal 4/wire metal gl g/wire metal g gr/wire diff g d/wire diff d o/wire diff o l/wire diff l v/wire metal vl v/wire metal v vr/wire poly in d/wire poly l p/wire metal o m/wire metal m p/wire poly q out/wire metal m q/end/grid/row inv inv inv inv/end/
output: DS 1 75 1;/9 inv;/L ND;/B 16 16 20 20;/B 16 24 24 40;/B 16 16 20 56;/B 8 32 20 76;/B 16 16 20 96;/B 8 16 20 24;/B 8 12 20 54;/B 8 12 20 58;/B 8 12 20 94;/L NP;/B 32 8 24 40;/B 24 16 20 76;/B 16 16 52 68;/B 16 16 56 44;/B 12 8 6 40;/B 28 8 42 72;/B 24 8 64 40;/L NC;/B 8 8 20 20;/B 8 8 20 56;/B 8 8 20 96;/B 8 8 52 68;/B 8 8 56 44;/L NM;/B 16 16 20 20;/B 16 16 20 56;/B 16 16 20 96;/B 16 16 52 68;/B 12 12 54 54;/B 16 16 56 44;/B 26 12 13 18;/B 62 12 45 18;/B 26 12 13 94;/B 62 12 45 94;/B 46 12 37 54;/B 12 26 54 61;/B 12 22 54 49;/L NI;/B 20 28 20 76;/DF;/C 1 T 0 0;/C 1 T 5700 0;/C 1 T 11400 0;/C 1 T 17100 0;/E/
report: pass 1 x edges 132 backward 12 rounds 3/cell inv size 38 kept 9/0 -> inv:d 12 margin/inv:d -> inv:q 16 space/inv:q -> inv| 10 margin/pass 2 y edges 197 backward 13 rounds 3/cell inv size 58 kept 64/0 -> inv:#1 9 margin/inv:#1 -> inv:q 13 space/inv:q -> inv:#12 -2 overlap/inv:#12 -> inv:#8 0 port/inv:#8 -> inv:o 8 space/inv:o -> inv:l 10 space/inv:l -> inv:v 10 space/inv:v -> inv| 10 margin/
";

/// Two cells one over the other: two masters.
pub const TWO: &str = "
text: sticks 1/cell s/joint a metal 0 0/joint b metal 1 0/end/cell t/joint a metal 0 0/joint b metal 1 0/joint c metal 2 0/end/grid/row s/row t/end/
output: DS 1 75 1;/9 s;/L NM;/B 12 12 18 18;/B 12 12 42 18;/DF;/DS 2 75 1;/9 t;/L NM;/B 12 12 18 18;/B 12 12 42 18;/B 12 12 66 18;/DF;/C 1 T 0 0;/C 2 T 0 2700;/E/
report: pass 1 x edges 17 backward 1 rounds 2/cell s size 42 kept 1/0 -> t:a 9 margin/t:a -> t:b 12 space/t:b -> t:c 12 space/t:c -> t| 9 margin/t| -> s| 0 pitch/cell t size 42 kept 2/0 -> t:a 9 margin/t:a -> t:b 12 space/t:b -> t:c 12 space/t:c -> t| 9 margin/pass 2 y edges 12 backward 0 rounds 1/cell s size 18 kept 0/0 -> s:a 9 margin/s:a -> s| 9 margin/cell t size 18 kept 0/0 -> t:a 9 margin/t:a -> t| 9 margin/
";

/// Two masters, of which one contradicts itself on x.
pub const CONTRADICTION: &str = "
text: sticks 1/cell s/joint a metal 0 0/end/cell t/joint a metal 0 0/joint b metal 1 0/limit x a b <= 11/end/grid/row s/row t/end/
refused: 11 = pass 1 x unsatisfiable length 1/t:a -> t:b 12 space/t:b -> t:a -11 limit/
";

/// Two metal boxes that are too near, and others before and after them that keep off.
pub const METAL: &str = "
text: L NM; B 900 900 450 450; B 900 900 450 4950; B 900 900 4950 450; B 900 900 4950 4950; B 900 901 4950 2250; E
refused: 13 = sticks: rule 6: boxes 2 4/
";

/// Numbers of shares.
pub const SPLITS: &str = "
words: compact d --tech t --split 2

words: compact d --tech t --split 3

words: compact d --tech t --split 64
";

/// Over `TWO`: how often the first share, the second and any others arrived, and how often the first two saw each
/// other, where these wait for each other. Each arrives once where the lines of the design are read, where the masters
/// are made, where their start layouts are drawn, where clashes are sought in these, in each pass, and where symbols
/// are written, an empty share too.
pub const PASSES: &str = "
words: compact d --tech t --split 2
met: 7 7 0 14

words: compact d --tech t --split 3
met: 7 7 7 14
";

/// Over `METAL`: under each rule up to the spacing of metal, but for the two on poly and diffusion, which are found
/// to be kept at once.
pub const RULES: &str = "
words: check d --tech t --split 2
met: 4 4 0 8

words: check d --tech t --split 3

words: check d --tech t --split 64
";

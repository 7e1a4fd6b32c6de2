//! What `compact` makes of grids of more than one cell: masks and reports, or a fault.

/// Two cells one over the other: two joints, and three.
pub const TWO_ROWS: &str = "
text: sticks 1/cell s/joint a metal 0 0/joint b metal 1 0/end/cell t/joint a metal 0 0/joint b metal 1 0/joint c metal 2 0/end/grid/row s/row t/end/
";

/// Where masks may be 262,144 wide: a unit of 4,096 hundredths of a micron.
pub const WIDE: &str = "
tech: version = 1/unit = 4096/[width]/diffusion = 4/poly = 4/metal = 6/[spacing]/diffusion = 6/poly = 4/metal = 6/poly_diffusion = 2/cut = 4/cut_channel = 4/implant_channel = 3/[extension]/poly = 4/diffusion = 4/implant = 3/[cut]/size = 4/enclosure = 2/
";

/// Grids that are laid out.
pub const GRIDS: &str = "
# Four inverters in a row share one symbol: ports that meet lift the driver.
text: sticks 1/cell inv/contact g diff 0 0/fet d enh h 0 1 8 4/contact o diff 0 2/fet l dep h 0 3 4 8/contact v diff 0 4/contact p poly 1 3/joint m metal 1 2/contact q poly 1 1/port gl left metal 0/port gr right metal 0/port in left poly 1/port out right poly 1/port vl left metal 4/port vr right metal 4/wire metal gl g/wire metal g gr/wire diff g d/wire diff d o/wire diff o l/wire diff l v/wire metal vl v/wire metal v vr/wire poly in d/wire poly l p/wire metal o m/wire metal m p/wire poly q out/wire metal m q/end/grid/row inv inv inv inv/end/
output: DS 1 75 1;/9 inv;/L ND;/B 16 16 20 20;/B 16 24 24 40;/B 16 16 20 56;/B 8 32 20 76;/B 16 16 20 96;/B 8 16 20 24;/B 8 12 20 54;/B 8 12 20 58;/B 8 12 20 94;/L NP;/B 32 8 24 40;/B 24 16 20 76;/B 16 16 52 68;/B 16 16 56 44;/B 12 8 6 40;/B 28 8 42 72;/B 24 8 64 40;/L NC;/B 8 8 20 20;/B 8 8 20 56;/B 8 8 20 96;/B 8 8 52 68;/B 8 8 56 44;/L NM;/B 16 16 20 20;/B 16 16 20 56;/B 16 16 20 96;/B 16 16 52 68;/B 12 12 54 54;/B 16 16 56 44;/B 26 12 13 18;/B 62 12 45 18;/B 26 12 13 94;/B 62 12 45 94;/B 46 12 37 54;/B 12 26 54 61;/B 12 22 54 49;/L NI;/B 20 28 20 76;/DF;/C 1 T 0 0;/C 1 T 5700 0;/C 1 T 11400 0;/C 1 T 17100 0;/E/
report: pass 1 x edges 132 backward 12 rounds 3/cell inv size 38 kept 9/0 -> inv:d 12 margin/inv:d -> inv:q 16 space/inv:q -> inv| 10 margin/pass 2 y edges 197 backward 13 rounds 3/cell inv size 58 kept 64/0 -> inv:#1 9 margin/inv:#1 -> inv:q 13 space/inv:q -> inv:#12 -2 overlap/inv:#12 -> inv:#8 0 port/inv:#8 -> inv:o 8 space/inv:o -> inv:l 10 space/inv:l -> inv:v 10 space/inv:v -> inv| 10 margin/

# Two cells one over the other are as wide as the wider one.
text: sticks 1/cell s/joint a metal 0 0/joint b metal 1 0/end/cell t/joint a metal 0 0/joint b metal 1 0/joint c metal 2 0/end/grid/row s/row t/end/
output: DS 1 75 1;/9 s;/L NM;/B 12 12 18 18;/B 12 12 42 18;/DF;/DS 2 75 1;/9 t;/L NM;/B 12 12 18 18;/B 12 12 42 18;/B 12 12 66 18;/DF;/C 1 T 0 0;/C 2 T 0 2700;/E/
report: pass 1 x edges 17 backward 1 rounds 2/cell s size 42 kept 1/0 -> t:a 9 margin/t:a -> t:b 12 space/t:b -> t:c 12 space/t:c -> t| 9 margin/t| -> s| 0 pitch/cell t size 42 kept 2/0 -> t:a 9 margin/t:a -> t:b 12 space/t:b -> t:c 12 space/t:c -> t| 9 margin/pass 2 y edges 12 backward 0 rounds 1/cell s size 18 kept 0/0 -> s:a 9 margin/s:a -> s| 9 margin/cell t size 18 kept 0/0 -> t:a 9 margin/t:a -> t| 9 margin/

# A wire from border to border, twice.
text: sticks 1/cell f/port l left metal 0/port r right metal 0/wire metal l r/end/grid/row f f/end/
output: DS 1 75 1;/9 f;/L NM;/B 12 12 6 18;/DF;/C 1 T 0 0;/C 1 T 900 0;/E/
report: pass 1 x edges 2 backward 0 rounds 1/cell f size 6 kept 0/0 -> f| 6 size/pass 2 y edges 3 backward 0 rounds 1/cell f size 18 kept 0/0 -> f:#0 9 margin/f:#0 -> f| 9 margin/

# Two grids with names: each cell has its own width, and the widest spacing lies between.
text: sticks 2/cell s/joint a metal 0 0/joint b metal 1 0/end/cell t/joint a metal 0 0/joint b metal 1 0/joint c metal 2 0/end/grid a/row s/end/grid b/row t/end/
output: DS 1 75 1;/9 s;/L NM;/B 12 12 18 18;/B 12 12 42 18;/DF;/DS 2 75 1;/9 t;/L NM;/B 12 12 18 18;/B 12 12 42 18;/B 12 12 66 18;/DF;/C 1 T 0 0;/C 2 T 5400 0;/E/
report: pass 1 x edges 15 backward 0 rounds 1/cell s size 30 kept 1/0 -> s:a 9 margin/s:a -> s:b 12 space/s:b -> s| 9 margin/cell t size 42 kept 2/0 -> t:a 9 margin/t:a -> t:b 12 space/t:b -> t:c 12 space/t:c -> t| 9 margin/pass 2 y edges 12 backward 0 rounds 1/cell s size 18 kept 0/0 -> s:a 9 margin/s:a -> s| 9 margin/cell t size 18 kept 0/0 -> t:a 9 margin/t:a -> t| 9 margin/

# A cell in two grids has one width.
text: sticks 2/cell s/joint a metal 0 0/joint b metal 1 0/end/cell t/joint a metal 0 0/joint b metal 1 0/joint c metal 2 0/end/grid a/row s/end/grid b/row s/row t/end/
output: DS 1 75 1;/9 s;/L NM;/B 12 12 18 18;/B 12 12 42 18;/DF;/DS 2 75 1;/9 t;/L NM;/B 12 12 18 18;/B 12 12 42 18;/B 12 12 66 18;/DF;/C 1 T 0 0;/C 1 T 7200 0;/C 2 T 7200 2700;/E/
report: pass 1 x edges 17 backward 1 rounds 2/cell s size 42 kept 1/0 -> t:a 9 margin/t:a -> t:b 12 space/t:b -> t:c 12 space/t:c -> t| 9 margin/t| -> s| 0 pitch/cell t size 42 kept 2/0 -> t:a 9 margin/t:a -> t:b 12 space/t:b -> t:c 12 space/t:c -> t| 9 margin/pass 2 y edges 12 backward 0 rounds 1/cell s size 18 kept 0/0 -> s:a 9 margin/s:a -> s| 9 margin/cell t size 18 kept 0/0 -> t:a 9 margin/t:a -> t| 9 margin/

# One grid with a name is like one without.
text: sticks 2/cell e/end/grid g/row e/end/
output: DS 1 75 1;/9 e;/DF;/C 1 T 0 0;/E/
report: pass 1 x edges 1 backward 0 rounds 1/cell e size 6 kept 0/0 -> e| 6 size/pass 2 y edges 1 backward 0 rounds 1/cell e size 6 kept 0/0 -> e| 6 size/
";

/// Grids that are refused.
pub const GRID_FAULTS: &str = "
# No rows.
text: sticks 1/cell a/joint p metal 0 0/joint q metal 0 1/wire metal p q/end/grid/end/
refused: 8 = sticks: grid: Empty/

# A cell that is not there, in a row that is too long, and a row that is too short.
text: sticks 1/cell a/joint p metal 0 0/end/grid/row a/row a b/end/
refused: 8 = sticks: grid: UnknownCell 1 1/

text: sticks 1/cell a/joint p metal 0 0/end/grid/row a a/row a a/row a/end/
refused: 8 = sticks: grid: RaggedRow 2/

# Ports that do not meet: of other layers, and one that has no other above it.
text: sticks 1/cell a/joint m metal 0 0/joint p poly 0 1/port r0 right metal 0/port r1 right poly 1/wire metal m r0/wire poly p r1/end/cell b/joint p poly 0 0/joint m metal 0 1/port l0 left poly 0/port l1 left metal 1/wire poly l0 p/wire metal l1 m/end/grid/row a b/end/
refused: 8 = sticks: grid: PortMismatch 0 0 right 0/

text: sticks 1/cell e/end/cell c/joint p metal 0 0/joint q metal 1 0/port t0 top metal 0/port t1 top metal 1/wire metal p t0/wire metal q t1/end/cell d/joint p metal 0 0/port b0 bottom metal 0/wire metal b0 p/end/grid/row e e e/row e e c/row e e d/end/
refused: 8 = sticks: grid: PortMismatch 1 2 top 1/

# A fault of the second grid alone, with the name of that grid, and one of each grid.
text: sticks 2/cell s/joint a metal 0 0/joint b metal 1 0/end/cell t/joint a metal 0 0/joint b metal 1 0/joint c metal 2 0/end/grid a/row s/end/grid b/row q/end/
refused: 8 = sticks: grid b: UnknownCell 0 0/

text: sticks 2/cell a/joint p metal 0 0/end/grid g/row a/row a a/end/grid h/row q/end/
refused: 8 = sticks: grid g: RaggedRow 1/

# A fault of names comes first, be it of a grid.
text: sticks 2/cell s/joint a metal 0 0/joint b metal 1 0/end/cell t/joint a metal 0 0/end/grid a/row s/end/grid a/row s/end/
refused: 7 = sticks: line 12: RepeatedName/

text: sticks 1/cell a/joint p poly 0 0/joint p poly 1 0/end/grid/row a b/end/
refused: 7 = sticks: line 4: RepeatedName/

# The second cell is not clean.
text: sticks 1/cell a/joint p metal 0 0/end/cell t/joint a metal 0 0/joint c metal 2 0/joint b metal 1 0/wire metal a c/end/grid/row a t/end/
refused: 10 = sticks: clash in t between b and #0/

# One port has to stand over the other and in line with it, for the cell is beside itself.
text: sticks 1/cell z/joint p metal 0 0/joint q metal 0 1/port l left metal 1/port r right metal 0/wire metal l q/wire metal p r/end/grid/row z z/end/
refused: 11 = pass 1 x edges 9 backward 0 rounds 1/cell z size 18 kept 0/0 -> z:p 9 margin/z:p -> z| 9 margin/pass 2 y unsatisfiable length 12/z:p -> z:#0 12 space/z:#0 -> z:#1 0 port/z:#1 -> z:p 0 overlap/
";

/// Over `TWO_ROWS`: writes that fail. Each symbol is a chunk, and the calls are the last one.
pub const GRID_WRITES: &str = "
# Before the masks of a cell stand all chunks before them, and the first half of its own.
fails: output 0
output: DS 1 75 1;/9 s;/L NM;/B 12 1
refused: 4 = sticks: cannot write output/

fails: output 1
output: DS 1 75 1;/9 s;/L NM;/B 12 12 18 18;/B 12 12 42 18;/DF;/DS 2 75 1;/9 t;/L NM;/B 12 12 18 18
refused: 4 = sticks: cannot write output/

fails: output 2
output: DS 1 75 1;/9 s;/L NM;/B 12 12 18 18;/B 12 12 42 18;/DF;/DS 2 75 1;/9 t;/L NM;/B 12 12 18 18;/B 12 12 42 18;/B 12 12 66 18;/DF;/C 1 T 0 0;/C\x20
refused: 4 = sticks: cannot write output/

# The report is cut, and all masks stand.
fails: report 0
output: DS 1 75 1;/9 s;/L NM;/B 12 12 18 18;/B 12 12 42 18;/DF;/DS 2 75 1;/9 t;/L NM;/B 12 12 18 18;/B 12 12 42 18;/B 12 12 66 18;/DF;/C 1 T 0 0;/C 2 T 0 2700;/E/
refused: 4 = pass 1 x edges 17 backward 1 rounds 2/cell s size 42 kept 1/0 -> t:a 9 margin/t:a -> t:b 12 space/t:b -> t:c 12 space/t:c -> t| 9 margin/t| -> s| 0 pitch/cell t size 42 kept 2/0 -> t:a 9 margin/t:a -> t:b
";

/// Over `WIDE`: grids together, to their extent and past it.
pub const GRID_EXTENTS: &str = "
# Two grids as wide as they may be, with the space between them.
text: sticks 2/cell e/end/cell t/joint a metal 0 0/joint b metal 1 0/limit x a b >= 262114/end/grid g/row e/end/grid h/row t/end/
output: DS 1 2048 1;/9 e;/DF;/DS 2 2048 1;/9 t;/L NM;/B 12 12 18 18;/B 12 12 524246 18;/DF;/C 1 T 0 0;/C 2 T 49152 0;/E/
report: pass 1 x edges 8 backward 0 rounds 1/cell e size 6 kept 0/0 -> e| 6 size/cell t size 262132 kept 1/0 -> t:a 9 margin/t:a -> t:b 262114 limit/t:b -> t| 9 margin/pass 2 y edges 6 backward 0 rounds 1/cell e size 6 kept 0/0 -> e| 6 size/cell t size 18 kept 0/0 -> t:a 9 margin/t:a -> t| 9 margin/

# One more; the second grid one higher than it may be; and two rows together.
text: sticks 2/cell e/end/cell t/joint a metal 0 0/joint b metal 1 0/limit x a b >= 262115/end/grid g/row e/end/grid h/row t/end/
refused: 9 = sticks: too large: extent/

text: sticks 2/cell e/end/cell t/joint a metal 0 0/joint b metal 0 1/limit y a b >= 262127/end/grid g/row e/end/grid h/row t/end/
refused: 9 = sticks: too large: extent/

text: sticks 1/cell e/end/cell t/joint a metal 0 0/joint b metal 0 1/limit y a b >= 262121/end/grid/row e/row t/end/
refused: 9 = sticks: too large: extent/
";

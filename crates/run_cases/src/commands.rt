//! What the other commands answer, and `compact` of buried contacts.

/// Diffusion comes to a buried contact from the left, and poly from the right.
pub const LOAD: &str = "
tech: version = 2/unit = 150/[width]/diffusion = 4/poly = 4/metal = 6/[spacing]/diffusion = 6/poly = 4/metal = 6/poly_diffusion = 2/cut = 4/cut_channel = 4/implant_channel = 3/buried_channel = 4/[extension]/poly = 4/diffusion = 4/implant = 3/buried = 4/[cut]/size = 4/enclosure = 2/
text: sticks 1/cell t/buried b 1 0/joint d diff 0 0/joint p poly 2 0/wire diff d b/wire poly b p/end/grid/row t/end/
";

/// Over `LOAD`: masks, and designs and technologies that are refused.
pub const BURIED: &str = "
output: DS 1 75 1;/9 t;/L ND;/B 8 8 28 20;/B 8 8 16 20;/B 20 8 22 20;/L NP;/B 8 8 28 20;/B 8 8 40 20;/B 20 8 34 20;/L NB;/B 24 24 28 20;/DF;/C 1 T 0 0;/E/
report: pass 1 x edges 29 backward 0 rounds 1/cell t size 26 kept 5/0 -> t:d 8 margin/t:d -> t:b 6 space/t:b -> t:p 6 space/t:p -> t| 6 margin/pass 2 y edges 29 backward 4 rounds 2/cell t size 20 kept 0/0 -> t:b 10 margin/t:b -> t| 10 margin/

# A technology without them, a wire between layers, and poly on the side of diffusion.
tech: version = 1/unit = 150/[width]/diffusion = 4/poly = 4/metal = 6/[spacing]/diffusion = 6/poly = 4/metal = 6/poly_diffusion = 2/cut = 4/cut_channel = 4/implant_channel = 3/[extension]/poly = 4/diffusion = 4/implant = 3/[cut]/size = 4/enclosure = 2/
refused: 7 = sticks: line 3: NoBuried/

text: sticks 1/cell t/buried b 1 0/joint d diff 0 0/joint p poly 2 0/wire diff d b/wire poly b p/wire diff b p/end/grid/row t/end/
refused: 7 = sticks: line 8: WrongLayer/

text: sticks 1/cell t/buried b 1 0/joint d diff 0 0/joint p poly 2 0/joint q poly 0 0/wire diff d b/wire poly b p/wire poly q b/end/grid/row t/end/
refused: 7 = sticks: line 9: WrongSide/

# Of their numbers the first is missing.
tech: version = 2/unit = 150/[width]/diffusion = 4/poly = 4/metal = 6/[spacing]/diffusion = 6/poly = 4/metal = 6/poly_diffusion = 2/cut = 4/cut_channel = 4/implant_channel = 3/buried_channel = 4/[extension]/poly = 4/diffusion = 4/implant = 3/[cut]/size = 4/enclosure = 2/
refused: 6 = sticks: technology: Missing extension.buried/
";

/// A wire keeps `u` and `v` apart: bent, it lets them stand above one another.
pub const JOG: &str = "
words: jog d --tech t --script s
text: sticks 1/cell t/joint u metal 0 0/joint a metal 1 0/joint b metal 1 1/joint v metal 2 1/wire metal a b/end/grid/row t/end/
script: jog t 0 0 left/jog t 9 0 left/
output: sticks 1/cell t/joint u metal 0 0/joint a metal 2 0/joint b metal 1 2/joint v metal 3 2/joint jog0a metal 2 1 6/joint jog0b metal 1 1 6/wire metal a jog0a 6/wire metal jog0a jog0b 6/wire metal jog0b b 6/end/grid/row t/end/
report: jog 0 t accepted 42 -> 30/jog 1 t rejected/
";

/// Over `JOG`: scripts, and what fails.
pub const JOGS: &str = "
# The first jog makes the cell narrower, and the second has no wire.

# An empty script changes nothing.
script:
output: sticks 1/cell t/joint u metal 0 0/joint a metal 1 0/joint b metal 1 1/joint v metal 2 1/wire metal a b/end/grid/row t/end/
report:

# No cell has the name, and no cell is named so; a comment and an empty line count as lines alone.
script: # none//jog s 0 0 left/  jog t 0 1 right # above the wire
output: sticks 1/cell t/joint u metal 0 0/joint a metal 1 0/joint b metal 1 1/joint v metal 2 1/wire metal a b/end/grid/row t/end/
report: jog 0 s rejected/jog 1 t rejected/

# To the right the parts lie the wrong way round.
script: jog t 0 0 right/
output: sticks 1/cell t/joint u metal 0 0/joint a metal 1 0/joint b metal 1 1/joint v metal 2 1/wire metal a b/end/grid/row t/end/
report: jog 0 t rejected/

script: jog t/
output:
refused: 16 = sticks: script line 1/

script: jog t 0 0 left/# a comment/jog t 0 0 up/
output:
refused: 16 = sticks: script line 3/

script: jog t -1 0 left/
output:
refused: 16 = sticks: script line 1/

# The design is laid out before the script is fetched.
text: sticks 1/cell t/joint a metal 0 0/joint b metal 1 0/limit x a b <= 11/end/grid/row t/end/
script: jog t/
output:
refused: 11 = pass 1 x unsatisfiable length 1/t:a -> t:b 12 space/t:b -> t:a -11 limit/

script: jog t/
fails: fetch 2
output:
refused: 3 = sticks: cannot read script/

# A put that fails takes half of the text, and then the report is not told.
text: sticks 1/cell e/end/grid/row e/end/
script:
fails: output 0
output: sticks 1/cell e/e
refused: 4 = sticks: cannot write output/

# A report that fails has half of its text, and the whole output stands.
script: jog s 0 0 left/
fails: report 0
output: sticks 1/cell t/joint u metal 0 0/joint a metal 1 0/joint b metal 1 1/joint v metal 2 1/wire metal a b/end/grid/row t/end/
refused: 4 = jog 0 s\x20
";

/// Limits that two joints meet, and one that they do not.
pub const EDIT: &str = "
words: edit d --tech t --script s
text: sticks 1/cell t/joint a metal 0 0/joint b metal 1 0/end/grid/row t/end/
script: add t x a b <= 12/add t x a b <= 11/drop t 1/drop t 5/
output: step 0 done t 30 18/step 1 code 11/step 2 done t 30 18/step 3 refused/
";

/// Over `EDIT`: scripts, and what fails.
pub const EDITS: &str = "
# The joints keep 12.

# An empty script writes nothing.
script:
output:

# A design of which a pass has a cycle has clean start layouts. The sizes are those of each design in its turn.
text: sticks 1/cell t/joint a metal 0 0/joint b metal 1 0/limit x a b <= 11/end/grid/row t/end/
script: add t x a b >= 20/drop t 0/# a comment/add t y a b >= 5
output: step 0 code 11/step 1 done t 38 18/step 2 done t 38 23/

# A name that is not there, one node twice, no cell, no limit.
script: add t x a c <= 12/add t x a a >= 1/add s x a b >= 1/drop t 0/add t x a b >= 13/
output: step 0 refused/step 1 refused/step 2 refused/step 3 refused/step 4 done t 31 18/

# A cell that no grid names, and one that another uses; the masters are told in order.
text: sticks 1/cell t/joint a metal 0 0/joint b metal 1 0/end/cell v/joint c metal 0 0/end/cell w/use u v 0 0/joint d metal 1 0/end/grid/row w t/end/
script: add v x c c >= 1/add w x u.c d >= 20/
output: step 0 refused/step 1 done w 38 18 t 30 18/

# Grids past the extent.
tech: version = 1/unit = 4096/[width]/diffusion = 4/poly = 4/metal = 6/[spacing]/diffusion = 6/poly = 4/metal = 6/poly_diffusion = 2/cut = 4/cut_channel = 4/implant_channel = 3/[extension]/poly = 4/diffusion = 4/implant = 3/[cut]/size = 4/enclosure = 2/
script: add t x a b >= 1000000/add t x a b >= 1000000/
output: step 0 code 9/step 1 code 9/

script: add t x a b <= 12/drop t/
output:
refused: 16 = sticks: script line 2/

# The start layouts are judged before the script is fetched.
text: sticks 1/cell t/joint a metal 0 0/joint b metal 0 0/end/grid/row t/end/
script: add t x a b <= 12/drop t/
output:
refused: 10 = sticks: clash in t between a and b/
";

/// A limit pulls `b` to the left of `c`, and leaves it 2 u of room.
pub const SLACK: &str = "
words: slack d --tech t
text: sticks 1/cell t/joint a metal 0 0/joint b metal 0 1/joint c metal 1 0/limit x b c <= 2/end/grid/row t/end/
output: axis x pass 1/cell t size 30/t:a least 9 most 9 slack 0/t:b least 19 most 21 slack 2/t:c least 21 most 21 slack 0/axis y pass 2/cell t size 30/t:a least 9 most 9 slack 0/t:b least 21 most 21 slack 0/t:c least 9 most 9 slack 0/
";

/// Over `SLACK`: designs, and what fails.
pub const SLACKS: &str = "
# Only `b` has room.

# A cell without parts.
text: sticks 1/cell e/end/grid/row e/end/
output: axis x pass 1/cell e size 6/axis y pass 2/cell e size 6/

# Two masters of a column are equally wide: the narrower one has room, and a wire along the other axis has a line of its own.
words: slack d --tech t --passes yx
text: sticks 1/cell s/joint a metal 0 0/end/cell t/joint a metal 0 0/joint b metal 1 0/wire metal a b/joint c metal 2 0/end/grid/row s/row t/end/
output: axis x pass 2/cell s size 30/s:a least 9 most 21 slack 12/cell t size 30/t:a least 9 most 9 slack 0/t:b least 9 most 9 slack 0/t:c least 21 most 21 slack 0/axis y pass 1/cell s size 18/s:a least 9 most 9 slack 0/cell t size 18/t:a least 9 most 9 slack 0/t:b least 9 most 9 slack 0/t:c least 9 most 9 slack 0/t:#0 least 9 most 9 slack 0/

# It is refused as `compact` is.
text: sticks 1/cell t/joint a metal 0 0/joint c metal 2 0/joint b metal 1 0/wire metal a c/end/grid/row t/end/
output:
refused: 10 = sticks: clash in t between b and #0/

# A put that fails takes half of the text.
text: sticks 1/cell e/end/grid/row e/end/
fails: output 0
output: axis x pass 1/cell e size 6/
refused: 4 = sticks: cannot write output/

# There is no report, so nothing fails there.
fails: report 0
";

/// No CIF text.
pub const EXTRACT: &str = "
words: extract d --tech t
";

/// Over `EXTRACT`: one transistor; boxes that do not cross; more after the end; and no such file.
pub const NETLISTS: &str = "
text: DS 1 75 1;/9 t;/L ND;/B 8 24 20 24;/L NP;/B 24 8 20 24;/DF;/C 1 T 0 0;/E/
output: nets 3 devices 1/net 0 nd 1 np 0 nm 0/net 1 nd 1 np 0 nm 0/net 2 nd 0 np 1 nm 0/device 0 enh w 1200 l 1200 gate 2 low 0 high 1 at 2400 3000/

text: L ND; B 1200 1200 0 0; L NP; B 1200 1200 300 0; E
refused: 14 = sticks: not proper: boxes 0 1/

text: E/L NM;
refused: 12 = sticks: byte 2: AfterEnd/

words: extract c --tech t
refused: 3 = sticks: cannot read cif/

# The masks of an inverter, as LAYOUTS has them.
text: DS 1 75 1;/9 inv;/L ND;/B 16 16 20 20;/B 16 24 24 36;/B 16 16 20 52;/B 8 32 20 72;/B 16 16 20 92;/B 8 12 20 22;/B 8 12 20 50;/B 8 12 20 54;/B 8 12 20 90;/L NP;/B 32 8 24 36;/B 24 16 20 72;/B 16 16 52 64;/B 16 16 56 44;/B 12 8 6 36;/B 28 8 42 68;/B 24 8 64 40;/L NC;/B 8 8 20 20;/B 8 8 20 52;/B 8 8 20 92;/B 8 8 52 64;/B 8 8 56 44;/L NM;/B 16 16 20 20;/B 16 16 20 52;/B 16 16 20 92;/B 16 16 52 64;/B 12 12 54 50;/B 16 16 56 44;/B 26 12 13 18;/B 62 12 45 18;/B 26 12 13 90;/B 62 12 45 90;/B 46 12 37 50;/B 12 26 54 57;/B 12 18 54 47;/L NI;/B 20 28 20 72;/DF;/C 1 T 0 0;/E/
output: nets 4 devices 2/net 0 nd 3 np 0 nm 3/net 1 nd 5 np 5 nm 7/net 2 nd 3 np 0 nm 3/net 3 nd 0 np 2 nm 0/device 0 enh w 2400 l 1200 gate 3 low 0 high 1 at 2400 4800/device 1 dep w 1200 l 2400 gate 1 low 1 high 2 at 2400 9600/

# An implant over the channel.
text: L ND; B 600 1800 1500 1800; L NP; B 1800 600 1500 1800; L NI; B 1500 1500 1500 1800; E
output: nets 3 devices 1/net 0 nd 1 np 0 nm 0/net 1 nd 1 np 0 nm 0/net 2 nd 0 np 1 nm 0/device 0 dep w 1200 l 1200 gate 2 low 0 high 1 at 2400 3000/

# A buried pair, and piles under one window.
tech: version = 2/unit = 150/[width]/diffusion = 4/poly = 4/metal = 6/[spacing]/diffusion = 6/poly = 4/metal = 6/poly_diffusion = 2/cut = 4/cut_channel = 4/implant_channel = 3/buried_channel = 4/[extension]/poly = 4/diffusion = 4/implant = 3/buried = 4/[cut]/size = 4/enclosure = 2/
text: L ND; B 1200 1200 0 0; L NP; B 1200 1200 300 0; L NB; B 2100 2400 150 0; E
output: nets 1 devices 0/net 0 nd 1 np 1 nm 0/

tech: version = 2/unit = 150/[width]/diffusion = 4/poly = 4/metal = 6/[spacing]/diffusion = 6/poly = 4/metal = 6/poly_diffusion = 2/cut = 4/cut_channel = 4/implant_channel = 3/buried_channel = 4/[extension]/poly = 4/diffusion = 4/implant = 3/buried = 4/[cut]/size = 4/enclosure = 2/
text: L ND; B 1200 1200 0 0; L NP; B 1200 1200 300 0; L ND; B 1200 1200 0 0; L NB; B 2100 2400 150 0; L NP; B 1200 1200 300 0; L ND; B 1200 1200 0 0; L NP; B 1200 1200 300 0; E
output: nets 1 devices 0/net 0 nd 3 np 3 nm 0/

tech: version = 2/unit = 150/[width]/diffusion = 4/poly = 4/metal = 6/[spacing]/diffusion = 6/poly = 4/metal = 6/poly_diffusion = 2/cut = 4/cut_channel = 4/implant_channel = 3/buried_channel = 4/[extension]/poly = 4/diffusion = 4/implant = 3/buried = 4/[cut]/size = 4/enclosure = 2/
text: L ND; B 1200 1200 0 0; L NP; B 1200 1500 300 -150; B 1200 1200 300 0; L ND; B 1200 1200 0 0; L NB; B 2100 2400 150 0; E
output: nets 1 devices 0/net 0 nd 2 np 2 nm 0/

# A cut over all of a transistor, and over its low end.
text: L ND; B 600 1800 1500 1800; L NP; B 1800 600 1500 1800; L NC; B 600 1200 1500 1800; E
output: nets 1 devices 1/*

text: L ND; B 600 1800 1500 1800; L NP; B 1800 600 1500 1800; L NC; B 600 600 1500 1200; E
output: nets 3 devices 1/*

# Metal that touches, that is apart, and that is apart under a cut over both and over one.
text: L NM; B 600 600 300 300; B 600 600 900 900; E
output: nets 1 devices 0/net 0 nd 0 np 0 nm 2/

text: L NM; B 600 600 300 300; B 600 600 1200 300; E
output: nets 2 devices 0/*

text: L NM; B 600 600 300 300; B 600 600 1200 300; L NC; B 900 300 750 150; E
output: nets 1 devices 0/*

text: L NM; B 600 600 300 300; B 600 600 1200 300; L NC; B 600 300 600 150; E
output: nets 2 devices 0/*

# A cut joins two strips, sixteen and seventeen; and poly joins none.
text: DS 1; L NM; B 600 150 300 75; DF; DS 2 300 1; $0-2 C 1 T 0 @;$ DF; L NC; B 300 4950 300 2475; C 2; E
output: nets 1 devices 0/*

text: DS 1; L NM; B 600 150 300 75; DF; DS 2 300 1; $0-16 C 1 T 0 @;$ DF; L NC; B 300 4950 300 2475; C 2; E
output: nets 1 devices 0/*

text: DS 1; L NM; B 600 150 300 75; DF; DS 2 300 1; $0-17 C 1 T 0 @;$ DF; L NC; B 300 4950 300 2475; C 2; E
output: nets 1 devices 0/*

text: DS 1; L NM; B 600 150 300 75; DF; DS 2 300 1; $0-17 C 1 T 0 @;$ DF; L NP; B 600 600 4800 300; C 2; E
output: nets 18 devices 0/*

# No box.
text: E
output: nets 0 devices 0/
";

/// No CIF text.
pub const CHECK: &str = "
words: check d --tech t
";

/// Over `CHECK`: two metal boxes a grid unit too near, and as far apart as they have to be; no box; and more after the
/// end.
pub const CHECKS: &str = "
text: DS 1 75 1; L NM; B 12 12 18 18; B 12 12 40 18; DF; C 1 T 0 0; E
refused: 13 = sticks: rule 6: boxes 0 1/

text: DS 1 75 1; L NM; B 12 12 18 18; B 12 12 42 18; DF; C 1 T 0 0; E
output: ok/

text: E
output: ok/

text: E/L NM;/
refused: 12 = sticks: byte 2: AfterEnd/

# The masks of the inverter above.
text: DS 1 75 1;/9 inv;/L ND;/B 16 16 20 20;/B 16 24 24 36;/B 16 16 20 52;/B 8 32 20 72;/B 16 16 20 92;/B 8 12 20 22;/B 8 12 20 50;/B 8 12 20 54;/B 8 12 20 90;/L NP;/B 32 8 24 36;/B 24 16 20 72;/B 16 16 52 64;/B 16 16 56 44;/B 12 8 6 36;/B 28 8 42 68;/B 24 8 64 40;/L NC;/B 8 8 20 20;/B 8 8 20 52;/B 8 8 20 92;/B 8 8 52 64;/B 8 8 56 44;/L NM;/B 16 16 20 20;/B 16 16 20 52;/B 16 16 20 92;/B 16 16 52 64;/B 12 12 54 50;/B 16 16 56 44;/B 26 12 13 18;/B 62 12 45 18;/B 26 12 13 90;/B 62 12 45 90;/B 46 12 37 50;/B 12 26 54 57;/B 12 18 54 47;/L NI;/B 20 28 20 72;/DF;/C 1 T 0 0;/E/
output: ok/
";

/// The least made design: one joint of poly.
pub const BENCH: &str = "
words: bench 1
output: bench 1 items 1 kept 0 0 size 12 12 nets 1 devices 0/
";

/// Over `BENCH`: lines on made designs. Those of two and of twelve columns were worked out apart from the program,
/// and the items and the nets of the largest were counted so.
pub const BENCHES: &str = "
# One joint.

words: bench 2
output: bench 2 items 6 kept 1 1 size 24 32 nets 3 devices 0/

words: bench 12
output: bench 12 items 229 kept 185 284 size 138 172 nets 109 devices 0/

# A put that fails takes half of the line.
fails: output 0
output: bench 1 items 1 kept 0 0 s
refused: 4 = sticks: cannot write output/

# There is no report, so nothing fails there.
fails: report 0

words: bench 64
output: bench 64 items 6269 kept * nets 2955 devices 0/
";

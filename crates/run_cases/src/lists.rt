//! What `breaks` lists, and what `nets` tells of a design by its names.

/// The first breaks of a CIF text.
pub const BREAKS: &str = "
words: breaks d --tech t
";

/// Over `BREAKS`: none, pairs, single boxes, halves of a hundredth, several rules at a box, a number of breaks, and
/// nets.
pub const LISTS: &str = "
text: L NM; B 900 900 0 0; E
output: breaks 0/

text: E
output: breaks 0/

# One pair of metal is too near, the other is not.
text: DS 1 75 1; L NM; B 12 12 18 18; B 12 12 40 18; B 12 12 64 18; DF; C 1 T 0 0; E
output: breaks 1/rule 6 spacing.metal least 9.000 box 0 NM 9.000 9.000 18.000 18.000 box 1 NM 25.500 9.000 34.500 18.000/

# Widths of three layers.
text: L NM; B 899 900 0 0;/L NP; B 601 599 300 0;/L ND; B 600 300 5000 0;/L NP; B 600 600 0 9000;/L NI; B 1 1 0 0;/E/
output: breaks 3/rule 1 width.metal least 9.000 box 0 NM -4.495 -4.500 4.495 4.500/rule 1 width.poly least 6.000 box 1 NP -0.005 -2.995 6.005 2.995/rule 1 width.diffusion least 6.000 box 2 ND 47.000 -1.500 53.000 1.500/

# A cut breaks two rules alone, and a third with the other.
text: L NC; B 600 900 0 0; B 600 600 1100 0; E
output: breaks 4/rule 2 cut.size least 6.000 box 0 NC -3.000 -4.500 3.000 4.500/rule 5 cut.enclosure least 3.000 box 0 NC -3.000 -4.500 3.000 4.500/rule 5 cut.enclosure least 3.000 box 1 NC 8.000 -3.000 14.000 3.000/rule 9 spacing.cut least 6.000 box 0 NC -3.000 -4.500 3.000 4.500 box 1 NC 8.000 -3.000 14.000 3.000/

# Four squares, each too near to the others: the first two pairs, and all.
words: breaks d --tech t --most 2
text: DS 1; L NM; B 900 900 0 0; DF; C 1; C 1 T 1700 0; C 1 T 0 1700; C 1 T 1700 1700; E
output: breaks 2/rule 6 spacing.metal least 9.000 box 0 NM -4.500 -4.500 4.500 4.500 box 1 NM 12.500 -4.500 21.500 4.500/rule 6 spacing.metal least 9.000 box 0 NM -4.500 -4.500 4.500 4.500 box 2 NM -4.500 12.500 4.500 21.500/more/

words: breaks --most=6 --tech=t d
text: DS 1; L NM; B 900 900 0 0; DF; C 1; C 1 T 1700 0; C 1 T 0 1700; C 1 T 1700 1700; E
output: breaks 6/rule 6 spacing.metal least 9.000 box 0 NM -4.500 -4.500 4.500 4.500 box 1 *rule 6 spacing.metal least 9.000 box 2 NM -4.500 12.500 4.500 21.500 box 3 NM 12.500 12.500 21.500 21.500/

# Fifty cuts on one another: fifty breaks, and 1225 pairs.
text: L NC;$0-50 B 600 600 0 0;$ E
output: breaks 1000/rule 5 cut.enclosure least 3.000 box 0 NC -3.000 -3.000 3.000 3.000/*/more/

words: breaks d --tech t --most 1275
text: L NC;$0-50 B 600 600 0 0;$ E
output: breaks 1275/*rule 9 spacing.cut least 6.000 box 48 NC -3.000 -3.000 3.000 3.000 box 49 NC -3.000 -3.000 3.000 3.000/

# Nets are not looked at beside a box that is too narrow.
text: L NM; B 900 900 0 0; B 900 900 1700 0; B 890 900 9000 0; E
output: breaks 1/rule 1 width.metal least 9.000 box 2 NM 85.550 -4.500 94.450 4.500/

# Poly across two diffusions, and diffusion across two polys.
text: L NP; B 3200 600 0 0; L ND; B 600 1800 -700 0; B 600 1800 700 0; L NI; B 600 600 -700 0; E
output: breaks 2/rule 3 crossing box 0 NP -16.000 -3.000 16.000 3.000 box 1 ND -10.000 -9.000 -4.000 9.000/rule 3 crossing box 0 NP -16.000 -3.000 16.000 3.000 box 2 ND 4.000 -9.000 10.000 9.000/

text: L ND; B 600 3200 0 0; L NP; B 1800 600 0 -700; B 1800 600 0 700; E
output: breaks 2/rule 3 crossing box 0 ND -3.000 -16.000 3.000 16.000 box 1 NP -9.000 -10.000 9.000 -4.000/rule 3 crossing box 0 ND -3.000 -16.000 3.000 16.000 box 2 NP -9.000 4.000 9.000 10.000/

# A channel goes by its diffusion.
text: L NP; B 2400 600 0 0;/L ND; B 1200 2700 0 450;/L NC; B 600 600 0 1100;/L NM; B 1200 1200 0 1100;/L NI; B 2100 1000 0 0; B 600 600 1350 0; B 2100 1500 0 0;/L NM; B 800 900 9000 0;/E/
output: breaks 3/rule 1 width.metal least 9.000 box 7 NM 86.000 -4.500 94.000 4.500/rule 10 spacing.cut_channel least 6.000 box 1 ND -6.000 -9.000 6.000 18.000 box 2 NC -3.000 8.000 3.000 14.000/rule 11 spacing.implant_channel least 4.500 box 1 ND -6.000 -9.000 6.000 18.000 box 4 NI -10.500 -5.000 10.500 5.000/

# Poly and diffusion beside a transistor.
text: L NP; B 1800 600 0 0;/L ND; B 600 1800 0 0; B 600 900 0 -2150; B 600 600 0 1200;/L NP; B 600 600 1700 0;/E/
output: breaks 2/rule 7 spacing.poly least 6.000 box 0 NP -9.000 -3.000 9.000 3.000 box 4 NP 14.000 -3.000 20.000 3.000/rule 8 spacing.diffusion least 9.000 box 1 ND -3.000 -9.000 3.000 9.000 box 2 ND -3.000 -26.000 3.000 -17.000/

text: L NP; B 1800 600 0 0;/L ND; B 600 1800 0 0; B 600 900 0 -2150;/L NP; B 600 600 1700 0; B 600 600 2700 -2100;/L ND; B 600 600 3500 -2100;/E/
output: breaks 1/rule 4 spacing.poly_diffusion least 3.000 box 4 NP 24.000 -24.000 30.000 -18.000 box 5 ND 32.000 -24.000 38.000 -18.000/

# Windows have a rule in version 2 alone.
text: L NP; B 1800 600 0 0; L ND; B 600 1800 0 0; L NB; B 600 600 0 1100; B 200 200 0 0; E
output: breaks 0/

tech: version = 2/unit = 150/[width]/diffusion = 4/poly = 4/metal = 6/[spacing]/diffusion = 6/poly = 4/metal = 6/poly_diffusion = 2/cut = 4/cut_channel = 4/implant_channel = 3/buried_channel = 4/[extension]/poly = 4/diffusion = 4/implant = 3/buried = 4/[cut]/size = 4/enclosure = 2/
text: L NP; B 1800 600 0 0; L ND; B 600 1800 0 0; L NB; B 600 600 0 1100; B 200 200 0 0; E
output: breaks 2/rule 12 spacing.buried_channel least 6.000 box 1 ND -3.000 -9.000 3.000 9.000 box 2 NB -3.000 8.000 3.000 14.000/rule 12 spacing.buried_channel least 6.000 box 1 ND -3.000 -9.000 3.000 9.000 box 3 NB -1.000 -1.000 1.000 1.000/

text: L NM; B 0 1 0 0; E
refused: 12 = sticks: byte 6: BadNumber/

words: breaks c --tech t
refused: 3 = sticks: cannot read cif/

words: breaks d --tech none
refused: 3 = sticks: cannot read technology/

text: E
fails: output 0
output: brea
refused: 4 = sticks: cannot write output/
";

/// The nets of a design by their names.
pub const NAMES: &str = "
words: nets d --tech t
";

/// Over `NAMES`: joints, transistors, uses, rows, grids, a design that is not laid out, and refusals.
pub const NAMED: &str = "
text: sticks 1/cell a/joint p metal 0 0/joint q metal 0 1/wire metal p q/end/grid/row a/end/
output: nets 1 devices 0/net 0 nd 0 np 0 nm 3 p q/

text: sticks 1/cell t/fet f enh h 0 0 4 4/end/grid/row t/end/
output: nets 3 devices 1/net 0 nd 1 np 0 nm 0 f.low/net 1 nd 1 np 0 nm 0 f.high/net 2 nd 0 np 1 nm 0 f.gate/device 0 enh f gate 2 low 0 high 1/

# The inverter.
text: sticks 1/cell inv/contact g diff 0 0/fet d enh h 0 1 8 4/contact o diff 0 2/fet l dep h 0 3 4 8/contact v diff 0 4/contact p poly 1 3/joint m metal 1 2/contact q poly 1 1/port gl left metal 0/port gr right metal 0/port in left poly 1/port out right poly 1/port vl left metal 4/port vr right metal 4/wire metal gl g/wire metal g gr/wire diff g d/wire diff d o/wire diff o l/wire diff l v/wire metal vl v/wire metal v vr/wire poly in d/wire poly l p/wire metal o m/wire metal m p/wire poly q out/wire metal m q/end/grid/row inv/end/
output: nets 4 devices 2/net 0 nd 3 np 0 nm 3 g d.low gl gr/net 1 nd 5 np 5 nm 7 d.high o l.gate l.low p m q out/net 2 nd 3 np 0 nm 3 l.high v vl vr/net 3 nd 0 np 2 nm 0 d.gate in/device 0 enh d gate 3 low 0 high 1/device 1 dep l gate 1 low 1 high 2/

# Names are paths.
text: sticks 1/cell a/joint j metal 0 0/contact c poly 0 1/wire metal j c/end/cell deep/fet t enh v 0 0 4 4/end/cell mid/use k deep 0 0/end/cell b/joint first metal 9 0/use u a 0 0/use v a 3 0/use w mid 6 0/end/grid/row b/end/
output: nets 6 devices 1/net 0 nd 1 np 0 nm 0 w.k.t.low/net 1 nd 1 np 0 nm 0 w.k.t.high/net 2 nd 0 np 1 nm 3 u.j u.c/net 3 nd 0 np 1 nm 3 v.j v.c/net 4 nd 0 np 1 nm 0 w.k.t.gate/net 5 nd 0 np 0 nm 1 first/device 0 enh w.k.t gate 4 low 0 high 1/

# Ports that meet, and rows from the bottom.
text: sticks 1/cell f/port l left metal 0/port r right metal 0/wire metal l r/end/grid/row f f/end/
output: nets 1 devices 0/net 0 nd 0 np 0 nm 2 0.0:l 0.0:r 0.1:l 0.1:r/

text: sticks 1/cell p/fet f enh v 0 0 4 4/port l left diff 0/port r right diff 0/port b bottom poly 0/port t top poly 0/wire diff f l/wire diff f r/wire poly b f/wire poly f t/end/grid/row p p/row p p/end/
output: nets 8 devices 4/net 0 nd 2 np 0 nm 0 0.0:f.low 0.0:l/net 1 nd 4 np 0 nm 0 0.0:f.high 0.0:r 0.1:f.low 0.1:l/net 2 nd 0 np 6 nm 0 0.0:f.gate 0.0:b 0.0:t 1.0:f.gate 1.0:b 1.0:t/net 3 nd 2 np 0 nm 0 0.1:f.high 0.1:r/net 4 nd 0 np 6 nm 0 0.1:f.gate 0.1:b 0.1:t 1.1:f.gate 1.1:b 1.1:t/net 5 nd 2 np 0 nm 0 1.0:f.low 1.0:l/net 6 nd 4 np 0 nm 0 1.0:f.high 1.0:r 1.1:f.low 1.1:l/net 7 nd 2 np 0 nm 0 1.1:f.high 1.1:r/device 0 enh 0.0:f gate 2 low 0 high 1/device 1 enh 0.1:f gate 4 low 1 high 3/device 2 enh 1.0:f gate 2 low 5 high 6/device 3 enh 1.1:f gate 4 low 6 high 7/

# Grids have names in prefix where there is more than one instance.
text: sticks 2/cell f/port l left metal 0/port r right metal 0/wire metal l r/end/grid upper/row f/end/grid lower/row f f/end/
output: nets 2 devices 0/net 0 nd 0 np 0 nm 1 upper.0.0:l upper.0.0:r/net 1 nd 0 np 0 nm 2 lower.0.0:l lower.0.0:r lower.0.1:l lower.0.1:r/

text: sticks 2/cell f/port l left metal 0/port r right metal 0/wire metal l r/end/grid only/row f/end/
output: nets 1 devices 0/net 0 nd 0 np 0 nm 1 l r/

# A buried contact joins poly and diffusion, in version 2 of the technology.
text: sticks 1/cell t/buried b 1 0/joint d diff 0 0/joint p poly 2 0/wire diff d b/wire poly b p/end/grid/row t/end/
refused: 7 = sticks: line 3: NoBuried/

tech: version = 2/unit = 150/[width]/diffusion = 4/poly = 4/metal = 6/[spacing]/diffusion = 6/poly = 4/metal = 6/poly_diffusion = 2/cut = 4/cut_channel = 4/implant_channel = 3/buried_channel = 4/[extension]/poly = 4/diffusion = 4/implant = 3/buried = 4/[cut]/size = 4/enclosure = 2/
text: sticks 1/cell t/buried b 1 0/joint d diff 0 0/joint p poly 2 0/wire diff d b/wire poly b p/end/grid/row t/end/
output: nets 1 devices 0/net 0 nd 3 np 3 nm 0 b d p/

# Nothing is laid out: a clash and limits that no layout meets change nothing.
text: sticks 1/cell t/joint a metal 0 0/joint c metal 2 0/joint b metal 1 0/wire metal a c/limit x a b <= -1/limit x b a <= -1/end/grid/row t/end/
output: nets 2 devices 0/net 0 nd 0 np 0 nm 3 a c/net 1 nd 0 np 0 nm 1 b/

text: sticks 1/cell e/end/grid/row e/end/
output: nets 0 devices 0/

text: sticks 1/cell f/port l left metal 0/port r right metal 0/wire metal l r/end/cell g/joint a metal 0 0/end/grid/row f g/end/
refused: 8 = sticks: grid: PortMismatch 0 0 right 0/

text: sticks 1/cell f/port l left metal 0/port r right metal 0/wire metal l q/end/grid/row f/end/
refused: 7 = sticks: line 5: UnknownName/

words: nets c --tech t
refused: 3 = sticks: cannot read design/

# A thousand joints and 24 more, 1025 times.
text: sticks 1/cell a/$0-1024 joint j@ metal 0 @/$end/grid/row$0-1025  a$/end/
refused: 9 = sticks: too large: boxes/
";

//! What `compact` makes of worked cells: masks and reports, or a cycle.

/// Parts fall as low as they may; masks of all layers; uses; orders of passes; and limits.
pub const LAYOUTS: &str = "
text: sticks 1/cell a/joint p metal 0 0/joint q metal 0 1/wire metal p q/end/grid/row a/end/
output: DS 1 75 1;/9 a;/L NM;/B 12 12 18 18;/B 12 12 18 18;/B 12 12 18 18;/DF;/C 1 T 0 0;/E/
report: pass 1 x edges 11 backward 2 rounds 1/cell a size 18 kept 0/0 -> a:p 9 margin/a:p -> a| 9 margin/pass 2 y edges 8 backward 0 rounds 1/cell a size 18 kept 0/0 -> a:p 9 margin/a:p -> a| 9 margin/

# Two such columns.
text: sticks 1/cell t/joint a metal 0 0/joint b metal 0 1/joint c metal 1 0/joint d metal 1 1/wire metal a b/wire metal c d/end/grid/row t/end/
output: DS 1 75 1;/9 t;/L NM;/B 12 12 18 18;/B 12 12 18 18;/B 12 12 42 18;/B 12 12 42 18;/B 12 12 18 18;/B 12 12 42 18;/DF;/C 1 T 0 0;/E/
report: pass 1 x edges 28 backward 4 rounds 1/cell t size 30 kept 7/0 -> t:a 9 margin/t:a -> t:c 12 space/t:c -> t| 9 margin/pass 2 y edges 15 backward 0 rounds 1/cell t size 18 kept 0/0 -> t:a 9 margin/t:a -> t| 9 margin/

# Three joints in a row: the one in the middle shadows the pair of the others.
text: sticks 1/cell t/joint a metal 0 0/joint b metal 1 0/joint c metal 2 0/end/grid/row t/end/
output: DS 1 75 1;/9 t;/L NM;/B 12 12 18 18;/B 12 12 42 18;/B 12 12 66 18;/DF;/C 1 T 0 0;/E/
report: pass 1 x edges 9 backward 0 rounds 1/cell t size 42 kept 2/0 -> t:a 9 margin/t:a -> t:b 12 space/t:b -> t:c 12 space/t:c -> t| 9 margin/pass 2 y edges 7 backward 0 rounds 1/cell t size 18 kept 0/0 -> t:a 9 margin/t:a -> t| 9 margin/

# Joints of one net and a third: none shadows another.
text: sticks 1/cell t/joint a metal 0 0/joint e metal 1 0/joint b metal 2 0/wire metal a e/end/grid/row t/end/
output: DS 1 75 1;/9 t;/L NM;/B 12 12 18 18;/B 12 12 18 18;/B 12 12 42 18;/B 12 12 18 18;/DF;/C 1 T 0 0;/E/
report: pass 1 x edges 13 backward 0 rounds 1/cell t size 30 kept 3/0 -> t:a 9 margin/t:a -> t:b 12 space/t:b -> t| 9 margin/pass 2 y edges 13 backward 2 rounds 1/cell t size 18 kept 0/0 -> t:a 9 margin/t:a -> t| 9 margin/

# The free column between two joints goes: they stand at 9 and 21.
text: sticks 1/cell t/joint a metal 0 0/joint b metal 2 0/end/grid/row t/end/
output: DS 1 75 1;/9 t;/L NM;/B 12 12 18 18;/B 12 12 42 18;/DF;/C 1 T 0 0;/E/
report: pass 1 x edges 6 backward 0 rounds 1/cell t size 30 kept 1/0 -> t:a 9 margin/t:a -> t:b 12 space/t:b -> t| 9 margin/pass 2 y edges 5 backward 0 rounds 1/cell t size 18 kept 0/0 -> t:a 9 margin/t:a -> t| 9 margin/

# A cell without boxes.
text: sticks 1/cell e/end/grid/row e/end/
output: DS 1 75 1;/9 e;/DF;/C 1 T 0 0;/E/
report: pass 1 x edges 1 backward 0 rounds 1/cell e size 6 kept 0/0 -> e| 6 size/pass 2 y edges 1 backward 0 rounds 1/cell e size 6 kept 0/0 -> e| 6 size/

# A joint in the row above a wire: on x it falls to the border, on y it stands off the wire.
text: sticks 1/cell t/joint a metal 0 0/joint c metal 2 0/joint b metal 1 1/wire metal a c/end/grid/row t/end/
output: DS 1 75 1;/9 t;/L NM;/B 12 12 18 18;/B 12 12 18 18;/B 12 12 18 42;/B 12 12 18 18;/DF;/C 1 T 0 0;/E/
report: pass 1 x edges 10 backward 0 rounds 1/cell t size 18 kept 0/0 -> t:a 9 margin/t:a -> t| 9 margin/pass 2 y edges 16 backward 2 rounds 1/cell t size 30 kept 3/0 -> t:a 9 margin/t:a -> t:b 12 space/t:b -> t| 9 margin/

# A transistor with its gate across, and a poly joint on it: at 10 and 16. On y the joint slides down.
text: sticks 1/cell t/fet f enh h 0 1 4 12/joint j poly 1 1/wire poly f j/end/grid/row t/end/
output: DS 1 75 1;/9 t;/L ND;/B 8 40 20 32;/L NP;/B 24 24 20 32;/B 8 8 32 24;/B 8 8 32 24;/DF;/C 1 T 0 0;/E/
report: pass 1 x edges 17 backward 0 rounds 1/cell t size 22 kept 1/0 -> t:f 10 margin/t:f -> t:j 6 extent/t:j -> t| 6 margin/pass 2 y edges 19 backward 2 rounds 2/cell t size 32 kept 0/0 -> t:f 16 margin/t:f -> t| 16 margin/

# A wide joint in the row below, held off the transistor by a limit: at 24.
text: sticks 1/cell t/fet f enh h 0 1 4 12/joint j poly 1 1/wire poly f j/joint k poly 1 0 8/limit x f k >= 14/end/grid/row t/end/
output: DS 1 75 1;/9 t;/L ND;/B 8 40 20 32;/L NP;/B 24 24 20 32;/B 8 8 32 36;/B 16 16 48 16;/B 8 8 32 36;/DF;/C 1 T 0 0;/E/
report: pass 1 x edges 20 backward 0 rounds 1/cell t size 32 kept 1/0 -> t:f 10 margin/t:f -> t:k 14 limit/t:k -> t| 8 margin/pass 2 y edges 23 backward 2 rounds 1/cell t size 32 kept 2/0 -> t:f 16 margin/t:f -> t| 16 margin/

# A transistor alone.
text: sticks 1/cell t/fet f enh h 0 0 4 4/end/grid/row t/end/
output: DS 1 75 1;/9 t;/L ND;/B 8 24 20 24;/L NP;/B 24 8 20 24;/DF;/C 1 T 0 0;/E/
report: pass 1 x edges 11 backward 0 rounds 1/cell t size 20 kept 0/0 -> t:f 10 margin/t:f -> t| 10 margin/pass 2 y edges 11 backward 0 rounds 1/cell t size 24 kept 0/0 -> t:f 12 margin/t:f -> t| 12 margin/

# An inverter: contacts, transistors of both kinds, ports.
text: sticks 1/cell inv/contact g diff 0 0/fet d enh h 0 1 8 4/contact o diff 0 2/fet l dep h 0 3 4 8/contact v diff 0 4/contact p poly 1 3/joint m metal 1 2/contact q poly 1 1/port gl left metal 0/port gr right metal 0/port in left poly 1/port out right poly 1/port vl left metal 4/port vr right metal 4/wire metal gl g/wire metal g gr/wire diff g d/wire diff d o/wire diff o l/wire diff l v/wire metal vl v/wire metal v vr/wire poly in d/wire poly l p/wire metal o m/wire metal m p/wire poly q out/wire metal m q/end/grid/row inv/end/
output: DS 1 75 1;/9 inv;/L ND;/B 16 16 20 20;/B 16 24 24 36;/B 16 16 20 52;/B 8 32 20 72;/B 16 16 20 92;/B 8 12 20 22;/B 8 12 20 50;/B 8 12 20 54;/B 8 12 20 90;/L NP;/B 32 8 24 36;/B 24 16 20 72;/B 16 16 52 64;/B 16 16 56 44;/B 12 8 6 36;/B 28 8 42 68;/B 24 8 64 40;/L NC;/B 8 8 20 20;/B 8 8 20 52;/B 8 8 20 92;/B 8 8 52 64;/B 8 8 56 44;/L NM;/B 16 16 20 20;/B 16 16 20 52;/B 16 16 20 92;/B 16 16 52 64;/B 12 12 54 50;/B 16 16 56 44;/B 26 12 13 18;/B 62 12 45 18;/B 26 12 13 90;/B 62 12 45 90;/B 46 12 37 50;/B 12 26 54 57;/B 12 18 54 47;/L NI;/B 20 28 20 72;/DF;/C 1 T 0 0;/E/
report: pass 1 x edges 132 backward 12 rounds 3/cell inv size 38 kept 9/0 -> inv:d 12 margin/inv:d -> inv:q 16 space/inv:q -> inv| 10 margin/pass 2 y edges 191 backward 10 rounds 2/cell inv size 56 kept 64/0 -> inv:g 10 margin/inv:g -> inv:d 8 space/inv:d -> inv:o 8 space/inv:o -> inv:l 10 space/inv:l -> inv:v 10 space/inv:v -> inv| 10 margin/

# A poly joint under a metal wire.
text: sticks 1/cell t/joint a metal 0 0/joint c metal 2 0/joint b poly 1 0/wire metal a c/end/grid/row t/end/
output: DS 1 75 1;/9 t;/L NP;/B 8 8 12 12;/L NM;/B 12 12 18 18;/B 12 12 18 18;/B 12 12 18 18;/DF;/C 1 T 0 0;/E/
report: pass 1 x edges 10 backward 0 rounds 1/cell t size 18 kept 0/0 -> t:a 9 margin/t:a -> t| 9 margin/pass 2 y edges 13 backward 2 rounds 1/cell t size 18 kept 0/0 -> t:a 9 margin/t:a -> t| 9 margin/

# Two copies of a wire up a column, side by side: at 9 and 21.
text: sticks 1/cell a/joint p metal 0 0/joint q metal 0 1/wire metal p q/end/cell b/use u a 0 0/use v a 1 0/end/grid/row b/end/
output: DS 1 75 1;/9 b;/L NM;/B 12 12 18 18;/B 12 12 18 18;/B 12 12 42 18;/B 12 12 42 18;/B 12 12 18 18;/B 12 12 42 18;/DF;/C 1 T 0 0;/E/
report: pass 1 x edges 28 backward 4 rounds 1/cell b size 30 kept 7/0 -> b:u.p 9 margin/b:u.p -> b:v.p 12 space/b:v.p -> b| 9 margin/pass 2 y edges 15 backward 0 rounds 1/cell b size 18 kept 0/0 -> b:u.p 9 margin/b:u.p -> b| 9 margin/

# A text that is not canonical, with a cell that the grid does not name.
text: sticks 1//cell b # unused/joint p metal 0 0/end/cell a/joint p metal 0  0/end/grid/row a/end
output: DS 1 75 1;/9 a;/L NM;/B 12 12 18 18;/DF;/C 1 T 0 0;/E/
report: pass 1 x edges 3 backward 0 rounds 1/cell a size 18 kept 0/0 -> a:p 9 margin/a:p -> a| 9 margin/pass 2 y edges 3 backward 0 rounds 1/cell a size 18 kept 0/0 -> a:p 9 margin/a:p -> a| 9 margin/

# A joint on a joint of a copy.
text: sticks 1/cell a/joint p metal 0 0/end/cell b/use u a 0 0/joint q metal 0 0/end/grid/row b/end/
refused: 10 = sticks: clash in b between u.p and q/

# Two joints askew: the first pass brings them in line, the second sets them apart.
text: sticks 1/cell t/joint a metal 0 0/joint b metal 1 1/end/grid/row t/end/
output: DS 1 75 1;/9 t;/L NM;/B 12 12 18 18;/B 12 12 18 42;/DF;/C 1 T 0 0;/E/
report: pass 1 x edges 5 backward 0 rounds 1/cell t size 18 kept 0/0 -> t:a 9 margin/t:a -> t| 9 margin/pass 2 y edges 6 backward 0 rounds 1/cell t size 30 kept 1/0 -> t:a 9 margin/t:a -> t:b 12 space/t:b -> t| 9 margin/

words: compact d --tech t --passes yx
text: sticks 1/cell t/joint a metal 0 0/joint b metal 1 1/end/grid/row t/end/
output: DS 1 75 1;/9 t;/L NM;/B 12 12 18 18;/B 12 12 42 18;/DF;/C 1 T 0 0;/E/
report: pass 1 y edges 5 backward 0 rounds 1/cell t size 18 kept 0/0 -> t:a 9 margin/t:a -> t| 9 margin/pass 2 x edges 6 backward 0 rounds 1/cell t size 30 kept 1/0 -> t:a 9 margin/t:a -> t:b 12 space/t:b -> t| 9 margin/

# More passes change nothing.
words: compact d --tech t --passes xyxyxyxyxyxyxyxy
text: sticks 1/cell t/joint a metal 0 0/joint b metal 1 1/end/grid/row t/end/
output: DS 1 75 1;/9 t;/L NM;/B 12 12 18 18;/B 12 12 18 42;/DF;/C 1 T 0 0;/E/
report: pass 1 x edges 5 backward 0 rounds 1/cell t size 18 kept 0/0 -> t:a 9 margin/t:a -> t| 9 margin/pass 2 y edges 6 backward 0 rounds 1/cell t size 30 kept 1/0 -> t:a 9 margin/t:a -> t:b 12 space/t:b -> t| 9 margin/pass 3 x edges 5 backward 0 rounds 1/cell t size 18 kept 0/0 -> t:a 9 margin/t:a -> t| 9 margin/pass 4 y edges 6 backward 0 rounds 1/cell t size 30 kept 1/0 -> t:a 9 margin/t:a -> t:b 12 space/t:b -> t| 9 margin/pass 5 x edges 5 backward 0 rounds 1/cell t size 18 kept 0/0 -> t:a 9 margin/t:a -> t| 9 margin/pass 6 y edges 6 backward 0 rounds 1/cell t size 30 kept 1/0 -> t:a 9 margin/t:a -> t:b 12 space/t:b -> t| 9 margin/pass 7 x edges 5 backward 0 rounds 1/cell t size 18 kept 0/0 -> t:a 9 margin/t:a -> t| 9 margin/pass 8 y edges 6 backward 0 rounds 1/cell t size 30 kept 1/0 -> t:a 9 margin/t:a -> t:b 12 space/t:b -> t| 9 margin/pass 9 x edges 5 backward 0 rounds 1/cell t size 18 kept 0/0 -> t:a 9 margin/t:a -> t| 9 margin/pass 10 y edges 6 backward 0 rounds 1/cell t size 30 kept 1/0 -> t:a 9 margin/t:a -> t:b 12 space/t:b -> t| 9 margin/pass 11 x edges 5 backward 0 rounds 1/cell t size 18 kept 0/0 -> t:a 9 margin/t:a -> t| 9 margin/pass 12 y edges 6 backward 0 rounds 1/cell t size 30 kept 1/0 -> t:a 9 margin/t:a -> t:b 12 space/t:b -> t| 9 margin/pass 13 x edges 5 backward 0 rounds 1/cell t size 18 kept 0/0 -> t:a 9 margin/t:a -> t| 9 margin/pass 14 y edges 6 backward 0 rounds 1/cell t size 30 kept 1/0 -> t:a 9 margin/t:a -> t:b 12 space/t:b -> t| 9 margin/pass 15 x edges 5 backward 0 rounds 1/cell t size 18 kept 0/0 -> t:a 9 margin/t:a -> t| 9 margin/pass 16 y edges 6 backward 0 rounds 1/cell t size 30 kept 1/0 -> t:a 9 margin/t:a -> t:b 12 space/t:b -> t| 9 margin/

# Two on one axis before the other.
words: compact d --tech t --passes xxy
text: sticks 1/cell t/joint a metal 0 0/joint b metal 1 1/end/grid/row t/end/
output: DS 1 75 1;/9 t;/L NM;/B 12 12 18 18;/B 12 12 18 42;/DF;/C 1 T 0 0;/E/
report: pass 1 x edges 5 backward 0 rounds 1/cell t size 18 kept 0/0 -> t:a 9 margin/t:a -> t| 9 margin/pass 2 x edges 5 backward 0 rounds 1/cell t size 18 kept 0/0 -> t:a 9 margin/t:a -> t| 9 margin/pass 3 y edges 6 backward 0 rounds 1/cell t size 30 kept 1/0 -> t:a 9 margin/t:a -> t:b 12 space/t:b -> t| 9 margin/

# A limit that is met: at 9 and 21.
text: sticks 1/cell t/joint a metal 0 0/joint b metal 1 0/limit x a b <= 12/end/grid/row t/end/
output: DS 1 75 1;/9 t;/L NM;/B 12 12 18 18;/B 12 12 42 18;/DF;/C 1 T 0 0;/E/
report: pass 1 x edges 7 backward 1 rounds 1/cell t size 30 kept 1/0 -> t:a 9 margin/t:a -> t:b 12 space/t:b -> t| 9 margin/pass 2 y edges 5 backward 0 rounds 1/cell t size 18 kept 0/0 -> t:a 9 margin/t:a -> t| 9 margin/

# A limit from above holds a joint near another that has to stand off: at 9, 19 and 21.
text: sticks 1/cell t/joint a metal 0 0/joint b metal 0 1/joint c metal 1 0/limit x b c <= 2/end/grid/row t/end/
output: DS 1 75 1;/9 t;/L NM;/B 12 12 18 18;/B 12 12 38 42;/B 12 12 42 18;/DF;/C 1 T 0 0;/E/
report: pass 1 x edges 9 backward 1 rounds 2/cell t size 30 kept 1/0 -> t:a 9 margin/t:a -> t:c 12 space/t:c -> t| 9 margin/pass 2 y edges 9 backward 0 rounds 1/cell t size 30 kept 2/0 -> t:a 9 margin/t:a -> t:b 12 space/t:b -> t| 9 margin/

# Limits one after the other, the first inside a use: at 9, 24 and 54.
text: sticks 1/cell s/joint p metal 0 0/joint q metal 1 0/limit x p q >= 15/end/cell t/use u s 0 0/joint r metal 2 0/limit x u.q r >= 30/end/grid/row t/end/
output: DS 1 75 1;/9 t;/L NM;/B 12 12 18 18;/B 12 12 48 18;/B 12 12 108 18;/DF;/C 1 T 0 0;/E/
report: pass 1 x edges 11 backward 0 rounds 1/cell t size 63 kept 2/0 -> t:u.p 9 margin/t:u.p -> t:u.q 15 limit/t:u.q -> t:r 30 limit/t:r -> t| 9 margin/pass 2 y edges 7 backward 0 rounds 1/cell t size 18 kept 0/0 -> t:u.p 9 margin/t:u.p -> t| 9 margin/

# A million to the right makes the cell wide: at 9 and 1,000,009.
text: sticks 1/cell t/joint a metal 0 0/joint b metal 1 0/limit x a b >= 1000000/end/grid/row t/end/
output: DS 1 75 1;/9 t;/L NM;/B 12 12 18 18;/B 12 12 2000018 18;/DF;/C 1 T 0 0;/E/
report: pass 1 x edges 7 backward 0 rounds 1/cell t size 1000018 kept 1/0 -> t:a 9 margin/t:a -> t:b 1000000 limit/t:b -> t| 9 margin/pass 2 y edges 5 backward 0 rounds 1/cell t size 18 kept 0/0 -> t:a 9 margin/t:a -> t| 9 margin/

# As wide as masks may be.
text: sticks 1/cell t/joint a0 metal 0 0/joint a1 metal 1 0/joint a2 metal 2 0/joint a3 metal 3 0/joint a4 metal 4 0/joint a5 metal 5 0/joint a6 metal 6 0/joint a7 metal 7 0/joint a8 metal 8 0/limit x a0 a1 >= 1000000/limit x a1 a2 >= 1000000/limit x a2 a3 >= 1000000/limit x a3 a4 >= 1000000/limit x a4 a5 >= 1000000/limit x a5 a6 >= 1000000/limit x a6 a7 >= 1000000/limit x a7 a8 >= 158260/end/grid/row t/end/
output: DS 1 75 1;/9 t;/L NM;/B 12 12 18 18;/B 12 12 2000018 18;/B 12 12 4000018 18;/B 12 12 6000018 18;/B 12 12 8000018 18;/B 12 12 10000018 18;/B 12 12 12000018 18;/B 12 12 14000018 18;/B 12 12 14316538 18;/DF;/C 1 T 0 0;/E/
report: pass 1 x edges 35 backward 0 rounds 1/cell t size 7158278 kept 8/0 -> t:a0 9 margin/t:a0 -> t:a1 1000000 limit/t:a1 -> t:a2 1000000 limit/t:a2 -> t:a3 1000000 limit/t:a3 -> t:a4 1000000 limit/t:a4 -> t:a5 1000000 limit/t:a5 -> t:a6 1000000 limit/t:a6 -> t:a7 1000000 limit/t:a7 -> t:a8 158260 limit/t:a8 -> t| 9 margin/pass 2 y edges 19 backward 0 rounds 1/cell t size 18 kept 0/0 -> t:a0 9 margin/t:a0 -> t| 9 margin/
";

/// A cycle is told after the passes before it.
pub const CYCLES: &str = "
# No layout: the limit is short by 1.
text: sticks 1/cell t/joint a metal 0 0/joint b metal 1 0/limit x a b <= 11/end/grid/row t/end/
refused: 11 = pass 1 x unsatisfiable length 1/t:a -> t:b 12 space/t:b -> t:a -11 limit/

# Short by 8.
text: sticks 1/cell t/joint a metal 0 0/joint b metal 1 0/limit x a b <= 4/end/grid/row t/end/
refused: 11 = pass 1 x unsatisfiable length 8/t:a -> t:b 12 space/t:b -> t:a -4 limit/

# A million to the left of what has to stand on its right.
text: sticks 1/cell t/joint a metal 0 0/joint b metal 1 0/limit x a b <= -1000000/end/grid/row t/end/
refused: 11 = pass 1 x unsatisfiable length 1000012/t:a -> t:b 12 space/t:b -> t:a 1000000 limit/

# The same on y, where a pass on x comes first.
text: sticks 1/cell t/joint a metal 0 0/joint b metal 0 1/limit y a b <= 11/end/grid/row t/end/
refused: 11 = pass 1 x edges 5 backward 0 rounds 1/cell t size 18 kept 0/0 -> t:a 9 margin/t:a -> t| 9 margin/pass 2 y unsatisfiable length 1/t:a -> t:b 12 space/t:b -> t:a -11 limit/

words: compact d --tech t --passes yx
text: sticks 1/cell t/joint a metal 0 0/joint b metal 0 1/limit y a b <= 11/end/grid/row t/end/
refused: 11 = pass 1 y unsatisfiable length 1/t:a -> t:b 12 space/t:b -> t:a -11 limit/

# The report is cut, and the status stays.
text: sticks 1/cell t/joint a metal 0 0/joint b metal 1 0/limit x a b <= 11/end/grid/row t/end/
fails: report 0
refused: 11 = pass 1 x unsatisfiable length 1/t:a 
";

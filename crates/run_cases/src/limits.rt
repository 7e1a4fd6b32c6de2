//! Limits that only a long text comes to, and texts that are made. Between two dollar signs stands a text with the
//! first of its numbers and the one after the last: it is said for each of them, with the number for `@`, and the
//! next one for `^`.

use crate::cases::{COMPACT, SHIPPED};

const UPRIGHT: &str =
    "sticks 1/cell a/joint p metal 0 0/joint q metal 0 1/wire metal p q/end/grid/row a/end/";

/// Files as long as they may be, and one byte longer.
pub const LONGEST: [([&str; 4], &str); 4] = [
    ([COMPACT, SHIPPED, "%", ""], DESIGNS),
    ([COMPACT, "%", UPRIGHT, ""], TECHNOLOGIES),
    (["check d --tech t", SHIPPED, "%", ""], MASKS),
    (
        ["jog d --tech t --script s", SHIPPED, UPRIGHT, "%"],
        SCRIPTS,
    ),
];

const DESIGNS: &str = "
0 pass 1 x edges 11 backward 2 rounds 1/cell a size 18 kept 0/ = sticks 1/cell a/joint p metal 0 0/joint q metal 0 1/wire metal p q/end/grid/row a/end/#$0-1048488 #$/
5 sticks: too long: design = sticks 1/cell a/joint p metal 0 0/joint q metal 0 1/wire metal p q/end/grid/row a/end/#$0-1048489 #$/
";

const TECHNOLOGIES: &str = "
0 pass 1 x edges 11 backward 2 rounds 1/cell a size 18 kept 0/ = version = 1/unit = 150/[width]/diffusion = 4/poly = 4/metal = 6/[spacing]/diffusion = 6/poly = 4/metal = 6/poly_diffusion = 2/cut = 4/cut_channel = 4/implant_channel = 3/[extension]/poly = 4/diffusion = 4/implant = 3/[cut]/size = 4/enclosure = 2/#$0-65288 #$/
5 sticks: too long: technology = version = 1/unit = 150/[width]/diffusion = 4/poly = 4/metal = 6/[spacing]/diffusion = 6/poly = 4/metal = 6/poly_diffusion = 2/cut = 4/cut_channel = 4/implant_channel = 3/[extension]/poly = 4/diffusion = 4/implant = 3/[cut]/size = 4/enclosure = 2/#$0-65289 #$/
";

const MASKS: &str = "
0 = E$0-67108863  $
5 sticks: too long: cif = E$0-67108864  $
";

const SCRIPTS: &str = "
0 = $0-65536 #$
5 sticks: too long: script = $0-65537 #$
";

/// At each other limit, and one past it.
pub const MOST: [([&str; 4], &str); 1] = [([COMPACT, SHIPPED, "%", ""], LIMITS)];

// Empty cells; cells that use the one before; copies; boxes of columns; and an extent.
const LIMITS: &str = "
0 pass 1 x edges 1 backward 0 rounds 1/cell c0 size 6 kept 0/ = sticks 1/$0-256 cell c@/end/$grid/row c0/end/
7 sticks: line 514: TooManyCells = sticks 1/$0-257 cell c@/end/$grid/row c0/end/
0 pass 1 x edges 1 backward 0 rounds 1/cell c16 size 6 kept 0/ = sticks 1/cell c1/end/$1-16 cell c^/use u c@ 0 0/end/$grid/row c16/end/
7 sticks: line 50: UseDepth = sticks 1/cell c1/end/$1-17 cell c^/use u c@ 0 0/end/$grid/row c17/end/
9 sticks: too large: items = sticks 1/cell a/$0-256 joint j@ metal @ 0/$end/cell b/$0-256 use u@ a 0 @/$end/grid/row b/end/
0 pass 1 x edges 2049 backward 0 rounds 1/cell a size 18 kept 0/ = sticks 1/cell a/$0-1024 joint j@ metal 0 @/$end/grid/row$0-1024  a$/end/
9 sticks: too large: boxes = sticks 1/cell a/$0-1024 joint j@ metal 0 @/$end/grid/row$0-1025  a$/end/
0 pass 1 x edges 35 backward 0 rounds 1/cell t size 7158278 kept 8/ = sticks 1/cell t/$0-9 joint j@ metal @ 0/$$0-7 limit x j@ j^ >= 1000000/$limit x j7 j8 >= 158260/end/grid/row t/end/
9 sticks: too large: extent = sticks 1/cell t/$0-9 joint j@ metal @ 0/$$0-7 limit x j@ j^ >= 1000000/$limit x j7 j8 >= 158261/end/grid/row t/end/
# As many boxes as there may be, 1,048,576, and one more in a second grid.
9 sticks: too large: boxes = sticks 2/cell a/$0-1024 joint j@ metal 0 @/$end/cell b/joint p metal 0 0/end/grid g/row$0-1024  a$/end/grid h/row b/end/
";

/// As many parts as masters may have together, and more.
pub const PARTS: [([&str; 4], &str); 1] = [([COMPACT, SHIPPED, "%", ""], ITEMS)];

const ITEMS: &str = "
# As many items as there may be: each copy weighs 16,384, with its use, and the cell as much as all masters may.
0 pass 1 x edges 65548 backward 0 rounds 1/cell b size 102 kept 7/0 -> b:u.p 9 margin/b:u.p -> b:u.q 12 space/b:u.q -> b:v.p 12 space/b:v.p -> b:v.q 12 space/b:v.q -> b:w.p 12 space/b:w.p -> b:w.q 12 space/b:w.q -> b:x.p 12 space/b:x.p -> b:x.q 12 space/b:x.q -> b| 9 margin/pass 2 y edges 17 backward 0 rounds 1/cell b size 18 kept 0/0 -> b:u.p 9 margin/b:u.p -> b| 9 margin/ = sticks 1/cell a/joint p metal 0 0/joint q metal 1 0/$0-16381 limit x p q >= 1/$end/cell b/use u a 0 0/use v a 2 0/use w a 4 0/use x a 6 0/end/cell c/joint p metal 0 0/end/grid/row b/end/
9 sticks: too large: items = sticks 1/cell a/joint p metal 0 0/joint q metal 1 0/$0-16382 limit x p q >= 1/$end/cell b/use u a 0 0/use v a 2 0/use w a 4 0/use x a 6 0/end/cell c/joint p metal 0 0/end/grid/row b/end/
9 sticks: too large: items = sticks 1/cell a/joint p metal 0 0/joint q metal 1 0/$0-16381 limit x p q >= 1/$end/cell b/use u a 0 0/use v a 2 0/use w a 4 0/use x a 6 0/end/cell c/joint p metal 0 0/end/grid/row b c/end/
# Many joints: 25 rows of 2,370.
0 pass 1 x edges 177726 backward 0 rounds 1/cell c size 28446 kept 59225/ = sticks 1/cell a/$0-10 joint j@ metal @ 0/$end/cell b/$0-25 use u@ a 0 @/$end/cell c/$0-237 use v@ b @0 0/$end/grid/row c/end/
";

/// As many boxes as a CIF text may have, 2 to the power of 20, one more, and far more; and boxes that are enough for a
/// tree of them to be made in threads.
pub const BOXES: [([&str; 4], &str); 2] = [
    (["check d --tech t", SHIPPED, "%", ""], COPIED),
    (["check d --tech t --split 4", SHIPPED, "%", ""], APART),
];

const APART: &str = "
0 = DS 1;L NM;$0-200 B 900 900 450 @0000;$DF;$0-200 C 1 T @0000 0;$E
";

const COPIED: &str = "
0 = DS 1; L NI; $0-1024 B 2 2 0 0;$ DF; $0-1024 C 1;$ E
9 sticks: too large: boxes = DS 1; L NI; $0-1024 B 2 2 0 0;$ DF; $0-1024 C 1;$ L NI; B 2 2 0 0; E
9 sticks: too large: boxes = DS 1;L NM;B 900 900 0 0;DF;$1-64 DS ^;C @;C @;DF;$C 64;E
";

/// As many inequalities as a pass may list, and one more: 12,284 that hold whatever the layout with all of these
/// limits but one, and 4,182,021 kept pairs. Two rows of joints on two nets are one behind the other, and each joint
/// faces each of the other row.
pub const EDGES: [([&str; 4], &str); 1] = [([COMPACT, SHIPPED, "%", ""], FACING)];

const FACING: &str = "
0 pass 1 x edges 4194304 backward = sticks 1/cell t/$0-1024 joint a@ metal @ 0/$$0-1023 wire metal a@ a^/$$1024-2046 joint b@ metal @ 0/$$1024-2045 wire metal b@ b^/$$0-2058 limit x a0 a1 >= 0/$end/grid/row t/end/
9 sticks: too large: edges = sticks 1/cell t/$0-1024 joint a@ metal @ 0/$$0-1023 wire metal a@ a^/$$1024-2046 joint b@ metal @ 0/$$1024-2045 wire metal b@ b^/$$0-2059 limit x a0 a1 >= 0/$end/grid/row t/end/
";

/// Cells of five by five points. The numbers are those that bench/kept_pairs.py counts, which makes these cells, and
/// tries all pairs of items, and for each all items between.
pub const GENERATED: [([&str; 4], &str); 2] = [
    (
        [COMPACT, SHIPPED, "sticks 1/cell a/%end/grid/row a/end/", ""],
        ACROSS,
    ),
    (
        [
            "compact d --tech t --passes yx",
            SHIPPED,
            "sticks 1/cell a/%end/grid/row a/end/",
            "",
        ],
        UP,
    ),
];

const ACROSS: &str = "
0 pass 1 x edges 78 backward 0 rounds 1/cell a size 56 kept 15/ = joint n0_0 metal 0 0/joint n1_0 metal 1 0/joint n2_0 metal 2 0/joint n3_0 poly 3 0/contact n4_0 diff 4 0/joint n1_1 poly 1 1/joint n2_1 poly 2 1/contact n3_1 diff 3 1/contact n4_1 diff 4 1/joint n0_2 poly 0 2/joint n1_2 metal 1 2/contact n3_2 diff 3 2/joint n1_3 metal 1 3/joint n2_3 poly 2 3/joint n3_3 metal 3 3/joint n4_3 poly 4 3/joint n0_4 metal 0 4/joint n2_4 poly 2 4/joint n4_4 metal 4 4/
0 pass 1 x edges 89 backward 0 rounds 1/cell a size 46 kept 16/ = contact n0_0 diff 0 0/contact n1_0 diff 1 0/joint n2_0 poly 2 0/contact n1_1 diff 1 1/joint n3_1 metal 3 1/contact n4_1 diff 4 1/joint n0_2 poly 0 2/joint n2_2 metal 2 2/joint n3_2 metal 3 2/joint n4_2 poly 4 2/joint n1_3 poly 1 3/joint n3_3 poly 3 3/contact n4_3 diff 4 3/contact n0_4 diff 0 4/contact n1_4 diff 1 4/
0 pass 1 x edges 78 backward 0 rounds 1/cell a size 46 kept 13/ = joint n0_0 metal 0 0/joint n1_0 poly 1 0/contact n3_0 diff 3 0/joint n4_0 poly 4 0/joint n1_1 metal 1 1/joint n2_1 poly 2 1/contact n3_1 diff 3 1/joint n0_2 poly 0 2/joint n2_2 metal 2 2/joint n0_3 metal 0 3/contact n2_3 diff 2 3/contact n3_3 diff 3 3/joint n0_4 metal 0 4/joint n1_4 poly 1 4/contact n2_4 diff 2 4/joint n3_4 metal 3 4/joint n4_4 poly 4 4/
0 pass 1 x edges 64 backward 0 rounds 1/cell a size 54 kept 13/ = joint n2_0 poly 2 0/joint n3_0 metal 3 0/contact n4_0 diff 4 0/joint n0_1 metal 0 1/joint n1_1 poly 1 1/joint n3_1 metal 3 1/joint n0_2 poly 0 2/contact n1_2 diff 1 2/joint n2_2 poly 2 2/joint n3_2 poly 3 2/joint n4_2 poly 4 2/joint n0_3 metal 0 3/joint n1_3 metal 1 3/joint n2_3 metal 2 3/joint n4_3 metal 4 3/joint n1_4 metal 1 4/joint n2_4 metal 2 4/joint n3_4 metal 3 4/joint n4_4 metal 4 4/
0 pass 1 x edges 82 backward 0 rounds 1/cell a size 50 kept 17/ = joint n0_0 poly 0 0/contact n1_0 diff 1 0/joint n0_1 metal 0 1/contact n1_1 diff 1 1/joint n2_1 poly 2 1/contact n3_1 diff 3 1/joint n0_2 poly 0 2/joint n1_2 poly 1 2/joint n2_2 poly 2 2/joint n0_3 poly 0 3/joint n1_3 poly 1 3/joint n3_3 metal 3 3/joint n4_3 poly 4 3/joint n0_4 poly 0 4/contact n1_4 diff 1 4/joint n3_4 metal 3 4/contact n4_4 diff 4 4/
0 pass 1 x edges 81 backward 0 rounds 1/cell a size 54 kept 18/ = joint n1_0 poly 1 0/joint n2_0 metal 2 0/joint n3_0 poly 3 0/joint n4_0 poly 4 0/joint n0_1 metal 0 1/joint n1_1 metal 1 1/joint n3_1 metal 3 1/joint n4_1 metal 4 1/joint n0_2 poly 0 2/joint n1_2 metal 1 2/joint n2_2 poly 2 2/joint n3_2 poly 3 2/joint n4_2 poly 4 2/joint n0_3 poly 0 3/contact n1_3 diff 1 3/joint n2_3 poly 2 3/joint n3_3 metal 3 3/contact n4_3 diff 4 3/joint n1_4 poly 1 4/contact n2_4 diff 2 4/joint n3_4 poly 3 4/joint n4_4 metal 4 4/
0 pass 1 x edges 92 backward 0 rounds 1/cell a size 60 kept 17/ = contact n0_0 diff 0 0/contact n2_0 diff 2 0/joint n3_0 metal 3 0/contact n4_0 diff 4 0/joint n0_1 poly 0 1/joint n1_1 poly 1 1/joint n2_1 poly 2 1/joint n4_1 metal 4 1/joint n0_2 poly 0 2/contact n2_2 diff 2 2/joint n3_2 metal 3 2/contact n0_3 diff 0 3/joint n1_3 metal 1 3/joint n2_3 metal 2 3/joint n3_3 poly 3 3/contact n0_4 diff 0 4/joint n1_4 metal 1 4/joint n2_4 metal 2 4/joint n3_4 poly 3 4/
0 pass 1 x edges 135 backward 0 rounds 1/cell a size 62 kept 32/ = joint n0_0 metal 0 0/contact n1_0 diff 1 0/joint n2_0 metal 2 0/contact n3_0 diff 3 0/joint n0_1 poly 0 1/contact n1_1 diff 1 1/contact n2_1 diff 2 1/joint n3_1 poly 3 1/joint n4_1 poly 4 1/joint n0_2 poly 0 2/contact n2_2 diff 2 2/contact n3_2 diff 3 2/joint n4_2 poly 4 2/contact n0_3 diff 0 3/joint n1_3 poly 1 3/contact n2_3 diff 2 3/contact n3_3 diff 3 3/joint n4_3 metal 4 3/joint n0_4 metal 0 4/contact n3_4 diff 3 4/joint n4_4 poly 4 4/
0 pass 1 x edges 94 backward 0 rounds 1/cell a size 58 kept 19/ = contact n0_0 diff 0 0/joint n1_0 metal 1 0/contact n2_0 diff 2 0/joint n3_0 poly 3 0/joint n4_0 metal 4 0/joint n0_1 poly 0 1/joint n2_1 metal 2 1/joint n4_1 poly 4 1/joint n0_2 poly 0 2/contact n1_2 diff 1 2/joint n3_2 metal 3 2/contact n1_3 diff 1 3/joint n2_3 poly 2 3/joint n4_3 poly 4 3/contact n0_4 diff 0 4/joint n1_4 poly 1 4/joint n2_4 poly 2 4/contact n3_4 diff 3 4/joint n4_4 metal 4 4/
0 pass 1 x edges 91 backward 0 rounds 1/cell a size 58 kept 18/ = joint n0_0 metal 0 0/contact n4_0 diff 4 0/contact n0_1 diff 0 1/joint n1_1 poly 1 1/contact n2_1 diff 2 1/joint n3_1 poly 3 1/joint n4_1 poly 4 1/joint n0_2 poly 0 2/joint n1_2 poly 1 2/contact n3_2 diff 3 2/joint n4_2 poly 4 2/joint n3_3 metal 3 3/joint n4_3 poly 4 3/joint n0_4 poly 0 4/joint n1_4 metal 1 4/joint n2_4 metal 2 4/contact n3_4 diff 3 4/contact n4_4 diff 4 4/
0 pass 1 x edges 98 backward 0 rounds 1/cell a size 60 kept 21/ = contact n1_0 diff 1 0/joint n2_0 poly 2 0/contact n3_0 diff 3 0/contact n0_1 diff 0 1/contact n1_1 diff 1 1/joint n2_1 metal 2 1/contact n4_1 diff 4 1/joint n0_2 poly 0 2/joint n1_2 metal 1 2/joint n2_2 metal 2 2/joint n3_2 poly 3 2/joint n0_3 metal 0 3/joint n1_3 poly 1 3/contact n2_3 diff 2 3/joint n3_3 poly 3 3/contact n4_3 diff 4 3/joint n4_4 poly 4 4/
0 pass 1 x edges 84 backward 0 rounds 1/cell a size 50 kept 17/ = joint n0_0 poly 0 0/joint n1_0 metal 1 0/joint n3_0 metal 3 0/joint n4_0 metal 4 0/contact n0_1 diff 0 1/contact n2_1 diff 2 1/joint n3_1 poly 3 1/contact n4_1 diff 4 1/joint n0_2 poly 0 2/joint n2_2 metal 2 2/joint n4_2 poly 4 2/joint n0_3 poly 0 3/contact n1_3 diff 1 3/joint n2_3 metal 2 3/joint n3_3 poly 3 3/joint n0_4 poly 0 4/contact n1_4 diff 1 4/joint n2_4 poly 2 4/
";

const UP: &str = "
0 pass 1 y edges 80 backward 0 rounds 1/cell a size 50 kept 17/ = joint n0_0 metal 0 0/joint n1_0 metal 1 0/joint n2_0 metal 2 0/joint n3_0 poly 3 0/contact n4_0 diff 4 0/joint n1_1 poly 1 1/joint n2_1 poly 2 1/contact n3_1 diff 3 1/contact n4_1 diff 4 1/joint n0_2 poly 0 2/joint n1_2 metal 1 2/contact n3_2 diff 3 2/joint n1_3 metal 1 3/joint n2_3 poly 2 3/joint n3_3 metal 3 3/joint n4_3 poly 4 3/joint n0_4 metal 0 4/joint n2_4 poly 2 4/joint n4_4 metal 4 4/
0 pass 1 y edges 93 backward 0 rounds 1/cell a size 50 kept 20/ = contact n0_0 diff 0 0/contact n1_0 diff 1 0/joint n2_0 poly 2 0/contact n1_1 diff 1 1/joint n3_1 metal 3 1/contact n4_1 diff 4 1/joint n0_2 poly 0 2/joint n2_2 metal 2 2/joint n3_2 metal 3 2/joint n4_2 poly 4 2/joint n1_3 poly 1 3/joint n3_3 poly 3 3/contact n4_3 diff 4 3/contact n0_4 diff 0 4/contact n1_4 diff 1 4/
0 pass 1 y edges 82 backward 0 rounds 1/cell a size 60 kept 17/ = joint n0_0 metal 0 0/joint n1_0 poly 1 0/contact n3_0 diff 3 0/joint n4_0 poly 4 0/joint n1_1 metal 1 1/joint n2_1 poly 2 1/contact n3_1 diff 3 1/joint n0_2 poly 0 2/joint n2_2 metal 2 2/joint n0_3 metal 0 3/contact n2_3 diff 2 3/contact n3_3 diff 3 3/joint n0_4 metal 0 4/joint n1_4 poly 1 4/contact n2_4 diff 2 4/joint n3_4 metal 3 4/joint n4_4 poly 4 4/
0 pass 1 y edges 62 backward 0 rounds 1/cell a size 48 kept 11/ = joint n2_0 poly 2 0/joint n3_0 metal 3 0/contact n4_0 diff 4 0/joint n0_1 metal 0 1/joint n1_1 poly 1 1/joint n3_1 metal 3 1/joint n0_2 poly 0 2/contact n1_2 diff 1 2/joint n2_2 poly 2 2/joint n3_2 poly 3 2/joint n4_2 poly 4 2/joint n0_3 metal 0 3/joint n1_3 metal 1 3/joint n2_3 metal 2 3/joint n4_3 metal 4 3/joint n1_4 metal 1 4/joint n2_4 metal 2 4/joint n3_4 metal 3 4/joint n4_4 metal 4 4/
0 pass 1 y edges 82 backward 0 rounds 1/cell a size 58 kept 17/ = joint n0_0 poly 0 0/contact n1_0 diff 1 0/joint n0_1 metal 0 1/contact n1_1 diff 1 1/joint n2_1 poly 2 1/contact n3_1 diff 3 1/joint n0_2 poly 0 2/joint n1_2 poly 1 2/joint n2_2 poly 2 2/joint n0_3 poly 0 3/joint n1_3 poly 1 3/joint n3_3 metal 3 3/joint n4_3 poly 4 3/joint n0_4 poly 0 4/contact n1_4 diff 1 4/joint n3_4 metal 3 4/contact n4_4 diff 4 4/
0 pass 1 y edges 78 backward 0 rounds 1/cell a size 48 kept 15/ = joint n1_0 poly 1 0/joint n2_0 metal 2 0/joint n3_0 poly 3 0/joint n4_0 poly 4 0/joint n0_1 metal 0 1/joint n1_1 metal 1 1/joint n3_1 metal 3 1/joint n4_1 metal 4 1/joint n0_2 poly 0 2/joint n1_2 metal 1 2/joint n2_2 poly 2 2/joint n3_2 poly 3 2/joint n4_2 poly 4 2/joint n0_3 poly 0 3/contact n1_3 diff 1 3/joint n2_3 poly 2 3/joint n3_3 metal 3 3/contact n4_3 diff 4 3/joint n1_4 poly 1 4/contact n2_4 diff 2 4/joint n3_4 poly 3 4/joint n4_4 metal 4 4/
0 pass 1 y edges 96 backward 0 rounds 1/cell a size 60 kept 21/ = contact n0_0 diff 0 0/contact n2_0 diff 2 0/joint n3_0 metal 3 0/contact n4_0 diff 4 0/joint n0_1 poly 0 1/joint n1_1 poly 1 1/joint n2_1 poly 2 1/joint n4_1 metal 4 1/joint n0_2 poly 0 2/contact n2_2 diff 2 2/joint n3_2 metal 3 2/contact n0_3 diff 0 3/joint n1_3 metal 1 3/joint n2_3 metal 2 3/joint n3_3 poly 3 3/contact n0_4 diff 0 4/joint n1_4 metal 1 4/joint n2_4 metal 2 4/joint n3_4 poly 3 4/
0 pass 1 y edges 134 backward 0 rounds 1/cell a size 64 kept 31/ = joint n0_0 metal 0 0/contact n1_0 diff 1 0/joint n2_0 metal 2 0/contact n3_0 diff 3 0/joint n0_1 poly 0 1/contact n1_1 diff 1 1/contact n2_1 diff 2 1/joint n3_1 poly 3 1/joint n4_1 poly 4 1/joint n0_2 poly 0 2/contact n2_2 diff 2 2/contact n3_2 diff 3 2/joint n4_2 poly 4 2/contact n0_3 diff 0 3/joint n1_3 poly 1 3/contact n2_3 diff 2 3/contact n3_3 diff 3 3/joint n4_3 metal 4 3/joint n0_4 metal 0 4/contact n3_4 diff 3 4/joint n4_4 poly 4 4/
0 pass 1 y edges 94 backward 0 rounds 1/cell a size 50 kept 19/ = contact n0_0 diff 0 0/joint n1_0 metal 1 0/contact n2_0 diff 2 0/joint n3_0 poly 3 0/joint n4_0 metal 4 0/joint n0_1 poly 0 1/joint n2_1 metal 2 1/joint n4_1 poly 4 1/joint n0_2 poly 0 2/contact n1_2 diff 1 2/joint n3_2 metal 3 2/contact n1_3 diff 1 3/joint n2_3 poly 2 3/joint n4_3 poly 4 3/contact n0_4 diff 0 4/joint n1_4 poly 1 4/joint n2_4 poly 2 4/contact n3_4 diff 3 4/joint n4_4 metal 4 4/
0 pass 1 y edges 91 backward 0 rounds 1/cell a size 52 kept 18/ = joint n0_0 metal 0 0/contact n4_0 diff 4 0/contact n0_1 diff 0 1/joint n1_1 poly 1 1/contact n2_1 diff 2 1/joint n3_1 poly 3 1/joint n4_1 poly 4 1/joint n0_2 poly 0 2/joint n1_2 poly 1 2/contact n3_2 diff 3 2/joint n4_2 poly 4 2/joint n3_3 metal 3 3/joint n4_3 poly 4 3/joint n0_4 poly 0 4/joint n1_4 metal 1 4/joint n2_4 metal 2 4/contact n3_4 diff 3 4/contact n4_4 diff 4 4/
0 pass 1 y edges 95 backward 0 rounds 1/cell a size 46 kept 18/ = contact n1_0 diff 1 0/joint n2_0 poly 2 0/contact n3_0 diff 3 0/contact n0_1 diff 0 1/contact n1_1 diff 1 1/joint n2_1 metal 2 1/contact n4_1 diff 4 1/joint n0_2 poly 0 2/joint n1_2 metal 1 2/joint n2_2 metal 2 2/joint n3_2 poly 3 2/joint n0_3 metal 0 3/joint n1_3 poly 1 3/contact n2_3 diff 2 3/joint n3_3 poly 3 3/contact n4_3 diff 4 3/joint n4_4 poly 4 4/
0 pass 1 y edges 81 backward 0 rounds 1/cell a size 46 kept 14/ = joint n0_0 poly 0 0/joint n1_0 metal 1 0/joint n3_0 metal 3 0/joint n4_0 metal 4 0/contact n0_1 diff 0 1/contact n2_1 diff 2 1/joint n3_1 poly 3 1/contact n4_1 diff 4 1/joint n0_2 poly 0 2/joint n2_2 metal 2 2/joint n4_2 poly 4 2/joint n0_3 poly 0 3/contact n1_3 diff 1 3/joint n2_3 metal 2 3/joint n3_3 poly 3 3/joint n0_4 poly 0 4/contact n1_4 diff 1 4/joint n2_4 poly 2 4/
";

/// Texts of which each prefix is refused, with the code, but for the whole of it, with or without the last line end.
pub const CUTS: [(&str, &str, &str); 3] = [
    ("fmt d", "7", EACH_LINE),
    (COMPACT, "7", INVERTER),
    ("check d --tech t", "12", INVERTER_MASKS),
];

// A text that has each kind of line.
const EACH_LINE: &str =
    "sticks 1/cell n # with ports/buried b 1 0/contact c diff 3 0/fet f enh v 1 2 6 4/joint j metal 3 2/port l left metal 0/wire diff b f 6/wire metal l c/limit y b j >= 20/end/cell m/use u n 0 1/end/grid/row m m/row n/end/";

const INVERTER: &str =
    "sticks 1/cell inv/contact g diff 0 0/fet d enh h 0 1 8 4/contact o diff 0 2/fet l dep h 0 3 4 8/contact v diff 0 4/contact p poly 1 3/joint m metal 1 2/contact q poly 1 1/port gl left metal 0/port gr right metal 0/port in left poly 1/port out right poly 1/port vl left metal 4/port vr right metal 4/wire metal gl g/wire metal g gr/wire diff g d/wire diff d o/wire diff o l/wire diff l v/wire metal vl v/wire metal v vr/wire poly in d/wire poly l p/wire metal o m/wire metal m p/wire poly q out/wire metal m q/end/grid/row inv/end/";

const INVERTER_MASKS: &str =
    "DS 1 75 1;/9 inv;/L ND;/B 16 16 20 20;/B 16 24 24 36;/B 16 16 20 52;/B 8 32 20 72;/B 16 16 20 92;/B 8 12 20 22;/B 8 12 20 50;/B 8 12 20 54;/B 8 12 20 90;/L NP;/B 32 8 24 36;/B 24 16 20 72;/B 16 16 52 64;/B 16 16 56 44;/B 12 8 6 36;/B 28 8 42 68;/B 24 8 64 40;/L NC;/B 8 8 20 20;/B 8 8 20 52;/B 8 8 20 92;/B 8 8 52 64;/B 8 8 56 44;/L NM;/B 16 16 20 20;/B 16 16 20 52;/B 16 16 20 92;/B 16 16 52 64;/B 12 12 54 50;/B 16 16 56 44;/B 26 12 13 18;/B 62 12 45 18;/B 26 12 13 90;/B 62 12 45 90;/B 46 12 37 50;/B 12 26 54 57;/B 12 18 54 47;/L NI;/B 20 28 20 72;/DF;/C 1 T 0 0;/E/";

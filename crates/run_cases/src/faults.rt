//! Designs that are refused for their lines, their names and their sizes, and such as are not. A row has the code and
//! the report, or `none` where no line is at fault, and after a sign of equality what stands in the text.

use crate::cases::{COMPACT, SHIPPED};

const FMT: &str = "fmt d";

/// Version 2, with buried contacts.
pub const BURIED: &str =
    "version = 2/unit = 150/[width]/diffusion = 4/poly = 4/metal = 6/[spacing]/diffusion = 6/poly = 4/metal = 6/poly_diffusion = 2/cut = 4/cut_channel = 4/implant_channel = 3/buried_channel = 4/[extension]/poly = 4/diffusion = 4/implant = 3/buried = 4/[cut]/size = 4/enclosure = 2/";

// The same where diffusion is 8 wide.
const WIDE: &str =
    "version = 2/unit = 150/[width]/diffusion = 8/poly = 4/metal = 6/[spacing]/diffusion = 6/poly = 4/metal = 6/poly_diffusion = 2/cut = 4/cut_channel = 4/implant_channel = 3/buried_channel = 4/[extension]/poly = 4/diffusion = 4/implant = 3/buried = 4/[cut]/size = 4/enclosure = 2/";

/// Texts, and the only line of a cell.
pub const READ: [([&str; 4], &str); 2] = [
    ([FMT, "", "%", ""], TEXTS),
    ([FMT, "", "sticks 1/cell a/%/end/grid/end/", ""], LINES),
];

const LINES: &str = "
7 sticks: line 3: BadByte = abcdefghijklmnopqrstuvwxyz_012345
7 sticks: line 3: NumberTooLarge = joint p metal 0 1000001 %/%
7 sticks: line 3: BadLine = joint p metal -1 0
7 sticks: line 3: BadLine = contact c metal 0 0
7 sticks: line 3: BadLine = buried b 1
7 sticks: line 3: BadLine = buried b 1 0 8
7 sticks: line 3: BadLine = buried b poly 1 0
7 sticks: line 3: BadLine = buried u.b 1 0
7 sticks: line 3: BadLine = buried b 1 -1
7 sticks: line 3: NumberTooLarge = buried b 1 1000001
7 sticks: line 3: BadLine = fet f dep h 0 0 4
7 sticks: line 3: BadLine = limit x p q <= 1 2
7 sticks: line 3: BadLine = cell b
7 sticks: line 3: BadLine = row a
";

// Whole texts: the first fault with its line, names of grids, which are of version 2 alone, and what may vary.
const TEXTS: &str = "
7 sticks: line 1: Unended = 
7 sticks: line 3: BadLine = sticks 1/cell a/wire metal p
7 sticks: line 2: BadByte = sticks 1/cell a\0/
7 sticks: line 2: BadLine = sticks 1/cell a.b/
7 sticks: line 2: BadLine = sticks 1/joint p metal 0 0/
7 sticks: line 3: BadLine = sticks 1/grid/row/
7 sticks: line 4: BadLine = sticks 1/grid/end/grid/
7 sticks: line 1: BadLine = grid/end/
# Grids.
7 sticks: line 1: BadLine = sticks 0/grid/end/
7 sticks: line 1: BadLine = sticks 3/grid a/end/
7 sticks: line 2: BadLine = sticks 1/grid a/end/
7 sticks: line 4: BadLine = sticks 1/grid/end/grid b/end/
7 sticks: line 2: BadLine = sticks 2/grid/end/
7 sticks: line 2: BadLine = sticks 2/grid a.b/end/
7 sticks: line 2: BadLine = sticks 2/grid a b/end/
7 sticks: line 3: BadLine = sticks 2/grid a/grid b/end/
7 sticks: line 4: BadLine = sticks 2/grid a/end/grid/end/
7 sticks: line 4: BadLine = sticks 2/grid a/end/cell c/end/
7 sticks: line 4: BadLine = sticks 2/grid a/end/row c/
7 sticks: line 1: Unended = sticks 2/
7 sticks: line 4: Unended = sticks 2/cell c/end//
7 sticks: line 3: Unended = sticks 2/grid a/row c/
7 sticks: line 6: Unended = sticks 2/grid a/end/grid b/row c/# c
# No fault.
0 = sticks 2/grid a/end
0 = sticks 02/cell a/end/grid a/row a/end//grid  b # after it/row b a/end/
0 = sticks 1/cell abcdefghijklmnopqrstuvwxyz_01234/joint p metal -0 0004095 1000000/end/grid/end/
0 = sticks 1/cell a/limit y u.p q >= -1000000/end/grid/row a a/row b/end/
7 sticks: line 3: BadByte = sticks 1/cell a/joint p\u{80} metal 0 0/
7 sticks: line 2: Unended = //
7 sticks: line 3: BadByte = sticks 1\r/# all\r/grid\r #/
0 = # tabs and blanks/\t sticks 01 \r//# \u{80}/grid/end
# What is no token, and a name of 33 characters after a path of 34 bytes.
7 sticks: line 3: NumberTooLarge = sticks 1/cell a/limit x a b <= 1000001 %/
7 sticks: line 3: BadByte = sticks 1/cell a/limit x a b <= - 1000001/
7 sticks: line 3: BadByte = sticks 1/cell a/limit x a b <= -/
7 sticks: line 3: BadByte = sticks 1/cell a/limit x a\0 b <= 1/
7 sticks: line 3: BadByte = sticks 1/cell a/limit x a..b b <= 1/
7 sticks: line 3: BadByte = sticks 1/cell a/limit x _a b <= 1/
7 sticks: line 3: BadByte = sticks 1/cell a/limit x a b<= 1/
0 = sticks 1/cell a/limit x abcdefghijklmnopqrstuvwxyz_01234.b b <= -0012/end/grid/end/
7 sticks: line 3: BadByte = sticks 1/cell a/limit x b.abcdefghijklmnopqrstuvwxyz_012345 b <= 1/end/grid/end/
";

/// Names and sizes.
pub const CHECKED: [([&str; 4], &str); 7] = [
    ([COMPACT, SHIPPED, "%/", ""], GRIDS),
    ([COMPACT, SHIPPED, "sticks 1/%/grid/row a/end/", ""], CELLS),
    (
        [
            COMPACT,
            SHIPPED,
            "sticks 1/cell a/joint p metal 0 0/%/end/grid/row a/end/",
            "",
        ],
        SECOND,
    ),
    ([COMPACT, SHIPPED, PARTS, ""], TERMINALS),
    (
        [
            COMPACT,
            SHIPPED,
            "sticks 1/cell b/joint p metal 0 0/joint q metal 1 0/end/cell a/use u b 0 0/%/end/grid/row a/end/",
            "",
        ],
        PATHS,
    ),
    ([COMPACT, SHIPPED, DEEP, ""], UNDER),
    ([COMPACT, SHIPPED, "%", ""], DESIGNS),
];

// Texts of version 2: grids whose names are taken by grids and by a cell, and faults of cells, which come first.
const GRIDS: &str = "
7 sticks: line 12: RepeatedName = sticks 2/cell s/joint a metal 0 0/joint b metal 1 0/end/cell t/joint a metal 0 0/end/grid a/row s/end/grid a/row t/end
7 sticks: line 8: RepeatedName = sticks 2/grid a/end/grid b/end/grid c/end/grid b/end/grid a/end
none = sticks 2/cell a/end/grid a/row a/end/grid b/row c/end
7 sticks: line 4: RepeatedName = sticks 2/cell a/end/cell a/end/grid a/end/grid a/end
7 sticks: line 3: BadSize = sticks 2/cell a/joint p metal 0 0 7/end/grid a/end/grid a/end
";

// Cells of a text.
const CELLS: &str = "
# Names that are taken, unknown, or that of the cell in which they stand.
7 sticks: line 4: RepeatedName = cell a/end/cell a/end
7 sticks: line 4: RepeatedName = cell a/joint p metal 0 0/port p left metal 0/end
7 sticks: line 4: UnknownName = cell a/joint p metal 0 0/wire metal p q/end
7 sticks: line 4: UnknownName = cell a/joint p metal 0 0/wire metal p q/joint q metal 1 0/end
7 sticks: line 3: UnknownName = cell a/use u b 0 0/end/cell b/end
7 sticks: line 3: UseCycle = cell a/use u a 0 0/end
7 sticks: line 8: UsedPorts = cell b/joint m metal 0 0/port r right metal 0/wire metal m r/end/cell a/use u b 0 0/end
# Places and sizes.
7 sticks: line 3: FarPlace = cell a/joint p metal 4096 0/end
7 sticks: line 3: FarPlace = cell a/port p top metal 4096/end
7 sticks: line 6: FarPlace = cell b/joint p metal 0 1/end/cell a/use u b 0 4095/end
7 sticks: line 5: FarPlace = cell b/end/cell a/use u b 4096 0/end
7 sticks: line 3: BadSize = cell a/joint p metal 0 0 7/end
7 sticks: line 3: BadSize = cell a/fet f enh h 0 0 2 4/end
7 sticks: line 3: NarrowWire = cell a/joint p metal 0 0 4/end
# Wires, and ports without one or with two.
7 sticks: line 5: WrongTerminal = cell a/joint p metal 0 0/joint q metal 1 0/wire metal p.x q/end
7 sticks: line 7: WrongTerminal = cell b/end/cell a/use u b 0 0/joint q metal 1 0/wire metal u q/end
7 sticks: line 5: NotStraight = cell a/joint p metal 0 0/joint q metal 1 1/wire metal p q/end
7 sticks: line 5: WrongLayer = cell a/joint p metal 0 0/joint q poly 1 0/wire metal p q/end
7 sticks: line 5: WrongSide = cell a/fet f enh h 0 0 4 4/joint j poly 0 1/wire poly f j/end
7 sticks: line 5: WideWire = cell a/joint p metal 0 0/joint q metal 1 0/wire metal p q 8/end
7 sticks: line 6: PortWires = cell a/joint p metal 0 0/port l left metal 0/wire metal l p/wire metal l p/end
7 sticks: line 4: PortWires = cell a/port l left metal 0/end
# Limits.
7 sticks: line 4: BadLimit = cell a/joint p metal 0 0/limit x p p <= 3/end
7 sticks: line 6: BadLimit = cell a/joint p metal 0 0/port l left metal 0/wire metal l p/limit x p l <= 3/end
7 sticks: line 7: BadLimit = cell b/joint p metal 0 0/end/cell a/use u b 0 0/limit x u.p u.p >= 3/end
";

// A line with two faults, after a joint `p` in line 3.
const SECOND: &str = "
7 sticks: line 4: RepeatedName = joint p metal 4096 0
7 sticks: line 4: FarPlace = joint q metal 4096 0 7
7 sticks: line 4: BadSize = joint q metal 0 0 3
7 sticks: line 4: RepeatedName = contact p diff 0 4096
7 sticks: line 4: RepeatedName = fet p enh h 4096 0 4 4
7 sticks: line 4: FarPlace = fet f enh h 0 4096 4 5
7 sticks: line 4: RepeatedName = port p left metal 4096
7 sticks: line 4: RepeatedName = use p a 0 0
7 sticks: line 4: UseCycle = use u a 4096 0
7 sticks: line 4: UnknownName = use u none 4096 0
7 sticks: line 4: UnknownName = wire metal p.x q
7 sticks: line 4: UnknownName = wire metal q p.x
7 sticks: line 4: WrongTerminal = wire metal p.x p
7 sticks: line 4: WrongTerminal = wire metal p p.x
7 sticks: line 4: NotStraight = wire poly p p
7 sticks: line 4: NotStraight = wire metal p p 7
7 sticks: line 4: UnknownName = limit x p.x q <= 0
7 sticks: line 4: UnknownName = limit x q p.x <= 0
7 sticks: line 4: BadLimit = limit y p p.x <= 0
7 sticks: line 4: BadLimit = limit y p.x p <= 0
";

// A joint, a contact, a transistor and three ports.
const PARTS: &str =
    "sticks 1/cell a/joint j metal 0 0/contact c poly 1 0/fet f enh v 0 2 8 6/joint d diff 1 2/joint p poly 0 3/port l left metal 0/port m left metal 0/port r right metal 1/%/end/grid/row a/end/";

// A wire after them: its terminals are tested in order.
const TERMINALS: &str = "
7 sticks: line 11: NotStraight = wire metal f c
7 sticks: line 11: WrongLayer = wire metal f d
7 sticks: line 11: WrongLayer = wire poly f d
7 sticks: line 11: WrongLayer = wire diff f p
7 sticks: line 11: NotStraight = wire metal l m
7 sticks: line 11: NotStraight = wire metal l r
7 sticks: line 11: NotStraight = wire metal r j
7 sticks: line 11: BadSize = wire metal j c 7
7 sticks: line 11: BadSize = wire metal j c 3
7 sticks: line 11: NarrowWire = wire metal j c 4
7 sticks: line 11: WideWire = wire metal j c 8
7 sticks: line 11: WideWire = wire poly f p 8
7 sticks: line 11: WrongTerminal = wire poly j.x c
7 sticks: line 11: WideWire = wire diff f d 10
";

// Paths through a use of a cell with two joints come to nodes alone.
const PATHS: &str = "
none = wire metal u.p u.q
7 sticks: line 8: UnknownName = wire metal u.x u.q
7 sticks: line 8: WrongTerminal = wire metal u.p.x u.q
7 sticks: line 8: BadLimit = limit x u.p u.q.x >= 1
7 sticks: line 8: UnknownName = limit x u.p u.x >= 1
7 sticks: line 8: BadLimit = limit x u.p u >= 1
";

// Sixteen cells, each but the first with a use of the one before.
const DEEP: &str = "sticks 1/cell c0/end/$0-15 cell c^/use u c@ 0 0/end/$%/end/grid/row a/end/";

const UNDER: &str = "
none = cell a
7 sticks: line 50: UseDepth = cell a/use u c15 0 0
";

/// At each limit that a short text comes to, and one past it.
const DESIGNS: &str = "
# Columns, rows, places, and a node of a copy.
0 = sticks 1/cell e/joint p metal 4095 0/end/grid/row e/end/
7 sticks: line 3: FarPlace = sticks 1/cell e/joint p metal 4096 0/end/grid/row e/end/
0 = sticks 1/cell e/joint p metal 0 4095/end/grid/row e/end/
7 sticks: line 3: FarPlace = sticks 1/cell e/joint p metal 0 4096/end/grid/row e/end/
0 = sticks 1/cell e/port l left metal 4095/port r right metal 4095/wire metal l r/end/grid/row e/end/
7 sticks: line 4: FarPlace = sticks 1/cell e/port l left metal 4095/port r right metal 4096/wire metal l r/end/grid/row e/end/
0 = sticks 1/cell a/joint p metal 1 0/end/cell e/use u a 4094 0/end/grid/row e/end/
7 sticks: line 6: FarPlace = sticks 1/cell a/joint p metal 1 0/end/cell e/use u a 4095 0/end/grid/row e/end/
# Widths and sizes.
0 = sticks 1/cell e/joint p metal 0 0 4096/end/grid/row e/end/
7 sticks: line 3: BadSize = sticks 1/cell e/joint p metal 0 0 4098/end/grid/row e/end/
0 = sticks 1/cell e/fet f enh h 0 0 4096 4096/end/grid/row e/end/
7 sticks: line 3: BadSize = sticks 1/cell e/fet f enh h 0 0 4096 4098/end/grid/row e/end/
# Numbers and names.
0 = sticks 1/cell e/joint p metal 0 0/joint q metal 1 0/limit x p q >= 1000000/end/grid/row e/end/
7 sticks: line 5: NumberTooLarge = sticks 1/cell e/joint p metal 0 0/joint q metal 1 0/limit x p q >= 1000001/end/grid/row e/end/
0 = sticks 1/cell e/joint p metal 0 0/joint q metal 1 0/limit x p q >= -1000000/end/grid/row e/end/
7 sticks: line 5: NumberTooLarge = sticks 1/cell e/joint p metal 0 0/joint q metal 1 0/limit x p q >= -1000001/end/grid/row e/end/
0 = sticks 1/cell abcdefghijklmnopqrstuvwxyz_01234/end/grid/row abcdefghijklmnopqrstuvwxyz_01234/end/
7 sticks: line 2: BadByte = sticks 1/cell abcdefghijklmnopqrstuvwxyz_012345/end/grid/row abcdefghijklmnopqrstuvwxyz_012345/end/
";

/// Buried contacts.
pub const CONTACTS: [([&str; 4], &str); 8] = [
    (
        [
            COMPACT,
            SHIPPED,
            "sticks 1/cell a/joint p metal 0 0/%/end/grid/row a/end/",
            "",
        ],
        OLD,
    ),
    (
        [
            COMPACT,
            BURIED,
            "sticks 1/cell a/joint p metal 0 0/%/end/grid/row a/end/",
            "",
        ],
        NEW,
    ),
    ([COMPACT, BURIED, AROUND, ""], SIDES),
    ([COMPACT, BURIED, PORTS, ""], ORDER),
    ([COMPACT, BURIED, COPIES, ""], INSIDE),
    ([COMPACT, BURIED, PADS, ""], EVEN),
    ([COMPACT, WIDE, PADS, ""], UNEVEN),
    ([COMPACT, BURIED, HEAVY, ""], HELD),
];

// Without buried contacts, after a joint `p` in line 3.
const OLD: &str = "
7 sticks: line 4: NoBuried = buried b 1 0
7 sticks: line 4: RepeatedName = buried p 4096 0
7 sticks: line 4: FarPlace = buried b 0 4096
7 sticks: line 4: FarPlace = buried b 4096 0
";

// With buried contacts.
const NEW: &str = "
none = buried b 4095 4095
7 sticks: line 4: RepeatedName = buried p 4096 0
7 sticks: line 4: FarPlace = buried b 0 4096
7 sticks: line 5: RepeatedName = buried b 0 0/joint b poly 1 0
";

// A buried contact with joints of each layer around it, of which the second ones lie in the places of the first. Line
// 15 follows. Line 14 is the port, which has to have a wire.
const AROUND: &str =
    "sticks 1/cell a/buried b 2 2/joint ld diff 0 2/joint le diff 1 2/joint lp poly 0 2/joint lm metal 0 2/joint rd diff 4 2/joint rp poly 4 2/joint td diff 2 4/joint tp poly 2 4/joint bd diff 2 0/joint bp poly 2 0/port l left diff 2/%/end/grid/row a/end/";

// Poly and diffusion leave it on different sides.
const SIDES: &str = "
7 sticks: line 16: WrongSide = wire diff ld b/wire poly lp b
7 sticks: line 16: WrongSide = wire poly lp b/wire diff b ld
7 sticks: line 16: WrongSide = wire diff l b/wire poly b lp
7 sticks: line 16: WrongSide = wire poly b rp/wire diff rd b
7 sticks: line 16: WrongSide = wire diff b td/wire poly b tp
7 sticks: line 16: WrongSide = wire poly bp b/wire diff bd b
7 sticks: line 15: WrongLayer = wire metal lm b
7 sticks: line 16: WrongLayer = wire diff ld b/wire metal lm b
none = wire diff l ld/wire diff ld b/wire poly b rp
none = wire diff l b/wire diff le b/wire diff ld b
none = wire diff l b/wire poly b rp/wire poly b tp/wire diff b bd
none = wire diff l b/wire diff b rd/wire diff b td/wire poly b bp
";

// Each port has a wire, of which one leads to a buried contact.
const PORTS: &str =
    "sticks 1/cell a/buried b 2 2/joint p poly 0 2/joint d diff 0 2/port l left diff 2/port m left poly 2/wire diff l b/wire poly m p/%/end/grid/row a/end/";

// The side is tested after the layer, and before ports and widths.
const ORDER: &str = "
7 sticks: line 10: WrongLayer = wire metal p b 3
7 sticks: line 10: WrongSide = wire poly p b 3
7 sticks: line 10: WrongSide = wire poly m b
7 sticks: line 10: PortWires = wire diff l b
7 sticks: line 10: BadSize = wire diff d b 3
";

// Cell `c` has a diffusion wire on the left of its buried contact, cell `n` has none, and cell `m` adds one to `n`.
const COPIES: &str =
    "sticks 1/cell c/buried b 2 2/joint d diff 0 2/wire diff d b/end/cell n/buried b 2 2/end/cell m/use v n 0 0/joint d diff 0 2/wire diff d v.b/end/cell o/use w c 0 0/end/cell a/joint p poly 0 2/joint q poly 4 2/joint r poly 8 2/joint d diff 8 2/%/end/grid/row a/end/";

// Wires inside copies take sides.
const INSIDE: &str = "
7 sticks: line 24: WrongSide = use u c 0 0/wire poly p u.b
7 sticks: line 24: WrongSide = use u o 0 0/wire poly p u.w.b
7 sticks: line 24: WrongSide = use u m 0 0/wire poly u.v.b p
7 sticks: line 25: WrongSide = use u n 0 0/wire diff u.b d/wire poly u.b q
none = use u c 0 0/wire poly q u.b
none = use u c 0 0/wire poly u.b q/wire diff u.d u.b
none = use u n 0 0/wire poly p u.b
none = use u c 8 0/use v n 8 0/wire poly r v.b
none = use u n 0 0/use v n 4 0/wire poly q v.b/wire diff d u.b
";

// Each of the cells but the first copies the one before it twice. They end in line 65.
const HEAVY: &str =
    "sticks 1/cell c0/buried s 2 0/buried t 2 2/joint d diff 0 0/joint p poly 0 2/joint q poly 0 0/wire diff d s/end/$0-14 cell c^/use u c@ 0 0/use v c@ 0 0/end/$cell a/use b c14 0 0/use c c14 0 0/use e c0 0 0/use f c0 0 0/%/end/grid/row a/end/";

// Sides are told apart in a cell that is too heavy to be inlined.
const HELD: &str = "
7 sticks: line 71: WrongSide = wire poly e.q e.s
none = wire poly e.p e.t
none = wire poly e.p e.t/wire diff e.d e.s
7 sticks: line 72: WrongSide = wire poly f.p e.t/wire poly f.q e.s
";

// A buried contact between wide joints.
const PADS: &str =
    "sticks 1/cell a/buried b 2 0/joint d diff 0 0 10/joint p poly 4 0 10/joint n poly 4 0/%/end/grid/row a/end/";

// A wire is as wide as its pad, of which both sides are 4 wide.
const EVEN: &str = "
none = wire diff d b
none = wire poly b p 4
7 sticks: line 7: WideWire = wire poly b p 6
7 sticks: line 7: NarrowWire = wire diff d b 2
7 sticks: line 7: BadSize = wire diff d b 5
";

// The same where diffusion is 8 wide.
const UNEVEN: &str = "
none = wire diff d b
none = wire poly b p 8
7 sticks: line 7: NarrowWire = wire poly b p
7 sticks: line 7: NarrowWire = wire poly b p 6
7 sticks: line 7: BadSize = wire poly b p 5
7 sticks: line 7: WideWire = wire poly b p 10
7 sticks: line 7: WideWire = wire diff d b 10
7 sticks: line 7: NarrowWire = wire poly b n 6
7 sticks: line 7: WideWire = wire poly b n 8
";

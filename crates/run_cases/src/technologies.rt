//! Technologies that are refused, and other spellings of the one that comes with the program. A row has the code and
//! the report, and after a sign of equality a whole technology, or what is changed of one, and to what.

use crate::cases::{COMPACT, SHIPPED};

// An inverter: the numbers of its first pass come from those of the technology.
const INVERTER: &str =
    "sticks 1/cell inv/contact g diff 0 0/fet d enh h 0 1 8 4/contact o diff 0 2/fet l dep h 0 3 4 8/contact v diff 0 4/contact p poly 1 3/joint m metal 1 2/contact q poly 1 1/port gl left metal 0/port gr right metal 0/port in left poly 1/port out right poly 1/port vl left metal 4/port vr right metal 4/wire metal gl g/wire metal g gr/wire diff g d/wire diff d o/wire diff o l/wire diff l v/wire metal vl v/wire metal v vr/wire poly in d/wire poly l p/wire metal o m/wire metal m p/wire poly q out/wire metal m q/end/grid/row inv/end/";

const EMPTY: &str = "sticks 1/cell e/end/grid/row e/end/";

// Version 2, with inline tables.
const SHIPPED2: &str =
    "version = 2/unit = 150/width = { diffusion = 4, poly = 4, metal = 6 }/extension = { poly = 4, diffusion = 4, implant = 3, buried = 4 }/cut = { size = 4, enclosure = 2 }/[spacing]/diffusion = 6/poly = 4/metal = 6/poly_diffusion = 2/cut = 4/cut_channel = 4/implant_channel = 3/buried_channel = 4/";

/// Technologies and designs.
pub const TECHNOLOGIES: [([&str; 4], &str); 5] = [
    ([COMPACT, SHIPPED, EMPTY, ""], FAULTS),
    ([COMPACT, SHIPPED2, EMPTY, ""], FAULTS2),
    ([COMPACT, SHIPPED, INVERTER, ""], SPELLINGS),
    ([COMPACT, "%", INVERTER, ""], WHOLE),
    ([COMPACT, "%", EMPTY, ""], NUMBERS),
];

// Each fault, and which of two comes first.
const FAULTS: &str = "
6 sticks: technology: OddWidth width.metal = metal = 6 -> metal = 5
6 sticks: technology: OutOfRange version = version = 1 -> version = 3
6 sticks: technology: Missing cut.size = [cut]/size = 4/enclosure = 2/ ->
6 sticks: technology: Unknown extra = version = 1 -> extra = 1/version = 1
6 sticks: technology: Missing extension.implant = implant = 3/ ->
6 sticks: technology: Missing width.diffusion = [width] -> [wide]
6 sticks: technology: WrongType width.diffusion = [width] -> [[width]]
6 sticks: technology: WrongType width.diffusion = [width]/diffusion = 4/poly = 4/metal = 6 -> width = 3
6 sticks: technology: Missing unit = version = 1 -> version = 1/[more]
6 sticks: technology: WrongType unit = unit = 150 -> unit = 150.0
6 sticks: technology: WrongType unit = unit = 150 -> unit = \"150\"
6 sticks: technology: WrongType unit = unit = 150 -> unit = 1979-05-27
6 sticks: technology: WrongType unit = unit = 150 -> unit = true
6 sticks: technology: WrongType unit = unit = 150 -> unit = [150]
6 sticks: technology: WrongType unit = unit = 150 -> unit = {}
6 sticks: technology: NotToml = unit = 150 -> unit = 150/unit = 150
6 sticks: technology: NotToml = unit = 150 -> unit = 9223372036854775808
6 sticks: technology: OutOfRange unit = unit = 150 -> unit = 9223372036854775807
6 sticks: technology: OutOfRange unit = unit = 150 -> unit = -150
# A wrong type at an earlier key comes before a key that is not there, and the other way round.
6 sticks: technology: WrongType width.metal = metal = 6 -> metal = 6.0/[other]
6 sticks: technology: Missing width.diffusion = diffusion = 4/poly = 4/metal = 6 -> poly = \"4\"/metal = 6
# A key that is not there comes before an unknown one, and that before a fault of the numbers.
6 sticks: technology: Missing cut.enclosure = enclosure = 2 -> closure = 2
6 sticks: technology: Unknown width.gold = metal = 6 -> metal = 5/gold = 1
# The least key in the order of bytes, where a dot comes after a dash and before a letter.
6 sticks: technology: NotToml = version = 1 -> zebra = 1/version = 1/width.a = 1
6 sticks: technology: Unknown width-x = [width] -> [width-x]/a = 1/[width]/a = 1
6 sticks: technology: Unknown width.B = [width] -> [widths]/a = 1/[width]/b = 1/B = 1
6 sticks: technology: Unknown cut.size = [width] -> [\"cut.size\"]/[width]/\"a b\" = 1
6 sticks: technology: Unknown width.a b = [width] -> [width]/\"a b\" = {}
6 sticks: technology: Unknown cut.spacing = [cut] -> [unit2]/[cut]/spacing = 1
# Version 2 without the keys of buried contacts, and version 1 with one.
6 sticks: technology: Missing extension.buried = version = 1 -> version = 2
6 sticks: technology: Unknown spacing.buried_channel = cut_channel = 4 -> cut_channel = 4/buried_channel = 0
# A fault of two numbers is handed on.
6 sticks: technology: PadTooSmall = enclosure = 2 -> enclosure = 0
# Values nest at most eighty deep.
6 sticks: technology: Unknown extra = version = 1 -> extra = $0-80 [$$0-80 ]$/version = 1
6 sticks: technology: NotToml = version = 1 -> extra = $0-81 [$$0-81 ]$/version = 1
";

// Version 2 has the keys of buried contacts.
const FAULTS2: &str = "
6 sticks: technology: Missing extension.buried = , buried = 4 ->
6 sticks: technology: Missing spacing.buried_channel = buried_channel = 4 ->
6 sticks: technology: Missing spacing.buried_channel = buried_channel = 4 -> buried = 4
6 sticks: technology: WrongType extension.buried = , buried = 4 -> , buried = '4'
6 sticks: technology: WrongType spacing.buried_channel = buried_channel = 4 -> buried_channel = 4.0
6 sticks: technology: Missing extension.poly = extension = { -> extend = {
6 sticks: technology: Missing cut.enclosure = enclosure = 2 -> buried = 4
6 sticks: technology: Unknown cut.buried = enclosure = 2 -> enclosure = 2, buried = 4
6 sticks: technology: ZeroSpacing spacing.buried_channel = buried_channel = 4 -> buried_channel = 0
6 sticks: technology: OutOfRange extension.buried = , buried = 4 -> , buried = 4097
# In another version these keys are not known.
6 sticks: technology: Unknown extension.buried = version = 2 -> version = 1
6 sticks: technology: Unknown extension.buried = version = 2 -> version = 3
6 sticks: technology: WrongType version = version = 2 -> version = 2.0
6 sticks: technology: Missing version = version = 2/ ->
";

// Other spellings.
const SPELLINGS: &str = "
0 pass 1 x edges 132 backward 12 rounds 3/cell inv size 38 kept 9/ = unit = 150 -> unit = 0x96 # u, in hundredths of a micron
0 pass 1 x edges 132 backward 12 rounds 3/cell inv size 38 kept 9/ = unit = 150 -> \"unit\" = +1_50
0 pass 1 x edges 132 backward 12 rounds 3/cell inv size 38 kept 9/ = version = 1 -> \u{FEFF}'version'=0b1
0 pass 1 x edges 132 backward 12 rounds 3/cell inv size 38 kept 9/ = [width]/diffusion = 4/poly = 4/metal = 6 -> [ \"width\" ]/poly = 4/metal = 0o6/'diffusion' = 4
0 pass 1 x edges 132 backward 12 rounds 3/cell inv size 38 kept 9/ = [width]/diffusion = 4/poly = 4/metal = 6 -> width = { diffusion = 4, poly = 4, metal = 6 }
0 pass 1 x edges 132 backward 12 rounds 3/cell inv size 38 kept 9/ = [width]/diffusion = 4/poly = 4/metal = 6 -> width.diffusion = 4/width.poly = 4/width . metal = 6
";

// Line ends of two bytes, inline tables, no TOML, and nothing.
const WHOLE: &str = "
0 pass 1 x edges 132 backward 12 rounds 3/cell inv size 38 kept 9/ = version = 1\r/unit = 150\r/\r/[width]\r/diffusion = 4\r/poly = 4\r/metal = 6\r/\r/[spacing]\r/diffusion = 6\r/poly = 4\r/metal = 6\r/poly_diffusion = 2\r/cut = 4\r/cut_channel = 4\r/implant_channel = 3\r/\r/[extension]\r/poly = 4\r/diffusion = 4\r/implant = 3\r/\r/[cut]\r/size = 4\r/enclosure = 2\r/
0 pass 1 x edges 132 backward 12 rounds 3/cell inv size 38 kept 9/ = version = 2/unit = 150/width = { diffusion = 4, poly = 4, metal = 6 }/extension = { poly = 4, diffusion = 4, implant = 3, buried = 4 }/cut = { size = 4, enclosure = 2 }/[spacing]/diffusion = 6/poly = 4/metal = 6/poly_diffusion = 2/cut = 4/cut_channel = 4/implant_channel = 3/buried_channel = 4/
6 sticks: technology: NotToml = =
6 sticks: technology: Missing version =
";

// A number at its limit, and one past it.
const NUMBERS: &str = "
# A number of a technology.
0 = version = 1/unit = 150/[width]/diffusion = 4/poly = 4/metal = 6/[spacing]/diffusion = 6/poly = 4/metal = 4096/poly_diffusion = 2/cut = 4/cut_channel = 4/implant_channel = 3/[extension]/poly = 4/diffusion = 4/implant = 3/[cut]/size = 4/enclosure = 2/
6 sticks: technology: OutOfRange spacing.metal = version = 1/unit = 150/[width]/diffusion = 4/poly = 4/metal = 6/[spacing]/diffusion = 6/poly = 4/metal = 4097/poly_diffusion = 2/cut = 4/cut_channel = 4/implant_channel = 3/[extension]/poly = 4/diffusion = 4/implant = 3/[cut]/size = 4/enclosure = 2/
";

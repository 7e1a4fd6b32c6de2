//! Cases on which tables are based, and tables of words, refusals, files and streams.

/// The words that lay a design out.
pub const COMPACT: &str = "compact d --tech t";

/// The numbers of the technology that comes with the program.
pub const SHIPPED: &str =
    "version = 1/unit = 150/[width]/diffusion = 4/poly = 4/metal = 6/[spacing]/diffusion = 6/poly = 4/metal = 6/poly_diffusion = 2/cut = 4/cut_channel = 4/implant_channel = 3/[extension]/poly = 4/diffusion = 4/implant = 3/[cut]/size = 4/enclosure = 2/";

/// On what each case is based: with the technology that comes with the program, and no design.
pub const COMMON: &str = "
words: compact d --tech t
tech: version = 1/unit = 150/[width]/diffusion = 4/poly = 4/metal = 6/[spacing]/diffusion = 6/poly = 4/metal = 6/poly_diffusion = 2/cut = 4/cut_channel = 4/implant_channel = 3/[extension]/poly = 4/diffusion = 4/implant = 3/[cut]/size = 4/enclosure = 2/
";

/// A wire up a column shrinks to its least extent.
pub const SHRUNK: &str = "
text: sticks 1/cell a/joint p metal 0 0/joint q metal 0 1/wire metal p q/end/grid/row a/end/
output: DS 1 75 1;/9 a;/L NM;/B 12 12 18 18;/B 12 12 18 18;/B 12 12 18 18;/DF;/C 1 T 0 0;/E/
report: pass 1 x edges 11 backward 2 rounds 1/cell a size 18 kept 0/0 -> a:p 9 margin/a:p -> a| 9 margin/pass 2 y edges 8 backward 0 rounds 1/cell a size 18 kept 0/0 -> a:p 9 margin/a:p -> a| 9 margin/
";

/// Nothing is laid out.
pub const FMT: &str = "
words: fmt d
";

/// Designs and technologies that are refused.
pub const REFUSALS: &str = "
# A joint under a wire, and beside it.
text: sticks 1/cell t/joint a metal 0 0/joint c metal 2 0/joint b metal 1 0/wire metal a c/end/grid/row t/end/
refused: 10 = sticks: clash in t between b and #0/

# No designs: nothing, and a wire between joints that lie askew.
refused: 7 = sticks: line 1: Unended/

text: sticks 1/cell a/joint p metal 0 0/joint q metal 1 1/wire metal p q/end/grid/row a/end/
refused: 7 = sticks: line 5: NotStraight/

# Its line is cut, and the status stays.
fails: report 0
refused: 7 = sticks: line

# Other widths.
tech: version = 1/unit = 150/[width]/diffusion = 4/poly = 4/metal = 8/[spacing]/diffusion = 6/poly = 4/metal = 6/poly_diffusion = 2/cut = 4/cut_channel = 4/implant_channel = 3/[extension]/poly = 4/diffusion = 4/implant = 3/[cut]/size = 4/enclosure = 2/
text: sticks 1/cell t/joint p metal 0 0/end/grid/row t/end/
output: DS 1 75 1;/9 t;/L NM;/B 16 16 20 20;/DF;/C 1 T 0 0;/E/
report: pass 1 x edges 3 backward 0 rounds 1/cell t size 20 kept 0/0 -> t:p 10 margin/t:p -> t| 10 margin/pass 2 y edges 3 backward 0 rounds 1/cell t size 20 kept 0/0 -> t:p 10 margin/t:p -> t| 10 margin/

# No technologies: no such file, no TOML, and a further key. The design is not looked at.
words: compact d --tech none
refused: 3 = sticks: cannot read technology/

tech: =
refused: 6 = sticks: technology: NotToml/

tech: version = 1/unit = 150/[width]/diffusion = 4/poly = 4/metal = 5/[spacing]/diffusion = 6/poly = 4/metal = 6/poly_diffusion = 2/cut = 4/cut_channel = 4/implant_channel = 3/[extension]/poly = 4/diffusion = 4/implant = 3/[cut]/size = 4/enclosure = 2/
refused: 6 = sticks: technology: OddWidth width.metal/

tech: version = 1/unit = 150/[width]/diffusion = 4/poly = 4/metal = 6/[spacing]/diffusion = 6/poly = 4/metal = 6/poly_diffusion = 2/cut = 4/cut_channel = 4/implant_channel = 3/[extension]/poly = 4/diffusion = 4/implant = 3/
refused: 6 = sticks: technology: Missing cut.size/

tech: extra = 1/version = 1/unit = 150/[width]/diffusion = 4/poly = 4/metal = 6/[spacing]/diffusion = 6/poly = 4/metal = 6/poly_diffusion = 2/cut = 4/cut_channel = 4/implant_channel = 3/[extension]/poly = 4/diffusion = 4/implant = 3/[cut]/size = 4/enclosure = 2/
refused: 6 = sticks: technology: Unknown extra/

# One more than may be: on x, and on y.
text: sticks 1/cell t/joint a0 metal 0 0/joint a1 metal 1 0/joint a2 metal 2 0/joint a3 metal 3 0/joint a4 metal 4 0/joint a5 metal 5 0/joint a6 metal 6 0/joint a7 metal 7 0/joint a8 metal 8 0/limit x a0 a1 >= 1000000/limit x a1 a2 >= 1000000/limit x a2 a3 >= 1000000/limit x a3 a4 >= 1000000/limit x a4 a5 >= 1000000/limit x a5 a6 >= 1000000/limit x a6 a7 >= 1000000/limit x a7 a8 >= 158261/end/grid/row t/end/
refused: 9 = sticks: too large: extent/

text: sticks 1/cell t/joint a0 metal 0 0/joint a1 metal 0 1/joint a2 metal 0 2/joint a3 metal 0 3/joint a4 metal 0 4/joint a5 metal 0 5/joint a6 metal 0 6/joint a7 metal 0 7/joint a8 metal 0 8/limit y a0 a1 >= 1000000/limit y a1 a2 >= 1000000/limit y a2 a3 >= 1000000/limit y a3 a4 >= 1000000/limit y a4 a5 >= 1000000/limit y a5 a6 >= 1000000/limit y a6 a7 >= 1000000/limit y a7 a8 >= 158261/end/grid/row t/end/
refused: 9 = sticks: too large: extent/
";

/// Over `FMT`: designs in their canonical form.
pub const TEXTS: &str = "
# A text in its canonical form: no comment, no empty line, one blank between words.
text: sticks 1//cell e # empty/end/grid/row  e/end
output: sticks 1/cell e/end/grid/row e/end/

# Grids with names, of which two have one: `fmt` checks no names.
text: sticks  2/grid  g # first/end//grid h/ row a b/end/grid g/end
output: sticks 2/grid g/end/grid h/row a b/end/grid g/end/

# It has no report, so nothing fails there.
text: sticks 1/cell e/end/grid/row e/end/
fails: report 0
output: sticks 1/cell e/end/grid/row e/end/

# No designs: nothing, and a line that is cut.
refused: 7 = sticks: line 1: Unended/

text: sticks 1/cell a/wire metal p
refused: 7 = sticks: line 3: BadLine/

# Blanks and line ends, numbers that lose leading zeros and the minus of zero, and grids with names.
text: sticks 01\r/cell a\r/joint p metal 007 -0 00\r/limit x p p >= -000\r/end\r/grid\r/end\r/
output: sticks 1/cell a/joint p metal 7 0 0/limit x p p >= 0/end/grid/end/

text: sticks 2/cell c/end/grid a/row c/end/grid b/row c c/row c c/end/
output: sticks 2/cell c/end/grid a/row c/end/grid b/row c c/row c c/end/

text: sticks 02 # two//grid  b/end//grid a/ row  c/end
output: sticks 2/grid b/end/grid a/row c/end/

text: sticks 2/grid a/end/grid a/end
output: sticks 2/grid a/end/grid a/end/

# Each form is printed as it is read.
text: sticks 1/cell a/joint p metal 0 1/joint q poly 2 3 4/contact c diff 4 5/contact d poly 6 7/buried e 7 3/fet f enh h 8 9 10 12/fet g dep v 1000000 0 6 8/port l left metal 0/port r right poly 1/port b bottom diff 2/port t top metal 3/wire metal p l/wire diff u.v.p q 6/limit x p u.q <= -12/limit y p q >= 0/end/cell b/use u a 1 2/end/grid/row a b/row b b/end/
output: sticks 1/cell a/joint p metal 0 1/joint q poly 2 3 4/contact c diff 4 5/contact d poly 6 7/buried e 7 3/fet f enh h 8 9 10 12/fet g dep v 1000000 0 6 8/port l left metal 0/port r right poly 1/port b bottom diff 2/port t top metal 3/wire metal p l/wire diff u.v.p q 6/limit x p u.q <= -12/limit y p q >= 0/end/cell b/use u a 1 2/end/grid/row a b/row b b/end/
";

/// Over `SHRUNK`: words in another order; and files and streams that fail.
pub const FAILURES: &str = "
words: compact --tech=t d

# No such file, and fetches that fail.
words: compact e --tech t
output:
refused: 3 = sticks: cannot read design/

fails: fetch 0
output:
refused: 3 = sticks: cannot read technology/

fails: fetch 1
output:
refused: 3 = sticks: cannot read design/

words: fmt d
fails: fetch 0
output:
refused: 3 = sticks: cannot read design/

# A prefix of the masks stands where their writing failed.
fails: output 0
output: DS 1 75 1;/9 a;/L NM;/B 12 12 18 18
refused: 4 = sticks: cannot write output/

fails: output 1
output: DS 1 75 1;/9 a;/L NM;/B 12 12 18 18;/B 12 12 18 18;/B 12 12 18 18;/DF;/C 1 T\x20
refused: 4 = sticks: cannot write output/

# The report is one chunk, of which the first half stands.
fails: report 0
refused: 4 = pass 1 x edges 11 backward 2 rounds 1/cell a size 18 kept 0/0 -> a:p 9 margin/a:p -> a| 9 margin

text: sticks 1/cell e/end/grid/row e/end/
fails: report 0
output: DS 1 75 1;/9 e;/DF;/C 1 T 0 0;/E/
refused: 4 = pass 1 x edges 1 backward 0 rounds 1/cell e size 6 kept 0/0 -> e| 6 size/
";

/// Words for a design without parts.
pub const WORDS: [([&str; 4], &str); 1] = [(
    [
        "%",
        SHIPPED,
        "sticks 1/cell e/end/grid/row e/end/",
        "# none/",
    ],
    LINES,
)];

// Words that are no command, and such as are: what asks for a file that is not there has been read.
const LINES: &str = "
2 sticks: usage = check d
2 sticks: usage = compact d --tech t --tech t
2 sticks: usage = compact d --tech t --passes yy
2 sticks: usage = compact d --tech t --passes xyz
2 sticks: usage = compact d --tech t --passes 
2 sticks: usage = compact d --tech t --passes
2 sticks: usage = compact d --tech t --passes xy z
2 sticks: usage = compact d --tech t passes xy
2 sticks: usage = compact d --tech t --passes xy --passes xy
2 sticks: usage = bench 65
2 sticks: usage = bench 0
2 sticks: usage = bench
2 sticks: usage = bench 2 --tech t
2 sticks: usage = jog d --tech t
2 sticks: usage = edit d --tech t
2 sticks: usage = slack d
2 sticks: usage = breaks d --tech t --most 0
2 sticks: usage = breaks d --tech t --most 65537
2 sticks: usage = breaks d --tech t --most 100000
2 sticks: usage = breaks d --tech t --most 5 --most=5
2 sticks: usage = breaks d --tech t --split 2
2 sticks: usage = breaks d --most 65536
2 sticks: usage = nets d
2 sticks: usage = nets d --tech t --passes xy
2 sticks: usage = nets d --tech t --split 1
3 sticks: cannot read cif = breaks c --tech t --most 65536
3 sticks: cannot read cif = breaks c --tech t --most 00007
3 sticks: cannot read design = nets c --tech t
2 sticks: usage = extract c
2 sticks: usage = extract c --tech
2 sticks: usage = compact d
2 sticks: usage = compact --tech t
2 sticks: usage = compact d e --tech t
2 sticks: usage = compact d --tech t --passes x
2 sticks: usage = compact d --tech t --passes xyxyxyxyxyxyxyxyx
2 sticks: usage = compact d --tech t --split 0
2 sticks: usage = compact d --tech t --split 65
2 sticks: usage = compact d --tech t --split
2 sticks: usage = compact d --tech -t
2 sticks: usage = compact -- -d --tech t
2 sticks: usage = compact -d --tech t
2 sticks: usage = slack d --tech t --split 2
2 sticks: usage = slack d --tech t --passes x
2 sticks: usage = jog d --script s
2 sticks: usage = jog d --tech t --script s --script s
2 sticks: usage = jog d --tech t --script s --split 1
2 sticks: usage = edit d --script s
2 sticks: usage = edit d --tech t --script
2 sticks: usage = edit d --tech t --script s --script s
2 sticks: usage = edit d --tech t --script s --passes y
2 sticks: usage = edit d --tech t --script s --split 1
2 sticks: usage = check c
2 sticks: usage = check c --tech t --passes xy
2 sticks: usage = check c --tech t --split 0
2 sticks: usage = check c --tech t --split 65
2 sticks: usage = check c --tech t --split 2 --split 2
2 sticks: usage = check c --split 2
2 sticks: usage = extract c --tech t --split 1
2 sticks: usage = fmt d --tech t
2 sticks: usage = fmt --help
2 sticks: usage = fmt -h
2 sticks: usage = compact d --tech t --split 0001
2 sticks: usage = compact d --tech t --split +1
2 sticks: usage = compact d --tech t --split 1000
2 sticks: usage = bench 00
2 sticks: usage = bench 065
2 sticks: usage = bench 2 2
2 sticks: usage = help
2 sticks: usage = --help
2 sticks: usage = Fmt d
2 sticks: usage = 
0 pass 1 x edges 1 = compact d --tech t
0 pass 1 x edges 1 = compact --tech=t d
0 pass 1 y edges 1 = compact --split 64 d --passes=yyx --tech t
0 = slack d --tech t
0 = slack d --tech=t --passes yx
0 = jog d --tech t --script s
0 = jog --script=s d --tech t --passes xyx
0 = edit d --tech t --script s
0 = edit --passes=yx --script s --tech t d
3 sticks: cannot read cif = check c --tech t
3 sticks: cannot read cif = check --split=64 c --tech t
3 sticks: cannot read cif = extract --tech t c
0 = fmt d
3 sticks: cannot read technology = check c --tech=
3 sticks: cannot read technology = check c --tech=-t
3 sticks: cannot read design = compact --tech t -- -d
3 sticks: cannot read design = fmt -- --help
3 sticks: cannot read design = fmt -
0 = bench 1
0 = bench -- 64
0 = bench 01
0 = bench 064
3 sticks: cannot read cif = check c --tech t --split 008
# Passes and shares.
0 = compact d --tech t --passes xyxyxyxyxyxyxyxy
0 = compact d --tech t --split 64
";

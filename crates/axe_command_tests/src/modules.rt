//! Modules in one file: `zcv -m`, which makes such files of texts, and `chop -m`, which reads and writes them.
use crate::failing::play_failing;
use crate::script::play;

const CONVERTED: &str = r"
# one generator, `01` and `11`
+ M.1 text 1 2 2 2\n01\n11\n
$ zcv -m -g 1 M M.axm -> 0
= M.axm bytes 41 58 50 32 02 01 00 00 02 00 00 00 00 00 00 00 40 C0

# two over nine elements; OUT may be one of the texts
+ M.1 text 1 9 1 1\n4\n
+ M.2 text matrix field=9 rows=1 cols=1\n8
$ zcv --module M M.2 -> 0
= M.2 bytes 41 58 50 32 09 02 00 00 01 00 00 00 00 00 00 00 24 48

# sixteen; without -m the text alone is converted, whatever the number
+ M text 1 2 1 1\n0\n
+ M.1 text 1 2 1 1\n1\n
+ M.2 text 1 2 1 1\n0\n
+ M.3 text 1 2 1 1\n1\n
+ M.4 text 1 2 1 1\n1\n
+ M.5 text 1 2 1 1\n1\n
+ M.6 text 1 2 1 1\n1\n
+ M.7 text 1 2 1 1\n1\n
+ M.8 text 1 2 1 1\n1\n
+ M.9 text 1 2 1 1\n1\n
+ M.10 text 1 2 1 1\n1\n
+ M.11 text 1 2 1 1\n0\n
+ M.12 text 1 2 1 1\n1\n
+ M.13 text 1 2 1 1\n1\n
+ M.14 text 1 2 1 1\n1\n
+ M.15 text 1 2 1 1\n1\n
+ M.16 text 1 2 1 1\n1\n
$ zcv -m -g 16 M OUT -> 0
= OUT bytes 41 58 50 32 02 10 00 00 01 00 00 00 00 00 00 00 80 00 80 80 80 80 80 80 80 80 00 80 80 80 80 80
$ zcv -g 16 M A -> 0
= A packed 2 1 1 00
";

#[test]
fn texts_are_converted_to_a_module(rt: HostRuntime) {
    play(&rt, CONVERTED);
}

/// Texts that are no generators of a module, or no texts.
const NO_MODULES: &str = r"
# two sizes
+ M.1 text 1 2 2 2\n01\n11\n
+ M.2 text 1 2 1 1\n1\n
+ M.axm text old
$ zcv -m M M.axm -> 4 axe: ShapesDiffer\n

# two fields
+ M.1 text 1 2 2 2\n01\n11\n
+ M.2 text 1 3 2 2\n01\n11\n
+ M.axm text old
$ zcv -m M M.axm -> 4 axe: FieldsDiffer\n

+ M.1 text 1 2 1 2\n01\n
+ M.axm text old
$ zcv -m -g 1 M M.axm -> 4 axe: NotSquare\n

+ M.1 text matrix field=2 rows=0 cols=2\n
+ M.axm text old
$ zcv -m -g 1 M M.axm -> 4 axe: NoRows\n

# the first generator that is refused
+ M.1 text 1 2 2 2\n01\n11\n
+ M.2 text 1 3 2 1\n0\n1\n
+ M.3 text matrix field=2 rows=0 cols=2\n
+ M.axm text old
$ zcv -m -g 3 M M.axm -> 4 axe: NotSquare\n

# all texts are read before
+ M.1 text 1 2 1 2\n01\n
+ M.axm text old
$ zcv -m M M.axm -> 6 axe: M.2: Missing\n
+ M.2 text 1 2 1 2\n02\n
$ zcv -m M M.axm -> 3 axe: M.2: BadDigit at 9\n
+ M.1 text 2 2 1 2\n01\n
$ zcv -m M M.axm -> 3 axe: M.1: BadMode\n

# packed files are no texts
+ M.1 packed 2 2 2 40 C0
+ M.axm text old
$ zcv -m -g 1 M M.axm -> 3 axe: M.1: BadHeader at 0\n
";

#[test]
fn texts_of_no_module_leave_every_file(rt: HostRuntime) {
    play(&rt, NO_MODULES);
}

const CHOPPED: &str = r"
# irreducible, so its own factor; a factor of another run in files of their own stays
+ M.axm bytes 41 58 50 32 02 01 00 00 02 00 00 00 00 00 00 00 40 C0
+ M2a.1 text another run
$ chop -m M -> 0 chop 2 field=2 dim=2 gens=1 seed=1 words=400\nfactor 2a dim=2 mult=1 word=0\nseries 2a\n
= M.bas packed 2 2 2 40 C0
= M2a.axm bytes 41 58 50 32 02 01 00 00 02 00 00 00 00 00 00 00 40 C0
= M.rep text chop 2 field=2 dim=2 gens=1 seed=1 words=400\nfactor 2a dim=2 mult=1 word=0\nseries 2a\n
# a constituent is a module of its own
$ chop -m M2a -> 0 chop 2 field=2 dim=2 gens=1 seed=1 words=400\nfactor 2a dim=2 mult=1 word=0\nseries 2a\n
= M2a.bas packed 2 2 2 40 C0
= M2a2a.axm bytes 41 58 50 32 02 01 00 00 02 00 00 00 00 00 00 00 40 C0
= M2a.rep text chop 2 field=2 dim=2 gens=1 seed=1 words=400\nfactor 2a dim=2 mult=1 word=0\nseries 2a\n

# the permutations of three points over two elements: two constituents; so many generators as the file has
+ M.axm bytes 41 58 50 32 02 02 00 00 03 00 00 00 00 00 00 00 40 80 20 40 20 80
$ chop -g 16 --module M -> 0 chop 2 field=2 dim=3 gens=2 seed=1 words=400\nfactor 2a dim=2 mult=1 word=0\nfactor 1a dim=1 mult=1 word=0\nseries 2a 1a\n
= M.bas packed 2 3 3 60 A0 20
= M2a.axm bytes 41 58 50 32 02 02 00 00 02 00 00 00 00 00 00 00 40 80 40 C0
= M1a.axm bytes 41 58 50 32 02 02 00 00 01 00 00 00 00 00 00 00 80 80
= M.rep text chop 2 field=2 dim=3 gens=2 seed=1 words=400\nfactor 2a dim=2 mult=1 word=0\nfactor 1a dim=1 mult=1 word=0\nseries 2a 1a\n

# from texts; with the seed and the words that are given
+ M.1 text 1 2 2 2\n01\n11\n
$ zcv -m -g 1 M M.axm -> 0
= M.axm bytes 41 58 50 32 02 01 00 00 02 00 00 00 00 00 00 00 40 C0
$ chop -m --seed 0 --words 0 M -> 0 chop 2 field=2 dim=2 gens=1 seed=0 words=0\nfactor 2a dim=2 mult=1 word=0\nseries 2a\n
= M.bas packed 2 2 2 40 C0
= M2a.axm bytes 41 58 50 32 02 01 00 00 02 00 00 00 00 00 00 00 40 C0
= M.rep text chop 2 field=2 dim=2 gens=1 seed=0 words=0\nfactor 2a dim=2 mult=1 word=0\nseries 2a\n
";

#[test]
fn modules_in_one_file_are_chopped(rt: HostRuntime) {
    play(&rt, CHOPPED);
}

/// Files that are no packed modules, and a section that stays undecided.
const UNCHOPPED: &str = r"
# no generator, and one more than there may be
+ M.axm bytes 41 58 50 32 02 00 00 00 02 00 00 00 00 00 00 00 40 C0
+ M.rep text old
$ chop -m M -> 3 axe: M.axm: BadGens\n
+ M.axm bytes 41 58 50 32 02 11 00 00 02 00 00 00 00 00 00 00 40 C0
$ chop -m M -> 3 axe: M.axm: BadGens\n

+ M.axm bytes 41 58 50 32 02 01 00 00 02 00 00 00 01 00 00 00 40 C0
+ M.rep text old
$ chop -m M -> 3 axe: M.axm: BadReserved\n

# dimension 0
+ M.axm bytes 41 58 50 32 02 01 00 00 00 00 00 00 00 00 00 00 40 C0
+ M.rep text old
$ chop -m M -> 3 axe: M.axm: BadRows\n

+ M.axm bytes 41 58 50 32 02 01 00 00 02 00 00 00 00 00 00 00 40
+ M.rep text old
$ chop -m M -> 3 axe: M.axm: Truncated\n
+ M.axm bytes 41 58 50 32 02 01 00 00 02 00 00 00 00 00 00 00 40 C0 00
$ chop -m M -> 3 axe: M.axm: TrailingBytes\n

# a packed matrix is no module, and a packed module no matrix
+ M.axm packed 2 2 2 40 C0
+ M.rep text old
$ chop -m M -> 3 axe: M.axm: BadMagic\n
+ M.1 bytes 41 58 50 32 02 01 00 00 02 00 00 00 00 00 00 00 40 C0
$ chop -g 1 M -> 3 axe: M.1: BadMagic\n

# each reads its own files
+ M.1 packed 2 2 2 40 C0
+ M.rep text old
$ chop -m -g 1 M -> 6 axe: M.axm: Missing\n
$ chop -m M.1 -> 6 axe: M.1.axm: Missing\n

+ M.axm bytes 41 58 50 32 02 01 00 00 02 00 00 00 00 00 00 00 40 C0
+ M.rep text old
$ chop -g 1 M -> 6 axe: M.1: Missing\n

# the companion matrix of x^10 + x^3 + 1: each word is zero or has an inverse
+ M.axm bytes 41 58 50 32 02 01 00 00 0A 00 00 00 00 00 00 00 40 00 20 00 10 00 08 00 04 00 02 00 01 00 00 80 00 40 90 00
+ M.rep text old
$ chop -m --words 0 M -> 5 axe: Undecided offset=0 dim=10\n
";

#[test]
fn files_of_no_module_leave_every_file(rt: HostRuntime) {
    play(&rt, UNCHOPPED);
}

/// Six calls: one file is read, and one is put for each factor.
const SIX_CALLS: &str = r"
+ M.axm bytes 41 58 50 32 02 02 00 00 03 00 00 00 00 00 00 00 40 80 20 40 20 80
+ M.rep text old
$ chop -m M -> 0 chop 2 field=2 dim=3 gens=2 seed=1 words=400\nfactor 2a dim=2 mult=1 word=0\nfactor 1a dim=1 mult=1 word=0\nseries 2a 1a\n
? M.axm
- M.rep
= M.bas packed 2 3 3 60 A0 20
= M2a.axm bytes 41 58 50 32 02 02 00 00 02 00 00 00 00 00 00 00 40 80 40 C0
= M1a.axm bytes 41 58 50 32 02 02 00 00 01 00 00 00 00 00 00 00 80 80
= M.rep text chop 2 field=2 dim=3 gens=2 seed=1 words=400\nfactor 2a dim=2 mult=1 word=0\nfactor 1a dim=1 mult=1 word=0\nseries 2a 1a\n
";

#[test]
fn a_device_that_fails_leaves_no_report_of_modules_in_one_file(rt: HostRuntime) {
    play_failing(&rt, SIX_CALLS);
}

/// Three calls.
const THREE_CALLS: &str = r"
+ M.1 text 1 9 1 1\n4\n
+ M.2 text 1 9 1 1\n8\n
+ M.axm text old
$ zcv -m M M.axm -> 0
? M.1
? M.2
= M.axm bytes 41 58 50 32 09 02 00 00 01 00 00 00 00 00 00 00 24 48
";

#[test]
fn a_device_that_fails_leaves_a_conversion(rt: HostRuntime) {
    play_failing(&rt, THREE_CALLS);
}

//! `chop`: composition series of modules, and what a device that fails leaves of them.
use crate::failing::play_failing;
use crate::script::play;

/// An irreducible module; the files of another run stay.
const IRREDUCIBLE: &str = r"
# `01` and `11`, which has no invariant line
+ M.1 packed 2 2 2 40 C0
+ M1a.1 text another run
$ chop -g 1 M -> 0 chop 2 field=2 dim=2 gens=1 seed=1 words=400\nfactor 2a dim=2 mult=1 word=0\nseries 2a\n
= M.bas packed 2 2 2 40 C0
= M2a.1 packed 2 2 2 40 C0
= M.rep text chop 2 field=2 dim=2 gens=1 seed=1 words=400\nfactor 2a dim=2 mult=1 word=0\nseries 2a\n
";

#[test]
fn an_irreducible_module_is_one_factor(rt: HostRuntime) {
    play(&rt, IRREDUCIBLE);
}

/// The permutations of three points.
const PERMUTATIONS: &str = r"
# over three elements: `111` is fixed, and the same constituent is on top; a second run gives the same
+ M.1 packed 3 3 3 1B 51 09
+ M.2 packed 3 3 3 1B 09 51
$ chop M -> 0 chop 2 field=3 dim=3 gens=2 seed=1 words=400\nfactor 1a dim=1 mult=2 word=0\nfactor 1b dim=1 mult=1 word=0\nseries 1a 1b 1a\n
= M.bas packed 3 3 3 75 2D 09
= M1a.1 packed 3 1 1 51
= M1a.2 packed 3 1 1 51
= M1b.1 packed 3 1 1 A2
= M1b.2 packed 3 1 1 51
= M.rep text chop 2 field=3 dim=3 gens=2 seed=1 words=400\nfactor 1a dim=1 mult=2 word=0\nfactor 1b dim=1 mult=1 word=0\nseries 1a 1b 1a\n
$ chop M -> 0 chop 2 field=3 dim=3 gens=2 seed=1 words=400\nfactor 1a dim=1 mult=2 word=0\nfactor 1b dim=1 mult=1 word=0\nseries 1a 1b 1a\n

# over two elements
+ M.1 packed 2 3 3 40 80 20
+ M.2 packed 2 3 3 40 20 80
$ chop --seed 1 -g 2 --words 400 M -> 0 chop 2 field=2 dim=3 gens=2 seed=1 words=400\nfactor 2a dim=2 mult=1 word=0\nfactor 1a dim=1 mult=1 word=0\nseries 2a 1a\n
= M.bas packed 2 3 3 60 A0 20
= M2a.1 packed 2 2 2 40 80
= M2a.2 packed 2 2 2 40 C0
= M1a.1 packed 2 1 1 80
= M1a.2 packed 2 1 1 80
= M.rep text chop 2 field=2 dim=3 gens=2 seed=1 words=400\nfactor 2a dim=2 mult=1 word=0\nfactor 1a dim=1 mult=1 word=0\nseries 2a 1a\n
";

#[test]
fn permutation_modules_are_chopped(rt: HostRuntime) {
    play(&rt, PERMUTATIONS);
}

/// Modules of one generator.
const ONE_GENERATOR: &str = r"
# a constituent that stands twice
+ M.1 packed 2 4 4 40 C0 30 20
$ chop -g 1 M -> 0 chop 2 field=2 dim=4 gens=1 seed=1 words=400\nfactor 2a dim=2 mult=2 word=0\nseries 2a 2a\n
= M.bas packed 2 4 4 10 20 40 C0
= M2a.1 packed 2 2 2 40 C0
= M.rep text chop 2 field=2 dim=4 gens=1 seed=1 words=400\nfactor 2a dim=2 mult=2 word=0\nseries 2a 2a\n

# two constituents of one dimension over four elements
+ M.1 packed 4 2 2 80 30
$ chop -g 1 M -> 0 chop 2 field=4 dim=2 gens=1 seed=1 words=400\nfactor 1a dim=1 mult=1 word=0\nfactor 1b dim=1 mult=1 word=0\nseries 1a 1b\n
= M.bas packed 4 2 2 10 40
= M1a.1 packed 4 1 1 C0
= M1b.1 packed 4 1 1 80
= M.rep text chop 2 field=4 dim=2 gens=1 seed=1 words=400\nfactor 1a dim=1 mult=1 word=0\nfactor 1b dim=1 mult=1 word=0\nseries 1a 1b\n

# the generator may be zero
+ M.1 packed 5 1 1 00
$ chop -g 1 M -> 0 chop 2 field=5 dim=1 gens=1 seed=1 words=400\nfactor 1a dim=1 mult=1 word=0\nseries 1a\n
= M.bas packed 5 1 1 19
= M1a.1 packed 5 1 1 00
= M.rep text chop 2 field=5 dim=1 gens=1 seed=1 words=400\nfactor 1a dim=1 mult=1 word=0\nseries 1a\n

# the identity of dimension 10: the unit vectors from the last to the first
+ M.1 packed 2 10 10 80 00 40 00 20 00 10 00 08 00 04 00 02 00 01 00 00 80 00 40
$ chop -g 1 M -> 0 chop 2 field=2 dim=10 gens=1 seed=1 words=400\nfactor 1a dim=1 mult=10 word=0\nseries 1a 1a 1a 1a 1a 1a 1a 1a 1a 1a\n
= M.bas packed 2 10 10 00 40 00 80 01 00 02 00 04 00 08 00 10 00 20 00 40 00 80 00
= M1a.1 packed 2 1 1 80
= M.rep text chop 2 field=2 dim=10 gens=1 seed=1 words=400\nfactor 1a dim=1 mult=10 word=0\nseries 1a 1a 1a 1a 1a 1a 1a 1a 1a 1a\n

# the last seed and the most words; and one word
+ M.1 packed 2 2 2 40 C0
$ chop -g 1 --seed 18446744073709551615 --words 10000 M -> 0 chop 2 field=2 dim=2 gens=1 seed=18446744073709551615 words=10000\nfactor 2a dim=2 mult=1 word=0\nseries 2a\n
= M.bas packed 2 2 2 40 C0
= M2a.1 packed 2 2 2 40 C0
= M.rep text chop 2 field=2 dim=2 gens=1 seed=18446744073709551615 words=10000\nfactor 2a dim=2 mult=1 word=0\nseries 2a\n
$ chop -g 1 --seed 0 --words 0 M -> 0 chop 2 field=2 dim=2 gens=1 seed=0 words=0\nfactor 2a dim=2 mult=1 word=0\nseries 2a\n
= M.rep text chop 2 field=2 dim=2 gens=1 seed=0 words=0\nfactor 2a dim=2 mult=1 word=0\nseries 2a\n
";

#[test]
fn modules_of_one_generator_are_chopped(rt: HostRuntime) {
    play(&rt, ONE_GENERATOR);
}

/// A module that a polynomial decides: the companion matrix of x^10 + x^3 + 1, which is its own factor.
const ONE_VECTOR: &str = r"
+ M.1 packed 2 10 10 40 00 20 00 10 00 08 00 04 00 02 00 01 00 00 80 00 40 90 00
$ chop -g 1 M -> 0 chop 2 field=2 dim=10 gens=1 seed=1 words=400\nfactor 10a dim=10 mult=1 word=1 poly=10110000101\nseries 10a\n
= M.bas packed 2 10 10 00 40 90 00 48 00 24 00 12 00 09 00 04 80 02 40 91 00 48 80
= M10a.1 packed 2 10 10 40 00 20 00 10 00 08 00 04 00 02 00 01 00 00 80 00 40 90 00
= M.rep text chop 2 field=2 dim=10 gens=1 seed=1 words=400\nfactor 10a dim=10 mult=1 word=1 poly=10110000101\nseries 10a\n
";

#[test]
fn a_polynomial_decides_a_module(rt: HostRuntime) {
    play(&rt, ONE_VECTOR);
}

const UNDECIDED: &str = r"
# the companion matrix of x^10 + x^3 + 1: each word is zero or has an inverse
+ M.1 packed 2 10 10 40 00 20 00 10 00 08 00 04 00 02 00 01 00 00 80 00 40 90 00
+ M.rep text old
$ chop -g 1 --words 0 M -> 5 axe: Undecided offset=0 dim=10\n

# that of x^13 + x^4 + x^3 + x + 1: no polynomial of a degree up to 12 tells more
+ M.1 packed 2 13 13 40 00 20 00 10 00 08 00 04 00 02 00 01 00 00 80 00 40 00 20 00 10 00 08 D8 00
+ M.rep text old
$ chop -g 1 M -> 5 axe: Undecided offset=0 dim=13\n
";

#[test]
fn an_undecided_section_leaves_every_file(rt: HostRuntime) {
    play(&rt, UNDECIDED);
}

const REFUSED: &str = r"
# no rows
+ M.1 packed 5 0 1
+ M.rep text old
$ chop -g 1 M -> 4 axe: NoRows\n

+ M.1 packed 2 2 3 A0 60
+ M.rep text old
$ chop -g 1 M -> 4 axe: NotSquare\n

+ M.1 packed 2 2 2 40 C0
+ M.2 packed 3 2 2 1B 6C
+ M.rep text old
$ chop M -> 4 axe: FieldsDiffer\n

+ M.1 packed 2 2 2 40 C0
+ M.2 packed 2 1 1 80
+ M.rep text old
$ chop M -> 4 axe: ShapesDiffer\n

+ M.1 packed 2 2 2 40 C0
+ M.rep text old
$ chop M -> 6 axe: M.2: Missing\n

+ M.1 packed 2 2 2 40
+ M.rep text old
$ chop M -> 3 axe: M.1: Truncated\n

+ M.rep text old
$ chop -g 17 M -> 2 ..
$ chop --words 10001 M -> 2 ..
$ chop a/b -> 2 axe: bad file name\n
";

#[test]
fn a_refusal_leaves_every_file(rt: HostRuntime) {
    play(&rt, REFUSED);
}

/// Five calls.
const FIVE_CALLS: &str = r"
+ M.1 packed 2 2 2 40 C0
+ M.rep text old
$ chop -g 1 M -> 0 chop 2 field=2 dim=2 gens=1 seed=1 words=400\nfactor 2a dim=2 mult=1 word=0\nseries 2a\n
? M.1
- M.rep
= M.bas packed 2 2 2 40 C0
= M2a.1 packed 2 2 2 40 C0
= M.rep text chop 2 field=2 dim=2 gens=1 seed=1 words=400\nfactor 2a dim=2 mult=1 word=0\nseries 2a\n
";

#[test]
fn a_device_that_fails_leaves_no_report(rt: HostRuntime) {
    play_failing(&rt, FIVE_CALLS);
}

/// Nine calls.
const NINE_CALLS: &str = r"
+ M.1 packed 3 3 3 1B 51 09
+ M.2 packed 3 3 3 1B 09 51
+ M.rep text old
$ chop M -> 0 chop 2 field=3 dim=3 gens=2 seed=1 words=400\nfactor 1a dim=1 mult=2 word=0\nfactor 1b dim=1 mult=1 word=0\nseries 1a 1b 1a\n
? M.1
? M.2
- M.rep
= M.bas packed 3 3 3 75 2D 09
= M1a.1 packed 3 1 1 51
= M1a.2 packed 3 1 1 51
= M1b.1 packed 3 1 1 A2
= M1b.2 packed 3 1 1 51
= M.rep text chop 2 field=3 dim=3 gens=2 seed=1 words=400\nfactor 1a dim=1 mult=2 word=0\nfactor 1b dim=1 mult=1 word=0\nseries 1a 1b 1a\n
";

#[test]
fn a_device_that_fails_later_leaves_no_report(rt: HostRuntime) {
    play_failing(&rt, NINE_CALLS);
}

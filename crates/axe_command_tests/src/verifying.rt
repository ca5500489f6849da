//! `verify`: composition series that are right, and each way in which one is not.
use crate::failing::play_failing;
use crate::script::play;

/// What `chop` leaves of an irreducible module, and of the permutations of three points.
const SERIES: &str = r"
# `01` and `11`
+ M.1 packed 2 2 2 40 C0
+ M.bas packed 2 2 2 40 C0
+ M2a.1 packed 2 2 2 40 C0
+ M.rep text chop 2 field=2 dim=2 gens=1 seed=1 words=400\nfactor 2a dim=2 mult=1 word=0\nseries 2a\n
$ verify M -> 0 verified\n

# over three elements
+ M.1 packed 3 3 3 1B 51 09
+ M.2 packed 3 3 3 1B 09 51
+ M.bas packed 3 3 3 75 2D 09
+ M1a.1 packed 3 1 1 51
+ M1a.2 packed 3 1 1 51
+ M1b.1 packed 3 1 1 A2
+ M1b.2 packed 3 1 1 51
+ M.rep text chop 2 field=3 dim=3 gens=2 seed=1 words=400\nfactor 1a dim=1 mult=2 word=0\nfactor 1b dim=1 mult=1 word=0\nseries 1a 1b 1a\n
$ verify M -> 0 verified\n

# over two elements
+ M.1 packed 2 3 3 40 80 20
+ M.2 packed 2 3 3 40 20 80
+ M.bas packed 2 3 3 60 A0 20
+ M2a.1 packed 2 2 2 40 80
+ M2a.2 packed 2 2 2 40 C0
+ M1a.1 packed 2 1 1 80
+ M1a.2 packed 2 1 1 80
+ M.rep text chop 2 field=2 dim=3 gens=2 seed=1 words=400\nfactor 2a dim=2 mult=1 word=0\nfactor 1a dim=1 mult=1 word=0\nseries 2a 1a\n
$ verify M -> 0 verified\n
";

#[test]
fn what_chop_leaves_is_verified(rt: HostRuntime) {
    play(&rt, SERIES);
}

/// What `chop` leaves of modules of one generator.
const ONE_GENERATOR: &str = r"
# a constituent that stands twice
+ M.1 packed 2 4 4 40 C0 30 20
+ M.bas packed 2 4 4 10 20 40 C0
+ M2a.1 packed 2 2 2 40 C0
+ M.rep text chop 2 field=2 dim=4 gens=1 seed=1 words=400\nfactor 2a dim=2 mult=2 word=0\nseries 2a 2a\n
$ verify M -> 0 verified\n

# two constituents of one dimension over four elements
+ M.1 packed 4 2 2 80 30
+ M.bas packed 4 2 2 10 40
+ M1a.1 packed 4 1 1 C0
+ M1b.1 packed 4 1 1 80
+ M.rep text chop 2 field=4 dim=2 gens=1 seed=1 words=400\nfactor 1a dim=1 mult=1 word=0\nfactor 1b dim=1 mult=1 word=0\nseries 1a 1b\n
$ verify M -> 0 verified\n

# a generator that is zero
+ M.1 packed 5 1 1 00
+ M.bas packed 5 1 1 19
+ M1a.1 packed 5 1 1 00
+ M.rep text chop 2 field=5 dim=1 gens=1 seed=1 words=400\nfactor 1a dim=1 mult=1 word=0\nseries 1a\n
$ verify M -> 0 verified\n

# the identity of dimension 10
+ M.1 packed 2 10 10 80 00 40 00 20 00 10 00 08 00 04 00 02 00 01 00 00 80 00 40
+ M.bas packed 2 10 10 00 40 00 80 01 00 02 00 04 00 08 00 10 00 20 00 40 00 80 00
+ M1a.1 packed 2 1 1 80
+ M.rep text chop 2 field=2 dim=10 gens=1 seed=1 words=400\nfactor 1a dim=1 mult=10 word=0\nseries 1a 1a 1a 1a 1a 1a 1a 1a 1a 1a\n
$ verify M -> 0 verified\n

# the last seed and the most words; and one word
+ M.1 packed 2 2 2 40 C0
+ M.bas packed 2 2 2 40 C0
+ M2a.1 packed 2 2 2 40 C0
+ M.rep text chop 2 field=2 dim=2 gens=1 seed=18446744073709551615 words=10000\nfactor 2a dim=2 mult=1 word=0\nseries 2a\n
$ verify M -> 0 verified\n
+ M.rep text chop 2 field=2 dim=2 gens=1 seed=0 words=0\nfactor 2a dim=2 mult=1 word=0\nseries 2a\n
$ verify M -> 0 verified\n

# one that a polynomial decides: the companion matrix of x^10 + x^3 + 1
+ M.1 packed 2 10 10 40 00 20 00 10 00 08 00 04 00 02 00 01 00 00 80 00 40 90 00
$ chop -g 1 M -> 0 chop 2 field=2 dim=10 gens=1 seed=1 words=400\nfactor 10a dim=10 mult=1 word=1 poly=10110000101\nseries 10a\n
= M.bas packed 2 10 10 00 40 90 00 48 00 24 00 12 00 09 00 04 80 02 40 91 00 48 80
= M10a.1 packed 2 10 10 40 00 20 00 10 00 08 00 04 00 02 00 01 00 00 80 00 40 90 00
= M.rep text chop 2 field=2 dim=10 gens=1 seed=1 words=400\nfactor 10a dim=10 mult=1 word=1 poly=10110000101\nseries 10a\n
$ verify M -> 0 verified\n

# any basis by which the blocks are right, as the unit vectors
+ M.1 packed 2 2 2 40 C0
+ M.bas packed 2 2 2 80 40
+ M2a.1 packed 2 2 2 40 C0
+ M.rep text chop 2 field=2 dim=2 gens=1 seed=1 words=400\nfactor 2a dim=2 mult=1 word=0\nseries 2a\n
$ verify M -> 0 verified\n
";

#[test]
fn series_of_one_generator_are_verified(rt: HostRuntime) {
    play(&rt, ONE_GENERATOR);
}

/// Modules in one file.
const IN_ONE_FILE: &str = r"
+ M.axm bytes 41 58 50 32 02 01 00 00 02 00 00 00 00 00 00 00 40 C0
+ M.bas packed 2 2 2 40 C0
+ M2a.axm bytes 41 58 50 32 02 01 00 00 02 00 00 00 00 00 00 00 40 C0
+ M.rep text chop 2 field=2 dim=2 gens=1 seed=1 words=400\nfactor 2a dim=2 mult=1 word=0\nseries 2a\n
$ verify -m M -> 0 verified\n
$ verify M -> 6 axe: M.1: Missing\n

# the module has one generator, and the report names two
+ M.axm bytes 41 58 50 32 02 01 00 00 02 00 00 00 00 00 00 00 40 C0
+ M.bas packed 2 2 2 40 C0
+ M2a.axm bytes 41 58 50 32 02 01 00 00 02 00 00 00 00 00 00 00 40 C0
+ M.rep text chop 2 field=2 dim=2 gens=2 seed=1 words=400\nfactor 2a dim=2 mult=1 word=0\nseries 2a\n
$ verify --module M -> 8 axe: NotVerified header\n

+ M.axm bytes 41 58 50 32 02 01 00 00 02 00 00 00 00 00 00 00 40 C0
+ M.bas packed 2 2 2 40 C0
+ M2a.axm bytes 41 58 50 32 02 00 00 00 02 00 00 00 00 00 00 00 40 C0
+ M.rep text chop 2 field=2 dim=2 gens=1 seed=1 words=400\nfactor 2a dim=2 mult=1 word=0\nseries 2a\n
$ verify -m M -> 3 axe: M2a.axm: BadGens\n
";

#[test]
fn series_in_one_file_for_each_module_are_verified(rt: HostRuntime) {
    play(&rt, IN_ONE_FILE);
}

/// What is no composition series, by the first reason.
const NOT_VERIFIED: &str = r"
# another field than the module's
+ M.1 packed 2 2 2 40 C0
+ M.bas packed 2 2 2 40 C0
+ M2a.1 packed 2 2 2 40 C0
+ M.rep text chop 2 field=3 dim=2 gens=1 seed=1 words=400\nfactor 2a dim=2 mult=1 word=0\nseries 2a\n
$ verify M -> 8 axe: NotVerified header\n

# another dimension than the module's
+ M.1 packed 2 2 2 40 C0
+ M.bas packed 2 2 2 40 C0
+ M1a.1 packed 2 1 1 80
+ M.rep text chop 2 field=2 dim=1 gens=1 seed=1 words=400\nfactor 1a dim=1 mult=1 word=0\nseries 1a\n
$ verify M -> 8 axe: NotVerified header\n

# the basis `111`, `012`, `111` has no inverse
+ M.1 packed 3 3 3 1B 51 09
+ M.2 packed 3 3 3 1B 09 51
+ M.bas packed 3 3 3 75 2D 75
+ M1a.1 packed 3 1 1 51
+ M1a.2 packed 3 1 1 51
+ M1b.1 packed 3 1 1 A2
+ M1b.2 packed 3 1 1 51
+ M.rep text chop 2 field=3 dim=3 gens=2 seed=1 words=400\nfactor 1a dim=1 mult=2 word=0\nfactor 1b dim=1 mult=1 word=0\nseries 1a 1b 1a\n
$ verify M -> 8 axe: NotVerified basis\n

# a constituent of another dimension than the report's
+ M.1 packed 2 2 2 40 C0
+ M.bas packed 2 2 2 40 C0
+ M2a.1 packed 2 1 1 80
+ M.rep text chop 2 field=2 dim=2 gens=1 seed=1 words=400\nfactor 2a dim=2 mult=1 word=0\nseries 2a\n
$ verify M -> 8 axe: NotVerified shape 2a\n

# the first generator of 1b is another
+ M.1 packed 3 3 3 1B 51 09
+ M.2 packed 3 3 3 1B 09 51
+ M.bas packed 3 3 3 75 2D 09
+ M1a.1 packed 3 1 1 51
+ M1a.2 packed 3 1 1 51
+ M1b.1 packed 3 1 1 51
+ M1b.2 packed 3 1 1 51
+ M.rep text chop 2 field=3 dim=3 gens=2 seed=1 words=400\nfactor 1a dim=1 mult=2 word=0\nfactor 1b dim=1 mult=1 word=0\nseries 1a 1b 1a\n
$ verify M -> 8 axe: NotVerified blocks\n

# every word of the companion matrix of x^10 + x^3 + 1 is zero or has an inverse, and no polynomial is named
+ M.1 packed 2 10 10 40 00 20 00 10 00 08 00 04 00 02 00 01 00 00 80 00 40 90 00
+ M.bas packed 2 10 10 80 00 40 00 20 00 10 00 08 00 04 00 02 00 01 00 00 80 00 40
+ M10a.1 packed 2 10 10 40 00 20 00 10 00 08 00 04 00 02 00 01 00 00 80 00 40 90 00
+ M.rep text chop 2 field=2 dim=10 gens=1 seed=1 words=400\nfactor 10a dim=10 mult=1 word=0\nseries 10a\n
$ verify M -> 8 axe: NotVerified open 10a\n

# the identity of dimension 2
+ M.1 packed 2 2 2 80 40
+ M.bas packed 2 2 2 80 40
+ M2a.1 packed 2 2 2 80 40
+ M.rep text chop 2 field=2 dim=2 gens=1 seed=1 words=400\nfactor 2a dim=2 mult=1 word=0\nseries 2a\n
$ verify M -> 8 axe: NotVerified reducible 2a\n

# x^2, which is named, is reducible: the word tells by itself
+ M.1 packed 2 2 2 C0 C0
+ M.bas packed 2 2 2 80 40
+ M2a.1 packed 2 2 2 C0 C0
+ M.rep text chop 2 field=2 dim=2 gens=1 seed=1 words=400\nfactor 2a dim=2 mult=1 word=0 poly=001\nseries 2a\n
$ verify M -> 8 axe: NotVerified reducible 2a\n

# one constituent under two names
+ M.1 packed 2 4 4 40 C0 30 20
+ M.bas packed 2 4 4 10 20 40 C0
+ M2a.1 packed 2 2 2 40 C0
+ M2b.1 packed 2 2 2 40 C0
+ M.rep text chop 2 field=2 dim=4 gens=1 seed=1 words=400\nfactor 2a dim=2 mult=1 word=0\nfactor 2b dim=2 mult=1 word=0\nseries 2a 2b\n
$ verify M -> 8 axe: NotVerified same 2a 2b\n
";

#[test]
fn what_is_no_series_is_not_verified(rt: HostRuntime) {
    play(&rt, NOT_VERIFIED);
}

/// Files that are missing, damaged or refused.
const REFUSED: &str = r"
# the report is of version 1: no other file is asked for
+ M.rep text chop 1 field=2 dim=2 gens=1 seed=1 words=400\nfactor 2a dim=2 mult=1\nseries 2a\n
$ verify M -> 3 axe: M.rep: OldReport\n
$ verify -m M -> 3 axe: M.rep: OldReport\n

+ M.rep text chop 2 field=2 dim=2 gens=1 seed=1 words=400\nfactor 2a dim=2 mult=1 word=0\nseries 2a\nseries 2a\n
$ verify M -> 3 axe: M.rep: BadReport line 4\n
+ M.rep text chop 2 field=6 dim=2 gens=1 seed=1 words=400\n
$ verify M -> 3 axe: M.rep: BadReport line 1\n
+ M.rep text chop 2 field=2 dim=2 gens=1 seed=1 words=400\nfactor 2a dim=2 mult=1\nseries 2a\n
$ verify M -> 3 axe: M.rep: BadReport line 2\n
+ M.rep text chop 2 field=2 dim=2 gens=1 seed=1 words=400\nfactor 2a dim=2 mult=1 word=401\nseries 2a\n
$ verify M -> 3 axe: M.rep: BadReport line 2\n

$ verify M -> 6 axe: M.rep: Missing\n

# the files are asked for in order
+ M.rep text chop 2 field=2 dim=2 gens=1 seed=1 words=400\nfactor 2a dim=2 mult=1 word=0\nseries 2a\n
$ verify M -> 6 axe: M.1: Missing\n
+ M.1 packed 2 2 3 A0 60
$ verify M -> 6 axe: M.bas: Missing\n
+ M.bas packed 2 2 2 80
$ verify M -> 3 axe: M.bas: Truncated\n
+ M.bas packed 2 2 2 80 40
$ verify M -> 6 axe: M2a.1: Missing\n
+ M2a.1 packed 2 2 2 80 40
$ verify M -> 4 axe: NotSquare\n
+ M.1 packed 2 0 2
$ verify M -> 4 axe: NoRows\n
$ verify a/b -> 2 axe: bad file name\n
";

#[test]
fn damaged_files_are_told(rt: HostRuntime) {
    play(&rt, REFUSED);
}

/// Four calls, none of which changes a file.
const FOUR_CALLS: &str = r"
+ M.1 packed 2 2 2 40 C0
+ M.bas packed 2 2 2 40 C0
+ M2a.1 packed 2 2 2 40 C0
+ M.rep text chop 2 field=2 dim=2 gens=1 seed=1 words=400\nfactor 2a dim=2 mult=1 word=0\nseries 2a\n
$ verify M -> 0 verified\n
? M.rep
? M.1
? M.bas
? M2a.1
";

#[test]
fn a_device_that_fails_is_told(rt: HostRuntime) {
    play_failing(&rt, FOUR_CALLS);
}

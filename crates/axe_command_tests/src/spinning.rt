//! `zsp` and `zqt`: spun rows, the action of a module on them, and quotients; and what a device that fails leaves of
//! two results.
use crate::failing::play_failing;
use crate::script::play;

const SPUN: &str = r"
# `01` and `10`, which takes the row `11` to itself
+ M.1 packed 2 2 2 40 80
+ SEED packed 2 1 2 C0
$ zsp -g 1 M SEED OUT -> 0
= OUT packed 2 1 2 C0
$ zqt -g 1 OUT M Q -> 0
= Q.1 packed 2 1 1 80
";

#[test]
fn a_spun_row_gives_a_quotient(rt: HostRuntime) {
    play(&rt, SPUN);
}

const STANDARD: &str = r"
# `11` and `10`: it takes `01` to `10`, and that to `11`; so the rows are `01` and `10`, and over these it is `01` and `11`
+ M.1 packed 2 2 2 C0 80
+ SEED packed 2 1 2 40
$ zsp -g 1 -b -a T M SEED OUT -> 0
= OUT packed 2 2 2 40 80
= T.1 packed 2 2 2 40 C0

# the action replaces the rows of its name
+ M.1 packed 2 2 2 C0 80
+ S packed 2 1 2 40
$ zsp -g 1 -b -a T M S T.1 -> 0
= T.1 packed 2 2 2 40 C0
";

#[test]
fn standard_bases_and_actions_are_put(rt: HostRuntime) {
    play(&rt, STANDARD);
}

const REFUSED: &str = r"
# all rows
+ M.1 packed 2 2 2 40 80
+ SUB packed 2 2 2 80 40
+ Q.1 text before
$ zqt -g 1 SUB M Q -> 4 axe: WholeSpace\n

# `10`, which the generator takes to `01`
+ M.1 packed 2 2 2 40 80
+ SUB packed 2 1 2 80
+ Q.1 text before
$ zqt -g 1 SUB M Q -> 4 axe: NotInvariant\n

# no rows
+ M.1 packed 2 2 2 40 80
+ SEED packed 2 0 2
+ OUT text before
$ zsp -g 1 M SEED OUT -> 4 axe: ZeroSeed\n

$ zsp -g 17 M S OUT -> 2 ..
- OUT
";

#[test]
fn a_refusal_leaves_every_file(rt: HostRuntime) {
    play(&rt, REFUSED);
}

/// Four calls: two files are fetched, and two are put.
const FOUR_CALLS: &str = r"
+ M.1 packed 2 2 2 C0 80
+ SEED packed 2 1 2 40
$ zsp -g 1 -b -a T M SEED OUT -> 0
? M.1
? SEED
= OUT packed 2 2 2 40 80
= T.1 packed 2 2 2 40 C0
";

#[test]
fn a_device_that_fails_leaves_the_results_before_it(rt: HostRuntime) {
    play_failing(&rt, FOUR_CALLS);
}

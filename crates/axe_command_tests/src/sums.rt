//! `zad` and `ztr`: sums and transposes of packed matrices.
use crate::script::play;

const SUMS: &str = r"
# `12` and `01`; twice that is `21` and `02`, and its transpose `10` and `21`
+ A packed 3 2 2 87 1B
$ zad A A OUT -> 0
= OUT packed 3 2 2 BD 36
$ ztr A OUT -> 0
= OUT packed 3 2 2 51 BD
";

#[test]
fn sums_and_transposes_are_put(rt: HostRuntime) {
    play(&rt, SUMS);
}

//! `znu` and `ziv`: null spaces and inverses of packed matrices.
use crate::script::play;

const NULL_SPACES: &str = r"
# `10` and `01`: no rows
+ A packed 2 2 2 80 40
$ znu A OUT -> 0
= OUT packed 2 0 2

# `10` and `10`: `11`
+ A packed 2 2 2 80 80
$ znu A OUT -> 0
= OUT packed 2 1 2 C0

# `12`, `21` and `11`: `110`
+ A packed 3 3 2 87 BD 6C
$ znu A OUT -> 0
= OUT packed 3 1 3 6C

# `3` and `4`: `17`
+ A packed 9 2 1 1B 24
$ znu A OUT -> 0
= OUT packed 9 1 2 10
";

#[test]
fn null_spaces_are_put(rt: HostRuntime) {
    play(&rt, NULL_SPACES);
}

const INVERSES: &str = r"
# `12` and `01`, and their inverse `11` and `01`
+ A packed 3 2 2 87 1B
$ ziv A OUT -> 0
= OUT packed 3 2 2 6C 1B
$ ziv OUT OUT -> 0
= OUT packed 3 2 2 87 1B
";

#[test]
fn inverses_are_put(rt: HostRuntime) {
    play(&rt, INVERSES);
}

const REFUSED: &str = r"
+ A packed 2 2 2 80 80
+ OUT text before
$ ziv A OUT -> 4 axe: Singular\n

+ A packed 2 2 3 A0 60
+ OUT text before
$ ziv A OUT -> 4 axe: NotSquare\n

+ A packed 2 0 2
$ znu A OUT -> 4 axe: NoRows\n
- OUT

$ znu a/b OUT -> 2 axe: bad file name\n
- OUT
";

#[test]
fn a_refusal_leaves_every_file(rt: HostRuntime) {
    play(&rt, REFUSED);
}

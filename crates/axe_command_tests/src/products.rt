//! `zmu`: products of packed matrices.
use crate::script::play;

const PRODUCTS: &str = r"
# the rows `11` and `01`, and `10` and `11`, over the field of two elements
+ A packed 2 2 2 C0 40
+ B packed 2 2 2 80 C0
$ zmu A B OUT -> 0
= OUT packed 2 2 2 40 C0

+ A packed 9 1 1 1B
+ B packed 9 1 1 1B
$ zmu A B OUT -> 0
= OUT packed 9 1 1 24

+ A packed 4 1 2 B0
+ B packed 4 2 1 80 C0
$ zmu A B OUT -> 0
= OUT packed 4 1 1 40

+ A packed 7 0 3
+ B packed 7 3 2 08 09 0A
$ zmu A B OUT -> 0
= OUT packed 7 0 2
";

#[test]
fn products_are_put(rt: HostRuntime) {
    play(&rt, PRODUCTS);
}

const REPLACED: &str = r"
+ A packed 2 2 2 C0 40
$ zmu A A A -> 0
= A packed 2 2 2 80 40
";

#[test]
fn the_product_may_replace_a_factor(rt: HostRuntime) {
    play(&rt, REPLACED);
}

const FAULTS: &str = r"
+ B packed 2 2 2 80 C0
+ OUT text before
+ A packed 2 2 2 40
$ zmu A B OUT -> 3 axe: A: Truncated\n
+ A packed 2 2 2 40 C0 00
$ zmu A B OUT -> 3 axe: A: TrailingBytes\n
+ A packed 2 1 2 60
$ zmu A B OUT -> 3 axe: A: BadPadding at 16\n
+ A packed 3 1 1 F3
$ zmu A B OUT -> 3 axe: A: BadByte at 16\n
+ A packed 2 2 3 A0 60
$ zmu A B OUT -> 4 axe: ShapesDiffer\n
+ A packed 3 2 2 51 51
$ zmu A B OUT -> 4 axe: FieldsDiffer\n
";

#[test]
fn a_fault_leaves_every_file(rt: HostRuntime) {
    play(&rt, FAULTS);
}

const MISSING: &str = r"
+ A packed 2 2 2 C0 40
$ zmu A B OUT -> 6 axe: B: Missing\n
- OUT
";

#[test]
fn a_missing_file_is_named(rt: HostRuntime) {
    play(&rt, MISSING);
}

const USAGE: &str = r"
+ A packed 2 2 2 C0 40
+ B packed 2 2 2 80 C0
$ zmu a/b B OUT -> 2 axe: bad file name\n
$ zmu A '' OUT -> 2 axe: bad file name\n
$ zmu A B .A -> 2 axe: bad file name\n
$ zmu A -> 2 ..
- OUT
";

#[test]
fn other_words_are_usage(rt: HostRuntime) {
    play(&rt, USAGE);
}

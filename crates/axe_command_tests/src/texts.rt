//! `zcv` and `zpr`: matrices from text and to text.
use crate::script::play;

const CONVERTED: &str = r"
# `12` and `01`, as other programs write them, and as they are printed
+ IN text 1 3 2 2\n12\n01\n
$ zcv IN A -> 0
= A packed 3 2 2 87 1B
$ zpr A -> 0 matrix field=3 rows=2 cols=2\n12\n01\n
$ zpr A A -> 0
= A text matrix field=3 rows=2 cols=2\n12\n01\n
$ zcv A A -> 0
= A packed 3 2 2 87 1B
";

#[test]
fn a_text_is_converted_and_printed(rt: HostRuntime) {
    play(&rt, CONVERTED);
}

const LONG: &str = r"
# 81 columns, in lines of 80
+ A packed 2 1 81 0 0 0 0 0 0 0 0 0 0 0
$ zpr A -> 0 matrix field=2 rows=1 cols=81\n00000000000000000000000000000000000000000000000000000000000000000000000000000000\n0\n
";

#[test]
fn long_rows_are_printed_in_lines(rt: HostRuntime) {
    play(&rt, LONG);
}

const FAULTS: &str = r"
+ OUT text old
+ in.txt text 1 2 1
$ zcv in.txt OUT -> 3 axe: in.txt: BadHeader at 5\n
+ in.txt text 2 3 2 2\n12\n01
$ zcv in.txt OUT -> 3 axe: in.txt: BadMode\n
+ in.txt text 1 2 4097 1
$ zcv in.txt OUT -> 3 axe: in.txt: BadRows\n
+ in.txt text 1 2 1 4097
$ zcv in.txt OUT -> 3 axe: in.txt: BadCols\n
+ in.txt text 1 2 4096 1
$ zcv in.txt OUT -> 3 axe: in.txt: TooFewDigits\n
+ in.txt text 1 3 2 2\n13\n01\n
$ zcv in.txt OUT -> 3 axe: in.txt: BadDigit at 9\n
+ in.txt text 1 3 2 2\n12\n0
$ zcv in.txt OUT -> 3 axe: in.txt: TooFewDigits\n
+ in.txt text 1 3 2 2\n12\n01\nx
$ zcv in.txt OUT -> 3 axe: in.txt: TrailingText at 14\n
";

#[test]
fn a_faulty_text_leaves_every_file(rt: HostRuntime) {
    play(&rt, FAULTS);
}

//! Fields: their orders, and the arithmetic of their elements.
use crate::tables::{Topic, each_call};
use axe_field::Field;
use axe_test_values::{
    TableFault, element_in, field_of, four_fields, small_number_of, three_fields, truth_of,
    two_fields,
};
use std::process::Abort;

#[test]
fn seven_orders_have_a_field(rt: HostRuntime) {
    for order in 0..=255 {
        let expected = matches!(order, 2 | 3 | 4 | 5 | 7 | 8 | 9);
        assert_eq!(rt; Field::new(order).is_ok(), expected, "at {order}");
    }
}

/// The order of a field, and
/// - `field`: its prime and its degree;
/// - `is_element`: a number, and whether it is an element;
/// - `add`, `mul`: two elements, and their sum or product;
/// - `neg`, `inv`: an element, and its negative or its inverse;
/// - `negatives`: those of all elements, a digit for each;
/// - `==`: the order of a field, and whether the two are equal.
const NINE: &str = "\
field | 9 | 3 | 2
is_element | 9 | 8 | yes
is_element | 9 | 9 | no
# x^2 is x + 1, so x (x + 2) is 1.
mul | 9 | 3 | 3 | 4
mul | 9 | 8 | 5 | 6
add | 9 | 8 | 5 | 1
neg | 9 | 5 | 7
inv | 9 | 5 | 3
";

/// The same calls.
const NEGATIVES: &str = "\
negatives | 2 | 01
negatives | 3 | 021
negatives | 4 | 0123
negatives | 5 | 04321
negatives | 7 | 0654321
negatives | 8 | 01234567
negatives | 9 | 021687354
";

/// The same calls.
const EQUALITIES: &str = "\
== | 8 | 8 | yes
== | 8 | 9 | no
";

fn describes(line: &str) -> Result<bool, TableFault> {
    let (order, prime, degree) = three_fields(line)?;
    let prime = small_number_of(prime)?;
    let degree = small_number_of(degree)?;
    let field = field_of(order)?;
    let order = small_number_of(order)?;
    Ok(field.order() == order && field.prime() == prime && field.degree() == degree)
}

fn tells_elements(line: &str) -> Result<bool, TableFault> {
    let (order, element, wanted) = three_fields(line)?;
    let element = small_number_of(element)?;
    let wanted = truth_of(wanted)?;
    Ok(field_of(order)?.is_element(element) == wanted)
}

/// The calls that are given two elements.
fn combines(call: &str, line: &str) -> Result<bool, TableFault> {
    let (order, left, right, wanted) = four_fields(line)?;
    let wanted = small_number_of(wanted)?;
    let field = field_of(order)?;
    let left = element_in(&field, left)?;
    let right = element_in(&field, right)?;
    let answer = match call {
        "add" => field.add(left, right),
        _ => field.mul(left, right),
    };
    Ok(answer == wanted)
}

/// The calls that are given one element.
fn turns(rt: &impl Abort, call: &str, line: &str) -> Result<bool, TableFault> {
    let (order, element, wanted) = three_fields(line)?;
    let wanted = small_number_of(wanted)?;
    let field = field_of(order)?;
    let element = element_in(&field, element)?;
    assert!(rt; element != 0, "{call} of zero");
    let answer = match call {
        "neg" => field.neg(element),
        _ => field.inv(element),
    };
    Ok(answer == wanted)
}

/// Whether each element has the negative that its digit says.
fn lists_negatives(line: &str) -> Result<bool, TableFault> {
    let (order, wanted) = two_fields(line)?;
    let field = field_of(order)?;
    let wanted = wanted.as_bytes();
    if wanted.len() != usize::from(field.order()) {
        return Err(TableFault::NotWritten);
    }
    let negatives = field.negatives();
    for element in 0..field.order() {
        let place = usize::from(element);
        if wanted[place].wrapping_sub(b'0') != negatives[place] {
            return Ok(false);
        }
    }
    Ok(true)
}

fn compares(line: &str) -> Result<bool, TableFault> {
    let (left, right, wanted) = three_fields(line)?;
    let wanted = truth_of(wanted)?;
    let left = field_of(left)?;
    let right = field_of(right)?;
    Ok((left == right) == wanted)
}

/// Whether a call answers what its line says.
pub(crate) fn answers(rt: &impl Abort, call: &str, line: &str) -> Result<bool, TableFault> {
    match call {
        "field" => describes(line),
        "is_element" => tells_elements(line),
        "add" | "mul" => combines(call, line),
        "neg" | "inv" => turns(rt, call, line),
        "negatives" => lists_negatives(line),
        "==" => compares(line),
        _ => Err(TableFault::NotWritten),
    }
}

#[test]
fn nine_elements_multiply_modulo_the_conway_polynomial(rt: HostRuntime) -> Result<(), TableFault> {
    each_call(&rt, rt.alloc(), Topic::Fields, NINE)
}

#[test]
fn each_field_lists_its_negatives(rt: HostRuntime) -> Result<(), TableFault> {
    each_call(&rt, rt.alloc(), Topic::Fields, NEGATIVES)
}

#[test]
fn fields_are_equal_where_their_orders_are(rt: HostRuntime) -> Result<(), TableFault> {
    each_call(&rt, rt.alloc(), Topic::Fields, EQUALITIES)
}

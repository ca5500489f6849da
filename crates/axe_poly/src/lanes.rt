//! Lanes of words in which elements of a field are added without carries.

ghost use Rattle.std.specs.Prelude.{◌≡◌, ◌+◌, ◌-◌, ◌<◌, ◌≤◌, ◌^◌, length};
ghost use Rattle.axe_field.specs.Order.{order_number};
ghost use Rattle.axe_poly.specs.Lanes.{part_base, lane_base, code, meaning, AreCodes, AreMeanings};

use axe_field::Field;
use std::marker::Model;

/// The lanes in which elements of a field are added: the codes of the elements, and what element each lane stands for.
#[derive(Drop)]
pub(crate) struct Lanes {
    field: Field,
    codes: [u64; 9],
    meanings: [u8; 512],
}

impl Model for Lanes {
    ghost use Rattle.axe_field.specs.Order.{Order};
    ghost use Rattle.axe_poly.specs.Lanes.{AreTables};

    ghost Value = { Order };

    ghost view = { λ a. a.field };

    ghost invariant = { λ a. AreTables a.field a.codes a.meanings };
}

impl Lanes {
    /// The lanes for a field.
    pub(crate) fn new(field: &Field) -> Lanes
        ensures { result ≡ field.now }
    {
        Lanes {
            field: *field,
            codes: codes(field),
            meanings: meanings(field),
        }
    }

    /// The field of the elements.
    pub(crate) fn field(&self) -> &Field
        ensures { result.now ≡ self.now }
    {
        &self.field
    }

    /// The codes of the elements.
    pub(crate) fn codes(&self) -> &[u64; 9]
        ensures { AreCodes self.now result.now }
    {
        &self.codes
    }

    /// The elements that lanes stand for.
    pub(crate) fn meanings(&self) -> &[u8; 512]
        ensures { AreMeanings self.now result.now }
    {
        &self.meanings
    }
}

/// One more than the greatest number of a part of a lane.
fn part_base(field: &Field) -> u64
    ensures value { result ≡ part_base field.now }
    ensures small { result ≤ 32 }
    ensures positive { 8 ≤ result }
{
    match field.order() {
        2 | 9 => 16,
        4 | 8 => 8,
        _ => 32,
    }
}

/// One more than the greatest number of a lane.
pub(crate) fn lane_base(field: &Field) -> u64
    ensures value { result ≡ lane_base field.now }
    ensures small { result ≤ 512 }
    ensures positive { 16 ≤ result }
{
    match field.order() {
        2 => 16,
        4 => 64,
        8 => 512,
        9 => 256,
        _ => 32,
    }
}

/// How many bits a lane has.
pub(crate) fn lane_bits(field: &Field) -> u32
    ensures value { 2 ^ result ≡ lane_base field.now }
    ensures small { result ≤ 9 }
{
    match field.order() {
        2 => 4,
        4 => 6,
        8 => 9,
        9 => 8,
        _ => 5,
    }
}

/// The code of an element.
fn code(field: &Field, element: u8) -> u64
    requires { element < order_number field.now }
    ensures value { result ≡ code field.now element }
{
    let (prime, base) = (u64::from(field.prime()), part_base(field));
    let element = u64::from(element);
    element % prime + base * (element / prime % prime) + base * base * (element / prime / prime)
}

/// The element that a sum of codes stands for.
fn meaning(field: &Field, lane: u64) -> u8
    requires { lane < lane_base field.now }
    ensures value { result ≡ meaning field.now lane }
{
    let (prime, base) = (u64::from(field.prime()), part_base(field));
    let element = lane % base % prime
        + prime * (lane / base % base % prime)
        + prime * prime * (lane / base / base % prime);
    element as u8
}

/// The codes of the elements of a field.
fn codes(field: &Field) -> [u64; 9]
    ensures { AreCodes field.now result }
{
    let mut codes = [0; 9];
    for element in 0..field.order() {
        codes[usize::from(element)] = code(field, element);
    }
    codes
}

/// The elements that lanes stand for.
fn meanings(field: &Field) -> [u8; 512]
    ensures { AreMeanings field.now result }
{
    let mut meanings = [0; 512];
    for lane in 0..lane_base(field) {
        meanings[lane as usize] = meaning(field, lane);
    }
    meanings
}

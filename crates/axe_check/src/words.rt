//! What the words that a report names say of the constituents.

ghost use Rattle.std.specs.Prelude.{◌≡◌, ℕ, ◌<◌, ◌≤◌, length, get_or, option_copied, None, IfSome, All};
ghost use Rattle.axe_row.specs.Refusals.{Answers};
ghost use Rattle.axe_poly.specs.Polys.{poly_with};
ghost use Rattle.axe_spin.specs.Modules.{ModuleValue};
ghost use Rattle.axe_word.specs.Words.{IsWordIn};
ghost use Rattle.axe_norton.specs.OneVector.{SaysWhereFits};
ghost use Rattle.axe_norton.specs.Verdicts.{last_word, IsTrueOf, word_of_seed};
ghost use Rattle.axe_check.specs.Certificates.{SaysWith, named_poly, witnesses};
ghost use Rattle.axe_check.specs.Steps.{Passes, IsSmallPoly, AreDigitsOver, IsWitnessOver, IsSeenBy, IsFormOf};
ghost use Rattle.axe_check.specs.Steps.{IsUnseenReason, AreSeenAs, IsFirstUnseenReason};

use crate::reasons::{Stop, name_of};
use axe_field::Field;
use axe_iso::{Form, form_of};
use axe_matrix::Refusal;
use axe_norton::{At, decide_at_with, decide_poly_where_fits};
use axe_poly::{Irreducibles, Poly};
use axe_report::{Reason, ReportFactor};
use axe_spin::Module;
use axe_word::{Products, Word, nth_word};
use std::alloc::Global;

/// The standard forms of the constituents, which are over one field, where the words that the report names show all of
/// them to be irreducible, or else why not the first that is not.
pub(crate) fn seen_forms(
    alloc: Global,
    field: Field,
    reported: &[ReportFactor],
    seed: u64,
    factors: &[Module],
) -> Result<Vec<Form>, Stop>
    requires count { length factors.now ≡ length reported.now }
    requires fields { All (λ (factor : ModuleValue). factor.order ≡ field) factors.now }
    requires witnesses { (i : ℕ) (d : ModuleValue) → i < length factors.now →
        IsWitnessOver (get_or factors.now i d).order (get_or (witnesses reported.now) i None) }
    ensures { Passes (λ forms. AreSeenAs factors.now seed reported.now forms.items)
        (IsFirstUnseenReason factors.now seed reported.now) result }
{
    // The irreducible polynomials that are found for one constituent serve the next ones, too.
    let mut table = Irreducibles::new(alloc, field);
    let mut forms = Vec::new(alloc);
    for number in 0..factors.len() {
        let form = seen_form(alloc, &mut table, &reported[number], seed, &factors[number])?;
        forms.push(form)?;
    }
    Ok(forms)
}

/// The standard form of a constituent that its word shows to be irreducible, or why it does not.
fn seen_form(
    alloc: Global,
    table: &mut Irreducibles,
    reported: &ReportFactor,
    seed: u64,
    factor: &Module,
) -> Result<Form, Stop>
    requires field { table.old.order ≡ factor.now.order }
    requires witness { IsWitnessOver factor.now.order reported.now.witness }
    ensures seen { Passes (λ form. IsSeenBy factor.now seed reported.now.witness × IsFormOf factor.now form)
        (IsUnseenReason factor.now seed reported.now) result }
    ensures same_field { table.new.order ≡ factor.now.order }
{
    let Some(number) = reported.word() else {
        // A report of version 2 names one.
        unreachable!()
    };
    match said(alloc, table, factor, seed, number, reported.poly())? {
        At::Irreducible { poly, vector } => {
            Ok(form_of(alloc, factor, seed, number, poly.as_ref(), &vector)?)
        }
        At::Reducible(_) => Err(Stop::Because(Reason::Reducible(name_of(alloc, reported)?))),
        At::Left => Err(Stop::Because(Reason::Open(name_of(alloc, reported)?))),
    }
}

/// What the word of a seed and a number says of a module, where a polynomial may be named beside it by its digits: what
/// the polynomial says, where it is irreducible and fits the word's value, and else what the word says.
fn said(
    alloc: Global,
    table: &mut Irreducibles,
    module: &Module,
    seed: u64,
    number: u32,
    digits: Option<&[u8]>,
) -> Result<At, Refusal>
    requires field { table.old.order ≡ «module».now.order }
    requires number { number ≤ last_word }
    requires digits { AreDigitsOver «module».now.order (option_copied digits) }
    ensures says { Answers None (SaysWith «module».now (word_of_seed «module».now seed number)
        (named_poly «module».now.order (option_copied digits.entry))) result }
    ensures holds { Answers None (IsTrueOf «module».now) result }
    ensures same_field { table.new.order ≡ «module».now.order }
{
    let word = nth_word(seed, number, module.field().order(), module.gens() as u8);
    if let Some(digits) = digits {
        if let Some(at) = said_by_digits(alloc, module, &word, digits)? {
            return Ok(at);
        }
    }
    let mut products = Products::new(alloc);
    decide_at_with(alloc, module, table, &mut products, &word)
}

/// What the polynomial that these digits name says of a module by a word; nothing where it is not irreducible or
/// doesn't fit the word's value.
fn said_by_digits(
    alloc: Global,
    module: &Module,
    word: &Word,
    digits: &[u8],
) -> Result<Option<At>, Refusal>
    requires word { IsWordIn «module».now word.now }
    requires digits { IsSmallPoly (poly_with «module».now.order digits.now) }
    ensures says { Answers None
        (SaysWhereFits «module».now word.now (poly_with «module».now.order digits.now)) result }
    ensures holds { Answers None (λ said. IfSome said (IsTrueOf «module».now)) result }
{
    let Some(poly) = Poly::from_digits(alloc, *module.field(), digits)? else {
        // They are those of a monic polynomial.
        unreachable!()
    };
    decide_poly_where_fits(alloc, module, word, &poly)
}

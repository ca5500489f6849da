//! Composition series, their factors under names.

ghost use Rattle.std.specs.Prelude.{◌≡◌, List, [], ◌∷◌, ◌++◌, length, string_bytes, None, IfOk};
ghost use Rattle.indexmap.specs.IndexMap.{keys, values};
ghost use Rattle.axe_row.specs.Refusals.{Answers};
ghost use Rattle.axe_iso.specs.Forms.{FormValue};
ghost use Rattle.axe_report.specs.Names.{constituent_name, count_of};
ghost use Rattle.axe_chop.specs.Searches.{found_value};
ghost use Rattle.axe_chop.specs.Chopped.{AreFactorsOf, AreFirst, IsNamed};

use crate::found::Found;
use axe_iso::Form;
use axe_matrix::{Matrix, Refusal};
use axe_report::constituent_name;
use indexmap::IndexMap;
use std::alloc::{AllocError, Global};

/// A factor of a composition series: a constituent of the module, up to isomorphism.
#[derive(Drop)]
pub struct Factor {
    /// The standard form of the factor where it appears first.
    pub form: Form,
    /// How often the factor stands in the series.
    pub multiplicity: usize,
}

/// A composition series of a module.
#[derive(Drop)]
pub struct Chopped {
    /// A basis of the module, a row for each vector: the first rows are a basis of the lowest submodule of the series,
    /// and each factor has the rows after those of the factors below it, in which its action is the standard form.
    pub basis: Matrix,
    /// The factors by their names, in order of first appearance from the bottom.
    pub factors: IndexMap<String, Factor>,
    /// For each place of the series, from the bottom, the position of its factor among `factors`, counted from 0.
    pub series: Vec<u16>,
}

/// The composition series that is found, with names for its factors: each has its dimension and the next letters for
/// it.
pub(crate) fn named(alloc: Global, found: Found) -> Result<Chopped, Refusal>
    ensures named { Answers None (IsNamed (found_value found)) result }
    ensures basis { IfOk result (λ chopped. chopped.basis ≡ found.basis) }
{
    let factors = factors(alloc, found.forms, &found.places)?;
    Ok(Chopped {
        basis: found.basis,
        factors,
        series: found.places,
    })
}

/// The factors with these forms under their names, in a series with these places.
fn factors(
    alloc: Global,
    forms: Vec<Form>,
    places: &[u16],
) -> Result<IndexMap<String, Factor>, Refusal>
    ensures { Answers None (λ factors. AreFactorsOf forms.items places.now (keys factors) (values factors)) result }
{
    let mut factors = IndexMap::new(alloc);
    let mut dims = Vec::new(alloc);
    for form in forms {
        add_factor(alloc, &mut factors, &mut dims, form, places)?;
    }
    Ok(factors)
}

/// Adds the factor with this form under its name to the first factors, which have these dimensions.
fn add_factor(
    alloc: Global,
    factors: &mut IndexMap<String, Factor>,
    dims: &mut Vec<usize>,
    form: Form,
    places: &[u16],
) -> Result<(), Refusal>
    ensures { Answers None (λ _. (forms : List FormValue) →
        AreFirst forms places.now dims.old.items factors.old.entries →
        AreFirst (forms ++ form ∷ []) places.now dims.new.items factors.new.entries) result }
{
    let dim = form.matrices().dim();
    let (name, factor) = named_factor(alloc, form, dims, places)?;
    factors.insert(name, factor)?;
    dims.push(dim)?;
    Ok(())
}

/// The factor with this form under its name, after factors of these dimensions, in a series with these places.
fn named_factor(
    alloc: Global,
    form: Form,
    dims: &[usize],
    places: &[u16],
) -> Result<(String, Factor), AllocError>
    ensures name { IfOk result (λ entry. string_bytes entry.0
        ≡ constituent_name form.matrices.dim (count_of form.matrices.dim dims.now)) }
    ensures form { IfOk result (λ entry. entry.1.form ≡ form) }
    ensures multiplicity { IfOk result (λ entry. entry.1.multiplicity ≡ count_of (length dims.now) places.now) }
{
    let dim = form.matrices().dim();
    let name = constituent_name(alloc, dim, count_dim(dims, dim))?;
    let multiplicity = count_place(places, dims.len());
    Ok((name, Factor { form, multiplicity }))
}

/// How many of the dimensions are this one.
fn count_dim(dims: &[usize], dim: usize) -> usize
    ensures { result ≡ count_of dim dims.now }
{
    let mut count = 0;
    for &other in dims {
        count += usize::from(other == dim);
    }
    count
}

/// How many of the places are of the factor with this number.
fn count_place(places: &[u16], number: usize) -> usize
    ensures { result ≡ count_of number places.now }
{
    let mut count = 0;
    for &place in places {
        count += usize::from(usize::from(place) == number);
    }
    count
}

//! The search for a composition series.

ghost use Rattle.std.specs.Prelude.{◌≡◌, ℕ, ◌≤◌, ◌+◌, [], ◌∷◌, length, All, None, IfOk};
ghost use Rattle.axe_row.specs.Refusals.{Answers};
ghost use Rattle.axe_matrix.specs.Limits.{most_rows};
ghost use Rattle.axe_matrix.specs.Matrices.{IsMatrix};
ghost use Rattle.axe_spin.specs.Modules.{ModuleValue};
ghost use Rattle.axe_norton.specs.Spaces.{IsProperSubmodule};
ghost use Rattle.axe_norton.specs.Verdicts.{last_word, Decides};
ghost use Rattle.axe_norton.specs.declared.verdicts.Verdict.TheVariants.{Reducible};
ghost use Rattle.axe_iso.specs.Forms.{FormValue};
ghost use Rattle.axe_chop.specs.Kept.{acting_module};
ghost use Rattle.axe_chop.specs.Stages.{IsActionLike, IsRowsLike, sections_dim, with_sections};
ghost use Rattle.axe_chop.specs.Searches.{ArePartsBefore, AreDecided, AreDecidedSomehow, IsDecided};
ghost use Rattle.axe_chop.specs.Searches.{IsNothingFound, IsSearched};
ghost use Rattle.axe_chop.specs.declared.search.Searched.TheVariants.{Open};

use crate::found::Found;
use crate::section::{Action, Section, Witness};
use axe_matrix::{Matrix, Refusal};
use axe_norton::Verdict;
use axe_poly::Irreducibles;
use std::alloc::Global;
use std::collections::VecDeque;

/// What comes of a search.
#[derive(Drop)]
pub(crate) enum Searched {
    /// Everything is found.
    Complete(Found),
    /// A section stays undecided: of the basis `offset` rows stand before the section's `dim` rows.
    Open {
        basis: Matrix,
        offset: usize,
        dim: usize,
    },
}

/// What the words 0 to `words` of a seed find of a module, lent or not: sections are decided in turn, from the bottom;
/// a reducible one is cut in two, and an irreducible one has the next place.
pub(crate) fn search(
    alloc: Global,
    action: Action<'_>,
    seed: u64,
    words: u32,
) -> Result<Searched, Refusal>
    requires words { words ≤ last_word }
    ensures { Answers None (IsSearched (acting_module action.entry) seed words) result }
{
    let mut found = Found::nothing(alloc, action.module());
    let mut sections = VecDeque::new(alloc);
    let left = decide_all(alloc, &mut found, &mut sections, action, seed, words)?;
    outcome_of(alloc, found, left, &sections)
}

/// Decides a module, lent or not, and the sections into which it is cut, in turn, until none is left or one stays
/// undecided, which is given back. Those still to be decided stand among the sections, the lowest one first.
fn decide_all<'a>(
    alloc: Global,
    found: &mut Found,
    sections: &mut VecDeque<Section<'a>>,
    action: Action<'a>,
    seed: u64,
    words: u32,
) -> Result<Option<Section<'a>>, Refusal>
    requires words { words ≤ last_word }
    requires nothing { IsNothingFound (acting_module action) found.old }
    requires no_section { sections.old.items ≡ [] }
    ensures { Answers None
        (AreDecided (acting_module action.entry) seed words found.new sections.new.items) result }
{
    // The irreducible polynomials are found once for all sections.
    let mut table = Irreducibles::new(alloc, *action.module().field());
    sections.push_front(Section::whole(alloc, action, seed))?;
    while let Some(section) = sections.pop_front() {
        let left = decide_section(alloc, found, sections, section, &mut table, seed, words)?;
        if let Some(undecided) = left {
            return Ok(Some(undecided));
        }
    }
    Ok(None)
}

/// The outcome where all sections are decided, or one is left with those after it.
fn outcome_of(
    alloc: Global,
    found: Found,
    left: Option<Section>,
    after: &VecDeque<Section>,
) -> Result<Searched, Refusal>
    requires { AreDecidedSomehow found after.now.items left }
    ensures { (m : ModuleValue) (seed words : ℕ) → AreDecided m seed words found after.now.items left.entry →
        Answers None (IsSearched m seed words) result }
{
    match left {
        Some(section) => open_at(alloc, found, &section, after),
        None => Ok(Searched::Complete(found)),
    }
}

/// Decides a section: an irreducible one has the next place, and the two parts of a reducible one come before the other
/// sections. One that the words leave undecided is given back. The table has irreducible polynomials over its field.
fn decide_section<'a>(
    alloc: Global,
    found: &mut Found,
    sections: &mut VecDeque<Section<'a>>,
    section: Section<'a>,
    table: &mut Irreducibles,
    seed: u64,
    words: u32,
) -> Result<Option<Section<'a>>, Refusal>
    requires words { words ≤ last_word }
    requires like { All (λ (form : FormValue). IsActionLike section.action form.matrices) found.old.forms.items }
    requires field { found.old.basis.order ≡ section.rows.order }
    requires fits { found.old.basis.cols ≡ section.rows.cols }
    requires room { length found.old.basis.rows + section.action.dim ≤ most_rows }
    requires few_forms { length found.old.forms.items ≤ length found.old.basis.rows }
    requires table_field { table.old.order ≡ section.action.order }
    ensures decided { Answers None
        (IsDecided seed words section.entry found.old sections.old.items found.new sections.new.items) result }
    ensures same_field { table.new.order ≡ section.entry.action.order }
{
    let mut section = section;
    match section.decide(alloc, table, seed, words)? {
        Verdict::Irreducible { word, poly, vector } => {
            let witness = Witness { word, poly, vector };
            found.place_owned(alloc, section, seed, witness)?;
            Ok(None)
        }
        Verdict::Reducible(space) => {
            put_parts(alloc, sections, section, space)?;
            Ok(None)
        }
        Verdict::Undecided => Ok(Some(section)),
    }
}

/// Puts the two sections into which a submodule that the words of a seed found cuts a section before the others: first
/// the submodule's, then the quotient by it.
fn put_parts<'a>(
    alloc: Global,
    sections: &mut VecDeque<Section<'a>>,
    section: Section<'a>,
    space: Matrix,
) -> Result<(), Refusal>
    requires decided { (seed words : ℕ) × Decides section.action seed words (Reducible space) }
    requires space { IsProperSubmodule section.action space }
    ensures { Answers None (λ _. ArePartsBefore section.entry space sections.old.items sections.new.items) result }
{
    let (sub, quotient) = section.cut(alloc, space)?;
    sections.push_front(quotient)?;
    sections.push_front(sub)?;
    Ok(())
}

/// The outcome where a section stays undecided: the rows so far, then the section's, and then those of the sections
/// after it are the basis.
fn open_at(
    alloc: Global,
    found: Found,
    section: &Section,
    after: &VecDeque<Section>,
) -> Result<Searched, Refusal>
    requires like { IsRowsLike found.basis section.now }
    requires after_like { All (IsRowsLike found.basis) after.now.items }
    requires room { length found.basis.rows + sections_dim (section.now ∷ after.now.items) ≤ most_rows }
    ensures opened { Answers None (λ searched. searched ≡ Open
        (with_sections found.basis (section.now ∷ after.now.items)) (length found.basis.rows)
        section.now.action.dim) result }
    ensures well_formed { IfOk result (λ _. IsMatrix (with_sections found.basis (section.now ∷ after.now.items))) }
{
    let mut basis = found.into_basis();
    let offset = basis.rows();
    let dim = section.action().dim();
    append_open(alloc, &mut basis, section, after)?;
    Ok(Searched::Open { basis, offset, dim })
}

/// Appends the lifted rows of a section to a matrix, and then those of the sections after it, in their order. For want
/// of memory only some first of them are appended.
fn append_open(
    alloc: Global,
    basis: &mut Matrix,
    section: &Section,
    after: &VecDeque<Section>,
) -> Result<(), Refusal>
    requires like { IsRowsLike basis.old section.now }
    requires after_like { All (IsRowsLike basis.old) after.now.items }
    requires room { length basis.old.rows + sections_dim (section.now ∷ after.now.items) ≤ most_rows }
    requires well_formed { IsMatrix basis.old }
    ensures appended { Answers None (λ _. basis.new ≡ with_sections basis.old (section.now ∷ after.now.items)) result }
    ensures well_formed { Answers None (λ _. IsMatrix basis.new) result }
{
    section.append_rows_to(alloc, basis)?;
    append_sections(alloc, basis, after)
}

/// Appends the lifted rows of sections to a matrix, in their order. For want of memory only some first of them are
/// appended.
fn append_sections(
    alloc: Global,
    basis: &mut Matrix,
    sections: &VecDeque<Section>,
) -> Result<(), Refusal>
    requires like { All (IsRowsLike basis.old) sections.now.items }
    requires room { length basis.old.rows + sections_dim sections.now.items ≤ most_rows }
    requires well_formed { IsMatrix basis.old }
    ensures appended { Answers None (λ _. basis.new ≡ with_sections basis.old sections.now.items) result }
    ensures well_formed { Answers None (λ _. IsMatrix basis.new) result }
{
    for index in 0..sections.len() {
        sections[index].append_rows_to(alloc, basis)?;
    }
    Ok(())
}

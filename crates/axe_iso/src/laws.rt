//! What is determined of forms and matches.

ghost use Rattle.std.specs.Prelude.{◌≡◌, ℕ, length, Option};
ghost use Rattle.axe_algebra.specs.ModulesOfLists.{GeneratesEverything};
ghost use Rattle.axe_field.specs.NumberFields.{number_field};
ghost use Rattle.axe_row.specs.Rows.{RowValue};
ghost use Rattle.axe_matrix.specs.Matrices.{MatrixValue};
ghost use Rattle.axe_poly.specs.Polys.{PolyValue};
ghost use Rattle.axe_spin.specs.Modules.{ModuleValue, IsModule};
ghost use Rattle.axe_spin.specs.SpinLaws.{IsVectorOf};
ghost use Rattle.axe_iso.specs.Forms.{FormValue, IsForm, IsFormFrom};
ghost use Rattle.axe_iso.specs.Matches.{IsMatch};

/// A vector of a module that generates everything gives a form by each word of a seed, with each polynomial or none, and
/// no more than one.
pub fn a_vector_gives_one_form()
    ensures some { (m : ModuleValue) (seed number : ℕ) (poly : Option PolyValue) (v : RowValue) → IsModule m →
        IsVectorOf m v → GeneratesEverything (number_field m.order) m.dim m.generators v.entries →
        (form : FormValue) × IsFormFrom m seed number poly v form }
    ensures one { (m : ModuleValue) (seed number : ℕ) (poly : Option PolyValue) (v : RowValue) (a b : FormValue) →
        IsFormFrom m seed number poly v a → IsFormFrom m seed number poly v b → a ≡ b }
{}

/// A form and a module over its field, with as many generators, have one answer: there is a first match, or the two are
/// not isomorphic, and never both.
pub fn a_form_gives_one_match()
    ensures some { (form : FormValue) (m : ModuleValue) → IsForm form → IsModule m → m.order ≡ form.matrices.order →
        length m.generators ≡ length form.matrices.generators → (answer : Option MatrixValue) × IsMatch form m answer }
    ensures one { (form : FormValue) (m : ModuleValue) (a b : Option MatrixValue) →
        IsMatch form m a → IsMatch form m b → a ≡ b }
{}

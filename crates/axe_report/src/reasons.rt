//! Why what stands beside a report is no composition series of a module.

ghost use Rattle.std.specs.Prelude.{◌≡◌, ◌++◌, IfOk, codes, string_bytes};
ghost use Rattle.axe_report.specs.Reasons.{reason_text};

use std::alloc::{AllocError, Global};

/// Why a certificate, a report with the basis and the matrices that belong to it, is not right. Constituents are named
/// as in the report.
#[derive(Debug, Drop)]
pub enum Reason {
    /// The report is of another field, another dimension or another number of generators than the module has.
    Header,
    /// The basis is over another field than the module, not square of its dimension, or not invertible.
    Basis,
    /// The matrices of this constituent are over another field, more or fewer than the module's generators, or not
    /// square of the dimension that the report gives it.
    Shape(String),
    /// Some generator, conjugated by the basis, is not block lower triangular by the report's series, with the
    /// constituents' matrices on its diagonal.
    Blocks,
    /// The word that the report names for this constituent leaves it open.
    Open(String),
    /// This constituent is reducible.
    Reducible(String),
    /// These two constituents are isomorphic.
    Same(String, String),
}

impl Reason {
    /// The text of the reason, in one line without its end: a word, and the names that it speaks of.
    pub fn text(&self, alloc: Global) -> Result<String, AllocError>
        ensures { IfOk result (λ text. string_bytes text ≡ reason_text self.now) }
    {
        match self {
            Reason::Header => String::from_str(alloc, "header"),
            Reason::Basis => String::from_str(alloc, "basis"),
            Reason::Shape(name) => format!(in alloc; "shape {name}"),
            Reason::Blocks => String::from_str(alloc, "blocks"),
            Reason::Open(name) => format!(in alloc; "open {name}"),
            Reason::Reducible(name) => format!(in alloc; "reducible {name}"),
            Reason::Same(first, second) => same_text(alloc, first, second),
        }
    }
}

/// The text of two constituents that are isomorphic, by their names.
fn same_text(alloc: Global, first: &str, second: &str) -> Result<String, AllocError>
    ensures { IfOk result (λ text. string_bytes text ≡ codes "same " ++ first.now ++ codes " " ++ second.now) }
{
    let text = format!(in alloc; "same {first} {second}")?;
    Ok(text)
}

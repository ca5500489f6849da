//! What is determined of certificates.

ghost use Rattle.std.specs.Prelude.{◌≡◌, ℕ, ◌<◌, ◌⊎◌, length, All};
ghost use Rattle.axe_matrix.specs.Matrices.{IsMatrix};
ghost use Rattle.axe_spin.specs.Modules.{IsModule};
ghost use Rattle.axe_report.specs.Reports.{IsReport};
ghost use Rattle.axe_report.specs.declared.report.Version.TheVariants.{Two};
ghost use Rattle.axe_check.specs.Certificates.{Certificate, matrices_of, IsCertified};
ghost use Rattle.axe_check.specs.Reasons.{IsFirstReason};
ghost use Rattle.axe_report.specs.Reasons.{reason_text};

use axe_report::Reason;

/// A certificate has at most one answer: there is no reason why a right one is not right, and of another one at most
/// one reason is the first.
pub fn certificates_have_one_answer()
    ensures certified { (c : Certificate) (reason : Reason) → IsCertified c → ¬ (IsFirstReason c reason) }
    ensures reason { (c : Certificate) (a b : Reason) → IsFirstReason c a → IsFirstReason c b →
        reason_text a ≡ reason_text b }
{}

/// A certificate has an answer: where a report of version 2 has as many lists of matrices as constituents, it certifies
/// a series, or there is a first reason why not.
pub fn certificates_have_an_answer()
    ensures { (c : Certificate) → IsReport c.report → c.report.header.version ≡ Two →
        length c.factors ≡ length c.report.factors → IsModule c.m → IsMatrix c.basis →
        ((number : ℕ) → number < length c.factors → All IsMatrix (matrices_of c number)) →
        IsCertified c ⊎ ((reason : Reason) × IsFirstReason c reason) }
{}

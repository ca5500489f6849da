//! What holds of the packed form of modules.

ghost use Rattle.std.specs.Prelude.{◌≡◌, ◌≢◌, ℕ, ◌<◌, ◌≤◌, Some, None, List, length};
ghost use Rattle.std.specs.List.{All};
ghost use Rattle.axe_matrix.specs.Matrices.{MatrixValue};
ghost use Rattle.axe_file.specs.Packed.{packed, packed_fault};
ghost use Rattle.axe_file.specs.PackedModules.{AreGenerators, packed_module, module_fault, unpacked_module};
ghost use Rattle.axe_file.specs.Limits.{most_module_bytes};
ghost use Rattle.axe_file.specs.declared.fault.FileFault.TheVariants.{BadMagic};

/// The spelling of a module keeps the limit of packed files of modules.
pub fn module_spellings_keep_the_limit()
    ensures { (matrices : List MatrixValue) → AreGenerators matrices →
        length (packed_module matrices) ≤ most_module_bytes }
{}

/// Modules with one spelling are one module.
pub fn module_spellings_are_apart()
    ensures { (a b : List MatrixValue) → AreGenerators a → AreGenerators b → packed_module a ≡ packed_module b →
        a ≡ b }
{}

/// The spelling of a module has no fault, and gives the module back.
pub fn module_spellings_are_read()
    ensures faultless { (matrices : List MatrixValue) → AreGenerators matrices →
        module_fault (packed_module matrices) ≡ None }
    ensures module { (matrices : List MatrixValue) → AreGenerators matrices →
        unpacked_module (packed_module matrices) ≡ matrices }
{}

/// Bytes without fault are the spelling of a module.
pub fn faultless_bytes_are_modules()
    ensures module { (bytes : List ℕ) → module_fault bytes ≡ None → AreGenerators (unpacked_module bytes) }
    ensures spelling { (bytes : List ℕ) → All (λ byte. byte < 256) bytes → module_fault bytes ≡ None →
        bytes ≡ packed_module (unpacked_module bytes) }
{}

/// No bytes are the spelling of a matrix and that of a module, and the fault of each as the other is its magic bytes.
pub fn no_bytes_spell_both()
    ensures apart { (m : MatrixValue) (matrices : List MatrixValue) → packed m ≢ packed_module matrices }
    ensures matrix { (m : MatrixValue) → module_fault (packed m) ≡ Some BadMagic }
    ensures module { (matrices : List MatrixValue) → packed_fault (packed_module matrices) ≡ Some BadMagic }
{}

//! What the words of the contracts mean: laws, whose functions do nothing.
ghost use Rattle.std.specs.Prelude.{◌≡◌, ◌≢◌, ℕ, List};
ghost use Rattle.axe_folder.specs.Files.{Files, file_at, no_files, with_file, without_file};

/// Files are a map from names to bytes: a file that was put is found under its name, one that was removed isn't, every
/// other name is as before, and two maps with the same files are one.
pub fn files_are_a_map()
    ensures none { (name : List ℕ) → file_at no_files name ≡ None }
    ensures put { (files : Files) (name bytes : List ℕ) → file_at (with_file files name bytes) name ≡ Some bytes }
    ensures put_keeps_others { (files : Files) (name bytes other : List ℕ) → other ≢ name →
        file_at (with_file files name bytes) other ≡ file_at files other }
    ensures removed { (files : Files) (name : List ℕ) → file_at (without_file files name) name ≡ None }
    ensures remove_keeps_others { (files : Files) (name other : List ℕ) → other ≢ name →
        file_at (without_file files name) other ≡ file_at files other }
    ensures same { (a b : Files) → ((name : List ℕ) → file_at a name ≡ file_at b name) → a ≡ b }
{}

//! What holds of the meanings of commands.

ghost use Rattle.std.specs.Prelude.{◌≡◌, ℕ, ◌^◌, ◌<◌, List, length, Some, Ok, Err};
ghost use Rattle.axe_matrix.specs.Matrices.{MatrixValue};
ghost use Rattle.axe_spin.specs.Modules.{ModuleValue};
ghost use Rattle.axe_report.specs.Passing.{IsSpelling};
ghost use Rattle.axe_folder.specs.Files.{Files, file_at};
ghost use Rattle.axe_arguments.specs.Commands.{HasCounts, HasFileCount};
ghost use Rattle.axe_arguments.specs.Counts.{IsWordCount};
ghost use Rattle.axe_arguments.specs.declared.command.ModuleFiles.{ModuleFiles};
ghost use Rattle.axe_arguments.specs.Layouts.{files_with};
ghost use Rattle.axe_arguments.specs.declared.command.ModuleLayout.{ModuleLayout};
ghost use Rattle.axe_arguments.specs.declared.command.Command.{Command};
ghost use Rattle.axe_fault.specs.declared.fault.Fault.{Fault};
ghost use Rattle.axe_fault.specs.declared.fault.Fault.TheVariants.{Undecided};
ghost use Rattle.axe_fault.specs.Causes.{StaysOpen};
ghost use Rattle.axe_plan.specs.Plans.{Plan, applied};
ghost use Rattle.axe_plan.specs.Meanings.{Answered, AtMostOne};
ghost use Rattle.axe_plan.specs.Inputs.{module_in};
ghost use Rattle.axe_execute.specs.ChopCommand.{ChopPlan, LeavesSeries, WritesSeries, FindsOpenSection, IsSmallModule};
ghost use Rattle.axe_execute.specs.VerifyCommand.{verified_plan, VerifyPlan, FindsSeries};
ghost use Rattle.axe_execute.specs.Means.{Means};
ghost use Rattle.axe_execute.specs.SeriesFiles.{report_file, HoldsCertificate};
ghost use Rattle.axe_execute.specs.AfterChop.{ChopFails, IsLeftByChop, IsBeforeOrAfterChop};

/// A command has exactly one meaning: on the files of a folder it has one plan, or one problem stands against it.
pub fn commands_have_one_meaning()
    ensures some { (command : Command) (files : Files) → HasCounts command → Answered (Means command files) }
    ensures only { (command : Command) (files : Files) → HasCounts command → AtMostOne (Means command files) }
{}

/// What `chop` writes is a composition series: after all steps of its plan the files hold one, and the steps are those
/// that a series has. And what it leaves undecided is open.
pub fn chop_writes_a_series()
    ensures files { (stored : ModuleFiles) (seed words : ℕ) (name : List ℕ) (files : Files) (plan : Plan) →
        HasFileCount stored → seed < 2 ^ 64 → IsWordCount words → ChopPlan stored seed words name files (Ok plan) →
        LeavesSeries stored seed words name files plan }
    ensures series { (stored : ModuleFiles) (seed words : ℕ) (name : List ℕ) (files : Files) (plan : Plan) →
        HasFileCount stored → ChopPlan stored seed words name files (Ok plan) →
        WritesSeries stored seed words name files plan }
    ensures open_section { (stored : ModuleFiles) (seed words : ℕ) (name : List ℕ) (files : Files) (basis : MatrixValue)
        (offset dim : ℕ) → HasFileCount stored →
        ChopPlan stored seed words name files (Err (StaysOpen basis offset dim)) →
        FindsOpenSection stored seed words name files basis offset dim }
{}

/// `chop` has a plan for each module with at most 1,000 points, and never ends with such a module undecided.
pub fn chop_decides_small_modules()
    ensures plan { (stored : ModuleFiles) (seed words : ℕ) (name : List ℕ) (files : Files) (m : ModuleValue) →
        HasFileCount stored → module_in stored name files ≡ Ok m → IsSmallModule m →
        (plan : Plan) × ChopPlan stored seed words name files (Ok plan) }
    ensures decided { (stored : ModuleFiles) (seed words : ℕ) (name : List ℕ) (basis : MatrixValue) (offset dim : ℕ)
        (old new : Files) (m : ModuleValue) → HasFileCount stored → module_in stored name old ≡ Ok m → IsSmallModule m →
        ¬ (ChopFails stored seed words name (Undecided basis offset dim) old new) }
{}

/// Whatever fault `chop` ends with, every file is as it was, or there is no report, or the report has the first bytes
/// of this run's, with all other files of this run. So what can be read as a report is the one from before, with every
/// file as it was, or this run's, with all its files.
pub fn chop_leaves_no_wrong_report()
    ensures left { (stored : ModuleFiles) (seed words : ℕ) (name : List ℕ) (fault : Fault) (old new : Files) →
        ChopFails stored seed words name fault old new → IsLeftByChop stored seed words name old new }
    ensures report { (stored : ModuleFiles) (seed words : ℕ) (name : List ℕ) (fault : Fault) (old new : Files)
        (bytes : List ℕ) → HasFileCount stored → seed < 2 ^ 64 → IsWordCount words →
        ChopFails stored seed words name fault old new →
        file_at new (report_file name) ≡ Some bytes → IsSpelling bytes →
        IsBeforeOrAfterChop stored seed words name old new }
{}

/// Where `verify` says yes, the files hold a composition series of the module, whoever wrote them; and where they hold
/// one, as after `chop`, it says yes.
pub fn verify_finds_a_series()
    ensures yes { (layout : ModuleLayout) (name : List ℕ) (files : Files) (plan : Plan) →
        VerifyPlan layout name files (Ok plan) → FindsSeries layout name files plan }
    ensures held { (layout : ModuleLayout) (m : ModuleValue) (name : List ℕ) (files : Files) →
        HoldsCertificate (files_with layout (length m.generators)) m name files →
        VerifyPlan layout name files (Ok verified_plan) }
    ensures chopped { (layout : ModuleLayout) (count seed words : ℕ) (name : List ℕ) (files : Files) (plan : Plan) →
        HasFileCount (files_with layout count) → seed < 2 ^ 64 → IsWordCount words →
        ChopPlan (files_with layout count) seed words name files (Ok plan) →
        VerifyPlan layout name (applied plan.steps files) (Ok verified_plan) }
{}

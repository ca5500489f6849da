//! Images that are likely to be in a space already.

ghost use Rattle.std.specs.Prelude.{⊤, None};
ghost use Rattle.axe_row.specs.Refusals.{Answers};

use axe_matrix::Refusal;
use std::alloc::Global;

/// The length from which on runs of steps are not told apart.
const LONG_RUN: usize = 5;

/// After how many images in turn that were not new the next one is taken to be none.
const VAIN_IMAGES: usize = 4;

/// How the rows of a space came about that is spun, and what came of like images so far. A generator of small order takes a
/// row back to where it came from after a few steps: of a generator whose square is a scalar no image is new of a row that
/// it gave itself. What is told here is a guess, of which no clause speaks.
#[derive(Drop)]
pub(crate) struct Trail {
    /// For each row the run of steps that led to it.
    runs: Vec<Run>,
    /// For each generator, and each length of a run of its steps, how many of its images after such a run were not new,
    /// since the last one that was.
    vain: Vec<usize>,
}

/// Steps by one generator, one after another: its number, and how many there are.
#[derive(Drop, Clone, Copy)]
struct Run {
    number: usize,
    length: usize,
}

impl Trail {
    /// The trail of a space of `rows` rows which no generator gave, in a module of `gens` generators.
    pub(crate) fn new(alloc: Global, gens: usize, rows: usize) -> Result<Trail, Refusal>
        ensures memory { Answers None (λ _. ⊤) result }
    {
        let none = Run {
            number: gens,
            length: 0,
        };
        let runs = vec![in alloc; none; rows]?;
        let vain = vec![in alloc; 0; gens.saturating_mul(LONG_RUN + 1)]?;
        Ok(Trail { runs, vain })
    }

    /// The generator that gave a row, where its image of that row is not likely to be new.
    #[inline(always)]
    pub(crate) fn unlikely(&self, source: usize) -> Option<usize> {
        if source >= self.runs.len() {
            return None;
        }
        let run = self.runs[source];
        let place = run.place();
        if place >= self.vain.len() || self.vain[place] < VAIN_IMAGES {
            return None;
        }
        Some(run.number)
    }

    /// Notes whether the image of a row under a generator was new, which makes it the next row.
    #[inline(always)]
    pub(crate) fn note(&mut self, source: usize, number: usize, is_new: bool) -> Result<(), Refusal>
        ensures memory { Answers None (λ _. ⊤) result }
    {
        let run = self.run_by(source, number);
        let place = run.place();
        if place < self.vain.len() {
            self.vain[place] = if is_new {
                0
            } else {
                self.vain[place].saturating_add(1)
            };
        }
        if is_new {
            self.runs.push(run.with_step())?;
        }
        Ok(())
    }

    /// The steps by a generator that end at a row.
    #[inline(always)]
    fn run_by(&self, source: usize, number: usize) -> Run {
        if source < self.runs.len() && self.runs[source].number == number {
            return self.runs[source];
        }
        Run { number, length: 0 }
    }
}

impl Run {
    /// Where what came of images after such a run is counted.
    #[inline(always)]
    fn place(self) -> usize {
        let start = self.number.saturating_mul(LONG_RUN + 1);
        start.saturating_add(self.length.min(LONG_RUN))
    }

    /// The run with a step more.
    fn with_step(self) -> Run {
        Run {
            number: self.number,
            length: self.length.saturating_add(1),
        }
    }
}

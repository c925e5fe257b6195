//! The readers of problems and of solutions, as the reading loop uses them.
ghost use Rattle.std.specs.Prelude.{◌≡◌, Ok, Err};
ghost use Rattle.flow_text.specs.Problem.{early, problem};
ghost use Rattle.flow_text.specs.ProblemReading.{Reads};
ghost use Rattle.flow_text.specs.Solution.{early_solution, solution};
ghost use Rattle.flow_text.specs.SolutionReading.{ReadsSolution, IsWithinLimits, written_in};

use crate::running::reading::Reader;
use flow_net::Problem;
use flow_text::{ProblemReader, ReadFault, Solution, SolutionReader};

impl Reader for ProblemReader {
    type Parsed = Problem;

    ghost reads = { λ r _ b. Reads r b };

    ghost early = { λ _ b. early b };

    ghost has_fault = { λ _ b fault. problem b ≡ Err fault };

    ghost accepts = { λ _ b p. problem b ≡ Ok p };

    fn feed(&mut self, piece: &[u8]) -> Result<(), ReadFault> {
        ProblemReader::feed(self, piece)
    }

    fn finish(self) -> Result<Problem, ReadFault> {
        ProblemReader::finish(self)
    }

    ghost quiet = { λ _ _ _ h. h.fine };
}

impl Reader for SolutionReader {
    type Parsed = Solution;

    ghost reads = { λ r n b. ReadsSolution n r b };

    ghost early = { λ n b. early_solution b n };

    ghost has_fault = { λ n b fault. solution b n ≡ Err fault };

    ghost accepts = { λ n b s. (solution b n ≡ Ok (s.value, s.lines.items)) × IsWithinLimits n (written_in s) };

    fn feed(&mut self, piece: &[u8]) -> Result<(), ReadFault> {
        SolutionReader::feed(self, piece)
    }

    fn finish(self) -> Result<Solution, ReadFault> {
        SolutionReader::finish(self)
    }

    ghost quiet = { λ _ _ _ h. h.1 };
}

// With what the program ends.
ghost use Rattle.std.specs.Prelude.{◌≡◌, MatchResult};
ghost use Rattle.std.specs.Process.{exit_status};
ghost use Rattle.board_base.specs.Sink.{AppendsPrefix};
ghost use Rattle.endings.specs.Lines.{line_of};
ghost use Rattle.endings.specs.Numbers.{number_of};

use board_base::Sink;
use mill_top::Status;
use std::alloc::AllocError;
use std::process::ExitCode;

// The line of want of memory, which takes none.
const MEMORY_LINE: &[u8] = b"pcbmill: memory\n";

/// With what the process ends: the number of the status that was answered, or that of want of memory where there was none
/// for the words or the watchers. In that case nothing was put yet, and its line is put here, as far as the sink takes it.
pub fn ending<K: Sink>(answer: Result<Status, AllocError>, out: &mut K) -> ExitCode
    ensures number { MatchResult answer (λ status. exit_status result ≡ number_of status) (λ _. exit_status result ≡ number_of Status.Memory) }
    ensures lines { MatchResult answer (λ _. K.state out.new ≡ K.state out.old) (λ _. AppendsPrefix (line_of Status.Memory) (K.state out.old).text (K.state out.new).text) }
{
    match answer {
        Ok(status) => ExitCode::from(status.number()),
        Err(_) => {
            // The status says what is wrong, whether its line comes through or not.
            let _put = out.put(MEMORY_LINE);
            ExitCode::from(Status::Memory.number())
        }
    }
}

//! How a launch ends.

ghost use Rattle.std.specs.Prelude.{◌≡◌};
ghost use Rattle.jl_launch.specs.Statuses.{status_for};

use jl_config::ResolveFault;
use jl_finder::FindFault;
use jl_words::WordFault;

/// Why a command was refused.
#[derive(Debug, PartialEq, Drop)]
pub enum Refusal {
    Find(FindFault),
    Resolve(ResolveFault),
}

/// How a launch ends.
#[derive(Debug, PartialEq, Drop)]
pub enum LaunchEnd {
    /// The graph was printed.
    Done,
    /// The words were refused.
    Words(WordFault),
    /// The command was refused.
    Refused(Refusal),
    /// The tree failed. Its count of faults rose.
    ReadFault,
    /// The sink failed. Its count of faults rose.
    SinkFault,
    /// There was no memory.
    NoMemory,
}

/// The exit status for an end.
pub fn status_of(end: &LaunchEnd) -> u8
    ensures { result ≡ status_for end.now }
{
    match end {
        LaunchEnd::Done => 0,
        LaunchEnd::Words(_) => 2,
        LaunchEnd::Refused(_) => 3,
        LaunchEnd::ReadFault => 6,
        LaunchEnd::SinkFault => 7,
        LaunchEnd::NoMemory => 9,
    }
}

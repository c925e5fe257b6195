//! What a command line asks for.
ghost use Rattle.std.specs.Prelude.{◌≡◌, codes};
ghost use Rattle.clap.specs.Words.{found_of, rows_of, subcommand_rows_of};
ghost use Rattle.flow.specs.Requests.{is_given, job_for, IsJobOf};

use clap::ArgMatches;
use flow_tools::Job;

/// The files that a command line names; `None` stands for standard input, or for a file that the command doesn't read.
#[derive(Clone, Copy)]
pub struct Files<'a> {
    /// The problem.
    pub problem: Option<&'a str>,
    /// The solution.
    pub solution: Option<&'a str>,
}

/// The job and the files of a command line that was read. `None` where it carries no command. No memory is taken.
pub fn job_of<'a>(m: &ArgMatches<'a>) -> Option<(Job, Files<'a>)>
    ensures { IsJobOf (subcommand_rows_of m.now) result }
{
    match m.subcommand() {
        Some((name, sub)) => match job_named(name, sub) {
            Some(job) => {
                let problem = sub.get_str("problem");
                let solution = sub.get_str("solution");
                Some((job, Files { problem, solution }))
            }
            None => None,
        },
        None => None,
    }
}

/// The job of the command with this name and these flags.
fn job_named(name: &str, m: &ArgMatches<'_>) -> Option<Job>
    ensures { result ≡ job_for name.now (rows_of (found_of m.now)) }
{
    match name {
        "solve" => Some(Job::Solve {
            value_only: is_set(m, "value"),
        }),
        "cut" => Some(Job::Cut {
            arcs: is_set(m, "arcs"),
            sink: is_set(m, "sink"),
        }),
        "connect" => Some(Job::Connect {
            undirected: is_set(m, "undirected"),
            pair: is_set(m, "pair"),
        }),
        "check" => Some(Job::Check {
            feasible_only: is_set(m, "feasible"),
        }),
        _ => None,
    }
}

/// Whether a flag was given.
fn is_set(m: &ArgMatches<'_>, id: &str) -> bool
    ensures { result ≡ is_given id.now (rows_of (found_of m.now)) }
{
    match m.get_str(id) {
        Some(text) => text == "true",
        None => false,
    }
}

//! The commands that the program understands, with the help that it prints for each.

ghost use Rattle.std.specs.Prelude.{◌≡◌, Some};

use clap::{Arg, ArgAction, Command};
use std::alloc::{AllocError, Global};

/// What the help of `flow` ends with.
const ALL_STATUSES: &str =
    "flow COMMAND --help says what a command reads and prints, with an example.
A message doesn't name the file. In a loop over files, print the name as well:
  for f in *.max; do echo \"$f\"; flow solve --value \"$f\"; done
Guide, a page for each task: docs/GUIDE.md. What a message means: docs/MESSAGES.md.

Exit status:
  0  done
  1  check says no: standard output tells why
  2  the command line is refused
  3  an input has a fault; standard error tells its line and what is wrong
  4  a file, a stream or memory failed; standard error tells which";

/// What the help of a command with one input ends with.
const STATUSES: &str =
    "Where no file is named, standard input is read; - names a file like any other.
A message doesn't name the file. In a loop over files, print the name as well:
  for f in *.max; do echo \"$f\"; flow solve --value \"$f\"; done
Guide, a page for each task: docs/GUIDE.md. What a message means: docs/MESSAGES.md.

Exit status:
  0  done
  2  the command line is refused
  3  the problem has a fault; standard error tells its line and what is wrong
  4  a file, a stream or memory failed; standard error tells which";

/// What the help of `check` ends with.
const CHECK_STATUSES: &str =
    "Where no solution is named, standard input is read; - names a file like any other.
A message doesn't name the file. In a loop over files, print the name as well:
  for f in *.max; do echo \"$f\"; flow solve --value \"$f\"; done
Guide, a page for each task: docs/GUIDE.md. What a message means: docs/MESSAGES.md.

Exit status:
  0  the solution is optimal, or feasible where that is asked for
  1  it isn't; standard output tells why
  2  the command line is refused
  3  the problem or the solution has a fault; standard error tells its line and
     what is wrong
  4  a file, a stream or memory failed; standard error tells which";

/// How a problem is written.
const PROBLEM: &str = "The problem, in the DIMACS maximum flow format. Its lines, in this order:
  p max NODES ARCS   the number of nodes, named from 1 on, and of arcs
  n ID s | n ID t    a source, a sink: one or more of each, no node twice
  a SRC DST CAP      an arc: as many of these lines as ARCS says
A line that begins with c is a comment. Limits: 2 to 1000000 nodes, 4000000
arcs, whole capacities up to 18446744073709551615, lines of 200 bytes";

/// How a solution is written.
const SOLUTION: &str = "The solution. Its lines, in this order:
  s VALUE            the value that the flow is said to have
  f SRC DST FLOW     what flows from SRC to DST; lines of one pair add up,
                     and a pair without a line has 0
A line that begins with c is a comment. Limits: whole flows up to
18446744073709551615, 4000000 lines f, lines of 200 bytes";

/// What `solve` does.
const SOLVE: &str = "Reads a maximum flow problem and prints
  s VALUE          the greatest value that a flow has
  f SRC DST FLOW   a flow of that value: a line for each arc, in their order

Example, with the problem on standard input:
  $ printf 'p max 3 2\\nn 1 s\\nn 3 t\\na 1 2 5\\na 2 3 2\\n' | flow solve
  s 2
  f 1 2 2
  f 2 3 2";

/// What `cut` does.
const CUT: &str = "Reads a maximum flow problem and prints
  s VALUE          the least capacity that a cut has
  n NODE           the nodes on the source side of such a cut, rising
Of all minimum cuts it is the one nearest the sources: a node is printed only if
it lies on the source side of every minimum cut. With --sink it is the one
nearest the sinks: a node is printed if it lies on the source side of some
minimum cut. An arc that --arcs prints both with and without --sink is one that
limits the value by itself: a greater capacity of it alone gives a greater value.

Example, with the problem on standard input:
  $ printf 'p max 3 2\\nn 1 s\\nn 3 t\\na 1 2 5\\na 2 3 2\\n' | flow cut --arcs
  s 2
  n 1
  n 2
  a 2 3 2";

/// What `connect` does.
const CONNECT: &str = "Reads a maximum flow problem and prints
  k VALUE          the edge connectivity of its network: the least number of arc
                   lines that leave a set of nodes, neither empty nor all
Parallel arcs count one by one, and self-loops and capacities don't count. With
--undirected each link is given by one arc line, in either direction; given by
two, one each way, it counts twice. Sources and sinks must be there, and matter
with --pair alone.

Example, with the problem on standard input:
  $ printf 'p max 3 3\\nn 1 s\\nn 3 t\\na 1 2 1\\na 2 3 1\\na 3 1 1\\n' | flow connect
  k 1";

/// What `check` does.
const CHECK: &str = "Reads a problem and a solution and prints a verdict, the first that applies:
  over SRC DST FLOW CAP    the flow from SRC to DST passes the capacity
  unbalanced NODE IN OUT   what enters the node isn't what leaves it
  value GIVEN FOUND        the value of the s line isn't that of the flow
  feasible VALUE           with --feasible, in place of the two below
  not-maximal VALUE        a flow of greater value exists
  optimal VALUE            no flow has a greater value

Example, with the problem and the solution in files:
  $ printf 'p max 3 2\\nn 1 s\\nn 3 t\\na 1 2 5\\na 2 3 2\\n' > net.max
  $ printf 's 1\\nf 1 2 1\\nf 2 3 1\\n' > net.sol
  $ flow check net.max net.sol
  not-maximal 1";

/// A file that a command reads, and what the help says of it.
struct FileWords<'a> {
    /// What it is asked for by.
    id: &'a str,
    /// What it is called in the help.
    name: &'a str,
    /// Whether it has to be named.
    is_required: bool,
    /// What it is, in short.
    about: &'a str,
    /// What it is, at length.
    long_about: &'a str,
}

/// A command, and what the help says of it.
struct CommandWords<'a> {
    /// Its name.
    name: &'a str,
    /// What it does, in short.
    about: &'a str,
    /// What it does, at length.
    long_about: &'a str,
    /// What its help ends with.
    statuses: &'a str,
    /// The names of its flags, each with what it does.
    flags: &'a [(&'a str, &'a str)],
    /// The files that it reads, in their order.
    files: &'a [FileWords<'a>],
}

/// The file of a command that reads a problem.
const PROBLEM_FILE: FileWords<'static> = FileWords {
    id: "problem",
    name: "FILE",
    is_required: false,
    about: "The problem; standard input where no file is named",
    long_about: PROBLEM,
};

/// The files of `check`.
const CHECKED_FILES: &[FileWords<'static>] = &[
    FileWords {
        id: "problem",
        name: "PROBLEM",
        is_required: true,
        about: "The problem",
        long_about: PROBLEM,
    },
    FileWords {
        id: "solution",
        name: "SOLUTION",
        is_required: false,
        about: "The solution; standard input where no file is named",
        long_about: SOLUTION,
    },
];

/// The commands, in the order of the help.
const COMMANDS: &[CommandWords<'static>] = &[
    CommandWords {
        name: "solve",
        about: "Print a maximum flow",
        long_about: SOLVE,
        statuses: STATUSES,
        flags: &[("value", "Print the value alone")],
        files: &[PROBLEM_FILE],
    },
    CommandWords {
        name: "cut",
        about: "Print a minimum cut",
        long_about: CUT,
        statuses: STATUSES,
        flags: &[
            (
                "arcs",
                "Print the arcs that leave the source side too, as lines a SRC DST CAP",
            ),
            ("sink", "Print the minimum cut nearest the sinks instead"),
        ],
        files: &[PROBLEM_FILE],
    },
    CommandWords {
        name: "connect",
        about: "Print the edge connectivity",
        long_about: CONNECT,
        statuses: STATUSES,
        flags: &[
            (
                "undirected",
                "Count the arc lines with exactly one end in the set",
            ),
            (
                "pair",
                "Only sets with every source inside and every sink outside",
            ),
        ],
        files: &[PROBLEM_FILE],
    },
    CommandWords {
        name: "check",
        about: "Check a solution of a problem",
        long_about: CHECK,
        statuses: CHECK_STATUSES,
        flags: &[(
            "feasible",
            "Print feasible VALUE and don't ask whether a greater flow exists",
        )],
        files: CHECKED_FILES,
    },
];

/// All commands.
///
/// # Errors
///
/// `AllocError` where memory was refused.
pub fn commands<'a>(alloc: Global) -> Result<Command<'a>, AllocError> {
    let commands = all_commands(alloc)?;
    Command::new(alloc, "flow")
        .version("0.1.0")
        .about("Maximum flows, minimum cuts and edge connectivity of networks in the DIMACS format")
        .after_help(ALL_STATUSES)
        .subcommands(commands)
}

/// The commands that are given after the program's name.
fn all_commands<'a>(alloc: Global) -> Result<Vec<Command<'a>>, AllocError> {
    let mut commands = Vec::new(alloc);
    for words in COMMANDS {
        commands.push(command_of(alloc, words)?)?;
    }
    Ok(commands)
}

/// A command with its help, its flags and its files.
fn command_of<'a>(alloc: Global, words: &CommandWords<'a>) -> Result<Command<'a>, AllocError> {
    let args = args_of(alloc, words)?;
    Command::new(alloc, words.name)
        .about(words.about)
        .long_about(words.long_about)
        .after_help(words.statuses)
        .args(args)
}

/// The flags and the files of a command.
fn args_of<'a>(alloc: Global, words: &CommandWords<'a>) -> Result<Vec<Arg<'a>>, AllocError> {
    let mut args = Vec::new(alloc);
    for &(name, about) in words.flags {
        args.push(flag(alloc, name, about))?;
    }
    for file in words.files {
        args.push(file_named(alloc, file))?;
    }
    Ok(args)
}

/// A flag that is given by its name.
fn flag<'a>(alloc: Global, name: &'a str, help: &'a str) -> Arg<'a>
    ensures id { result.id ≡ name.entry }
    ensures long { result.long ≡ Some name.entry }
    ensures action { result.action ≡ Some ArgAction.SetTrue }
{
    Arg::new(alloc, name)
        .long(name)
        .action(ArgAction::SetTrue)
        .help(help)
}

/// A file that is named.
fn file_named<'a>(alloc: Global, words: &FileWords<'a>) -> Arg<'a>
    ensures id { result.id ≡ words.now.id }
    ensures action { result.action ≡ Some ArgAction.Set }
{
    Arg::new(alloc, words.id)
        .value_name(words.name)
        .action(ArgAction::Set)
        .required(words.is_required)
        .help(words.about)
        .long_help(words.long_about)
}

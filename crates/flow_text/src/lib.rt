//! Reads and writes the texts of the DIMACS maximum flow format.
#![tactic(auto)]

mod faults;
mod laws;
mod limits;
mod line_fields;
mod machine;
mod numbers;
mod output;
mod problem_lines;
mod problem_reader;
mod records;
mod scan;
mod solution_lines;
mod solution_reader;
mod solutions;
mod terminals;
mod usual_lines;
mod verdicts;

pub use faults::{FaultCode, ReadFault};
pub use laws::{
    accepted_problem_is_within, accepted_solution_is_within, early_fault_stays,
    early_solution_fault_stays, lines_are_cut, lines_are_cut_one_way,
};
pub use limits::{GREATEST_LINE_NUMBER, GREATEST_VALUE, LONGEST_LINE, MOST_FLOW_LINES};
pub use line_fields::Fields;
pub use numbers::Number;
pub use output::{
    Line, MOST_LINE_BYTES, arc_line, connect_line, fault_line, flow_line, node_line, push_arc_line,
    push_flow_line, push_node_line, solution_line, verdict_line,
};
pub use problem_reader::ProblemReader;
pub use scan::{fields, number};
pub use solution_reader::SolutionReader;
pub use solutions::{FlowLine, Solution};
pub use verdicts::Verdict;

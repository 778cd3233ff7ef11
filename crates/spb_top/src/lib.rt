//! The whole of the program but for its outermost edge: its run and its statuses. Its words are read below.
#![tactic(auto)]

/// Evaluates an expression with the metric of a space. The expression stands in an arm for each kind of space, so it
/// may call what is generic over metrics.
macro_rules! by_metric {
    ($space:expr, $metric:ident => $work:expr) => {
        match $space {
            Space::L1 { dim, most } => {
                let $metric = L1 { dim, most };
                $work
            }
            Space::LInf { dim, most } => {
                let $metric = LInf { dim, most };
                $work
            }
            Space::Hamming { len } => {
                let $metric = Hamming { len };
                $work
            }
            Space::Sets { universe, most } => {
                let $metric = SetDiff { universe, most };
                $work
            }
        }
    };
}

mod checking;
mod laws;
mod lines;
mod making;
mod memory;
mod serve;
mod serving_file;
mod status;
mod top;
mod trial;
mod turns;

pub use program_words::file_of;
pub use spb_defs::FileUse;
pub use status::{Status, code, status_line};
pub use top::run;

//! The grammar of a service, as what words spell and begin, and its laws.
#![tactic(auto)]

mod class;
mod laws;
mod level;

pub use class::{
    COMPARISON_OPS, Class, EXPR_STARTS, INITIALS, PRODUCT_OPS, STMT_STARTS, SUM_OPS, UNARY_OPS,
};
pub use laws::at_most_one_tree;
pub use level::Level;

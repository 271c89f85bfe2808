// The first record at fault, for each of refusals 2 to 6: a stage covers the whole book.
#![tactic(auto)]

mod naming;
mod stages;

pub use naming::name_fault;
pub use stages::{
    block_group, count, count_fault, cut_fault, in_order, order_fault, range_fault, too_many,
};

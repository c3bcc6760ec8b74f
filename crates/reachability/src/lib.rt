// Of many pairs of vertices at once whether a path of an index's rows leads from the pair's start to its goal. Each pair has a bit, which is spread
// from its start along the rows. What is found is so whatever the order of the rows is; `order_rows` makes one in which nothing is missed.
#![tactic(auto)]

pub mod order;
pub mod pairs;

// What the entries for C are made of beside the work: structs from the numbers that C hands over, and answers written into lent areas,
// each of which stays as it was where a call is refused.
#![tactic(auto)]

pub mod numbers;
pub mod records;
pub mod runs;
pub mod vectors;

// What names and orders are made of: numbers, letters folded, labels, one name under another, an order. The meaning of the
// order book and of the suffix question stands in specs/ too; the crate names reads them.
#![tactic(auto)]

pub mod fold;
pub mod name;
pub mod num;
pub mod order;
pub mod under;
mod walk;

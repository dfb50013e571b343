// The table's bytes as fields by name, and the two kinds of answer that its definitions speak of. What a sound table is and what
// each update writes stands in specs/.
#![tactic(auto)]

pub mod layout;
pub mod mark;
pub mod place;

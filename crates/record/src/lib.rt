// Matrix records and their answers (document 01, 'Matrix, answer and record').
#![tactic(auto)]

pub mod answer;
pub mod cursor;
pub mod read;

// The text of a map, and of a refusal, on an output.
//
// A text is measured by writing it to an output of no bytes. So a call that the output is too short for has touched nothing.
pub mod residues; // residues.rt: whether the numbers of a map are residues
pub mod text; // text.rt: the text of a map that a job holds
pub mod refusal; // refusal.rt: the text of a refusal

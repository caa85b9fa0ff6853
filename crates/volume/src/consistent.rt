// Refusal 14: whether a lent volume is what some cell that obeys its group gives.
pub mod factor_test; // factor_test.rt: of packed factors
pub mod map_test; // map_test.rt: of a map

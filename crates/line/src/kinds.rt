// What a transform of a line is, by direct sums, and what the tables lent to it are; the laws that the transforms of both directions
// share. No run-time code.

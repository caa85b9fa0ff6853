// A run of turns over the lines of a volume, and what all turns of a job come to: the triple sum, and its inverse. No run-time code.

// What FASTQ files are refused for: definitions and laws alone; the functions are in `fastq_faults`, and the scan in `files`.

#![tactic(auto)]

// Small files, and what the check of a file says of each, proved by computation: see specs/Files.antt and proofs/Answered.antt. No code.
#![tactic(auto)]

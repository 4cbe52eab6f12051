#![tactic(auto)]

// The cases that document 01 marks to be proved. There are no functions here: specs/ has the table, proofs/ its one
// statement.

// The cases of the rules that are proved: the table stands in specs/Table.antt, its proof in proofs/Table.antt. A case of crews stands in
// specs/Crews.antt, its proof in proofs/Book.antt. No code.
#![tactic(auto)]

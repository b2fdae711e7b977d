// Writing into a lent buffer, for any element: the definitions stand in specs/. In proofs/ their laws, a rule of a
// table, proof by a test.
#![tactic(auto)]

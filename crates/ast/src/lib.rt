// The tree, its constructors and its checks, and the check of a page: the definitions stand in specs/.
#![tactic(auto)]

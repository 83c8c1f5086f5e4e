// No code: the starred worked examples of docs/RULES.md, X, one table under one theorem about the definitions.
#![tactic(auto)]

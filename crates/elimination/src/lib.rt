// What a plan is, and its laws: the filled pattern is the smallest set, awaited columns come first, the sequence names each column once.
#![tactic(auto)]

// What MD5 in parts means: the cuts do not matter, stated in specs/ on the definitions that the exported functions' promises name, and
// the digests of RFC 1321's own strings. Both are proved in proofs/.
#![tactic(auto)]
